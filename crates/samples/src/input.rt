// Lines, tokens and numbers of the data.
ghost use Rattle.std.specs.Prelude.{◌-◌, ◌≤◌, length};
ghost use Rattle.std.specs.Iterator.{at_most};

// The parts of a text that a byte ends, and what stands behind the last of these, if anything does: std's `split`
// would give an empty part there too.
#[derive(Clone, Copy)]
pub(crate) struct Parts<'a> {
    text: &'a [u8],
    at: usize,
    end: u8,
}

// Where the byte next stands from a place on, or where the text ends.
// Not `position` of the text that is left, by which empty lines take twice the time.
fn until(text: &[u8], start: usize, end: u8) -> usize
    requires { start ≤ length text.now }
    ensures { (start ≤ result) × (result ≤ length text.now) }
{
    for k in start..text.len() {
        if text[k] == end {
            return k;
        }
    }
    text.len()
}

impl<'a> Iterator for Parts<'a> {
    type Item = &'a [u8];

    ghost remaining = { λ s. at_most (length s.text.now - s.at) };

    fn next(&mut self) -> Option<&'a [u8]> {
        let text = self.text;
        let start = self.at;
        if text.len() <= start {
            return None;
        }
        let n = until(text, start, self.end);
        self.at = n + 1;
        Some(&text[start..n])
    }
}

pub(crate) fn lines(s: &[u8]) -> Parts<'_> {
    Parts {
        text: s,
        at: 0,
        end: b'\n',
    }
}

// What stands behind a line's letter.
pub(crate) fn tokens(line: &[u8]) -> Parts<'_> {
    Parts {
        text: line,
        at: 2,
        end: b' ',
    }
}

// What 64 bits have no room for is lost.
// Not one with passlog's, of 32 bits and any base, which is no plainer: a law of the width for one line.
fn with_digit(x: u64, b: u8) -> u64 {
    let digit = (b % 16 + b / 64 * 9) % 16;
    x << 4 | digit as u64
}

// A hexadecimal number.
pub(crate) fn number(digits: &[u8]) -> u64 {
    digits.iter().fold(0, |x, b| with_digit(x, *b))
}

// What the three digits of a number are in decimal.
pub(crate) fn decimal(x: u64) -> u16 {
    (x / 256 % 16 * 100 + x / 16 % 16 * 10 + x % 16) as u16
}
