// What the tally program makes of its input: a line of it as a read, the answer's text, and the tags at the end.
#![tactic(auto)]

ghost use Rattle.std.specs.Prelude.{◌≡◌, ◌+◌, ◌*◌, ◌%◌, ◌<◌, ◌≤◌, ◌++◌, length};
ghost use Rattle.signs.specs.Digits.{decimal};
ghost use Rattle.rules.specs.Numbers.{word_size};
ghost use Rattle.text.specs.Buffer.{buffer, Puts};
ghost use Rattle.lines.specs.Lines.{listing_limit};
ghost use Rattle.tally.specs.Lent as lent;
ghost use Rattle.passlog.specs.Log.{SaysFloor, read_text, SaysRead, answer_text, washed_text, entry_text};
ghost use Rattle.passlog.specs.Spelling.{digit_of, number_of, word_at, rest_of, guess_of};
ghost use Rattle.passlog.specs.Steps.{two_text, line_of, floor_said, line_room, PutsAnswer, PutsLine, Logs, entry_room, answer_of, end_outcome, ending};

use refusals::Refusal;
use tally::{Entry, Passed, Read, Tally};

// At most so many bytes of input.
const LIMIT: usize = 65536;

// As many bytes as the text of a line has at most.
const LINE_ROOM: usize = 32;

// Room for the text of any end.
const END_ROOM: usize = 1056;

// Room for the text of any read.
const READ_ROOM: usize = 39;

const LINE_FEED: u8 = 10;

const SPACE: u8 = 32;

const DECIMAL: u8 = 10;

const HEXADECIMAL: u8 = 16;

// How many hexadecimal digits a word and a floor have, and how many floors there are.
const WORD_DIGITS: u8 = 8;

const FLOOR_DIGITS: u8 = 2;

const FLOORS: u32 = 256;

const FLOOR_ROOM: usize = 2;

const WASHED: u8 = 3;

// How far the input is logged: the place and the number of the next line, how many bytes of the lent buffer were used, and the tally.
// The buffer is the caller's; the clause of log_line is of the fields (`Logs`). Not one with report's: see there.
#[derive(Clone, Copy)]
pub struct Progress {
    pub at: usize,
    pub number: u64,
    pub len: usize,
    pub tally: Tally,
}

// Why the end has no text: the lent buffer is too short, or a refusal.
#[derive(Clone, Copy)]
pub enum EndError {
    NoRoom,
    Refused(Refusal),
}

// A text put into the lent buffer, up to a place, and the tally then.
#[derive(Clone, Copy)]
struct Put {
    next: usize,
    tally: Tally,
}

// ---- texts read

// What stands before the first space.
fn word(s: &[u8]) -> &[u8]
    ensures { result.now ≡ word_at s.now }
{
    let n = lines::until(s, 0, SPACE);
    &s[..n]
}

// What stands behind it.
fn rest(s: &[u8]) -> &[u8]
    ensures { result.now ≡ rest_of s.now }
{
    let n = lines::until(s, 0, SPACE);
    scan::rest(s, n + 1)
}

// What a digit stands for; any other byte stands for something too.
fn digit(b: u8) -> u8
    ensures { result ≡ digit_of b }
{
    match b {
        0..b'0' => 0,
        b'0'..b'A' => b - b'0',
        _ => b - b'A' + 10,
    }
}

// A number with one digit more, modulo 2^32.
fn with_digit(v: u32, base: u8, b: u8) -> u32
    ensures { result ≡ (v * base + digit_of b) % word_size }
{
    v.wrapping_mul(u32::from(base))
        .wrapping_add(u32::from(digit(b)))
}

// All of a text's bytes as digits.
fn number(s: &[u8], base: u8) -> u32
    ensures { result ≡ number_of base s.now }
{
    s.iter().fold(0, |v, b| with_digit(v, base, *b))
}

// What a line would say if it were a read.
fn guess(line: &[u8]) -> Read
    ensures { result ≡ guess_of line.now }
{
    Read {
        tag: number(word(line), DECIMAL),
        pass: number(word(rest(line)), DECIMAL),
        first: number(word(rest(rest(line))), HEXADECIMAL),
        second: number(word(rest(rest(rest(line)))), HEXADECIMAL),
    }
}

// Two numbers, each with a space behind it: what a read and an entry begin with.
fn put_two(out: &mut [u8], at: usize, a: u32, b: u32) -> usize
    ensures { Puts (buffer out.old at) (two_text a b) (buffer out.new result) }
{
    let at1 = text::put_decimal(out, at, a as u64);
    let at2 = text::push(out, at1, SPACE);
    let at3 = text::put_decimal(out, at2, b as u64);
    text::push(out, at3, SPACE)
}

fn put_read(out: &mut [u8], at: usize, r: Read) -> usize
    ensures { Puts (buffer out.old at) (read_text r) (buffer out.new result) }
{
    let at1 = put_two(out, at, r.tag, r.pass);
    let at2 = text::put_hex(out, at1, r.first as u64, WORD_DIGITS);
    let at3 = text::push(out, at2, SPACE);
    text::put_hex(out, at3, r.second as u64, WORD_DIGITS)
}

// A line is a read where it is the text of the read that it would be.
pub fn read_of(line: &[u8]) -> Option<Read>
    ensures { SaysRead line.now (line_of result) }
{
    let r = guess(line);
    let mut room = [0u8; READ_ROOM];
    let n = put_read(&mut room, 0, r);
    if text::same(&room[..n], line) {
        return Some(r);
    }
    None
}

// A word is a floor where it is the text of the floor that it would be.
pub fn floor_of(word: &[u8]) -> Option<u8>
    ensures { SaysFloor word.now (floor_said result) }
{
    let f = (number(word, HEXADECIMAL) % FLOORS) as u8;
    let mut room = [0u8; FLOOR_ROOM];
    let n = text::put_hex(&mut room, 0, f as u64, FLOOR_DIGITS);
    if text::same(&room[..n], word) {
        return Some(f);
    }
    None
}

// ---- one line

// Words, and a number behind them.
fn put_numbered(out: &mut [u8], at: usize, words: &[u8], n: u64) -> usize
    ensures { Puts (buffer out.old at) (words.now ++ decimal n) (buffer out.new result) }
{
    let next = text::put(out, at, words);
    text::put_decimal(out, next, n)
}

fn put_answer(out: &mut [u8], at: usize, a: Result<Passed, Refusal>) -> usize
    ensures { Puts (buffer out.old at) (answer_text (lent.answer_of a)) (buffer out.new result) }
{
    match a {
        Ok(Passed::Counted(c)) => put_numbered(out, at, b"counted ", c as u64),
        Ok(Passed::Duplicate) => text::put(out, at, b"duplicate"),
        Ok(Passed::Weak(v)) => put_numbered(out, at, b"weak ", v as u64),
        Err(refusal) => put_numbered(out, at, b"refused ", refusal.number() as u64),
    }
}

// Reads the line and, where it is a read, lends the tally for it.
fn put_said(out: &mut [u8], at: usize, floor: u8, t: Tally, line: &[u8]) -> Put
    ensures { PutsAnswer floor t line.now result.tally (buffer out.old at) (buffer out.new result.next) }
{
    match read_of(line) {
        Some(r) => {
            let x = tally::lend(t, r, floor);
            let a = x.answer;
            let after = x.tally;
            Put {
                next: put_answer(out, at, a),
                tally: after,
            }
        }
        None => Put {
            next: text::put(out, at, b"not a read"),
            tally: t,
        },
    }
}

// The text of line number `number`: its number, what it is answered, a line feed.
fn put_line(out: &mut [u8], floor: u8, number: u64, t: Tally, line: &[u8]) -> Put
    ensures { PutsLine floor number t line.now result.tally (buffer out.old 0) (buffer out.new result.next) }
{
    let at1 = text::put_decimal(out, 0, number);
    let at2 = text::push(out, at1, SPACE);
    let p = put_said(out, at2, floor, t, line);
    let after = p.tally;
    Put {
        next: text::push(out, p.next, LINE_FEED),
        tally: after,
    }
}

// The line that begins at a place, where there is one, and room for its text.
fn log_one(floor: u8, input: &[u8], from: usize, number: u64, t: Tally, out: &mut [u8]) -> Progress
    requires { (from < length input.now) × (line_room ≤ length out.old) × (length input.now ≤ listing_limit) }
    ensures { Logs floor input.now from number t out.old result.at result.number result.len result.tally out.new }
{
    let end = lines::until(input, from, LINE_FEED);
    let p = put_line(out, floor, number, t, &input[from..end]);
    let after = p.tally;
    Progress {
        at: end + 1,
        number: number.wrapping_add(1),
        len: p.next,
        tally: after,
    }
}

// The line that begins at a place, with its number, on a tally.
pub fn log_line(
    floor: u8,
    input: &[u8],
    from: usize,
    number: u64,
    t: Tally,
    out: &mut [u8],
) -> Progress
    ensures { Logs floor input.now from number t out.old result.at result.number result.len result.tally out.new }
{
    let nothing = Progress {
        at: from,
        number,
        len: 0,
        tally: t,
    };
    if input.len() <= from {
        return nothing;
    }
    if out.len() < LINE_ROOM {
        return nothing;
    }
    if LIMIT < input.len() {
        return Progress {
            at: input.len(),
            number,
            len: text::put(out, 0, b"input too long\n"),
            tally: t,
        };
    }
    log_one(floor, input, from, number, t, out)
}

// ---- the end

fn put_washed(out: &mut [u8], at: usize, count: u8) -> usize
    ensures { Puts (buffer out.old at) (washed_text count) (buffer out.new result) }
{
    if count == WASHED {
        return text::put(out, at, b" washed");
    }
    at
}

fn put_entry(out: &mut [u8], at: usize, e: Entry) -> usize
    ensures { Puts (buffer out.old at) (entry_text e) (buffer out.new result) × (length (entry_text e) ≤ entry_room) }
{
    let at1 = put_two(out, at, e.tag, e.last);
    let at2 = text::put_decimal(out, at1, e.count as u64);
    let at3 = put_washed(out, at2, e.count);
    text::push(out, at3, LINE_FEED)
}

// The tags that the tally holds.
pub fn end(t: Tally, out: &mut [u8]) -> Result<usize, EndError>
    ensures { end_outcome (answer_of result) out.new ≡ ending t out.old }
{
    if !tally::is_tally(t) {
        return Err(EndError::Refused(Refusal::NotTally));
    }
    if out.len() < END_ROOM {
        return Err(EndError::NoRoom);
    }
    let mut used = 0;
    for e in &t.entries[..t.len] {
        used = put_entry(out, used, *e);
    }
    Ok(used)
}
