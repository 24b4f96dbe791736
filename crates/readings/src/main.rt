// Reads the corpus on standard input, an answer, a tab and a line to each text line, and prints the entries whose
// answer is not the reader's own, with that, and how many entries there were. A byte of a line may be written as \xHH.
// An answer may have a target and a space in front; without one it is that of sm_30. In front of all that, `strict` and
// a space ask for strict reading.
#![tactic(auto)]

ghost use Rattle.std.specs.Prelude.{◌<◌};

use read::Refused;
use record::{Mode, Record, Target};
use std::io::Write;

// More than the corpus has.
const INPUT: usize = 131072;

// More than a line of the corpus has.
const LINE: usize = 512;

// Room for a standard line, which has at most 77 bytes, and with `ok ` before it.
const STANDARD: usize = 80;

const ANSWER: usize = 83;

// A target's name has so many bytes.
const NAME: usize = 5;

// The first n bytes, or all where there are fewer.
fn first(s: &[u8], n: usize) -> &[u8] {
    s.get(..n).unwrap_or(s)
}

// ---- decoding

fn hex(b: u8) -> u8
    ensures { result < 16 }
{
    let digit = b % 16;
    if b < b'A' { digit } else { (digit + 9) % 16 }
}

// The byte of which xHH stands at the front.
fn escaped(s: &[u8]) -> u8 {
    hex(scan::byte(s, 1)) * 16 + hex(scan::byte(s, 2))
}

// The bytes of a line into out; how many.
fn decode(s: &[u8], out: &mut [u8]) -> usize {
    let mut n = 0;
    let mut left = s;
    while let [sign, behind @ ..] = left {
        if *sign == b'\\' {
            n = text::push(out, n, escaped(behind));
            left = scan::rest(behind, 3);
        } else {
            n = text::push(out, n, *sign);
            left = behind;
        }
    }
    n
}

// ---- the reader's answer

// `ok ` and the standard line.
fn put_record(r: Record, out: &mut [u8]) -> usize {
    let mut line = [0u8; STANDARD];
    match write::write(r, &mut line) {
        Ok(n) => {
            let at = text::put(out, 0, b"ok ");
            text::put(out, at, first(&line, n))
        }
        Err(_) => 0,
    }
}

// The number of the refusal, and, if it carries a place, a space and the place.
fn put_refused(refused: Refused, out: &mut [u8]) -> usize {
    let at = text::put_decimal(out, 0, refused.refusal.number() as u64);
    match refused.place {
        Some(place) => {
            let at = text::push(out, at, b' ');
            text::put_decimal(out, at, place as u64)
        }
        None => at,
    }
}

fn put_answer(target: Target, mode: Mode, line: &[u8], out: &mut [u8]) -> usize {
    match read::read(target, mode, line) {
        Ok(r) => put_record(r, out),
        Err(refused) => put_refused(refused, out),
    }
}

// ---- the corpus

// How the line is read, the answer that is wanted, and the line as it is written.
#[derive(Clone, Copy)]
struct Entry<'a> {
    target: Target,
    mode: Mode,
    wanted: &'a [u8],
    written: &'a [u8],
}

// A line with no tab is no entry.
fn entry_of(line: &[u8]) -> Option<Entry<'_>> {
    let tab = line.iter().position(|b| *b == b'\t')?;
    let answer = &line[..tab];
    let (mode, answer) = match answer.strip_prefix(b"strict ") {
        Some(behind) => (Mode::Strict, behind),
        None => (Mode::Ordinary, answer),
    };
    let (target, wanted) = match targets::target_of(first(answer, NAME)) {
        Some(target) => (target, answer.get(NAME + 1..).unwrap_or(answer)),
        None => (Target::Sm30, answer),
    };
    Some(Entry {
        target,
        mode,
        wanted,
        written: &line[tab + 1..],
    })
}

fn judge(out: &mut impl Write, line: &[u8], wanted: &[u8], got: &[u8]) {
    if wanted != got {
        streams::write_all(out, line);
        streams::write_all(out, b"\n  the reader: ");
        streams::write_all(out, got);
        streams::write_all(out, b"\n");
    }
}

fn try_line(out: &mut impl Write, line: &[u8]) {
    if let Some(entry) = entry_of(line) {
        let mut decoded = [0u8; LINE];
        let n = decode(entry.written, &mut decoded);
        let mut answer = [0u8; ANSWER];
        let m = put_answer(entry.target, entry.mode, first(&decoded, n), &mut answer);
        judge(out, line, entry.wanted, first(&answer, m));
    }
}

// How many lines there are.
fn try_lines(out: &mut impl Write, s: &[u8]) -> u64 {
    let mut count = 0u64;
    // Where the line begins. Not `split_inclusive`, by which empty lines take twice the time.
    let mut start = 0;
    for (k, b) in s.iter().enumerate() {
        if *b == b'\n' {
            // An empty line is no entry.
            if start < k {
                try_line(out, &s[start..k]);
            }
            start = k + 1;
            // `+= 1` was tried, and that it fits did not prove: in a generic function no invariant can name the
            // turns left.
            count = count.wrapping_add(1);
        }
    }
    // What the last line feed ends is not followed by a line more.
    if start < s.len() {
        try_line(out, &s[start..]);
        count = count.wrapping_add(1);
    }
    count
}

fn main(rt: HostRuntime) {
    let mut input = [0u8; INPUT];
    let n = streams::read_full(&mut rt.reader(), &mut input);
    let count = try_lines(&mut std::io::writer(&rt), &input[..n]);
    let _ = println!(rt; "{count} lines tried");
}
