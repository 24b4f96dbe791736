// The answer to a line `X`: the record is executed on the files that its tokens set up, for each value of an open
// register.
use crate::input::{decimal, number, tokens};
use execute::Executed;
use record::{Record, Target};
use refusals::Refusal;
use std::array::from_fn;
use std::io::Write;

// The files have a place more than usual.
const WORDS: usize = 65;

const HALVES: usize = 33;

const DOUBLES: usize = 33;

const PREDS: usize = 17;

// The files, how many places of each are lent, the target, and how many registers are open. Arrays and counts: there is
// no heap.
#[derive(Clone, Copy)]
struct Setup {
    words: [u32; WORDS],
    halves: [u16; HALVES],
    doubles: [u64; DOUBLES],
    preds: [u8; PREDS],
    word_count: usize,
    half_count: usize,
    double_count: usize,
    pred_count: usize,
    target: Target,
    open: usize,
}

// ---- the files before

fn start() -> Setup {
    Setup {
        words: from_fn(|k| k as u32 * 0x01010101),
        halves: from_fn(|k| k as u16),
        doubles: from_fn(|k| k as u64),
        preds: [0; PREDS],
        word_count: WORDS - 1,
        half_count: HALVES - 1,
        double_count: DOUBLES - 1,
        pred_count: PREDS - 1,
        target: Target::Sm30,
        open: 0,
    }
}

// Numbers of the data (second/SAMPLES.md), any of which has a target. Not `From`: Target is of another crate.
fn target_numbered(n: usize) -> Target {
    match n {
        10 => Target::Sm10,
        13 => Target::Sm13,
        20 => Target::Sm20,
        _ => Target::Sm30,
    }
}

impl Setup {
    // A small letter is a place, a capital the number of places or of the target.
    fn put(&mut self, letter: u8, n: usize, value: u64) {
        match letter {
            b'r' => self.words[n % WORDS] = (value % (1 << 32)) as u32,
            b'h' => self.halves[n % HALVES] = (value % (1 << 16)) as u16,
            b'd' => self.doubles[n % DOUBLES] = value,
            b'p' => self.preds[n % PREDS] = (value % (1 << 8)) as u8,
            b'R' => self.word_count = n,
            b'H' => self.half_count = n,
            b'D' => self.double_count = n,
            b'T' => self.target = target_numbered(n),
            _ => self.pred_count = n,
        }
    }

    // The value of a small letter's place that is open: the first value, or the second if one was open before. Of a
    // capital the value has no say.
    fn next_open(&mut self, letter: u8, first: u64, second: u64) -> u64 {
        let value = if self.open == 0 { first } else { second };
        self.open = self.open % 2 + usize::from(letter / 96);
        value
    }

    // A letter and a number, and behind `=` a value; without one the place is open.
    fn put_token(&mut self, token: &[u8], first: u64, second: u64) {
        let equals = token.iter().position(|b| *b == b'=');
        let name = &token[..equals.unwrap_or(token.len())];
        let letter = name.first().copied().unwrap_or(0);
        let n = decimal(number(name.get(1..).unwrap_or(&[])));
        let value = match equals {
            Some(k) => number(&token[k + 1..]),
            None => self.next_open(letter, first, second),
        };
        self.put(letter, n as usize, value);
    }
}

fn set_up(line: &[u8], first: u64, second: u64) -> Setup {
    let mut setup = start();
    for token in tokens(line) {
        setup.put_token(token, first, second);
    }
    setup
}

// ---- what a run changes

fn print_hex(out: &mut impl Write, x: u64, digits: u8) {
    let mut text = [0u8; 16];
    let end = text::put_hex(&mut text, 0, x, digits);
    streams::write_first(out, &text, end);
}

fn print_changes<T: Copy + PartialEq + Into<u64>>(
    out: &mut impl Write,
    letter: char,
    before: &[T],
    after: &[T],
    digits: u8,
) {
    for (n, (old, new)) in before.iter().zip(after).enumerate() {
        if old != new {
            let _ = write!(out, "{letter}{n}=");
            print_hex(out, (*new).into(), digits);
        }
    }
}

// ---- runs

fn print_executed(out: &mut impl Write, answer: Result<Executed, Refusal>) {
    let _ = match answer {
        Ok(Executed::Done) => write!(out, "+"),
        Ok(Executed::Skipped) => write!(out, "~"),
        Err(refusal) => write!(out, "-{}", refusal.number()),
    };
}

fn answer_run(out: &mut impl Write, record: Record, before: &Setup) {
    let mut words = before.words;
    let mut halves = before.halves;
    let mut doubles = before.doubles;
    let mut preds = before.preds;
    let answer = execute::execute(
        before.target,
        record,
        &mut words[..before.word_count % (WORDS + 1)],
        &mut halves[..before.half_count % (HALVES + 1)],
        &mut doubles[..before.double_count % (DOUBLES + 1)],
        &mut preds[..before.pred_count % (PREDS + 1)],
    );
    print_executed(out, answer);
    print_changes(out, 'r', &before.words, &words, 8);
    print_changes(out, 'h', &before.halves, &halves, 4);
    print_changes(out, 'd', &before.doubles, &doubles, 16);
    print_changes(out, 'p', &before.preds, &preds, 1);
}

// An open register goes through the values; where none is open, there is one run.
pub(crate) fn answer_runs(out: &mut impl Write, line: &[u8], record: Record, values: &[u64]) {
    let open = set_up(line, 0, 0).open;
    let once = [values.first().copied().unwrap_or(0)];
    let rows = if open < 2 { &once[..] } else { values };
    let columns = if open == 0 { &once[..] } else { values };
    for row in rows {
        for (k, column) in columns.iter().enumerate() {
            // With two open registers the first goes by rows.
            let first = if open == 2 { *row } else { *column };
            answer_run(out, record, &set_up(line, first, *column));
            let behind = if k + 1 < columns.len() { b" " } else { b"\n" };
            streams::write_all(out, behind);
        }
    }
}
