// Prints what `legal`, `write` and `execute` say of records and runs that standard input spells: second/SAMPLES.md says
// how, and what is answered.
#![tactic(auto)]

ghost use Rattle.std.specs.Prelude.{◌≤◌};

mod input;
mod records;
mod runs;
mod writing;

use std::io::{Write, writer};

// More than any data has: an input that fills it may be longer.
const INPUT: usize = 1048576;

// A line `V` has so many values at most.
const VALUES: usize = 32;

// The values of a line `V`; how many. What is too many begins again at the front.
fn read_values(line: &[u8], values: &mut [u64; VALUES]) -> usize
    ensures { result ≤ VALUES }
{
    let mut count = 0;
    for token in input::tokens(line) {
        values[count % VALUES] = input::number(token);
        count = count % VALUES + 1;
    }
    count
}

fn answer_lines(out: &mut impl Write, s: &[u8]) {
    // Before the first line `R` all numbers are 0.
    let mut record = records::record_of(b"");
    // An array and a count: there is no heap.
    let mut values = [0u64; VALUES];
    let mut count = 0;
    for line in input::lines(s) {
        match line {
            [b'R', ..] => {
                record = records::record_of(line);
                writing::answer_record(out, record);
            }
            [b'V', ..] => count = read_values(line, &mut values),
            [b'X', ..] => runs::answer_runs(out, line, record, &values[..count]),
            _ => {}
        }
    }
}

fn answer_data(rt: &(impl Input + Print), data: &mut [u8]) {
    let n = streams::read_full(&mut rt.reader(), data);
    let mut out = writer(rt);
    if n < data.len() {
        answer_lines(&mut out, &data[..n]);
    } else {
        streams::write_all(&mut out, b"input too long\n");
    }
}

// By an array, not a slice: its length is then known without counting a million bytes in the proof.
fn answer_input(rt: &(impl Input + Print), data: &mut [u8; INPUT]) {
    answer_data(rt, data);
}

fn main(rt: HostRuntime) {
    let mut data = [0u8; INPUT];
    answer_input(&rt, &mut data);
}
