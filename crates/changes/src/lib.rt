// The registers at the start of a listing, and what is printed of those that differ from it at the end.
#![tactic(auto)]

ghost use Rattle.std.specs.Prelude.{◌≡◌, ◌<◌};
ghost use Rattle.record.specs.Registers.{word_count, half_count, count_of, word, reg, files};
ghost use Rattle.rules.specs.Shape.{file_text};
ghost use Rattle.text.specs.Out.{Writes};
ghost use Rattle.changes.specs.Changes.{start_value, start_files, digits_of, value_text, change_text, file_changes};
ghost use Rattle.changes.specs.Registers.{answer_of, print_outcome, printing};

use record::File;
use registers::Files;
use std::array;
use text::Out;

// As many bytes as the texts of all registers have at most.
const REGISTERS_ROOM: usize = 3312;

const LINE_FEED: u8 = 10;

// The lengths of the files.
const WORDS: usize = record::WORDS as usize;

const HALVES: usize = record::HALVES as usize;

const DOUBLES: usize = record::DOUBLES as usize;

const PREDS: usize = record::PREDS as usize;

// At the start word N is N times this.
const ONES: u32 = 0x0101_0101;

fn start_word(n: usize) -> u32
    requires { n < word_count }
    ensures { result ≡ start_value (word n) }
{
    n as u32 * ONES
}

// The registers as they are at the start of a listing.
pub fn start_words() -> [u32; WORDS]
    ensures { result ≡ start_files.words }
{
    array::from_fn(start_word)
}

pub fn start_halves() -> [u16; HALVES]
    ensures { result ≡ start_files.halves }
{
    array::from_fn(
        |k|
            requires { k < half_count }
            ensures { result ≡ k }
        { k as u16 },
    )
}

pub fn start_doubles() -> [u64; DOUBLES]
    ensures { result ≡ start_files.doubles }
{
    array::from_fn(
        |k|
            ensures { result ≡ k }
        { k as u64 },
    )
}

// Not one with the other three, which is no plainer: type, length and value differ, and they share array::from_fn.
pub fn start_preds() -> [u8; PREDS]
    ensures { result ≡ start_files.preds }
{
    [0u8; PREDS]
}

// A number for each file, as `digits_of` has it: no step is chosen.
fn digits(file: File) -> u8
    ensures { result ≡ digits_of file }
{
    match file {
        File::Words => 8,
        File::Halves => 4,
        File::Doubles => 16,
        File::Preds => 1,
    }
}

fn start_value(file: File, k: u16) -> u64
    requires { k < count_of file }
    ensures { result ≡ start_value (reg file k) }
{
    match file {
        File::Words => start_word(k as usize) as u64,
        File::Halves | File::Doubles => k as u64,
        File::Preds => 0,
    }
}

fn put_prefix(out: &mut Out, file: File)
    ensures { Writes out.old (file_text file) out.new }
{
    match file {
        File::Words => out.put(b"%r"),
        File::Halves => out.put(b"%rs"),
        File::Doubles => out.put(b"%rd"),
        File::Preds => out.put(b"%p"),
    }
}

fn put_value(out: &mut Out, file: File, k: u16, x: u64)
    requires { k < 100 }
    ensures { Writes out.old (value_text (reg file k) x) out.new }
{
    put_prefix(out, file);
    out.put_decimal(k as u64);
    out.push(b' ');
    out.put_hex(x, digits(file));
    out.push(LINE_FEED);
}

fn put_change(out: &mut Out, file: File, k: u16, x: u64)
    requires { k < count_of file }
    ensures { Writes out.old (change_text (reg file k) x) out.new }
{
    if x != start_value(file, k) {
        put_value(out, file, k, x);
    }
}

fn put_file(out: &mut Out, file: File, files: &Files)
    ensures { Writes out.old (file_changes file files.now) out.new }
{
    for k in 0..file.size() {
        put_change(out, file, k, files.value(file, k));
    }
}

// The registers whose value differs from the start, and how many bytes their texts have; nothing where the lent buffer is too short.
pub fn registers(
    words: &[u32],
    halves: &[u16],
    doubles: &[u64],
    preds: &[u8],
    out: &mut [u8],
) -> Option<usize>
    ensures { print_outcome (answer_of result) out.new ≡ printing (files words.now halves.now doubles.now preds.now) out.old }
{
    if out.len() < REGISTERS_ROOM {
        return None;
    }
    let files = Files {
        words,
        halves,
        doubles,
        preds,
    };
    let mut print = Out::new(out);
    put_file(&mut print, File::Words, &files);
    put_file(&mut print, File::Halves, &files);
    put_file(&mut print, File::Doubles, &files);
    put_file(&mut print, File::Preds, &files);
    Some(print.place())
}
