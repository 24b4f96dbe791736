// What executing and printing share of registers: one of a lent file, 0 past its end; the four files to be read;
// how many lanes a word has; the low 32 or 16 bits; a bit as a number.
#![tactic(auto)]

ghost use Rattle.std.specs.Prelude.{◌≡◌, ◌%◌, ◌≤◌, get_or};
ghost use Rattle.record.specs.Registers.{reg};
ghost use Rattle.record.specs.Registers as held;
ghost use Rattle.rules.specs.Numbers.{bit, lanes, word_size, half_size};
ghost use Rattle.rules.specs.Executing.{operand_of};

use record::{Double, File, Half, LaneWidth, Numbered, Operand, Pred, Word};
use std::marker::Model;

// How many values a word has.
pub const WORD_SIZE: u64 = 4294967296;

// How many values a half has.
pub const HALF_SIZE: u64 = 65536;

// One of a lent file, 0 past its end.
pub fn at<R: Numbered>(file: &[R::Value], x: R) -> R::Value
    ensures { result ≡ get_or file.now (R.number x) R.ZERO }
{
    file.get(x.number() as usize).copied().unwrap_or(R::ZERO)
}

// The four lent files, to be read.
#[derive(Drop)]
pub struct Files<'a> {
    pub words: &'a [u32],
    pub halves: &'a [u16],
    pub doubles: &'a [u64],
    pub preds: &'a [u8],
}

impl<'a> Model for Files<'a> {
    ghost Value = { held.Files };

    ghost view = { λ s. held.files s.words.now s.halves.now s.doubles.now s.preds.now };
}

impl Files<'_> {
    // One of a file, by its number there.
    pub fn value(&self, file: File, number: u16) -> u64
        ensures { result ≡ held.at self.now (reg file number) }
    {
        match file {
            File::Words => at(self.words, Word(number)) as u64,
            File::Halves => at(self.halves, Half(number)) as u64,
            File::Doubles => at(self.doubles, Double(number)),
            File::Preds => at(self.preds, Pred(number)) as u64,
        }
    }

    pub fn operand(&self, o: Operand) -> u64
        ensures { result ≡ operand_of self.now o }
    {
        match o {
            Operand::Word(w) => at(self.words, w) as u64,
            Operand::Half(h) => at(self.halves, h) as u64,
            Operand::Double(d) => at(self.doubles, d),
        }
    }
}

// How many lanes a word has.
pub fn lane_count(w: LaneWidth) -> u8
    ensures { result ≡ lanes w }
{
    match w {
        LaneWidth::Half => 2,
        LaneWidth::Byte => 4,
    }
}

// Not one with low_half, which is no plainer: it takes a trait for the size, its law and the cast, for one line each.
pub fn low_word(x: u64) -> u32
    ensures { result ≡ x % word_size }
{
    (x % WORD_SIZE) as u32
}

pub fn low_half(x: u64) -> u16
    ensures { result ≡ x % half_size }
{
    (x % HALF_SIZE) as u16
}

// The bound is for callers that add bits.
pub fn bit_of(t: bool) -> u32
    ensures { (result ≡ bit t) × (result ≤ 1) }
{
    u32::from(t)
}
