// What the reader keeps of a line that has the shape: its guard, the names of its head, its operands.
#![tactic(auto)]

use record::{Double, Half, Pred, Word};

// `%r`, `%rs`, `%rd` or `%p` and a number.
#[derive(Clone, Copy)]
pub enum Place {
    Word(Word),
    Half(Half),
    Double(Double),
    Pred(Pred),
}

// A place of a pair: a register or `_`.
// Not Option: `_` is written, not missing, and `Spot` of rules/specs/Shape has the same two cases.
#[derive(Clone, Copy)]
pub enum Spot {
    At(Place),
    Nothing,
}

// An operand; a name is kept as its number.
#[derive(Clone, Copy)]
pub enum Tree {
    Inverted(Place),
    Pair(Spot, Spot),
    Bare(Place),
    Part(Place, u64),
}

#[derive(Clone, Copy)]
pub struct Slot {
    pub tree: Tree,
}

// How many operands the line has, and the first five.
// No heap; n counts those that are not kept, too. One type with Head would be no plainer: they share two fields only.
#[derive(Clone, Copy)]
pub struct Operands {
    pub n: usize,
    pub at: [Slot; 5],
}

// How many names the head has, and the first eight, as numbers.
// The same holds of n and of one type here. Why names are numbers: base::RADIX.
#[derive(Clone, Copy)]
pub struct Head {
    pub n: usize,
    pub at: [u64; 8],
}

// Not Option: `guard_in` and `guard_good` (specs/Mirror of read and places) go by the two names.
#[derive(Clone, Copy)]
pub enum Guarding {
    Unguarded,
    Guarded(bool, Place),
}

#[derive(Clone, Copy)]
pub struct Parts {
    pub guard: Guarding,
    pub head: Head,
    pub operands: Operands,
}
