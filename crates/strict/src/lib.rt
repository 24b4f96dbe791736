// Change request T-09: which records a mode of reading passes. In strict reading none that compares a part of a register with itself.
#![tactic(auto)]

ghost use Rattle.std.specs.Prelude.{◌≡◌, ◌&&◌};
ghost use Rattle.rules.specs.Strict as paper;
ghost use Rattle.strict.specs.Origins.{origin_of};

use record::{Instruction, LaneWidth, Lanes, Mode, Record, Word};

// A part of a register.
#[derive(Clone, Copy, PartialEq, Eq)]
struct Origin {
    register: Word,
    part: u8,
}

fn part_in(w: Word, k: u8) -> Origin
    ensures { origin_of result ≡ paper.part_in w k }
{
    Origin {
        register: w,
        part: k,
    }
}

// What a digit picks: a part of a, or behind these one of b.
fn picked(l: Lanes, k: u8) -> Origin
    ensures { origin_of result ≡ paper.origin l k }
{
    let n = registers::lane_count(l.width);
    if k < n {
        return part_in(l.a, k);
    }
    part_in(l.b, k - n)
}

// Whether a lane is masked, and digit j of a's selector and k of b's pick the same for it.
fn masked_same(l: Lanes, masked: bool, j: u8, k: u8) -> bool
    ensures { result ≡ masked && paper.same_origin (paper.origin l j) (paper.origin l k) }
{
    masked & (picked(l, j) == picked(l, k))
}

#[tactic(auto, unfolding(rules::specs::Strict::lanes_against_itself))]
fn lanes_against_itself(l: Lanes) -> bool
    ensures { result ≡ paper.lanes_against_itself l }
{
    let lane0 = masked_same(l, l.mask.lane0, l.asel.lane0, l.bsel.lane0);
    let lane1 = masked_same(l, l.mask.lane1, l.asel.lane1, l.bsel.lane1);
    let lane2 = masked_same(l, l.mask.lane2, l.asel.lane2, l.bsel.lane2);
    let lane3 = masked_same(l, l.mask.lane3, l.asel.lane3, l.bsel.lane3);
    // Lanes 2 and 3 of a half are spare room, which has no say.
    match l.width {
        LaneWidth::Half => lane0 | lane1,
        LaneWidth::Byte => lane0 | lane1 | lane2 | lane3,
    }
}

fn against_itself(i: Instruction) -> bool
    ensures { result ≡ paper.instruction_against_itself i }
{
    match i {
        Instruction::VsetLanes { lanes, .. } => lanes_against_itself(lanes),
        _ => false,
    }
}

#[tactic(auto, unfolding(rules::specs::Strict::passes))]
pub fn passes(mode: Mode, r: Record) -> bool
    ensures { result ≡ paper.passes mode r }
{
    match mode {
        Mode::Ordinary => true,
        Mode::Strict => !against_itself(r.instruction),
    }
}
