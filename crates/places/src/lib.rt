// Where a refused line went wrong: a second pass, which a line that is read does not pay for. The byte place of each refusal from 2 to 7.
#![tactic(auto)]

ghost use Rattle.std.specs.Prelude.{◌≡◌};
ghost use Rattle.places.specs.Mirror.{pred_is, guard_good, modifier_place_of, operand_index_by, operand_index_of, legal_place_of, guard_place_of, parts_place_of, place_of};
ghost use Rattle.shape.specs.Line.{no_parts, parts_of, shape_of};

use heads::HeadError;
use record::Instruction;
use scan::{Class, further, rest, run_len};
use tree::{Guarding, Head, Operands, Parts, Place, Slot, Spot, Tree};

// ---- the guard is a predicate

fn is_pred(p: Place) -> bool
    ensures { result ≡ pred_is p }
{
    matches!(p, Place::Pred(_))
}

pub fn guard_good(g: Guarding) -> bool
    ensures { result ≡ guard_good g }
{
    match g {
        Guarding::Unguarded => true,
        Guarding::Guarded(_, p) => is_pred(p),
    }
}

// ---- 4

fn modifier_place(line: &[u8], head: Head) -> usize
    ensures { result ≡ modifier_place_of line.now head }
{
    let start = starts::head_start(line);
    let k = rowplace::row_place(head);
    further(start, starts::name_start(rest(line, start), k))
}

// ---- 5

fn operand_index_by(f: Result<Instruction, HeadError>, operands: Operands) -> usize
    ensures { result ≡ operand_index_by f operands }
{
    match f {
        Ok(i) => fillplace::operand_place(i, operands),
        Err(_) => 0,
    }
}

fn operand_index(head: Head, operands: Operands) -> usize
    ensures { result ≡ operand_index_of head operands }
{
    operand_index_by(heads::row(head), operands)
}

fn operand_place(line: &[u8], head: Head, operands: Operands) -> usize
    ensures { result ≡ legal_place_of line.now head operands }
{
    let start = starts::operands_start(line);
    let k = operand_index(head, operands);
    further(start, starts::operand_start(rest(line, start), k))
}

// The guard comes before the operands.
fn guarded_place(line: &[u8], g: Guarding, head: Head, operands: Operands) -> usize
    ensures { result ≡ guard_place_of line.now g head operands }
{
    if guard_good(g) {
        return operand_place(line, head, operands);
    }
    run_len(Class::Blank, line)
}

// ---- every refusal

// Of 2 to 7, the numbers of the refusals that carry a place; 5 is what is left.
// Numbers, as `place` and `parts_place` take every n: `place_of n` says so, and a Refusal would ask more of callers.
const NO_SHAPE: u8 = 2;

const NO_OPCODE: u8 = 3;

const NO_ROW: u8 = 4;

const OUTSIDE: u8 = 6;

const SAME_PAIR: u8 = 7;

// 4 and 5 are asked of the names and of the operands.
// n is a number: see NO_SHAPE.
fn parts_place(n: u8, line: &[u8], x: Parts) -> usize
    ensures { result ≡ parts_place_of n line.now x }
{
    let g = x.guard;
    let head = x.head;
    let operands = x.operands;
    if n == NO_ROW {
        return modifier_place(line, head);
    }
    guarded_place(line, g, head, operands)
}

// What counts as the parts of a line that has not the shape: `place` answers for it too.
fn no_parts() -> Parts
    ensures { result ≡ no_parts }
{
    let spare = Slot {
        tree: Tree::Pair(Spot::Nothing, Spot::Nothing),
    };
    Parts {
        guard: Guarding::Unguarded,
        head: Head { n: 0, at: [0; 8] },
        operands: Operands {
            n: 0,
            at: [spare; 5],
        },
    }
}

fn shaped_place(n: u8, line: &[u8]) -> usize
    ensures { result ≡ parts_place_of n line.now (parts_of (shape_of line.now)) }
{
    match shape::shape(line) {
        Ok((parts, _)) => parts_place(n, line, parts),
        Err(_) => parts_place(n, line, no_parts()),
    }
}

// The place of refusal n of a line that gets it; of another line it says nothing.
// n is a number: see NO_SHAPE.
pub fn place(n: u8, line: &[u8]) -> usize
    ensures { result ≡ place_of n line.now }
{
    if n == NO_SHAPE {
        return viable::shape_place(line);
    }
    if n == NO_OPCODE {
        return starts::head_start(line);
    }
    if n == OUTSIDE {
        return starts::first_over(line);
    }
    if n == SAME_PAIR {
        return starts::second_start(line);
    }
    shaped_place(n, line)
}
