// Where the operands of a line go wrong: the first that no legal list under this head has after the ones before it. The first operands are tried
// with every ending that a list may need; what a legal list is, `fills` and `fits` decide.
#![tactic(auto)]

ghost use Rattle.std.specs.Prelude.{◌≡◌, get_or};
ghost use Rattle.std.specs.List.{list_any};
ghost use Rattle.fillplace.specs.Tries.{fits, is_full, is_filled, none, any_word, typed, row_operand, any_of, any_pred, entry, completed, tried, begins_filled, guess_of, operand_place_of};

use record::{DataType, Double, Guard, Half, Instruction, Pred, Record, Word};
use tree::{Operands, Place, Slot, Spot, Tree};

// No list has more operands.
const MOST: usize = 4;

// Not one with rowplace's, nor is is_filled: see there.
fn fits(i: Instruction) -> bool
    ensures { result ≡ fits i }
{
    fits::operands_fit(Record {
        guard: Guard::Always,
        instruction: i,
    })
}

fn is_full(f: Result<Instruction, usize>) -> bool
    ensures { result ≡ is_full f }
{
    match f {
        Ok(i) => fits(i),
        Err(_) => false,
    }
}

#[tactic(auto, unfolding(crate::specs::Tries::is_filled))]
fn is_filled(i: Instruction, o: Operands) -> bool
    ensures { result ≡ is_filled i o }
{
    is_full(fills::fill_in(i, o))
}

// `_|_`, which no list has.
fn none() -> Tree
    ensures { result ≡ none }
{
    Tree::Pair(Spot::Nothing, Spot::Nothing)
}

// Numbers are aside: 0 stands for any.
// Not one with any_pred, which is no plainer: a generic one needs, by kind, a register and its Place.
fn any_word() -> Tree
    ensures { result ≡ any_word }
{
    Tree::Bare(Place::Word(Word(0)))
}

// A register of the type's width.
fn any_typed(t: DataType) -> Tree
    ensures { result ≡ any_of (typed t) }
{
    match t {
        DataType::B16 | DataType::U16 | DataType::S16 => Tree::Bare(Place::Half(Half(0))),
        DataType::B32 | DataType::U32 | DataType::S32 | DataType::F32 => any_word(),
        DataType::B64 | DataType::U64 | DataType::S64 | DataType::F64 => {
            Tree::Bare(Place::Double(Double(0)))
        }
    }
}

// A register that the row has as a and b.
fn any_of_row(i: Instruction) -> Tree
    ensures { result ≡ any_of (row_operand i) }
{
    match i {
        Instruction::Set { comparison, .. } | Instruction::Setp { comparison, .. } => {
            any_typed(comparison.stype)
        }
        Instruction::Selp { choice, .. } | Instruction::Slct { choice, .. } => {
            any_typed(choice.dtype)
        }
        _ => any_word(),
    }
}

fn any_pred() -> Tree
    ensures { result ≡ any_pred }
{
    Tree::Bare(Place::Pred(Pred(0)))
}

// Operands to try behind the first: how many, and three, of which the others are `none`.
type Ending = (u8, [Tree; 3]);

// The operand at j of the first k operands with an ending behind them.
// Not one with rowplace's, which is no plainer: that takes what is at j, a law of it, and the default, for one line.
#[tactic(auto, unfolding(crate::specs::Tries::entry))]
fn entry(o: Operands, k: u8, ending: [Tree; 3], j: u8) -> Tree
    ensures { result ≡ entry o k (get_or ending 0 none) (get_or ending 1 none) (get_or ending 2 none) j }
{
    if j < k {
        fills::tree_at(o, j as usize)
    } else {
        ending.get((j - k) as usize).copied().unwrap_or(none())
    }
}

#[tactic(auto, unfolding(crate::specs::Tries::completed))]
fn completed(o: Operands, k: u8, e: Ending) -> Operands
    ensures { result ≡ completed o k e.0 (get_or e.1 0 none) (get_or e.1 1 none) (get_or e.1 2 none) }
{
    let (n, ending) = e;
    let at = |j| Slot {
        tree: entry(o, k, ending, j),
    };
    Operands {
        n: (k as usize) + (n as usize),
        at: [at(0), at(1), at(2), at(3), at(4)],
    }
}

#[tactic(auto, unfolding(crate::specs::Tries::tried))]
fn tried(i: Instruction, o: Operands, k: u8, e: Ending) -> bool
    ensures { result ≡ tried i o k e.0 (get_or e.1 0 none) (get_or e.1 1 none) (get_or e.1 2 none) }
{
    is_filled(i, completed(o, k, e))
}

// Whether some ending makes a legal list.
fn some_tried(i: Instruction, o: Operands, k: u8, endings: &[Ending]) -> bool
    ensures { result ≡ list_any (λ e. tried i o k e.0 (get_or e.1 0 none) (get_or e.1 1 none) (get_or e.1 2 none)) endings.now }
{
    endings.iter().any(|e| tried(i, o, k, *e))
}

// Whether some legal list begins with the first k operands, k being over 0.
// Not one with rowplace's begins_row: the lists differ, and what the two share is `any`.
#[tactic(auto, unfolding(crate::specs::Tries::begins_filled))]
fn begins_filled(i: Instruction, o: Operands, k: usize) -> bool
    ensures { result ≡ begins_filled i o k }
{
    if MOST < k {
        return false;
    }
    let u = none();
    let x = any_of_row(i);
    let w = any_word();
    let p = any_pred();
    let endings = [
        (0, [u, u, u]),
        (1, [x, u, u]),
        (2, [x, x, u]),
        (1, [p, u, u]),
        (2, [x, p, u]),
        (3, [x, x, p]),
        (1, [w, u, u]),
        (2, [x, w, u]),
        (3, [x, x, w]),
    ];
    some_tried(i, o, k as u8, &endings)
}

// Tried first, to save the search: where the reader stopped is mostly right.
#[tactic(auto, unfolding(crate::specs::Tries::guess_of))]
fn guess(f: Result<Instruction, usize>) -> usize
    ensures { result ≡ guess_of f }
{
    match f {
        Ok(_) => 0,
        Err(k) => k,
    }
}

// The index of the first operand that no legal list under the row has after the ones before it, or how many there are.
#[tactic(auto, unfolding(crate::specs::Tries::operand_place_of, begins::specs::Searches::first_wrong_by))]
pub fn operand_place(i: Instruction, o: Operands) -> usize
    ensures { result ≡ operand_place_of i o }
{
    let guess = guess(fills::fill_in(i, o));
    begins::first_wrong(|k| begins_filled(i, o, k), o.n, guess)
}
