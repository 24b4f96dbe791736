// Where a head goes wrong: the first name that no row of the modifier table has after the ones before it. The first names are tried with every
// ending that a row may need; what a row is, `heads` decides.
#![tactic(auto)]

ghost use Rattle.std.specs.Prelude.{◌≡◌, get_or};
ghost use Rattle.std.specs.List.{list_any};
ghost use Rattle.rowplace.specs.Tries.{fits, is_found, is_row, entry, completed, tried, begins_row, guess_of, row_place_of};

use heads::HeadError;
use record::{Guard, Instruction, Record};
use tree::Head;

// No row has more names.
const MOST: usize = 6;

// Not one with fillplace's or read's, each one call: crate fits tests records, and would get a function more for it.
fn fits(i: Instruction) -> bool
    ensures { result ≡ fits i }
{
    fits::modifiers_fit(Record {
        guard: Guard::Always,
        instruction: i,
    })
}

fn is_found(f: Result<Instruction, HeadError>) -> bool
    ensures { result ≡ is_found f }
{
    match f {
        Ok(i) => fits(i),
        Err(_) => false,
    }
}

// Not one with fillplace's is_filled, which is no plainer: a closure and its law for one line.
#[tactic(auto, unfolding(crate::specs::Tries::is_row))]
fn is_row(head: Head) -> bool
    ensures { result ≡ is_row head }
{
    is_found(heads::row(head))
}

// Names to try behind the first of a head: how many, and three, of which the others are 0.
type Ending = (u8, [u64; 3]);

// The name at j of the first k names with an ending behind them.
#[tactic(auto, unfolding(crate::specs::Tries::entry))]
fn entry(head: Head, k: u8, ending: [u64; 3], j: u8) -> u64
    ensures { result ≡ entry head k (get_or ending 0 0) (get_or ending 1 0) (get_or ending 2 0) j }
{
    if j < k {
        heads::name(head, j as usize)
    } else {
        ending.get((j - k) as usize).copied().unwrap_or(0)
    }
}

#[tactic(auto, unfolding(crate::specs::Tries::completed))]
fn completed(head: Head, k: u8, e: Ending) -> Head
    ensures { result ≡ completed head k e.0 (get_or e.1 0 0) (get_or e.1 1 0) (get_or e.1 2 0) }
{
    let (n, ending) = e;
    let at = |j| entry(head, k, ending, j);
    Head {
        n: (k as usize) + (n as usize),
        at: [at(0), at(1), at(2), at(3), at(4), at(5), at(6), at(7)],
    }
}

#[tactic(auto, unfolding(crate::specs::Tries::tried))]
fn tried(head: Head, k: u8, e: Ending) -> bool
    ensures { result ≡ tried head k e.0 (get_or e.1 0 0) (get_or e.1 1 0) (get_or e.1 2 0) }
{
    is_row(completed(head, k, e))
}

// Whether some ending makes a row.
fn some_tried(head: Head, k: u8, endings: &[Ending]) -> bool
    ensures { result ≡ list_any (λ e. tried head k e.0 (get_or e.1 0 0) (get_or e.1 1 0) (get_or e.1 2 0)) endings.now }
{
    endings.iter().any(|e| tried(head, k, *e))
}

// Whether some row begins with the first k names, k being over 0.
// Not one with fillplace's begins_filled: the lists differ, and what the two share is `any`.
#[tactic(auto, unfolding(crate::specs::Tries::begins_row))]
fn begins_row(head: Head, k: usize) -> bool
    ensures { result ≡ begins_row head k }
{
    if MOST < k {
        return false;
    }
    let endings = [
        (0, [0, 0, 0]),
        (1, [names::U32, 0, 0]),
        (2, [names::U32, names::U32, 0]),
        (3, [names::U32, names::U32, names::U32]),
        (3, [names::U32, names::U32, names::EQ]),
        (2, [names::U32, names::EQ, 0]),
        (1, [names::EQ, 0, 0]),
        (3, [names::EQ, names::U32, names::U32]),
        (2, [names::U32, names::F32, 0]),
        (1, [names::F32, 0, 0]),
        (2, [names::EQ, names::U32, 0]),
    ];
    some_tried(head, k as u8, &endings)
}

// Tried first, to save the search: where the reader stopped is mostly right, and the last name where a comparison, `ftz` and a type do not fit.
#[tactic(auto, unfolding(crate::specs::Tries::guess_of))]
fn guess(f: Result<Instruction, HeadError>, n: usize) -> usize
    ensures { result ≡ guess_of f n }
{
    match f {
        Ok(_) => n.saturating_sub(1),
        Err(HeadError::NoOpcode) => 0,
        Err(HeadError::Wrong(k)) => k,
    }
}

// The index of the first name that no row has after the ones before it, or how many there are.
#[tactic(auto, unfolding(crate::specs::Tries::row_place_of, begins::specs::Searches::first_wrong_by))]
pub fn row_place(head: Head) -> usize
    ensures { result ≡ row_place_of head }
{
    let guess = guess(heads::row(head), head.n);
    begins::first_wrong(|k| begins_row(head, k), head.n, guess)
}
