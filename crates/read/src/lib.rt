// Reads one line at a target and in a mode: its shape, its row of the modifier table, its operands, then numbers and pairs, then whether the target
// allows it and the mode passes it. The first refusal that applies decides; then its place is looked for.
#![tactic(auto)]

ghost use Rattle.std.specs.Prelude.{◌≡◌, true, false, Ok};
ghost use Rattle.record.specs.Modifiers.{instruction_modifiers_fit};
ghost use Rattle.rules.specs.Reading.{Answers};
ghost use Rattle.fills.specs.Fills.{filled_of};
ghost use Rattle.read.specs.Paper.{refused_answer, answer_of};
ghost use Rattle.refusals.specs.Numbers.{number_of, first_number};
ghost use Rattle.read.specs.Mirror.{pred_in, guard_at, guard_in, record_of, candidate_by, candidate_of, fit_by, refusal_of, numbered, decided_by, verdict_of, no_place, refused_by};
ghost use Rattle.places.specs.Mirror.{guard_good};

use heads::HeadError;
use record::{Condition, Guard, Instruction, Mode, Pred, Record, Target};
use refusals::Refusal;
use tree::{Guarding, Operands, Parts, Place};

// Why a line is refused, and, if the refusal carries one, its place: the bytes of the line before it.
#[derive(Clone, Copy)]
pub struct Refused {
    pub refusal: Refusal,
    pub place: Option<usize>,
}

// A line has at most so many bytes.
const LINE_LIMIT: usize = 160;

// ---- the guard is a predicate

// Not `From`: both types are of other crates. The same holds of guard_in.
fn pred_in(p: Place) -> Pred
    ensures { result ≡ pred_in p }
{
    match p {
        Place::Pred(q) => q,
        Place::Word(_) | Place::Half(_) | Place::Double(_) => Pred(0),
    }
}

fn guard_at(negated: bool, q: Pred) -> Guard
    ensures { result ≡ guard_at negated q }
{
    Guard::When(Condition {
        inverted: negated,
        pred: q,
    })
}

fn guard_in(g: Guarding) -> Guard
    ensures { result ≡ guard_in g }
{
    match g {
        Guarding::Unguarded => Guard::Always,
        Guarding::Guarded(negated, p) => guard_at(negated, pred_in(p)),
    }
}

// ---- the stages: where a line stops, what the later ones would say no longer counts

fn record_of(guard: Guard, instruction: Instruction) -> Record
    ensures { result ≡ record_of guard instruction }
{
    Record { guard, instruction }
}

// The first of refusals 5, 6, 7, 12 and 15 that applies.
fn last_refusal(target: Target, mode: Mode, good: bool, r: Record) -> Option<Refusal>
    ensures { first_number result ≡ refusal_of target mode false true (fit_by good r) }
{
    let fit = good & fits::operands_fit(r);
    let inside = legal::numbers_in_range(r);
    let apart = legal::pair_apart(r);
    let allowed = targets::allows(target, r);
    let passed = strict::passes(mode, r);
    refusals::reading(
        false, false, false, false, !fit, !inside, !apart, !allowed, !passed,
    )
}

fn from_filled(target: Target, mode: Mode, g: Guarding, i: Instruction) -> Result<Record, Refusal>
    ensures { numbered result ≡ decided_by target mode false true (fit_by (guard_good g) (record_of (guard_in g) i)) }
{
    let r = record_of(guard_in(g), i);
    match last_refusal(target, mode, places::guard_good(g), r) {
        Some(refusal) => Err(refusal),
        None => Ok(r),
    }
}

// No guard counts in the table of modifiers.
// Not one with rowplace's `fits`: see there.
fn row_fits(i: Instruction) -> bool
    ensures { result ≡ instruction_modifiers_fit i }
{
    fits::modifiers_fit(record_of(Guard::Always, i))
}

fn from_row(
    target: Target,
    mode: Mode,
    g: Guarding,
    i: Instruction,
    operands: Operands,
) -> Result<Record, Refusal>
    ensures { numbered result ≡ decided_by target mode false true (candidate_by g (Ok i) (filled_of i operands)) }
{
    if !row_fits(i) {
        return Err(Refusal::NoRow);
    }
    match fills::fill_in(i, operands) {
        Ok(j) => from_filled(target, mode, g, j),
        Err(_) => Err(Refusal::NoFit),
    }
}

fn from_parts(target: Target, mode: Mode, x: Parts) -> Result<Record, Refusal>
    ensures { numbered result ≡ decided_by target mode false true (candidate_of x) }
{
    match heads::row(x.head) {
        Ok(i) => from_row(target, mode, x.guard, i, x.operands),
        Err(HeadError::NoOpcode) => Err(Refusal::NoOpcode),
        Err(HeadError::Wrong(_)) => Err(Refusal::NoRow),
    }
}

// The record, places of refusals aside.
fn judge(target: Target, mode: Mode, line: &[u8]) -> Result<Record, Refusal>
    ensures { numbered result ≡ verdict_of target mode line.now }
{
    if LINE_LIMIT < line.len() {
        // Before a look at its bytes, so that no line takes longer than one of the limit.
        return Err(Refusal::LineTooLong);
    }
    match shape::shape(line) {
        Ok((parts, _)) => from_parts(target, mode, parts),
        Err(_) => Err(Refusal::NoShape),
    }
}

// ---- the entry point

// A line that is too long has no place, nor has one that its target is too old for, nor one that compares a part with itself.
fn has_no_place(refusal: Refusal) -> bool
    ensures { result ≡ no_place (number_of refusal) }
{
    matches!(
        refusal,
        Refusal::LineTooLong | Refusal::TargetTooOld | Refusal::AgainstItself
    )
}

#[tactic(auto, unfolding(crate::specs::Mirror::refused_by))]
fn with_place(refusal: Refusal, line: &[u8]) -> Refused
    ensures { refused_answer result ≡ refused_by (number_of refusal) line.now }
{
    if has_no_place(refusal) {
        return Refused {
            refusal,
            place: None,
        };
    }
    let place = places::place(refusal.number(), line);
    Refused {
        refusal,
        place: Some(place),
    }
}

pub fn read(target: Target, mode: Mode, line: &[u8]) -> Result<Record, Refused>
    ensures { Answers target mode line.now (answer_of result) }
{
    match judge(target, mode, line) {
        Ok(r) => Ok(r),
        Err(refusal) => Err(with_place(refusal, line)),
    }
}
