// An operand by its kind: a word, a predicate, a register by width, a predicate with optional `!`, the destination of setp.
#![tactic(auto)]

ghost use Rattle.std.specs.Prelude.{◌≡◌};
ghost use Rattle.kinds.specs.Registers.{as_word, as_pred, as_operand, bare, bare_word, bare_pred, bare_operand, condition_of, destination_of};

use record::{Condition, Destination, Operand, Pred, Word};
use tree::{Place, Spot, Tree};

// ---- a register of the kind that the place takes

pub fn word_of(p: Place) -> Option<Word>
    ensures { result ≡ as_word p }
{
    match p {
        Place::Word(w) => Some(w),
        _ => None,
    }
}

fn pred_of(p: Place) -> Option<Pred>
    ensures { result ≡ as_pred p }
{
    match p {
        Place::Pred(q) => Some(q),
        _ => None,
    }
}

fn operand_of(p: Place) -> Option<Operand>
    ensures { result ≡ as_operand p }
{
    match p {
        Place::Word(w) => Some(Operand::Word(w)),
        Place::Half(h) => Some(Operand::Half(h)),
        Place::Double(d) => Some(Operand::Double(d)),
        Place::Pred(_) => None,
    }
}

// The register that stands alone.
fn bare(t: Tree) -> Option<Place>
    ensures { result ≡ bare t }
{
    match t {
        Tree::Bare(p) => Some(p),
        _ => None,
    }
}

pub fn bare_word(t: Tree) -> Option<Word>
    ensures { result ≡ bare_word t }
{
    bare(t).and_then(word_of)
}

pub fn bare_pred(t: Tree) -> Option<Pred>
    ensures { result ≡ bare_pred t }
{
    bare(t).and_then(pred_of)
}

pub fn bare_operand(t: Tree) -> Option<Operand>
    ensures { result ≡ bare_operand t }
{
    bare(t).and_then(operand_of)
}

// ---- c of set and setp: a predicate with optional `!`

pub fn condition_of(t: Tree) -> Option<Condition>
    ensures { result ≡ condition_of t }
{
    match t {
        Tree::Inverted(p) => Some(Condition {
            inverted: true,
            pred: pred_of(p)?,
        }),
        Tree::Bare(p) => Some(Condition {
            inverted: false,
            pred: pred_of(p)?,
        }),
        _ => None,
    }
}

// ---- d of setp: one predicate, or a pair of which one may be `_`

pub fn destination_of(t: Tree) -> Option<Destination>
    ensures { result ≡ destination_of t }
{
    match t {
        Tree::Bare(p) => pred_of(p).map(Destination::One),
        Tree::Pair(Spot::At(p), Spot::At(q)) => Some(Destination::Pair(pred_of(p)?, pred_of(q)?)),
        Tree::Pair(Spot::At(p), Spot::Nothing) => pred_of(p).map(Destination::First),
        Tree::Pair(Spot::Nothing, Spot::At(q)) => pred_of(q).map(Destination::Second),
        // after `_` another `_` is wrong
        Tree::Pair(Spot::Nothing, Spot::Nothing) => None,
        Tree::Inverted(_) | Tree::Part(_, _) => None,
    }
}
