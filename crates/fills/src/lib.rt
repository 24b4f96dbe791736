// The operands of a line, taken into the instruction that its head names.
#![tactic(auto, using(names::specs::Back::selector_is), unfolding(crate::specs::Fills::tree_at, crate::specs::Fills::scalar_from, crate::specs::Fills::lanes_from, crate::specs::Fills::comparison_from, crate::specs::Fills::choice_from, crate::specs::Fills::filled_of))]

ghost use Rattle.std.specs.Prelude.{◌≡◌, ok_or};
ghost use Rattle.kinds.specs.Registers.{bare_word, bare_operand, condition_of};
ghost use Rattle.fills.specs.Fills.{tree_at, last_by, without_c, selected_from, start_from, form_from, scalar_from, masked_from, laned_from, lanes_from, combination_from, comparison_from, choice_from, filled_of};

use record::{
    Choice, Combination, Comparison, Digits, Form, Instruction, LaneWidth, Lanes, Mask, Op2,
    Operand, Scalar, Selected, Selector, Word,
};
use tree::{Operands, Spot, Tree};

// ---- an operand by its place

// Past the fifth stands `_|_`, which no opcode takes.
pub fn tree_at(o: Operands, k: usize) -> Tree
    ensures { result ≡ tree_at o k }
{
    match o.at.get(k) {
        Some(slot) => slot.tree,
        None => Tree::Pair(Spot::Nothing, Spot::Nothing),
    }
}

// A register by width, or the place where none stands.
fn operand(o: Operands, k: usize) -> Result<Operand, usize>
    ensures { result ≡ ok_or (bare_operand (tree_at o k)) k }
{
    kinds::bare_operand(tree_at(o, k)).ok_or(k)
}

// c, where it is the fourth operand and the last.
fn last<T: Copy>(n: usize, c: Option<T>) -> Result<T, usize>
    ensures { result ≡ last_by n c }
{
    let c = c.ok_or(3usize)?;
    if n == 4 { Ok(c) } else { Err(4) }
}

fn last_word(o: Operands) -> Result<Word, usize>
    ensures { result ≡ last_by o.n (bare_word (tree_at o 3)) }
{
    last(o.n, kinds::bare_word(tree_at(o, 3)))
}

// What needs no c, where the third operand is the last.
fn without_c<T: Copy>(n: usize, x: T) -> Result<T, usize>
    ensures { result ≡ without_c n x }
{
    if n == 3 { Ok(x) } else { Err(3) }
}

// ---- scalar video

// d, with what the head says of the form: c is not read yet.
#[derive(Clone, Copy)]
enum Start {
    Plain(Word),
    Merge(Word, Selector),
    Combine(Op2, Word),
}

fn selected_of(t: Tree) -> Option<Selected>
    ensures { result ≡ selected_from t }
{
    match t {
        Tree::Bare(p) => kinds::word_of(p).map(Selected::Whole),
        Tree::Part(p, x) => Some(Selected::Part(kinds::word_of(p)?, names::selector_of(x)?)),
        _ => None,
    }
}

// With OP2 d is bare; without it a selector on d asks for c.
fn start_of(form: Form, t: Tree) -> Option<Start>
    ensures { result ≡ start_from form (selected_from t) }
{
    match (form, selected_of(t)?) {
        (Form::Combine { op, .. }, Selected::Whole(w)) => Some(Start::Combine(op, w)),
        (Form::Combine { .. }, Selected::Part(_, _)) => None,
        (_, Selected::Whole(w)) => Some(Start::Plain(w)),
        (_, Selected::Part(w, sel)) => Some(Start::Merge(w, sel)),
    }
}

fn form_of(start: Start, o: Operands) -> Result<Form, usize>
    ensures { result ≡ form_from start o.n (bare_word (tree_at o 3)) }
{
    match start {
        Start::Plain(d) => without_c(o.n, Form::Plain { d }),
        Start::Merge(d, sel) => Ok(Form::Merge {
            d,
            sel,
            c: last_word(o)?,
        }),
        Start::Combine(op, d) => Ok(Form::Combine {
            op,
            d,
            c: last_word(o)?,
        }),
    }
}

fn scalar_of(s: Scalar, o: Operands) -> Result<Scalar, usize>
    ensures { result ≡ scalar_from s o }
{
    let start = start_of(s.form, tree_at(o, 0)).ok_or(0usize)?;
    let a = selected_of(tree_at(o, 1)).ok_or(1usize)?;
    let b = selected_of(tree_at(o, 2)).ok_or(2usize)?;
    let form = form_of(start, o)?;
    Ok(Scalar { form, a, b, ..s })
}

// ---- the forms with 2 and 4

// d, with its mask.
fn masked_of(w: LaneWidth, t: Tree) -> Option<(Word, Mask)>
    ensures { result ≡ masked_from w t }
{
    match t {
        Tree::Bare(p) => Some((kinds::word_of(p)?, fits::full_mask(w))),
        Tree::Part(p, x) => Some((kinds::word_of(p)?, masks::mask_of(w, x)?)),
        _ => None,
    }
}

// a or b, with its selector. One function with masked_of would take a closure, and its clause would cite what that answers.
fn laned_of(w: LaneWidth, default: Digits, t: Tree) -> Option<(Word, Digits)>
    ensures { result ≡ laned_from w default t }
{
    match t {
        Tree::Bare(p) => Some((kinds::word_of(p)?, default)),
        Tree::Part(p, x) => Some((kinds::word_of(p)?, masks::digits_of(w, x)?)),
        _ => None,
    }
}

fn lanes_of(l: Lanes, o: Operands) -> Result<Lanes, usize>
    ensures { result ≡ lanes_from l o }
{
    let w = l.width;
    let (d, mask) = masked_of(w, tree_at(o, 0)).ok_or(0usize)?;
    let (a, asel) = laned_of(w, fits::default_digits(w, false), tree_at(o, 1)).ok_or(1usize)?;
    let (b, bsel) = laned_of(w, fits::default_digits(w, true), tree_at(o, 2)).ok_or(2usize)?;
    let c = last_word(o)?;
    Ok(Lanes {
        d,
        mask,
        a,
        asel,
        b,
        bsel,
        c,
        ..l
    })
}

// ---- set, setp

// c exactly when BoolOp is present.
fn combination_of(k: Combination, o: Operands) -> Result<Combination, usize>
    ensures { result ≡ combination_from k o.n (condition_of (tree_at o 3)) }
{
    match k {
        Combination::Alone => without_c(o.n, k),
        Combination::With(op, _) => {
            let c = last(o.n, kinds::condition_of(tree_at(o, 3)))?;
            Ok(Combination::With(op, c))
        }
    }
}

fn comparison_of(s: Comparison, o: Operands) -> Result<Comparison, usize>
    ensures { result ≡ comparison_from s o }
{
    let a = operand(o, 1)?;
    let b = operand(o, 2)?;
    let combination = combination_of(s.combination, o)?;
    Ok(Comparison {
        combination,
        a,
        b,
        ..s
    })
}

// ---- selp, slct

fn choice_of(s: Choice, o: Operands) -> Result<Choice, usize>
    ensures { result ≡ choice_from s o }
{
    let d = operand(o, 0)?;
    let a = operand(o, 1)?;
    let b = operand(o, 2)?;
    Ok(Choice { d, a, b, ..s })
}

// ---- the instruction

pub fn fill_in(i: Instruction, operands: Operands) -> Result<Instruction, usize>
    ensures { result ≡ filled_of i operands }
{
    match i {
        Instruction::Arithmetic {
            op,
            dtype,
            sat,
            scalar,
        } => {
            let scalar = scalar_of(scalar, operands)?;
            Ok(Instruction::Arithmetic {
                op,
                dtype,
                sat,
                scalar,
            })
        }
        Instruction::Vset { cmp, scalar } => {
            let scalar = scalar_of(scalar, operands)?;
            Ok(Instruction::Vset { cmp, scalar })
        }
        Instruction::VsetLanes { cmp, lanes } => {
            let lanes = lanes_of(lanes, operands)?;
            Ok(Instruction::VsetLanes { cmp, lanes })
        }
        Instruction::ArithmeticLanes {
            op,
            dtype,
            sat,
            lanes,
        } => {
            let lanes = lanes_of(lanes, operands)?;
            Ok(Instruction::ArithmeticLanes {
                op,
                dtype,
                sat,
                lanes,
            })
        }
        Instruction::Set {
            dtype,
            comparison,
            ..
        } => {
            let d = kinds::bare_word(tree_at(operands, 0)).ok_or(0usize)?;
            let comparison = comparison_of(comparison, operands)?;
            Ok(Instruction::Set {
                dtype,
                d,
                comparison,
            })
        }
        Instruction::Setp { comparison, .. } => {
            let d = kinds::destination_of(tree_at(operands, 0)).ok_or(0usize)?;
            let comparison = comparison_of(comparison, operands)?;
            Ok(Instruction::Setp { d, comparison })
        }
        Instruction::Selp { choice, .. } => {
            let choice = choice_of(choice, operands)?;
            let c = last(operands.n, kinds::bare_pred(tree_at(operands, 3)))?;
            Ok(Instruction::Selp { choice, c })
        }
        Instruction::Slct { ctype, choice, .. } => {
            let choice = choice_of(choice, operands)?;
            let c = last_word(operands)?;
            Ok(Instruction::Slct { ctype, choice, c })
        }
    }
}
