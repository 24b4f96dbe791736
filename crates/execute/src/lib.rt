// Executes one record on the four lent files: reads all sources, computes, writes the places.
#![tactic(auto)]

ghost use Rattle.std.specs.Prelude.{◌≡◌, set, nat_le};
ghost use Rattle.std.specs.List.{list_all};
ghost use Rattle.record.specs.Registers.{files};
ghost use Rattle.rules.specs.Executing.{selected_word, form_c, form_d, condition_holds, combined_of, sizes_fit, guard_holds, outcome, run};
ghost use Rattle.execute.specs.Answers.{answer_of};
ghost use Rattle.execute.specs.Mirror.{test_in, operand_write, arithmetic_write, vset_write, lanes_write, arithmetic_lanes_write, set_write, setp_write, either_of, selp_write, slct_write, write_of, preds_with, written};

use record::{
    Arith, Choice, Cmp6, Combination, Comparison, Condition, Destination, Double, Form, Guard,
    Half, Instruction, LaneArith, Lanes, Numbered, Operand, Pred, Record, Scalar, Selected,
    SetType, SlctType, Target, VideoType, Word,
};
use refusals::Refusal;
use registers::Files;

// Done, or skipped (guard false).
#[derive(Clone, Copy)]
pub enum Executed {
    Done,
    Skipped,
}

// What an instruction writes: a word, a half-word, a double-word, or the places of a destination.
#[derive(Clone, Copy)]
enum Write {
    Word(Word, u32),
    Half(Half, u16),
    Double(Double, u64),
    Preds(Destination, bool, bool),
}

// ---- registers: no place past the end is written

fn put<R: Numbered>(file: &mut [R::Value], x: R, v: R::Value)
    ensures { file.new ≡ set file.old (R.number x) v }
{
    let i = x.number() as usize;
    if i < file.len() {
        file[i] = v;
    }
}

// ---- what a record names

#[tactic(auto, unfolding(crate::specs::Mirror::operand_write))]
fn operand_write(o: Operand, v: u64) -> Write
    ensures { result ≡ operand_write o v }
{
    match o {
        Operand::Word(w) => Write::Word(w, registers::low_word(v)),
        Operand::Half(h) => Write::Half(h, registers::low_half(v)),
        Operand::Double(d) => Write::Double(d, v),
    }
}

fn selected_word(s: Selected) -> Word
    ensures { result ≡ selected_word s }
{
    match s {
        Selected::Whole(w) | Selected::Part(w, _) => w,
    }
}

fn form_d(f: Form) -> Word
    ensures { result ≡ form_d f }
{
    match f {
        Form::Plain { d } | Form::Merge { d, .. } | Form::Combine { d, .. } => d,
    }
}

// ---- what is read, each source of the files as they are before any destination is written

// ---- scalar video and its forms with 2 and 4

fn form_c(from: &Files, f: Form) -> u32
    ensures { result ≡ form_c from.now.words f }
{
    match f {
        Form::Plain { .. } => 0,
        Form::Merge { c, .. } | Form::Combine { c, .. } => registers::at(from.words, c),
    }
}

fn arithmetic_write(from: &Files, op: Arith, dtype: VideoType, sat: bool, s: Scalar) -> Write
    ensures { result ≡ arithmetic_write op dtype sat s from.now.words }
{
    let a = registers::at(from.words, selected_word(s.a));
    let b = registers::at(from.words, selected_word(s.b));
    let c = form_c(from, s.form);
    Write::Word(
        form_d(s.form),
        video::arithmetic(op, dtype, sat, s, a, b, c),
    )
}

fn vset_write(from: &Files, cmp: Cmp6, s: Scalar) -> Write
    ensures { result ≡ vset_write cmp s from.now.words }
{
    let a = registers::at(from.words, selected_word(s.a));
    let b = registers::at(from.words, selected_word(s.b));
    let c = form_c(from, s.form);
    Write::Word(form_d(s.form), video::vset(cmp, s, a, b, c))
}

fn lanes_write(from: &Files, cmp: Cmp6, l: Lanes) -> Write
    ensures { result ≡ lanes_write cmp l from.now.words }
{
    let a = registers::at(from.words, l.a);
    let b = registers::at(from.words, l.b);
    let c = registers::at(from.words, l.c);
    Write::Word(l.d, video::vset_lanes(cmp, l, a, b, c))
}

fn arithmetic_lanes_write(
    from: &Files,
    op: LaneArith,
    dtype: VideoType,
    sat: bool,
    l: Lanes,
) -> Write
    ensures { result ≡ arithmetic_lanes_write op dtype sat l from.now.words }
{
    let a = registers::at(from.words, l.a);
    let b = registers::at(from.words, l.b);
    let c = registers::at(from.words, l.c);
    Write::Word(l.d, video::arithmetic_lanes(op, dtype, sat, l, a, b, c))
}

// ---- set and setp

fn condition_holds(from: &Files, c: Condition) -> bool
    ensures { result ≡ condition_holds from.now.preds c }
{
    c.inverted ^ (registers::at(from.preds, c.pred) == 1)
}

#[tactic(auto, unfolding(rules::specs::Executing::combined_of))]
fn combined(from: &Files, c: Combination, t: bool) -> bool
    ensures { result ≡ combined_of from.now.preds c t }
{
    match c {
        Combination::Alone => t,
        Combination::With(op, c) => compare::bool_op(op, t, condition_holds(from, c)),
    }
}

#[tactic(auto, using(crate::proofs::Laws::operand_in_lem), unfolding(crate::specs::Mirror::test_in))]
fn test(from: &Files, target: Target, s: Comparison) -> bool
    ensures { result ≡ test_in target from.now s }
{
    let a = from.operand(s.a);
    let b = from.operand(s.b);
    compare::comparison(s.cmp, targets::flushes(target, s.ftz), s.stype, a, b)
}

fn set_write(from: &Files, target: Target, dtype: SetType, d: Word, s: Comparison) -> Write
    ensures { result ≡ set_write target dtype d s from.now }
{
    let t = test(from, target, s);
    Write::Word(
        d,
        compare::set_value(dtype, combined(from, s.combination, t)),
    )
}

fn setp_write(from: &Files, target: Target, d: Destination, s: Comparison) -> Write
    ensures { result ≡ setp_write target d s from.now }
{
    let t = test(from, target, s);
    let first = combined(from, s.combination, t);
    let second = combined(from, s.combination, !t);
    Write::Preds(d, first, second)
}

// ---- selp and slct

#[tactic(auto, using(crate::proofs::Laws::operand_in_lem))]
fn choice_write(from: &Files, first: bool, s: Choice) -> Write
    ensures { result ≡ operand_write s.d (either_of first s from.now) }
{
    let chosen = if first { s.a } else { s.b };
    operand_write(s.d, from.operand(chosen))
}

fn selp_write(from: &Files, c: Pred, s: Choice) -> Write
    ensures { result ≡ selp_write c s from.now }
{
    choice_write(from, registers::at(from.preds, c) == 1, s)
}

fn slct_write(from: &Files, target: Target, ctype: SlctType, c: Word, s: Choice) -> Write
    ensures { result ≡ slct_write target ctype c s from.now }
{
    let t = targets::slct_type_at(target, ctype);
    let first = compare::not_below_zero(t, registers::at(from.words, c));
    choice_write(from, first, s)
}

// ---- one instruction

#[tactic(auto, unfolding(crate::specs::Mirror::write_of))]
fn write_of(from: &Files, target: Target, i: Instruction) -> Write
    ensures { result ≡ write_of target i from.now }
{
    match i {
        Instruction::Arithmetic {
            op,
            dtype,
            sat,
            scalar,
        } => arithmetic_write(from, op, dtype, sat, scalar),
        Instruction::Vset { cmp, scalar } => vset_write(from, cmp, scalar),
        Instruction::VsetLanes { cmp, lanes } => lanes_write(from, cmp, lanes),
        Instruction::ArithmeticLanes {
            op,
            dtype,
            sat,
            lanes,
        } => arithmetic_lanes_write(from, op, dtype, sat, lanes),
        Instruction::Set {
            dtype,
            d,
            comparison,
        } => set_write(from, target, dtype, d, comparison),
        Instruction::Setp { d, comparison } => setp_write(from, target, d, comparison),
        Instruction::Selp { choice, c } => selp_write(from, c, choice),
        Instruction::Slct { ctype, choice, c } => slct_write(from, target, ctype, c, choice),
    }
}

// ---- what is looked at before

#[tactic(auto, unfolding(rules::specs::Executing::sizes_fit))]
fn sizes_fit(from: &Files) -> bool
    ensures { result ≡ sizes_fit from.now }
{
    from.words.len() == record::WORDS as usize
        && from.halves.len() == record::HALVES as usize
        && from.doubles.len() == record::DOUBLES as usize
        && from.preds.len() == record::PREDS as usize
}

fn preds_fit(from: &Files) -> bool
    ensures { result ≡ list_all (λ p. nat_le p 1) from.now.preds }
{
    from.preds.iter().all(|p| *p <= 1)
}

#[tactic(auto, unfolding(rules::specs::Executing::guard_holds))]
fn guard_holds(from: &Files, g: Guard) -> bool
    ensures { result ≡ guard_holds from.now.preds g }
{
    match g {
        Guard::Always => true,
        Guard::When(c) => condition_holds(from, c),
    }
}

// ---- writing

#[tactic(auto, unfolding(crate::specs::Mirror::preds_with))]
fn put_destination(d: Destination, first: bool, second: bool, preds: &mut [u8])
    ensures { preds.new ≡ preds_with d first second preds.old }
{
    let first = first as u8;
    let second = second as u8;
    match d {
        Destination::One(p) | Destination::First(p) => put(preds, p, first),
        Destination::Pair(p, q) => {
            put(preds, p, first);
            put(preds, q, second);
        }
        Destination::Second(q) => put(preds, q, second),
    }
}

#[tactic(auto, unfolding(crate::specs::Mirror::written))]
fn put_write(w: Write, words: &mut [u32], halves: &mut [u16], doubles: &mut [u64], preds: &mut [u8])
    ensures { files words.new halves.new doubles.new preds.new ≡ written w (files words.old halves.old doubles.old preds.old) }
{
    match w {
        Write::Word(d, v) => put(words, d, v),
        Write::Half(d, v) => put(halves, d, v),
        Write::Double(d, v) => put(doubles, d, v),
        Write::Preds(d, first, second) => put_destination(d, first, second, preds),
    }
}

// ---- the entry point

// Executes the record at a target on the lent files. A refusal or a false guard changes nothing.
#[tactic(auto, using(crate::proofs::Laws::instruction_written, crate::proofs::Laws::bits_all), unfolding(rules::specs::Executing::run),)]
pub fn execute(
    target: Target,
    r: Record,
    words: &mut [u32],
    halves: &mut [u16],
    doubles: &mut [u64],
    preds: &mut [u8],
) -> Result<Executed, Refusal>
    ensures { outcome (answer_of result) (files words.new halves.new doubles.new preds.new) ≡ run target r (files words.old halves.old doubles.old preds.old) }
{
    let from = Files {
        words,
        halves,
        doubles,
        preds,
    };
    if let Some(refusal) = refusals::executing(
        !legal::legal(r),
        !targets::allows(target, r),
        !sizes_fit(&from),
        !preds_fit(&from),
    ) {
        return Err(refusal);
    }
    if !guard_holds(&from, r.guard) {
        return Ok(Executed::Skipped);
    }
    let w = write_of(&from, target, r.instruction);
    put_write(w, words, halves, doubles, preds);
    Ok(Executed::Done)
}
