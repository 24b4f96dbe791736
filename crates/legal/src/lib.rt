// Whether a record is legal: its modifiers and operands fit, its register numbers are in their files, its pairs are apart.
#![tactic(auto)]

ghost use Rattle.std.specs.Prelude.{◌≡◌};
ghost use Rattle.record.specs.Refusals.{condition_in_range, guard_in_range, selected_in_range, form_in_range, scalar_in_range, lanes_in_range, operand_in_range, combination_in_range, comparison_in_range, destination_in_range, choice_in_range, instruction_in_range, numbers_in_range, destination_apart, instruction_apart, pair_apart, is_legal};

use record::{
    Choice, Combination, Comparison, Condition, Destination, Form, Guard, Instruction, Lanes,
    Operand, Record, Scalar, Selected, in_file,
};

// ---- register numbers

fn condition_in_range(c: Condition) -> bool
    ensures { result ≡ condition_in_range c }
{
    in_file(c.pred)
}

fn guard_in_range(g: Guard) -> bool
    ensures { result ≡ guard_in_range g }
{
    match g {
        Guard::Always => true,
        Guard::When(c) => condition_in_range(c),
    }
}

fn selected_in_range(s: Selected) -> bool
    ensures { result ≡ selected_in_range s }
{
    match s {
        Selected::Whole(w) | Selected::Part(w, _) => in_file(w),
    }
}

fn form_in_range(f: Form) -> bool
    ensures { result ≡ form_in_range f }
{
    match f {
        Form::Plain { d } => in_file(d),
        Form::Merge { d, c, .. } | Form::Combine { d, c, .. } => in_file(d) & in_file(c),
    }
}

fn scalar_in_range(s: Scalar) -> bool
    ensures { result ≡ scalar_in_range s }
{
    form_in_range(s.form) & selected_in_range(s.a) & selected_in_range(s.b)
}

fn lanes_in_range(l: Lanes) -> bool
    ensures { result ≡ lanes_in_range l }
{
    in_file(l.d) & in_file(l.a) & in_file(l.b) & in_file(l.c)
}

fn operand_in_range(o: Operand) -> bool
    ensures { result ≡ operand_in_range o }
{
    match o {
        Operand::Word(w) => in_file(w),
        Operand::Half(h) => in_file(h),
        Operand::Double(d) => in_file(d),
    }
}

fn combination_in_range(w: Combination) -> bool
    ensures { result ≡ combination_in_range w }
{
    match w {
        Combination::Alone => true,
        Combination::With(_, c) => condition_in_range(c),
    }
}

fn comparison_in_range(s: Comparison) -> bool
    ensures { result ≡ comparison_in_range s }
{
    operand_in_range(s.a) & operand_in_range(s.b) & combination_in_range(s.combination)
}

fn destination_in_range(d: Destination) -> bool
    ensures { result ≡ destination_in_range d }
{
    match d {
        Destination::One(p) | Destination::First(p) | Destination::Second(p) => in_file(p),
        Destination::Pair(p, q) => in_file(p) & in_file(q),
    }
}

fn choice_in_range(s: Choice) -> bool
    ensures { result ≡ choice_in_range s }
{
    operand_in_range(s.d) & operand_in_range(s.a) & operand_in_range(s.b)
}

fn instruction_in_range(i: Instruction) -> bool
    ensures { result ≡ instruction_in_range i }
{
    match i {
        Instruction::Arithmetic { scalar, .. } | Instruction::Vset { scalar, .. } => {
            scalar_in_range(scalar)
        }
        Instruction::VsetLanes { lanes, .. } | Instruction::ArithmeticLanes { lanes, .. } => {
            lanes_in_range(lanes)
        }
        Instruction::Set { d, comparison, .. } => in_file(d) & comparison_in_range(comparison),
        Instruction::Setp { d, comparison } => destination_in_range(d)
            & comparison_in_range(comparison),
        Instruction::Selp { choice, c } => choice_in_range(choice) & in_file(c),
        Instruction::Slct { choice, c, .. } => choice_in_range(choice) & in_file(c),
    }
}

// ---- pairs

fn destination_apart(d: Destination) -> bool
    ensures { result ≡ destination_apart d }
{
    match d {
        Destination::Pair(p, q) => p != q,
        _ => true,
    }
}

fn instruction_apart(i: Instruction) -> bool
    ensures { result ≡ instruction_apart i }
{
    match i {
        Instruction::Setp { d, .. } => destination_apart(d),
        _ => true,
    }
}

// ---- the rules of a record

// Whether every register of the record is in its file: refusal 6 says that one is not.
pub fn numbers_in_range(r: Record) -> bool
    ensures { result ≡ numbers_in_range r }
{
    guard_in_range(r.guard) & instruction_in_range(r.instruction)
}

// Whether the places of a pair are two: refusal 7 says that they are not.
pub fn pair_apart(r: Record) -> bool
    ensures { result ≡ pair_apart r }
{
    instruction_apart(r.instruction)
}

// Whether the record is legal: writing and executing give 8 where it is not.
#[tactic(auto, unfolding(record::specs::Refusals::is_legal))]
pub fn legal(r: Record) -> bool
    ensures { result ≡ is_legal r }
{
    fits::modifiers_fit(r) & fits::operands_fit(r) & numbers_in_range(r) & pair_apart(r)
}
