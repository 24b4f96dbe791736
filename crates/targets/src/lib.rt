// Change request T-07: the target of a name, which records a target allows, and when it flushes.
#![tactic(auto)]

ghost use Rattle.std.specs.Prelude.{◌≡◌};
ghost use Rattle.rules.specs.Targets as paper;
ghost use Rattle.targets.specs.Named.{named_of};

use record::{DataType, Instruction, Record, SlctType, Target};

// ---- names

// The target of that name, where one has it.
#[tactic(auto, using(std::proofs::lemmas::Slice::Eq::text_from_reads, crate::proofs::Names::other_length), unfolding(crate::specs::Named::named_of, text::specs::Same::same_text))]
pub fn target_of(name: &[u8]) -> Option<Target>
    ensures { result ≡ named_of name.now }
{
    match name {
        b"sm_10" => Some(Target::Sm10),
        b"sm_13" => Some(Target::Sm13),
        b"sm_20" => Some(Target::Sm20),
        b"sm_30" => Some(Target::Sm30),
        _ => None,
    }
}

// ---- what a target allows

fn type_needs(t: DataType) -> Target
    ensures { result ≡ paper.type_needs t }
{
    match t {
        DataType::F64 => Target::Sm13,
        _ => Target::Sm10,
    }
}

fn needs(i: Instruction) -> Target
    ensures { result ≡ paper.needs i }
{
    match i {
        Instruction::Arithmetic { .. } | Instruction::Vset { .. } => Target::Sm20,
        Instruction::VsetLanes { .. } | Instruction::ArithmeticLanes { .. } => Target::Sm30,
        Instruction::Set { comparison, .. } | Instruction::Setp { comparison, .. } => {
            type_needs(comparison.stype)
        }
        Instruction::Selp { choice, .. } | Instruction::Slct { choice, .. } => {
            type_needs(choice.dtype)
        }
    }
}

#[tactic(auto, unfolding(rules::specs::Targets::allows))]
pub fn allows(target: Target, r: Record) -> bool
    ensures { result ≡ paper.allows target r }
{
    needs(r.instruction) <= target
}

// ---- when a target flushes

fn flushes_always(target: Target) -> bool
    ensures { result ≡ paper.flushes_always target }
{
    target < Target::Sm20
}

pub fn flushes(target: Target, ftz: bool) -> bool
    ensures { result ≡ paper.flushes target ftz }
{
    flushes_always(target) | ftz
}

// The type of slct's c, `ftz` with it where the target flushes.
pub fn slct_type_at(target: Target, ctype: SlctType) -> SlctType
    ensures { result ≡ paper.slct_type_at target ctype }
{
    match ctype {
        SlctType::S32 => SlctType::S32,
        SlctType::F32 { ftz } => SlctType::F32 {
            ftz: flushes(target, ftz),
        },
    }
}
