// Whether the modifiers and the operands of a record fit, and what stands where a mask or selector is left out.
#![tactic(auto)]

ghost use Rattle.std.specs.Prelude.{◌≡◌};
ghost use Rattle.record.specs.Modifiers.{kind_of, is_eq_ne, is_six, is_unsigned_op, is_float_op, cmp_fits, is_f32, ftz_fits, comparison_fits, instruction_modifiers_fit, modifiers_fit};
ghost use Rattle.record.specs.Operands.{type_bits, operand_bits, by_width, some_lane, spare_lanes_fit, mask_fits, highest_digit, digit_fits, spare_digit_fits, digits_fit, lanes_fit, sources_fit, choice_fits, instruction_operands_fit, operands_fit, full_mask, default_digits};

use record::{
    Choice, Cmp6, CmpOp, Comparison, DataType, Digits, Instruction, Kind, LaneWidth, Lanes, Mask,
    Operand, Record,
};

// The widths of what the files hold.
const WORD_BITS: u8 = 32;

const HALF_BITS: u8 = 16;

const DOUBLE_BITS: u8 = 64;

// ---- modifiers

fn kind_of(t: DataType) -> Kind
    ensures { result ≡ kind_of t }
{
    match t {
        DataType::B16 | DataType::B32 | DataType::B64 => Kind::B,
        DataType::U16 | DataType::U32 | DataType::U64 => Kind::U,
        DataType::S16 | DataType::S32 | DataType::S64 => Kind::S,
        DataType::F32 | DataType::F64 => Kind::F,
    }
}

fn is_eq_ne(c: CmpOp) -> bool
    ensures { result ≡ is_eq_ne c }
{
    matches!(c, CmpOp::Six(Cmp6::Eq | Cmp6::Ne))
}

fn is_six(c: CmpOp) -> bool
    ensures { result ≡ is_six c }
{
    matches!(c, CmpOp::Six(_))
}

fn is_unsigned_op(c: CmpOp) -> bool
    ensures { result ≡ is_unsigned_op c }
{
    matches!(c, CmpOp::Unsigned(_))
}

fn is_float_op(c: CmpOp) -> bool
    ensures { result ≡ is_float_op c }
{
    matches!(c, CmpOp::Float(_))
}

fn cmp_fits(k: Kind, c: CmpOp) -> bool
    ensures { result ≡ cmp_fits k c }
{
    match k {
        Kind::B => is_eq_ne(c),
        Kind::S => is_six(c),
        Kind::U => is_six(c) | is_unsigned_op(c),
        Kind::F => is_six(c) | is_float_op(c),
    }
}

fn is_f32(t: DataType) -> bool
    ensures { result ≡ is_f32 t }
{
    t == DataType::F32
}

fn ftz_fits(ftz: bool, stype: DataType) -> bool
    ensures { result ≡ ftz_fits ftz stype }
{
    !ftz | is_f32(stype)
}

fn comparison_fits(s: Comparison) -> bool
    ensures { result ≡ comparison_fits s }
{
    cmp_fits(kind_of(s.stype), s.cmp) & ftz_fits(s.ftz, s.stype)
}

fn instruction_modifiers_fit(i: Instruction) -> bool
    ensures { result ≡ instruction_modifiers_fit i }
{
    match i {
        Instruction::Set { comparison, .. } | Instruction::Setp { comparison, .. } => {
            comparison_fits(comparison)
        }
        _ => true,
    }
}

// ---- operands

fn some_lane(m: Mask) -> bool
    ensures { result ≡ some_lane m }
{
    m.lane0 | m.lane1 | m.lane2 | m.lane3
}

fn spare_lanes_fit(w: LaneWidth, m: Mask) -> bool
    ensures { result ≡ spare_lanes_fit w m }
{
    match w {
        LaneWidth::Half => !m.lane2 & !m.lane3,
        LaneWidth::Byte => true,
    }
}

fn mask_fits(w: LaneWidth, m: Mask) -> bool
    ensures { result ≡ mask_fits w m }
{
    some_lane(m) & spare_lanes_fit(w, m)
}

fn highest_digit(w: LaneWidth) -> u8
    ensures { result ≡ highest_digit w }
{
    match w {
        LaneWidth::Half => 3,
        LaneWidth::Byte => 7,
    }
}

fn digit_fits(w: LaneWidth, k: u8) -> bool
    ensures { result ≡ digit_fits w k }
{
    k <= highest_digit(w)
}

fn spare_digit_fits(w: LaneWidth, k: u8) -> bool
    ensures { result ≡ spare_digit_fits w k }
{
    match w {
        LaneWidth::Half => k == 0,
        LaneWidth::Byte => digit_fits(w, k),
    }
}

fn digits_fit(w: LaneWidth, s: Digits) -> bool
    ensures { result ≡ digits_fit w s }
{
    digit_fits(w, s.lane0)
        & digit_fits(w, s.lane1)
        & spare_digit_fits(w, s.lane2)
        & spare_digit_fits(w, s.lane3)
}

fn lanes_fit(l: Lanes) -> bool
    ensures { result ≡ lanes_fit l }
{
    mask_fits(l.width, l.mask) & digits_fit(l.width, l.asel) & digits_fit(l.width, l.bsel)
}

fn type_bits(t: DataType) -> u8
    ensures { result ≡ type_bits t }
{
    match t {
        DataType::B16 | DataType::U16 | DataType::S16 => HALF_BITS,
        DataType::B32 | DataType::U32 | DataType::S32 | DataType::F32 => WORD_BITS,
        DataType::B64 | DataType::U64 | DataType::S64 | DataType::F64 => DOUBLE_BITS,
    }
}

fn operand_bits(o: Operand) -> u8
    ensures { result ≡ operand_bits o }
{
    match o {
        Operand::Word(_) => WORD_BITS,
        Operand::Half(_) => HALF_BITS,
        Operand::Double(_) => DOUBLE_BITS,
    }
}

fn by_width(t: DataType, o: Operand) -> bool
    ensures { result ≡ by_width t o }
{
    operand_bits(o) == type_bits(t)
}

fn sources_fit(s: Comparison) -> bool
    ensures { result ≡ sources_fit s }
{
    by_width(s.stype, s.a) & by_width(s.stype, s.b)
}

fn choice_fits(s: Choice) -> bool
    ensures { result ≡ choice_fits s }
{
    by_width(s.dtype, s.d) & by_width(s.dtype, s.a) & by_width(s.dtype, s.b)
}

fn instruction_operands_fit(i: Instruction) -> bool
    ensures { result ≡ instruction_operands_fit i }
{
    match i {
        Instruction::Arithmetic { .. } | Instruction::Vset { .. } => true,
        Instruction::VsetLanes { lanes, .. } | Instruction::ArithmeticLanes { lanes, .. } => {
            lanes_fit(lanes)
        }
        Instruction::Set { comparison, .. } | Instruction::Setp { comparison, .. } => {
            sources_fit(comparison)
        }
        Instruction::Selp { choice, .. } | Instruction::Slct { choice, .. } => choice_fits(choice),
    }
}

// ---- the two rules of a record

// Modifiers as the table has them.
pub fn modifiers_fit(r: Record) -> bool
    ensures { result ≡ modifiers_fit r }
{
    instruction_modifiers_fit(r.instruction)
}

// Operands of the right kind; register numbers and pairs aside.
pub fn operands_fit(r: Record) -> bool
    ensures { result ≡ operands_fit r }
{
    instruction_operands_fit(r.instruction)
}

// ---- what stands where a mask or a lane selector is left out

pub fn full_mask(w: LaneWidth) -> Mask
    ensures { result ≡ full_mask w }
{
    let of_four = w == LaneWidth::Byte;
    Mask {
        lane0: true,
        lane1: true,
        lane2: of_four,
        lane3: of_four,
    }
}

fn digits(lane0: u8, lane1: u8, lane2: u8, lane3: u8) -> Digits
    ensures { result ≡ record { lane0 = lane0; lane1 = lane1; lane2 = lane2; lane3 = lane3 } }
{
    Digits {
        lane0,
        lane1,
        lane2,
        lane3,
    }
}

// The selector of a, or of b.
pub fn default_digits(w: LaneWidth, of_b: bool) -> Digits
    ensures { result ≡ default_digits w of_b }
{
    match (w, of_b) {
        (LaneWidth::Half, false) => digits(0, 1, 0, 0),
        (LaneWidth::Byte, false) => digits(0, 1, 2, 3),
        (LaneWidth::Half, true) => digits(2, 3, 0, 0),
        (LaneWidth::Byte, true) => digits(4, 5, 6, 7),
    }
}
