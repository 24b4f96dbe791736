// The comparison of set and setp, what they write, and the test of slct, as functions of the numbers that the registers hold.
#![tactic(auto)]

ghost use Rattle.std.specs.Prelude.{◌≡◌, ℕ, ◌*◌, ◌%◌, ◌^◌, ◌<◌, ◌≤◌, refl};
ghost use Rattle.std.specs.Float.{Float, Format, binary32, binary64};
ghost use Rattle.std.specs.Float.Ieee.{of_bits, top, ones, hid, nan};
ghost use Rattle.rules.specs.Execution.{flushed, comparison_of, bool_of, true_of, set_of, not_below_zero};
ghost use Rattle.std.specs.Ordering.{is_lt, is_eq, is_gt};
ghost use Rattle.compare.specs.Mirror.{moved_of, compared_of, six_from, unsigned_from, unordered_by, float_by, wholes_hold, compared_hold};

use record::{BoolOp, Cmp6, CmpF, CmpOp, CmpU, DataType, SetType, SlctType};
use registers::{HALF_SIZE, WORD_SIZE};
use std::cmp::Ordering;

// A compared value is a whole number, a single or a double. Whole numbers of a signed type are moved up by half of their range.
#[derive(Clone, Copy)]
pub enum Compared {
    Whole(u64),
    Single(f32),
    Double(f64),
}

// ---- the bits of a register as a value

// Half as many values as a half has, as a word has, and as a double has.
const HALF_OF_HALVES: u64 = HALF_SIZE / 2;

const HALF_OF_WORDS: u64 = WORD_SIZE / 2;

const HALF_OF_DOUBLES: u64 = 1 << 63;

// f32: the sign's weight and the smallest normal number, as patterns.
const SIGN32: u32 = 0x80000000;

const NORMAL32: u32 = 0x00800000;

// Subnormal patterns become the zero of their sign.
fn flush(ftz: bool, bits: u32) -> u32
    ensures { result ≡ flushed ftz bits }
{
    if ftz & (bits % SIGN32 < NORMAL32) {
        if SIGN32 <= bits { SIGN32 } else { 0 }
    } else {
        bits
    }
}

// A float type: the sign's weight and infinity, as patterns, and the float of a pattern that is no NaN's.
trait Ieee {
    const SIGN: u64;

    const INFINITY: u64;

    ghost SIGN: { ℕ };

    ghost INFINITY: { ℕ };

    ghost format: { Format };

    ghost number: { Self → Float };

    fn nan() -> Self
        ensures { number result ≡ nan };

    fn of_plain(bits: u64) -> Self
        requires { (bits < 2 * SIGN) × (bits % SIGN ≤ INFINITY) }
        ensures { number result ≡ of_bits format bits };

    ghost patterns: { (SIGN ≡ top format) × (INFINITY ≡ ones format * hid format) };
}

impl Ieee for f32 {
    const SIGN: u64 = 0x80000000;

    const INFINITY: u64 = 0x7f800000;

    ghost SIGN = { 0x80000000 };

    ghost INFINITY = { 0x7f800000 };

    ghost format = { binary32 };

    ghost number = { λ x. x };

    ghost patterns = { (refl, refl) };

    fn nan() -> f32 {
        f32::NAN
    }

    fn of_plain(bits: u64) -> f32 {
        f32::from_bits(bits as u32)
    }
}

impl Ieee for f64 {
    const SIGN: u64 = 0x8000000000000000;

    const INFINITY: u64 = 0x7ff0000000000000;

    ghost SIGN = { 0x8000000000000000 };

    ghost INFINITY = { 0x7ff0000000000000 };

    ghost format = { binary64 };

    ghost number = { λ x. x };

    ghost patterns = { (refl, refl) };

    fn nan() -> f64 {
        f64::NAN
    }

    fn of_plain(bits: u64) -> f64 {
        f64::from_bits(bits)
    }
}

// The float of a pattern: a NaN for every NaN pattern.
fn float_of<F: Ieee>(bits: u64) -> F
    requires { bits < 2 * F.SIGN }
    ensures { F.number result ≡ of_bits F.format bits }
{
    if F::INFINITY < bits % F::SIGN {
        F::nan()
    } else {
        F::of_plain(bits)
    }
}

// A signed number with half of its range on either side of zero, moved up by that half.
#[tactic(auto, unfolding(crate::specs::Mirror::moved_of))]
fn moved(half: u64, x: u64) -> u64
    requires { half ≤ 2 ^ 63 }
    ensures { result ≡ moved_of half x }
{
    if x < half { x + half } else { x - half }
}

// A type of 32 bits looks at the low 32, one of 16 at the low 16.
#[tactic(auto, unfolding(crate::specs::Mirror::compared_of))]
fn value(t: DataType, ftz: bool, x: u64) -> Compared
    ensures { result ≡ compared_of t ftz x }
{
    match t {
        DataType::B16 | DataType::U16 => Compared::Whole(x % HALF_SIZE),
        DataType::B32 | DataType::U32 => Compared::Whole(x % WORD_SIZE),
        DataType::B64 | DataType::U64 => Compared::Whole(x),
        DataType::S16 => Compared::Whole(moved(HALF_OF_HALVES, x % HALF_SIZE)),
        DataType::S32 => Compared::Whole(moved(HALF_OF_WORDS, x % WORD_SIZE)),
        DataType::S64 => Compared::Whole(moved(HALF_OF_DOUBLES, x)),
        DataType::F32 => Compared::Single(float_of(u64::from(flush(ftz, registers::low_word(x))))),
        DataType::F64 => Compared::Double(float_of(x)),
    }
}

// ---- comparisons, from the order of the two

fn six_holds(op: Cmp6, order: Ordering) -> bool
    ensures { result ≡ six_from op (is_lt order) (is_eq order) (is_gt order) }
{
    match op {
        Cmp6::Eq => order.is_eq(),
        Cmp6::Ne => order.is_ne(),
        Cmp6::Lt => order.is_lt(),
        Cmp6::Le => order.is_le(),
        Cmp6::Gt => order.is_gt(),
        Cmp6::Ge => order.is_ge(),
    }
}

fn unsigned_holds(op: CmpU, order: Ordering) -> bool
    ensures { result ≡ unsigned_from op (is_lt order) (is_gt order) }
{
    match op {
        CmpU::Lo => order.is_lt(),
        CmpU::Ls => order.is_le(),
        CmpU::Hi => order.is_gt(),
        CmpU::Hs => order.is_ge(),
    }
}

fn wholes_hold(op: CmpOp, x: u64, y: u64) -> bool
    ensures { result ≡ wholes_hold op x y }
{
    match op {
        CmpOp::Six(s) => six_holds(s, x.cmp(&y)),
        CmpOp::Unsigned(u) => unsigned_holds(u, x.cmp(&y)),
        CmpOp::Float(_) => false,
    }
}

// Unordered forms are true with a NaN, which has no order.
fn unordered_holds(op: CmpF, order: Option<Ordering>) -> bool
    ensures { result ≡ unordered_by op order }
{
    let Some(o) = order else {
        return !matches!(op, CmpF::Num);
    };
    match op {
        CmpF::Equ => o.is_eq(),
        CmpF::Neu => o.is_ne(),
        CmpF::Ltu => o.is_lt(),
        CmpF::Leu => o.is_le(),
        CmpF::Gtu => o.is_gt(),
        CmpF::Geu => o.is_ge(),
        CmpF::Num => true,
        CmpF::Nan => false,
    }
}

// Ordered forms are false with a NaN.
fn floats_hold<F: PartialOrd + Drop>(op: CmpOp, x: F, y: F) -> bool
    ensures { result ≡ float_by op (F.partial_cmp x y) }
{
    match (op, x.partial_cmp(&y)) {
        (CmpOp::Six(s), Some(order)) => six_holds(s, order),
        (CmpOp::Six(_), None) | (CmpOp::Unsigned(_), _) => false,
        (CmpOp::Float(f), order) => unordered_holds(f, order),
    }
}

#[tactic(auto, unfolding(crate::specs::Mirror::compared_hold))]
fn compare(op: CmpOp, x: Compared, y: Compared) -> bool
    ensures { result ≡ compared_hold op x y }
{
    match (x, y) {
        (Compared::Whole(a), Compared::Whole(b)) => wholes_hold(op, a, b),
        (Compared::Single(a), Compared::Single(b)) => floats_hold(op, a, b),
        (Compared::Double(a), Compared::Double(b)) => floats_hold(op, a, b),
        _ => false,
    }
}

// t: whether the comparison of a and b holds.
pub fn comparison(op: CmpOp, ftz: bool, stype: DataType, a: u64, b: u64) -> bool
    ensures { result ≡ comparison_of op ftz stype a b }
{
    compare(op, value(stype, ftz, a), value(stype, ftz, b))
}

// ---- what is written, and how is chosen

// BoolOp(t, c)
pub fn bool_op(op: BoolOp, t: bool, c: bool) -> bool
    ensures { result ≡ bool_of op t c }
{
    match op {
        BoolOp::And => t & c,
        BoolOp::Or => t | c,
        BoolOp::Xor => t ^ c,
    }
}

fn true_of(dtype: SetType) -> u32
    ensures { result ≡ true_of dtype }
{
    match dtype {
        SetType::U32 | SetType::S32 => u32::MAX,
        SetType::F32 => 1f32.to_bits(),
    }
}

// What set writes.
pub fn set_value(dtype: SetType, t: bool) -> u32
    ensures { result ≡ set_of dtype t }
{
    if t { true_of(dtype) } else { 0 }
}

// Whether slct's c is at or above zero; with `ftz` a subnormal c counts as zero (T-02).
pub fn not_below_zero(ctype: SlctType, c: u32) -> bool
    ensures { result ≡ not_below_zero ctype c }
{
    match ctype {
        SlctType::S32 => 0 <= c.cast_signed(),
        SlctType::F32 { ftz } => 0.0 <= float_of::<f32>(u64::from(flush(ftz, c))),
    }
}
