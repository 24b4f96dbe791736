// Scalar video, and the forms with 2 and 4 lanes, as functions of the numbers that the registers hold.
// Inside, an exact number z is kept as z + 2^36, so that none is below zero.
#![tactic(auto)]

ghost use Rattle.std.specs.Prelude.{◌≡◌, cond, ◌+◌, ◌%◌, ◌^◌, ◌<◌, ◌≤◌, pos, ◌+ℤ◌, ◌-ℤ◌, get_or};
ghost use Rattle.signs.specs.Lists.{tab};
ghost use Rattle.rules.specs.Numbers.{word_size, lane_size, lanes, part_at, exact_of, is_signed, low_of, min_z, max_z, bit, holds_z};
ghost use Rattle.rules.specs.Execution.{selector_width, selector_part, selected_of, arith_z, lowest_z, highest_z, form_size, clamped_of, op2_z, replaced, form_of, arithmetic_of, vset_of, mask_at, numbered, lane_number, merged, lanes_of, average_z, lane_arith_z, sum_z, group_of, arithmetic_lanes_of};
ghost use Rattle.video.specs.Exact.{bias, exactly, Near, Wide, StandFor, AllNear, AllWide, rejoined_of};

use record::{
    Arith, Cmp6, Digits, Form, LaneArith, LaneWidth, Lanes, Mask, Op2, Scalar, Selected, Selector,
    VideoType,
};
use registers::WORD_SIZE;

// What every exact number is moved up by: 2^36.
const BIAS: u64 = 68719476736;
// How many values a half and a byte have.
const HALF_SIZE: u32 = 65536;

const BYTE_SIZE: u32 = 256;

// ---- parts of a word

fn lane_size(w: LaneWidth) -> u32
    ensures { (result ≡ lane_size w) × (256 ≤ result) × (result ≤ 65536) }
{
    match w {
        LaneWidth::Half => HALF_SIZE,
        LaneWidth::Byte => BYTE_SIZE,
    }
}

fn lane_count(w: LaneWidth) -> u8
    ensures { result ≡ lanes w }
{
    match w {
        LaneWidth::Half => 2,
        LaneWidth::Byte => 4,
    }
}

// Part i of x; a word has at most four.
fn part(w: LaneWidth, x: u32, i: u8) -> u32
    ensures { (result ≡ part_at (lane_size w) x i) × (result < lane_size w) }
{
    let n = lane_size(w);
    let x1 = x / n;
    let x2 = x1 / n;
    let x3 = x2 / n;
    // A choice of values, which compiles without a jump.
    let y = either(
        i == 0,
        x,
        either(i == 1, x1, either(i == 2, x2, either(i == 3, x3, 0))),
    );
    y % n
}

fn either(first: bool, x: u32, y: u32) -> u32
    ensures { result ≡ cond first x y }
{
    if first { x } else { y }
}

fn wide(x: u32) -> u64
    ensures { (result ≡ x) × (result < 2 ^ 32) }
{
    x as u64
}

// The word whose parts are the lanes, cut at 32 bits: with lanes below the lane's size nothing is cut.
fn rejoin(w: LaneWidth, l: [u32; 4]) -> u32
    ensures { result ≡ rejoined_of w l }
{
    let l0 = wide(l[0]);
    let l1 = wide(l[1]);
    let l2 = wide(l[2]);
    let l3 = wide(l[3]);
    match w {
        LaneWidth::Half => ((l0 + 65536 * l1) % WORD_SIZE) as u32,
        LaneWidth::Byte => ((l0 + 256 * (l1 + 256 * (l2 + 256 * l3))) % WORD_SIZE) as u32,
    }
}

// ---- exact numbers

fn signed(t: VideoType) -> bool
    ensures { result ≡ is_signed t }
{
    match t {
        VideoType::U32 => false,
        VideoType::S32 => true,
    }
}

fn number(signed: bool, n: u64, x: u32) -> u64
    requires { n ≤ 2 ^ 32 }
    ensures { (exactly result ≡ exact_of signed n x) × Near result }
{
    let v = x as u64;
    // One test, which compiles to a choice of values without a jump.
    if signed & (n <= 2 * v) {
        return v + BIAS - n;
    }
    v + BIAS
}

fn holds(op: Cmp6, x: u64, y: u64) -> bool
    ensures { result ≡ holds_z op (exactly x) (exactly y) }
{
    match op {
        Cmp6::Eq => x == y,
        Cmp6::Ne => x != y,
        Cmp6::Lt => x < y,
        Cmp6::Le => x <= y,
        Cmp6::Gt => y < x,
        Cmp6::Ge => y <= x,
    }
}

fn least(x: u64, y: u64) -> u64
    requires { Wide x × Wide y }
    ensures { (exactly result ≡ min_z (exactly x) (exactly y)) × Wide result }
{
    if x < y { x } else { y }
}

fn most(x: u64, y: u64) -> u64
    requires { Wide x × Wide y }
    ensures { (exactly result ≡ max_z (exactly x) (exactly y)) × Wide result }
{
    if x < y { y } else { x }
}

fn sum(x: u64, y: u64) -> u64
    requires { (bias ≤ x + y) × (x + y < 2 ^ 64) }
    ensures { (exactly result ≡ exactly x +ℤ exactly y) × (result + bias ≡ x + y) }
{
    x + y - BIAS
}

fn difference(x: u64, y: u64) -> u64
    requires { Near x × Near y }
    ensures { (exactly result ≡ exactly x -ℤ exactly y) × Wide result }
{
    x + BIAS - y
}

fn truth(cmp: Cmp6, x: u64, y: u64) -> u64
    ensures { (exactly result ≡ pos (bit (holds_z cmp (exactly x) (exactly y)))) × Wide result }
{
    wide(registers::bit_of(holds(cmp, x, y))) + BIAS
}

// ---- the operations of scalar video

fn apply(op: Arith, x: u64, y: u64) -> u64
    requires { Near x × Near y }
    ensures { (exactly result ≡ arith_z op (exactly x) (exactly y)) × Wide result }
{
    match op {
        Arith::Vadd => sum(x, y),
        Arith::Vsub => difference(x, y),
        Arith::Vabsdiff => {
            if x < y {
                return difference(y, x);
            }
            difference(x, y)
        }
        Arith::Vmin => least(x, y),
        Arith::Vmax => most(x, y),
    }
}

fn lowest(signed: bool, n: u64) -> u64
    requires { n ≤ 2 ^ 32 }
    ensures { (exactly result ≡ lowest_z signed n) × Wide result }
{
    if signed { BIAS - n / 2 } else { BIAS }
}

fn highest(signed: bool, n: u64) -> u64
    requires { (2 ≤ n) × (n ≤ 2 ^ 32) }
    ensures { (exactly result ≡ highest_z signed n) × Wide result }
{
    if signed {
        n / 2 - 1 + BIAS
    } else {
        n - 1 + BIAS
    }
}

fn clamped(sat: bool, signed: bool, n: u64, z: u64) -> u64
    requires le_n { (2 ≤ n) × (n ≤ 2 ^ 32) }
    requires wide { Wide z }
    ensures { (exactly result ≡ clamped_of sat signed n (exactly z)) × Wide result }
{
    if sat {
        return least(most(z, lowest(signed, n)), highest(signed, n));
    }
    z
}

fn combine(op: Op2, x: u64, y: u64) -> u64
    requires { Wide x × Wide y }
    ensures { exactly result ≡ op2_z op (exactly x) (exactly y) }
{
    match op {
        Op2::Add => sum(x, y),
        Op2::Min => least(x, y),
        Op2::Max => most(x, y),
    }
}

// The low 32 bits, and the low bits of a part.
fn low(z: u64) -> u32
    ensures { result ≡ low_of word_size (exactly z) }
{
    (z % WORD_SIZE) as u32
}

fn low_part(w: LaneWidth, z: u64) -> u32
    ensures { (result ≡ low_of (lane_size w) (exactly z)) × (result < lane_size w) }
{
    match w {
        LaneWidth::Half => (z % 65536) as u32,
        LaneWidth::Byte => (z % 256) as u32,
    }
}

fn selector_width(s: Selector) -> LaneWidth
    ensures { result ≡ selector_width s }
{
    match s {
        Selector::B0 => LaneWidth::Byte,
        Selector::B1 => LaneWidth::Byte,
        Selector::B2 => LaneWidth::Byte,
        Selector::B3 => LaneWidth::Byte,
        Selector::H0 => LaneWidth::Half,
        Selector::H1 => LaneWidth::Half,
    }
}

fn selector_part(s: Selector) -> u8
    ensures { result ≡ selector_part s }
{
    match s {
        Selector::B0 => 0,
        Selector::B1 => 1,
        Selector::B2 => 2,
        Selector::B3 => 3,
        Selector::H0 => 0,
        Selector::H1 => 1,
    }
}

fn selected(t: VideoType, s: Selected, x: u32) -> u64
    ensures { (exactly result ≡ selected_of t s x) × Near result }
{
    let sign = signed(t);
    match s {
        Selected::Whole(_) => number(sign, WORD_SIZE, x),
        Selected::Part(_, sel) => {
            let w = selector_width(sel);
            number(sign, wide(lane_size(w)), part(w, x, selector_part(sel)))
        }
    }
}

fn form_size(f: Form) -> u64
    ensures { (result ≡ form_size f) × (2 ≤ result) × (result ≤ 2 ^ 32) }
{
    match f {
        Form::Plain { .. } => WORD_SIZE,
        Form::Merge { sel, .. } => wide(lane_size(selector_width(sel))),
        Form::Combine { .. } => WORD_SIZE,
    }
}

// The word c with v as its part k.
fn replace(w: LaneWidth, k: u8, c: u32, v: u32) -> u32
    requires { v < lane_size w }
    ensures { result ≡ replaced w k c v }
{
    let l = [
        either(0 == k, v, part(w, c, 0)),
        either(1 == k, v, part(w, c, 1)),
        either(2 == k, v, part(w, c, 2)),
        either(3 == k, v, part(w, c, 3)),
    ];
    rejoin(w, l)
}

fn formed(sign: bool, f: Form, c: u32, z: u64) -> u32
    requires { Wide z }
    ensures { result ≡ form_of sign f c (exactly z) }
{
    match f {
        Form::Plain { .. } => low(z),
        Form::Merge { sel, .. } => {
            let w = selector_width(sel);
            replace(w, selector_part(sel), c, low_part(w, z))
        }
        Form::Combine { op, .. } => low(combine(op, z, number(sign, WORD_SIZE, c))),
    }
}

// What vadd, vsub, vabsdiff, vmin or vmax gives of a, b and c.
pub fn arithmetic(op: Arith, dtype: VideoType, sat: bool, s: Scalar, a: u32, b: u32, c: u32) -> u32
    ensures { result ≡ arithmetic_of op dtype sat s a b c }
{
    let ta = s.atype;
    let tb = s.btype;
    let sa = s.a;
    let sb = s.b;
    let f = s.form;
    let sign = signed(dtype);
    let z = apply(op, selected(ta, sa, a), selected(tb, sb, b));
    formed(sign, f, c, clamped(sat, sign, form_size(f), z))
}

// What vset gives of a, b and c.
pub fn vset(cmp: Cmp6, s: Scalar, a: u32, b: u32, c: u32) -> u32
    ensures { result ≡ vset_of cmp s a b c }
{
    let ta = s.atype;
    let tb = s.btype;
    let sa = s.a;
    let sb = s.b;
    let f = s.form;
    formed(
        false,
        f,
        c,
        truth(cmp, selected(ta, sa, a), selected(tb, sb, b)),
    )
}

// ---- the forms with 2 and 4: the lanes are handled as one small group

// Part k, counted through a first and then b.
fn numbered_part(w: LaneWidth, a: u32, b: u32, k: u8) -> u32
    ensures { result ≡ numbered w a b k }
{
    let n = lane_count(w);
    if k < n {
        return part(w, a, k);
    }
    part(w, b, k - n)
}

// What a selector picks for each lane, as an exact number by the type on its side.
fn picked(w: LaneWidth, t: VideoType, s: Digits, a: u32, b: u32) -> [u64; 4]
    ensures { StandFor result (lane_number w t s a b) × AllNear result }
{
    let sign = signed(t);
    let n = wide(lane_size(w));
    [
        number(sign, n, numbered_part(w, a, b, s.lane0)),
        number(sign, n, numbered_part(w, a, b, s.lane1)),
        number(sign, n, numbered_part(w, a, b, s.lane2)),
        number(sign, n, numbered_part(w, a, b, s.lane3)),
    ]
}

// A lane that the mask does not name adds nothing.
fn addend(masked: bool, z: u64) -> u64
    requires { Wide z }
    ensures { (exactly result ≡ cond masked (exactly z) (pos 0)) × Wide result }
{
    if masked { z } else { BIAS }
}

// The sum of the masked lanes' results, which stops at the last lane of the width.
fn total(w: LaneWidth, m: Mask, t: [u64; 4]) -> u64
    requires { AllWide t }
    ensures { (exactly result ≡ sum_z (lanes w) (λ i. cond (mask_at m i) (exactly (get_or t i 0)) (pos 0))) × (result < bias + 2 ^ 36) }
{
    let t0 = addend(m.lane0, t[0]);
    let t1 = addend(m.lane1, t[1]);
    let t2 = addend(m.lane2, t[2]);
    let t3 = addend(m.lane3, t[3]);
    match w {
        LaneWidth::Half => sum(t0, sum(t1, BIAS)),
        LaneWidth::Byte => sum(t0, sum(t1, sum(t2, sum(t3, BIAS)))),
    }
}

fn parts(w: LaneWidth, x: u32) -> [u32; 4]
    ensures { result ≡ tab 4 (part_at (lane_size w) x) }
{
    [part(w, x, 0), part(w, x, 1), part(w, x, 2), part(w, x, 3)]
}

// Masked lanes get the low bits of their results, the others keep c's part.
fn merge(l: Lanes, t: [u64; 4], c: u32) -> u32
    ensures { result ≡ merged l (λ i. low_of (lane_size l.width) (exactly (get_or t i 0))) c }
{
    let w = l.width;
    let m = l.mask;
    let k = parts(w, c);
    let v = [
        either(m.lane0, low_part(w, t[0]), k[0]),
        either(m.lane1, low_part(w, t[1]), k[1]),
        either(m.lane2, low_part(w, t[2]), k[2]),
        either(m.lane3, low_part(w, t[3]), k[3]),
    ];
    rejoin(w, v)
}

// What d gets of the lanes' exact results and c.
fn group(l: Lanes, t: [u64; 4], c: u32) -> u32
    requires { AllWide t }
    ensures { result ≡ group_of l (λ i. exactly (get_or t i 0)) c }
{
    if l.add {
        let w = l.width;
        return low(sum(wide(c) + BIAS, total(w, l.mask, t)));
    }
    merge(l, t, c)
}

// 1 for each lane that holds, 0 for the others.
fn held(cmp: Cmp6, x: [u64; 4], y: [u64; 4]) -> [u64; 4]
    ensures { StandFor result (λ i. pos (bit (holds_z cmp (exactly (get_or x i 0)) (exactly (get_or y i 0))))) × AllWide result }
{
    [
        truth(cmp, x[0], y[0]),
        truth(cmp, x[1], y[1]),
        truth(cmp, x[2], y[2]),
        truth(cmp, x[3], y[3]),
    ]
}

// What vset2 or vset4 gives of a, b and c.
pub fn vset_lanes(cmp: Cmp6, l: Lanes, a: u32, b: u32, c: u32) -> u32
    ensures { result ≡ lanes_of cmp l a b c }
{
    let w = l.width;
    let ta = l.atype;
    let tb = l.btype;
    let x = picked(w, ta, l.asel, a, b);
    let y = picked(w, tb, l.bsel, a, b);
    group(l, held(cmp, x, y), c)
}

// Halving rounds down, BIAS being even; 1 is added first when the sum is at or above zero.
fn average(x: u64, y: u64) -> u64
    requires { Near x × Near y }
    ensures { (exactly result ≡ average_z (exactly x) (exactly y)) × Wide result }
{
    let z = sum(x, y);
    if BIAS <= z {
        return (z + BIAS + 1) / 2;
    }
    (z + BIAS) / 2
}

fn apply_lane(op: LaneArith, x: u64, y: u64) -> u64
    requires { Near x × Near y }
    ensures { (exactly result ≡ lane_arith_z op (exactly x) (exactly y)) × Wide result }
{
    match op {
        LaneArith::Scalar(o) => apply(o, x, y),
        LaneArith::Vavrg => average(x, y),
    }
}

// A lane's result, clamped before the group is merged or added.
fn lane_result(op: LaneArith, signed: bool, sat: bool, n: u64, x: u64, y: u64) -> u64
    requires le_n { (2 ≤ n) × (n ≤ 2 ^ 32) }
    requires near { Near x × Near y }
    ensures { (exactly result ≡ clamped_of sat signed n (lane_arith_z op (exactly x) (exactly y))) × Wide result }
{
    clamped(sat, signed, n, apply_lane(op, x, y))
}

fn results(
    op: LaneArith,
    dtype: VideoType,
    sat: bool,
    w: LaneWidth,
    x: [u64; 4],
    y: [u64; 4],
) -> [u64; 4]
    requires { AllNear x × AllNear y }
    ensures { StandFor result (λ i. clamped_of sat (is_signed dtype) (lane_size w) (lane_arith_z op (exactly (get_or x i 0)) (exactly (get_or y i 0)))) × AllWide result }
{
    let sign = signed(dtype);
    let n = wide(lane_size(w));
    [
        lane_result(op, sign, sat, n, x[0], y[0]),
        lane_result(op, sign, sat, n, x[1], y[1]),
        lane_result(op, sign, sat, n, x[2], y[2]),
        lane_result(op, sign, sat, n, x[3], y[3]),
    ]
}

// What vadd2, vsub2, vavrg2, vabsdiff2, vmin2, vmax2 or one of the six with 4 gives of a, b and c.
pub fn arithmetic_lanes(
    op: LaneArith,
    dtype: VideoType,
    sat: bool,
    l: Lanes,
    a: u32,
    b: u32,
    c: u32,
) -> u32
    ensures { result ≡ arithmetic_lanes_of op dtype sat l a b c }
{
    let w = l.width;
    let ta = l.atype;
    let tb = l.btype;
    let x = picked(w, ta, l.asel, a, b);
    let y = picked(w, tb, l.bsel, a, b);
    group(l, results(op, dtype, sat, w, x, y), c)
}
