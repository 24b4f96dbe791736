// The record that a line `R` spells.
ghost use Rattle.std.specs.Prelude.{◌≤◌, ◌<◌, length};

use crate::input::{decimal, number, tokens};
use record::{
    Arith, BoolOp, Choice, Cmp6, CmpF, CmpOp, CmpU, Combination, Comparison, Condition, DataType,
    Destination, Digits, Double, Form, Guard, Half, Instruction, LaneArith, LaneWidth, Lanes, Mask,
    Op2, Operand, Pred, Record, Scalar, Selected, Selector, SetType, SlctType, VideoType, Word,
};

// ---- the numbers of a line

const FIRST: usize = 3;

const LAST: usize = 20;

// The first three numbers, and the last twenty: what kinds share stands at the end of a line. Where there are fewer,
// zeros stand in front.
#[derive(Clone, Copy)]
struct Fields {
    first: [u16; FIRST],
    last: [u16; LAST],
}

// A number behind the others, and the one at the front is gone.
fn push(numbers: &mut [u16], x: u16)
    requires { 0 < length numbers.old }
{
    numbers[0] = x;
    numbers.rotate_left(1);
}

fn fields_of(line: &[u8]) -> Fields {
    let mut first = [0; FIRST];
    let mut last = [0; LAST];
    for (k, token) in tokens(line).enumerate() {
        let x = decimal(number(token));
        if k < FIRST {
            push(&mut first, x);
        } else {
            push(&mut last, x);
        }
    }
    Fields { first, last }
}

impl Fields {
    // The last N numbers.
    fn last<const N: usize>(&self) -> [u16; N]
        requires { N ≤ LAST }
    {
        let mut numbers = [0; N];
        numbers.copy_from_slice(&self.last[LAST - N..]);
        numbers
    }
}

// ---- one number

// A free function for each type, here and below, of the data's numbers (second/SAMPLES.md): `impl From<u16>` for a
// type of another crate is refused, as in Rust.

fn video_type(n: u16) -> VideoType {
    match n {
        0 => VideoType::U32,
        _ => VideoType::S32,
    }
}

fn data_type(n: u16) -> DataType {
    match n {
        0 => DataType::B32,
        1 => DataType::B64,
        2 => DataType::U32,
        3 => DataType::U64,
        4 => DataType::S32,
        5 => DataType::S64,
        6 => DataType::F32,
        7 => DataType::F64,
        8 => DataType::B16,
        9 => DataType::U16,
        _ => DataType::S16,
    }
}

fn cmp6(n: u16) -> Cmp6 {
    match n {
        0 => Cmp6::Eq,
        1 => Cmp6::Ne,
        2 => Cmp6::Lt,
        3 => Cmp6::Le,
        4 => Cmp6::Gt,
        _ => Cmp6::Ge,
    }
}

fn cmp_op(n: u16) -> CmpOp {
    match n {
        6 => CmpOp::Unsigned(CmpU::Lo),
        7 => CmpOp::Unsigned(CmpU::Ls),
        8 => CmpOp::Unsigned(CmpU::Hi),
        9 => CmpOp::Unsigned(CmpU::Hs),
        10 => CmpOp::Float(CmpF::Equ),
        11 => CmpOp::Float(CmpF::Neu),
        12 => CmpOp::Float(CmpF::Ltu),
        13 => CmpOp::Float(CmpF::Leu),
        14 => CmpOp::Float(CmpF::Gtu),
        15 => CmpOp::Float(CmpF::Geu),
        16 => CmpOp::Float(CmpF::Num),
        17 => CmpOp::Float(CmpF::Nan),
        _ => CmpOp::Six(cmp6(n)),
    }
}

// ---- vadd vsub vabsdiff vmin vmax vset

fn selector(n: u16) -> Selector {
    match n {
        0 => Selector::B0,
        1 => Selector::B1,
        2 => Selector::B2,
        3 => Selector::B3,
        4 => Selector::H0,
        _ => Selector::H1,
    }
}

fn selected(s: u16, n: u16) -> Selected {
    match s {
        6 => Selected::Whole(Word(n)),
        _ => Selected::Part(Word(n), selector(s)),
    }
}

fn op2(n: u16) -> Op2 {
    match n {
        0 => Op2::Add,
        1 => Op2::Min,
        _ => Op2::Max,
    }
}

fn form(n: u16, d: Word, x: u16, c: Word) -> Form {
    match n {
        0 => Form::Plain { d },
        1 => Form::Merge {
            d,
            sel: selector(x),
            c,
        },
        _ => Form::Combine { op: op2(x), d, c },
    }
}

fn scalar([atype, btype, n, d, x, c, asel, a, bsel, b]: [u16; 10]) -> Scalar {
    Scalar {
        atype: video_type(atype),
        btype: video_type(btype),
        form: form(n, Word(d), x, Word(c)),
        a: selected(asel, a),
        b: selected(bsel, b),
    }
}

fn arith(n: u16) -> Arith {
    match n {
        0 => Arith::Vadd,
        1 => Arith::Vsub,
        2 => Arith::Vabsdiff,
        3 => Arith::Vmin,
        _ => Arith::Vmax,
    }
}

// ---- the forms with 2 and 4

fn lane_width(n: u16) -> LaneWidth {
    match n {
        0 => LaneWidth::Half,
        _ => LaneWidth::Byte,
    }
}

fn mask(m: u16) -> Mask {
    Mask {
        lane0: m % 2 == 1,
        lane1: m / 2 % 2 == 1,
        lane2: m / 4 % 2 == 1,
        lane3: m / 8 % 2 == 1,
    }
}

fn digits(digits: [u16; 4]) -> Digits {
    let [lane0, lane1, lane2, lane3] = digits.map(|n| (n % 256) as u8);
    Digits {
        lane0,
        lane1,
        lane2,
        lane3,
    }
}

fn lanes(fields: Fields) -> Lanes {
    let [width, atype, btype, add, d, named, ..] = fields.last::<17>();
    let [a, a0, a1, a2, a3, b, b0, b1, b2, b3, c] = fields.last::<11>();
    Lanes {
        width: lane_width(width),
        atype: video_type(atype),
        btype: video_type(btype),
        add: add == 1,
        d: Word(d),
        mask: mask(named),
        a: Word(a),
        asel: digits([a0, a1, a2, a3]),
        b: Word(b),
        bsel: digits([b0, b1, b2, b3]),
        c: Word(c),
    }
}

fn lane_arith(n: u16) -> LaneArith {
    match n {
        0 => LaneArith::Scalar(Arith::Vadd),
        1 => LaneArith::Scalar(Arith::Vsub),
        2 => LaneArith::Vavrg,
        3 => LaneArith::Scalar(Arith::Vabsdiff),
        4 => LaneArith::Scalar(Arith::Vmin),
        _ => LaneArith::Scalar(Arith::Vmax),
    }
}

// ---- set setp

fn operand(file: u16, n: u16) -> Operand {
    match file {
        0 => Operand::Word(Word(n)),
        1 => Operand::Double(Double(n)),
        _ => Operand::Half(Half(n)),
    }
}

fn combination(n: u16, c: Condition) -> Combination {
    match n {
        0 => Combination::Alone,
        1 => Combination::With(BoolOp::And, c),
        2 => Combination::With(BoolOp::Or, c),
        _ => Combination::With(BoolOp::Xor, c),
    }
}

fn comparison([cmp, op, inverted, c, ftz, stype, afile, a, bfile, b]: [u16; 10]) -> Comparison {
    let condition = Condition {
        inverted: inverted == 1,
        pred: Pred(c),
    };
    Comparison {
        cmp: cmp_op(cmp),
        combination: combination(op, condition),
        ftz: ftz == 1,
        stype: data_type(stype),
        a: operand(afile, a),
        b: operand(bfile, b),
    }
}

fn set_type(n: u16) -> SetType {
    match n {
        0 => SetType::U32,
        1 => SetType::S32,
        _ => SetType::F32,
    }
}

fn destination(n: u16, p: u16, q: u16) -> Destination {
    match n {
        0 => Destination::One(Pred(p)),
        1 => Destination::Pair(Pred(p), Pred(q)),
        2 => Destination::First(Pred(p)),
        _ => Destination::Second(Pred(q)),
    }
}

// ---- selp slct

fn choice([dtype, dfile, d, afile, a, bfile, b, _]: [u16; 8]) -> Choice {
    Choice {
        dtype: data_type(dtype),
        d: operand(dfile, d),
        a: operand(afile, a),
        b: operand(bfile, b),
    }
}

fn slct_type(n: u16) -> SlctType {
    match n {
        0 => SlctType::S32,
        1 => SlctType::F32 { ftz: false },
        _ => SlctType::F32 { ftz: true },
    }
}

// ---- a record

fn guard(n: u16, p: u16) -> Guard {
    match n {
        0 => Guard::Always,
        _ => Guard::When(Condition {
            inverted: n == 2,
            pred: Pred(p),
        }),
    }
}

fn instruction(kind: u16, fields: Fields) -> Instruction {
    match kind {
        0 => {
            let [op, dtype, sat, ..] = fields.last::<13>();
            Instruction::Arithmetic {
                op: arith(op),
                dtype: video_type(dtype),
                sat: sat == 1,
                scalar: scalar(fields.last()),
            }
        }
        1 => {
            let [cmp, ..] = fields.last::<11>();
            Instruction::Vset {
                cmp: cmp6(cmp),
                scalar: scalar(fields.last()),
            }
        }
        2 => {
            let [cmp, ..] = fields.last::<18>();
            Instruction::VsetLanes {
                cmp: cmp6(cmp),
                lanes: lanes(fields),
            }
        }
        3 => {
            let [dtype, d, ..] = fields.last::<12>();
            Instruction::Set {
                dtype: set_type(dtype),
                d: Word(d),
                comparison: comparison(fields.last()),
            }
        }
        4 => {
            let [form, p, q, ..] = fields.last::<13>();
            Instruction::Setp {
                d: destination(form, p, q),
                comparison: comparison(fields.last()),
            }
        }
        5 => {
            let [.., c] = fields.last::<8>();
            Instruction::Selp {
                choice: choice(fields.last()),
                c: Pred(c),
            }
        }
        6 => {
            let [ctype, .., c] = fields.last::<9>();
            Instruction::Slct {
                ctype: slct_type(ctype),
                choice: choice(fields.last()),
                c: Word(c),
            }
        }
        _ => {
            let [op, dtype, sat, ..] = fields.last::<20>();
            Instruction::ArithmeticLanes {
                op: lane_arith(op),
                dtype: video_type(dtype),
                sat: sat == 1,
                lanes: lanes(fields),
            }
        }
    }
}

pub(crate) fn record_of(line: &[u8]) -> Record {
    let fields = fields_of(line);
    let [n, p, kind] = fields.first;
    Record {
        guard: guard(n, p),
        instruction: instruction(kind, fields),
    }
}
