// The names of document 01 and of T-01, each as one number (base/specs/Pack.antt): of opcodes, modifiers and scalar selectors, spelled here and nowhere else in code.
// Masks and lane selectors are made of digits and stand in crate masks.
#![tactic(auto)]

ghost use Rattle.base.specs.Pack.{NumberSpells};
ghost use Rattle.names.specs.Back.{Means, OpcodeBack, VideoBack, SetTypeBack, TypeBack, SixBack, CmpBack, BoolBack, Op2Back, SelectorBack};
ghost use Rattle.rules.specs.Names.{video_type_name, set_type_name, type_name, six_name, cmp_name, bool_name, op2_name, arith_name, lanes_name, lane_arith_name, selector_name};

use record::{
    Arith, BoolOp, Cmp6, CmpF, CmpOp, CmpU, DataType, LaneArith, LaneWidth, Op2, Selector, SetType,
    VideoType,
};

// ---- opcodes

// Numbers, not texts: see base::RADIX.
pub const VADD: u64 = 211366134;

pub const VSUB: u64 = 207452662;

pub const VABSDIFF: u64 = 57873130851971318;

pub const VMIN: u64 = 232421110;

pub const VMAX: u64 = 253261558;

pub const VSET: u64 = 244939254;

pub const VSET2: u64 = 13666712054;

pub const VSET4: u64 = 14203582966;

pub const VADD2: u64 = 13633138934;

pub const VSUB2: u64 = 13629225462;

pub const VAVRG2: u64 = 1745876791542;

pub const VABSDIFF2: u64 = 3660752832748368118;

pub const VMIN2: u64 = 13654193910;

pub const VMAX2: u64 = 13675034358;

pub const VADD4: u64 = 14170009846;

pub const VSUB4: u64 = 14166096374;

pub const VAVRG4: u64 = 1814596268278;

pub const VABSDIFF4: u64 = 3804868020824223990;

pub const VMIN4: u64 = 14191064822;

pub const VMAX4: u64 = 14211905270;

pub const SET: u64 = 1913587;

pub const SETP: u64 = 236794611;

pub const SELP: u64 = 236663539;

pub const SLCT: u64 = 244905587;

// ---- types

pub const B16: u64 = 891106;

pub const B32: u64 = 825826;

pub const B64: u64 = 858978;

pub const U16: u64 = 891125;

pub const U32: u64 = 825845;

pub const U64: u64 = 858997;

pub const S16: u64 = 891123;

pub const S32: u64 = 825843;

pub const S64: u64 = 858995;

pub const F32: u64 = 825830;

pub const F64: u64 = 858982;

// ---- comparisons

pub const EQ: u64 = 14565;

pub const NE: u64 = 13038;

pub const LT: u64 = 14956;

pub const LE: u64 = 13036;

pub const GT: u64 = 14951;

pub const GE: u64 = 13031;

pub const LO: u64 = 14316;

pub const LS: u64 = 14828;

pub const HI: u64 = 13544;

pub const HS: u64 = 14824;

pub const EQU: u64 = 1931493;

pub const NEU: u64 = 1929966;

pub const LTU: u64 = 1931884;

pub const LEU: u64 = 1929964;

pub const GTU: u64 = 1931879;

pub const GEU: u64 = 1929959;

pub const NUM: u64 = 1800942;

pub const NAN: u64 = 1814766;

// ---- other modifiers

pub const AND: u64 = 1652577;

pub const OR: u64 = 14703;

pub const XOR: u64 = 1882104;

pub const ADD: u64 = 1651297;

pub const MIN: u64 = 1815789;

pub const MAX: u64 = 1978605;

pub const SAT: u64 = 1913075;

pub const FTZ: u64 = 2013798;

// ---- selectors

pub const B0: u64 = 6242;

pub const B1: u64 = 6370;

pub const B2: u64 = 6498;

pub const B3: u64 = 6626;

pub const H0: u64 = 6248;

pub const H1: u64 = 6376;

// ---- the number of each choice's name

// Each function here and below is a list of document 01. No caller is generic over the choices: a trait would only rename.

pub fn video_number(t: VideoType) -> u64
    ensures { NumberSpells 3 result (video_type_name t) }
{
    match t {
        VideoType::U32 => U32,
        VideoType::S32 => S32,
    }
}

pub fn set_type_number(t: SetType) -> u64
    ensures { NumberSpells 3 result (set_type_name t) }
{
    match t {
        SetType::U32 => U32,
        SetType::S32 => S32,
        SetType::F32 => F32,
    }
}

pub fn type_number(t: DataType) -> u64
    ensures { NumberSpells 3 result (type_name t) }
{
    match t {
        DataType::B16 => B16,
        DataType::B32 => B32,
        DataType::B64 => B64,
        DataType::U16 => U16,
        DataType::U32 => U32,
        DataType::U64 => U64,
        DataType::S16 => S16,
        DataType::S32 => S32,
        DataType::S64 => S64,
        DataType::F32 => F32,
        DataType::F64 => F64,
    }
}

pub fn six_number(t: Cmp6) -> u64
    ensures { NumberSpells 2 result (six_name t) }
{
    match t {
        Cmp6::Eq => EQ,
        Cmp6::Ne => NE,
        Cmp6::Lt => LT,
        Cmp6::Le => LE,
        Cmp6::Gt => GT,
        Cmp6::Ge => GE,
    }
}

pub fn cmp_number(t: CmpOp) -> u64
    ensures { NumberSpells 3 result (cmp_name t) }
{
    match t {
        CmpOp::Six(c) => six_number(c),
        CmpOp::Unsigned(CmpU::Lo) => LO,
        CmpOp::Unsigned(CmpU::Ls) => LS,
        CmpOp::Unsigned(CmpU::Hi) => HI,
        CmpOp::Unsigned(CmpU::Hs) => HS,
        CmpOp::Float(CmpF::Equ) => EQU,
        CmpOp::Float(CmpF::Neu) => NEU,
        CmpOp::Float(CmpF::Ltu) => LTU,
        CmpOp::Float(CmpF::Leu) => LEU,
        CmpOp::Float(CmpF::Gtu) => GTU,
        CmpOp::Float(CmpF::Geu) => GEU,
        CmpOp::Float(CmpF::Num) => NUM,
        CmpOp::Float(CmpF::Nan) => NAN,
    }
}

pub fn bool_number(t: BoolOp) -> u64
    ensures { NumberSpells 3 result (bool_name t) }
{
    match t {
        BoolOp::And => AND,
        BoolOp::Or => OR,
        BoolOp::Xor => XOR,
    }
}

pub fn op2_number(t: Op2) -> u64
    ensures { NumberSpells 3 result (op2_name t) }
{
    match t {
        Op2::Add => ADD,
        Op2::Min => MIN,
        Op2::Max => MAX,
    }
}

pub fn arith_number(t: Arith) -> u64
    ensures { NumberSpells 8 result (arith_name t) }
{
    match t {
        Arith::Vadd => VADD,
        Arith::Vsub => VSUB,
        Arith::Vabsdiff => VABSDIFF,
        Arith::Vmin => VMIN,
        Arith::Vmax => VMAX,
    }
}

pub fn lanes_number(t: LaneWidth) -> u64
    ensures { NumberSpells 5 result (lanes_name t) }
{
    match t {
        LaneWidth::Half => VSET2,
        LaneWidth::Byte => VSET4,
    }
}

pub fn lane_arith_number(t: LaneArith, w: LaneWidth) -> u64
    ensures { NumberSpells 9 result (lane_arith_name t w) }
{
    match (t, w) {
        (LaneArith::Scalar(Arith::Vadd), LaneWidth::Half) => VADD2,
        (LaneArith::Scalar(Arith::Vsub), LaneWidth::Half) => VSUB2,
        (LaneArith::Vavrg, LaneWidth::Half) => VAVRG2,
        (LaneArith::Scalar(Arith::Vabsdiff), LaneWidth::Half) => VABSDIFF2,
        (LaneArith::Scalar(Arith::Vmin), LaneWidth::Half) => VMIN2,
        (LaneArith::Scalar(Arith::Vmax), LaneWidth::Half) => VMAX2,
        (LaneArith::Scalar(Arith::Vadd), LaneWidth::Byte) => VADD4,
        (LaneArith::Scalar(Arith::Vsub), LaneWidth::Byte) => VSUB4,
        (LaneArith::Vavrg, LaneWidth::Byte) => VAVRG4,
        (LaneArith::Scalar(Arith::Vabsdiff), LaneWidth::Byte) => VABSDIFF4,
        (LaneArith::Scalar(Arith::Vmin), LaneWidth::Byte) => VMIN4,
        (LaneArith::Scalar(Arith::Vmax), LaneWidth::Byte) => VMAX4,
    }
}

pub fn selector_number(t: Selector) -> u64
    ensures { NumberSpells 2 result (selector_name t) }
{
    match t {
        Selector::B0 => B0,
        Selector::B1 => B1,
        Selector::B2 => B2,
        Selector::B3 => B3,
        Selector::H0 => H0,
        Selector::H1 => H1,
    }
}

// ---- what a number's name stands for

#[derive(Clone, Copy)]
pub enum Opcode {
    Scalar(Arith),
    Vset,
    Lanes(LaneWidth),
    LaneArithmetic(LaneArith, LaneWidth),
    Set,
    Setp,
    Selp,
    Slct,
}

// Each function below is a list of document 01, as video_number. No TryFrom: the other types are of crate record.
pub fn opcode_of(x: u64) -> Option<Opcode>
    ensures { Means OpcodeBack x result }
{
    match x {
        VADD => Some(Opcode::Scalar(Arith::Vadd)),
        VSUB => Some(Opcode::Scalar(Arith::Vsub)),
        VABSDIFF => Some(Opcode::Scalar(Arith::Vabsdiff)),
        VMIN => Some(Opcode::Scalar(Arith::Vmin)),
        VMAX => Some(Opcode::Scalar(Arith::Vmax)),
        VSET => Some(Opcode::Vset),
        VSET2 => Some(Opcode::Lanes(LaneWidth::Half)),
        VSET4 => Some(Opcode::Lanes(LaneWidth::Byte)),
        VADD2 => Some(Opcode::LaneArithmetic(LaneArith::Scalar(Arith::Vadd), LaneWidth::Half)),
        VSUB2 => Some(Opcode::LaneArithmetic(LaneArith::Scalar(Arith::Vsub), LaneWidth::Half)),
        VAVRG2 => Some(Opcode::LaneArithmetic(LaneArith::Vavrg, LaneWidth::Half)),
        VABSDIFF2 => Some(Opcode::LaneArithmetic(
            LaneArith::Scalar(Arith::Vabsdiff),
            LaneWidth::Half,
        )),
        VMIN2 => Some(Opcode::LaneArithmetic(LaneArith::Scalar(Arith::Vmin), LaneWidth::Half)),
        VMAX2 => Some(Opcode::LaneArithmetic(LaneArith::Scalar(Arith::Vmax), LaneWidth::Half)),
        VADD4 => Some(Opcode::LaneArithmetic(LaneArith::Scalar(Arith::Vadd), LaneWidth::Byte)),
        VSUB4 => Some(Opcode::LaneArithmetic(LaneArith::Scalar(Arith::Vsub), LaneWidth::Byte)),
        VAVRG4 => Some(Opcode::LaneArithmetic(LaneArith::Vavrg, LaneWidth::Byte)),
        VABSDIFF4 => Some(Opcode::LaneArithmetic(
            LaneArith::Scalar(Arith::Vabsdiff),
            LaneWidth::Byte,
        )),
        VMIN4 => Some(Opcode::LaneArithmetic(LaneArith::Scalar(Arith::Vmin), LaneWidth::Byte)),
        VMAX4 => Some(Opcode::LaneArithmetic(LaneArith::Scalar(Arith::Vmax), LaneWidth::Byte)),
        SET => Some(Opcode::Set),
        SETP => Some(Opcode::Setp),
        SELP => Some(Opcode::Selp),
        SLCT => Some(Opcode::Slct),
        _ => None,
    }
}

pub fn video_of(x: u64) -> Option<VideoType>
    ensures { Means VideoBack x result }
{
    match x {
        U32 => Some(VideoType::U32),
        S32 => Some(VideoType::S32),
        _ => None,
    }
}

pub fn set_type_of(x: u64) -> Option<SetType>
    ensures { Means SetTypeBack x result }
{
    match x {
        U32 => Some(SetType::U32),
        S32 => Some(SetType::S32),
        F32 => Some(SetType::F32),
        _ => None,
    }
}

pub fn type_of(x: u64) -> Option<DataType>
    ensures { Means TypeBack x result }
{
    match x {
        B16 => Some(DataType::B16),
        B32 => Some(DataType::B32),
        B64 => Some(DataType::B64),
        U16 => Some(DataType::U16),
        U32 => Some(DataType::U32),
        U64 => Some(DataType::U64),
        S16 => Some(DataType::S16),
        S32 => Some(DataType::S32),
        S64 => Some(DataType::S64),
        F32 => Some(DataType::F32),
        F64 => Some(DataType::F64),
        _ => None,
    }
}

pub fn six_of(x: u64) -> Option<Cmp6>
    ensures { Means SixBack x result }
{
    match x {
        EQ => Some(Cmp6::Eq),
        NE => Some(Cmp6::Ne),
        LT => Some(Cmp6::Lt),
        LE => Some(Cmp6::Le),
        GT => Some(Cmp6::Gt),
        GE => Some(Cmp6::Ge),
        _ => None,
    }
}

pub fn cmp_of(x: u64) -> Option<CmpOp>
    ensures { Means CmpBack x result }
{
    match x {
        EQ => Some(CmpOp::Six(Cmp6::Eq)),
        NE => Some(CmpOp::Six(Cmp6::Ne)),
        LT => Some(CmpOp::Six(Cmp6::Lt)),
        LE => Some(CmpOp::Six(Cmp6::Le)),
        GT => Some(CmpOp::Six(Cmp6::Gt)),
        GE => Some(CmpOp::Six(Cmp6::Ge)),
        LO => Some(CmpOp::Unsigned(CmpU::Lo)),
        LS => Some(CmpOp::Unsigned(CmpU::Ls)),
        HI => Some(CmpOp::Unsigned(CmpU::Hi)),
        HS => Some(CmpOp::Unsigned(CmpU::Hs)),
        EQU => Some(CmpOp::Float(CmpF::Equ)),
        NEU => Some(CmpOp::Float(CmpF::Neu)),
        LTU => Some(CmpOp::Float(CmpF::Ltu)),
        LEU => Some(CmpOp::Float(CmpF::Leu)),
        GTU => Some(CmpOp::Float(CmpF::Gtu)),
        GEU => Some(CmpOp::Float(CmpF::Geu)),
        NUM => Some(CmpOp::Float(CmpF::Num)),
        NAN => Some(CmpOp::Float(CmpF::Nan)),
        _ => None,
    }
}

pub fn bool_of(x: u64) -> Option<BoolOp>
    ensures { Means BoolBack x result }
{
    match x {
        AND => Some(BoolOp::And),
        OR => Some(BoolOp::Or),
        XOR => Some(BoolOp::Xor),
        _ => None,
    }
}

pub fn op2_of(x: u64) -> Option<Op2>
    ensures { Means Op2Back x result }
{
    match x {
        ADD => Some(Op2::Add),
        MIN => Some(Op2::Min),
        MAX => Some(Op2::Max),
        _ => None,
    }
}

pub fn selector_of(x: u64) -> Option<Selector>
    ensures { Means SelectorBack x result }
{
    match x {
        B0 => Some(Selector::B0),
        B1 => Some(Selector::B1),
        B2 => Some(Selector::B2),
        B3 => Some(Selector::B3),
        H0 => Some(Selector::H0),
        H1 => Some(Selector::H1),
        _ => None,
    }
}
