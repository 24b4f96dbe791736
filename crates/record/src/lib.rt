// What one line of PTX says, as a record. Reading, writing and executing stand on it; specs/ says when a record is legal, crates fits and legal test it.
// Where it costs nothing the types rule out what a line cannot say; an illegal record can still be made.

#![tactic(auto)]

ghost use Rattle.std.specs.Prelude.{◌≡◌, ℕ};
ghost use Rattle.record.specs.declared.File.{File};
ghost use Rattle.record.specs.declared.File.TheVariants.{Words, Halves, Doubles, Preds};
ghost use Rattle.record.specs.Registers.{reg, count_of, is_inside};

// Word, half-word (T-06), double-word and predicate numbers are kept apart. Each holds every number that a line can spell, 0 to 999.
// Document 01 names three one-number types, T-06 the fourth; what the four share is the trait Numbered.
#[derive(Clone, Copy, PartialEq, Eq)]
pub struct Word(pub u16);

#[derive(Clone, Copy, PartialEq, Eq)]
pub struct Half(pub u16);

#[derive(Clone, Copy, PartialEq, Eq)]
pub struct Double(pub u16);

#[derive(Clone, Copy, PartialEq, Eq)]
pub struct Pred(pub u16);

// The four lent files, in the order in which they are lent.
#[derive(Clone, Copy, PartialEq, Eq)]
pub enum File {
    Words,
    Halves,
    Doubles,
    Preds,
}

// The sizes of the files.
pub const WORDS: u16 = 64;

pub const HALVES: u16 = 32;

pub const DOUBLES: u16 = 32;

pub const PREDS: u16 = 16;

impl File {
    // How many registers it has.
    pub fn size(self) -> u16
        ensures { result ≡ count_of self }
    {
        match self {
            File::Words => WORDS,
            File::Halves => HALVES,
            File::Doubles => DOUBLES,
            File::Preds => PREDS,
        }
    }
}

// What the four kinds of registers share: a file, what it holds (0 past its end), a number there.
pub trait Numbered: Copy {
    type Value: Copy;

    const FILE: File;

    const ZERO: Self::Value;

    ghost FILE: { File };

    ghost ZERO: { Self.Value };

    ghost number: { Self → ℕ };

    fn number(self) -> u16
        ensures { result ≡ number self };
}

impl Numbered for Word {
    type Value = u32;

    const FILE: File = File::Words;

    const ZERO: u32 = 0;

    ghost FILE = { Words };

    ghost ZERO = { 0 };

    ghost number = { λ w. w.0 };

    fn number(self) -> u16 {
        self.0
    }
}

impl Numbered for Half {
    type Value = u16;

    const FILE: File = File::Halves;

    const ZERO: u16 = 0;

    ghost FILE = { Halves };

    ghost ZERO = { 0 };

    ghost number = { λ h. h.0 };

    fn number(self) -> u16 {
        self.0
    }
}

impl Numbered for Double {
    type Value = u64;

    const FILE: File = File::Doubles;

    const ZERO: u64 = 0;

    ghost FILE = { Doubles };

    ghost ZERO = { 0 };

    ghost number = { λ d. d.0 };

    fn number(self) -> u16 {
        self.0
    }
}

impl Numbered for Pred {
    type Value = u8;

    const FILE: File = File::Preds;

    const ZERO: u8 = 0;

    ghost FILE = { Preds };

    ghost ZERO = { 0 };

    ghost number = { λ p. p.0 };

    fn number(self) -> u16 {
        self.0
    }
}

// Whether the register is in its file.
pub fn in_file<R: Numbered>(x: R) -> bool
    ensures { result ≡ is_inside (reg R.FILE (R.number x)) }
{
    x.number() < R::FILE.size()
}

// T is u32 or s32.
#[derive(Clone, Copy, PartialEq, Eq)]
pub enum VideoType {
    U32,
    S32,
}

// set's dtype: u32 s32 f32.
#[derive(Clone, Copy)]
pub enum SetType {
    U32,
    S32,
    F32,
}

// The second type of slct: `ftz` stands only with f32.
// Not Option, which would not say s32: `head_names` and `not_below_zero` (rules/specs) go by the two names.
#[derive(Clone, Copy)]
pub enum SlctType {
    S32,
    F32 { ftz: bool },
}

// The types of stype, of selp, and of slct's dtype.
#[derive(Clone, Copy, PartialEq, Eq)]
pub enum DataType {
    B16,
    B32,
    B64,
    U16,
    U32,
    U64,
    S16,
    S32,
    S64,
    F32,
    F64,
}

// A type's letter.
#[derive(Clone, Copy, PartialEq, Eq)]
pub enum Kind {
    B,
    U,
    S,
    F,
}

// CMP6 is eq ne lt le gt ge.
#[derive(Clone, Copy, PartialEq, Eq)]
pub enum Cmp6 {
    Eq,
    Ne,
    Lt,
    Le,
    Gt,
    Ge,
}

// What u has besides CMP6.
#[derive(Clone, Copy)]
pub enum CmpU {
    Lo,
    Ls,
    Hi,
    Hs,
}

// What f has besides CMP6.
#[derive(Clone, Copy)]
pub enum CmpF {
    Equ,
    Neu,
    Ltu,
    Leu,
    Gtu,
    Geu,
    Num,
    Nan,
}

// CmpOp. `lo` and `lt` are not merged: they are two comparisons.
#[derive(Clone, Copy)]
pub enum CmpOp {
    Six(Cmp6),
    Unsigned(CmpU),
    Float(CmpF),
}

// BoolOp is and, or, xor.
#[derive(Clone, Copy)]
pub enum BoolOp {
    And,
    Or,
    Xor,
}

// OP2 is add min max.
#[derive(Clone, Copy)]
pub enum Op2 {
    Add,
    Min,
    Max,
}

// The scalar arithmetic opcodes.
#[derive(Clone, Copy)]
pub enum Arith {
    Vadd,
    Vsub,
    Vabsdiff,
    Vmin,
    Vmax,
}

// What the forms with 2 and 4 compute lane by lane (T-01): as scalar arithmetic does, or the average.
// Not Option, where None would be vavrg: `lane_arith_z` and `lane_arith_stem` (rules/specs) go by the two names.
#[derive(Clone, Copy)]
pub enum LaneArith {
    Scalar(Arith),
    Vavrg,
}

// A predicate with optional `!`.
#[derive(Clone, Copy)]
pub struct Condition {
    pub inverted: bool,
    pub pred: Pred,
}

// `@`, optional `!`, a predicate; or no guard.
// Not Option: `guard_holds`, under `run`, and `GuardSpells` (rules/specs) go by the two names.
#[derive(Clone, Copy)]
pub enum Guard {
    Always,
    When(Condition),
}

// A last operand c exactly when BoolOp is present.
// Not Option of a pair: `combined_of`, under `run`, and `combination_last` (rules/specs) go by the two names.
#[derive(Clone, Copy)]
pub enum Combination {
    Alone,
    With(BoolOp, Condition),
}

// The selectors of scalar video: b0 b1 b2 b3 h0 h1.
#[derive(Clone, Copy)]
pub enum Selector {
    B0,
    B1,
    B2,
    B3,
    H0,
    H1,
}

// a or b of scalar video: its selector is optional.
#[derive(Clone, Copy)]
pub enum Selected {
    Whole(Word),
    Part(Word, Selector),
}

// Without OP2 either `d, a, b` or `d.sel, a, b, c`; with OP2 `d, a, b, c`, d bare.
#[derive(Clone, Copy)]
pub enum Form {
    Plain { d: Word },
    Merge { d: Word, sel: Selector, c: Word },
    Combine { op: Op2, d: Word, c: Word },
}

// What scalar arithmetic and vset share.
#[derive(Clone, Copy)]
pub struct Scalar {
    pub atype: VideoType,
    pub btype: VideoType,
    pub form: Form,
    pub a: Selected,
    pub b: Selected,
}

// The lane width: a form with 2 has two lanes of a half, one with 4 four of a byte.
#[derive(Clone, Copy, PartialEq, Eq)]
pub enum LaneWidth {
    Half,
    Byte,
}

// The lanes that a mask names. A form with 2 has lanes 0 and 1: the others are spare room.
// Not an array, nor are Digits: `mask_at` and `digit_at` (rules/specs), under `run`, go by the fields.
#[derive(Clone, Copy, PartialEq, Eq)]
pub struct Mask {
    pub lane0: bool,
    pub lane1: bool,
    pub lane2: bool,
    pub lane3: bool,
}

// A lane selector: for each lane the part that it takes. The lanes that a form with 2 has not are spare room.
#[derive(Clone, Copy, PartialEq, Eq)]
pub struct Digits {
    pub lane0: u8,
    pub lane1: u8,
    pub lane2: u8,
    pub lane3: u8,
}

// What the forms with 2 and 4 share: `d, a, b, c` with a mask on d and selectors on a and b. A bare operand holds its default.
#[derive(Clone, Copy)]
pub struct Lanes {
    pub width: LaneWidth,
    pub atype: VideoType,
    pub btype: VideoType,
    pub add: bool,
    pub d: Word,
    pub mask: Mask,
    pub a: Word,
    pub asel: Digits,
    pub b: Word,
    pub bsel: Digits,
    pub c: Word,
}

// An operand by width.
#[derive(Clone, Copy)]
pub enum Operand {
    Word(Word),
    Half(Half),
    Double(Double),
}

// What set and setp share: t, and what it is combined with.
#[derive(Clone, Copy)]
pub struct Comparison {
    pub cmp: CmpOp,
    pub combination: Combination,
    pub ftz: bool,
    pub stype: DataType,
    pub a: Operand,
    pub b: Operand,
}

// d of setp is one predicate, or a pair of which one may be `_`. `%p1` and `%p1|_` are two records.
#[derive(Clone, Copy)]
pub enum Destination {
    One(Pred),
    Pair(Pred, Pred),
    First(Pred),
    Second(Pred),
}

// What selp and slct share: d, a, b by width.
#[derive(Clone, Copy)]
pub struct Choice {
    pub dtype: DataType,
    pub d: Operand,
    pub a: Operand,
    pub b: Operand,
}

// One case for each kind of opcode: vadd vsub vabsdiff vmin vmax; vset; vset2 vset4; vadd2 .. vmax2 vadd4 .. vmax4; set; setp; selp; slct.
#[derive(Clone, Copy)]
pub enum Instruction {
    Arithmetic {
        op: Arith,
        dtype: VideoType,
        sat: bool,
        scalar: Scalar,
    },
    Vset {
        cmp: Cmp6,
        scalar: Scalar,
    },
    VsetLanes {
        cmp: Cmp6,
        lanes: Lanes,
    },
    ArithmeticLanes {
        op: LaneArith,
        dtype: VideoType,
        sat: bool,
        lanes: Lanes,
    },
    Set {
        dtype: SetType,
        d: Word,
        comparison: Comparison,
    },
    Setp {
        d: Destination,
        comparison: Comparison,
    },
    Selp {
        choice: Choice,
        c: Pred,
    },
    Slct {
        ctype: SlctType,
        choice: Choice,
        c: Word,
    },
}

#[derive(Clone, Copy)]
pub struct Record {
    pub guard: Guard,
    pub instruction: Instruction,
}

// The card that a line is read for and worked on: sm_10, sm_13, sm_20, sm_30.
#[derive(Clone, Copy, PartialEq, Eq, PartialOrd, Ord)]
pub enum Target {
    Sm10,
    Sm13,
    Sm20,
    Sm30,
}

// How a line is read: as document 01 has it, or strictly (T-09).
#[derive(Clone, Copy, PartialEq, Eq)]
pub enum Mode {
    Ordinary,
    Strict,
}
