// Writes a record as its standard line. Its pieces are chosen as numbers, each the bytes of a short text (crate names); then the line is put
// into a local buffer, and copied out once.
#![tactic(auto)]

ghost use Rattle.std.specs.Prelude.{◌≡◌, ◌++◌, ◌+◌, ◌*◌, ◌^◌, ◌≤◌, ◌<◌, length};
ghost use Rattle.base.specs.Pack.{radix, spelled, NumberSpells};
ghost use Rattle.record.specs.Registers.{reg, operand_place, r, p};
ghost use Rattle.record.specs.declared.Word.{Word};
ghost use Rattle.record.specs.declared.Instruction.TheVariants.{Arithmetic, Vset, VsetLanes, ArithmeticLanes, Set, Setp, Selp, Slct};
ghost use Rattle.rules.specs.Shape.{bare, part, number_text, register_text, head_text, operand_text};
ghost use Rattle.rules.specs.Names.{form_op2, combination_names, head_names, selector_name};
ghost use Rattle.rules.specs.Spelling.{selected_tree, form_tree, form_last, same_mask, same_digits, mask_tree, digits_tree, condition_tree, combination_last, destination_tree, scalar_trees, lanes_trees, source_trees, operand_trees};
ghost use Rattle.rules.specs.StandardLine.{guard_part, further, operands_text, standard};
ghost use Rattle.laws.specs.LineLengths.{longest_line};
ghost use Rattle.rules.specs.Writing.{outcome, writing};
ghost use Rattle.text.specs.Buffer.{buffer, Puts};
ghost use Rattle.write.specs.Pieces.{text_size, with_dot, DotIf, Optional, ThreeTypes, TwoTypes, ComparisonHead, further_of, Shows, text_of, eight, choice_text};
ghost use Rattle.write.specs.Line.{line_of, copied};
ghost use Rattle.write.specs.Answers.{answer_of};

use record::{
    Arith, Choice, Cmp6, Combination, Comparison, Condition, Destination, Digits, File, Form,
    Guard, Instruction, LaneArith, LaneWidth, Lanes, Mask, Numbered, Operand, Record, Scalar,
    Selected, SlctType, VideoType, Word,
};
use refusals::Refusal;

// Enough for the standard line of a legal record: none has more than 77 bytes. A fixed buffer, since there is no heap.
const ROOM: usize = 80;

// ---- short texts as numbers: the bytes are the digits at base 128, the first the lowest

// One byte before a text of at most eight.
// Numbers, not texts: see base::RADIX.
fn before(b: u8, x: u64) -> u64
    requires { x < 2 ^ 56 }
    ensures { result ≡ b + radix * x }
{
    (b as u64) + base::RADIX * x
}

fn number_text(n: u16) -> u64
    ensures { NumberSpells 3 result (number_text n) }
{
    let n = n as u64;
    let ones = text::digit(n) as u64;
    if n < 10 {
        return ones;
    }
    let tens = before(text::digit(n / 10), ones);
    if n < 100 {
        return tens;
    }
    before(text::digit(n / 100), tens)
}

// A register: its file's letters and its number.
fn register_text<R: Numbered>(x: R) -> u64
    ensures { NumberSpells (text_size R.FILE) result (register_text (reg R.FILE (R.number x))) }
{
    let n = number_text(x.number());
    match R::FILE {
        File::Words => before(b'%', before(b'r', n)),
        File::Halves => before(b'%', before(b'r', before(b's', n))),
        File::Doubles => before(b'%', before(b'r', before(b'd', n))),
        File::Preds => before(b'%', before(b'p', n)),
    }
}

fn condition_text(c: Condition) -> u64
    ensures { NumberSpells 6 result (operand_text (condition_tree c)) }
{
    let pred = register_text(c.pred);
    if c.inverted { before(b'!', pred) } else { pred }
}

// ---- the guard: `@`, a condition and a space

#[tactic(auto, using(crate::specs::Pieces::guard_spelled, base::specs::PackLaws::unpacked_none))]
fn guard_texts(g: Guard) -> [u64; 2]
    ensures { spelled result ≡ guard_part g }
{
    match g {
        Guard::Always => [0, 0],
        Guard::When(c) => [before(b'@', condition_text(c)), b' ' as u64],
    }
}

// ---- the head: its names, each but the first with its `.`
// In arrays of one length, since there is no heap, and with 0 for a name that is left out, as `spelled` has it.

// That x leaves room for the `.` is asked here and in `dot_if` and `before`: a type for short texts would be no plainer.
fn dot(x: u64) -> u64
    requires { x < 2 ^ 56 }
    ensures { result ≡ with_dot x }
{
    before(b'.', x)
}

fn dot_if(t: bool, x: u64) -> u64
    requires { x < 2 ^ 56 }
    ensures { DotIf t x result }
{
    if t { dot(x) } else { 0 }
}

fn form_modifier(f: Form) -> u64
    ensures { Optional result (form_op2 f) }
{
    match f {
        Form::Plain { .. } | Form::Merge { .. } => 0,
        Form::Combine { op, .. } => dot(names::op2_number(op)),
    }
}

// 0 for none, not Option: clause `Optional` and text::put_all have it so. The same holds of form_modifier.
fn combination_modifier(c: Combination) -> u64
    ensures { Optional result (combination_names c) }
{
    match c {
        Combination::Alone => 0,
        Combination::With(op, _) => dot(names::bool_number(op)),
    }
}

// T(d) T(a) T(b) {sat} behind an opcode, and a last name that may be left out.
fn three_types(
    opcode: u64,
    dtype: VideoType,
    atype: VideoType,
    btype: VideoType,
    sat: bool,
    last: u64,
) -> [u64; 6]
    ensures { ThreeTypes opcode dtype atype btype sat last result }
{
    [
        opcode,
        dot(names::video_number(dtype)),
        dot(names::video_number(atype)),
        dot(names::video_number(btype)),
        dot_if(sat, names::SAT),
        last,
    ]
}

fn arithmetic_head(op: Arith, dtype: VideoType, sat: bool, s: Scalar) -> [u64; 6]
    ensures { spelled result ≡ head_text (head_names (Arithmetic op dtype sat s)) }
{
    three_types(
        names::arith_number(op),
        dtype,
        s.atype,
        s.btype,
        sat,
        form_modifier(s.form),
    )
}

fn arithmetic_lanes_head(op: LaneArith, dtype: VideoType, sat: bool, s: Lanes) -> [u64; 6]
    ensures { spelled result ≡ head_text (head_names (ArithmeticLanes op dtype sat s)) }
{
    let opcode = names::lane_arith_number(op, s.width);
    three_types(
        opcode,
        dtype,
        s.atype,
        s.btype,
        sat,
        dot_if(s.add, names::ADD),
    )
}

// T T CMP6 behind an opcode, and a last name that may be left out.
fn two_types(opcode: u64, atype: VideoType, btype: VideoType, cmp: Cmp6, last: u64) -> [u64; 6]
    ensures { TwoTypes opcode atype btype cmp last result }
{
    [
        opcode,
        dot(names::video_number(atype)),
        dot(names::video_number(btype)),
        dot(names::six_number(cmp)),
        last,
        0,
    ]
}

fn vset_head(cmp: Cmp6, s: Scalar) -> [u64; 6]
    ensures { spelled result ≡ head_text (head_names (Vset cmp s)) }
{
    two_types(names::VSET, s.atype, s.btype, cmp, form_modifier(s.form))
}

fn vset_lanes_head(cmp: Cmp6, s: Lanes) -> [u64; 6]
    ensures { spelled result ≡ head_text (head_names (VsetLanes cmp s)) }
{
    let opcode = names::lanes_number(s.width);
    two_types(opcode, s.atype, s.btype, cmp, dot_if(s.add, names::ADD))
}

// CmpOp {BoolOp} {ftz} and stype behind an opcode; before stype a dtype that may be left out.
fn comparison_head(opcode: u64, dtype: u64, s: Comparison) -> [u64; 6]
    ensures { ComparisonHead opcode dtype s result }
{
    [
        opcode,
        dot(names::cmp_number(s.cmp)),
        combination_modifier(s.combination),
        dot_if(s.ftz, names::FTZ),
        dtype,
        dot(names::type_number(s.stype)),
    ]
}

fn slct_head(ctype: SlctType, s: Choice) -> [u64; 6]
    ensures { (c : Word) → spelled result ≡ head_text (head_names (Slct ctype s c)) }
{
    let dtype = dot(names::type_number(s.dtype));
    match ctype {
        SlctType::S32 => [names::SLCT, dtype, dot(names::S32), 0, 0, 0],
        SlctType::F32 { ftz } => [
            names::SLCT,
            dot_if(ftz, names::FTZ),
            dtype,
            dot(names::F32),
            0,
            0,
        ],
    }
}

// ---- operands, each as two texts: up to its register, and what stands behind it

#[derive(Clone, Copy)]
struct Piece {
    front: u64,
    back: u64,
}

impl Piece {
    // No operand.
    const NONE: Piece = Piece { front: 0, back: 0 };

    // A register with nothing behind it.
    fn bare<R: Numbered>(x: R) -> Piece
        ensures { Shows result (bare (reg R.FILE (R.number x))) }
    {
        Piece {
            front: register_text(x),
            back: 0,
        }
    }

    // A word with something behind it.
    fn word(w: Word, back: u64) -> Piece
        ensures { (NumberSpells 6 result.front (register_text (r w))) × (result.back ≡ back) }
    {
        Piece {
            front: register_text(w),
            back,
        }
    }

    // A comma and one space before it.
    fn further(self) -> Piece
        requires { self.front < 2 ^ 42 }
        ensures { result ≡ further_of self }
    {
        Piece {
            front: before(b',', before(b' ', self.front)),
            ..self
        }
    }
}

// Operands in their order, the later ones with their commas.
fn joined(d: Piece, a: Piece, b: Piece, c: Piece) -> [u64; 8]
    ensures { result ≡ eight d a b c }
{
    [
        d.front, d.back, a.front, a.back, b.front, b.back, c.front, c.back,
    ]
}

// ---- operands of scalar video

fn selected_piece(s: Selected) -> Piece
    ensures { Shows result (selected_tree s) }
{
    match s {
        Selected::Whole(w) => Piece::bare(w),
        Selected::Part(w, sel) => Piece::word(w, dot(names::selector_number(sel))),
    }
}

fn form_piece(f: Form) -> Piece
    ensures { Shows result (form_tree f) }
{
    match f {
        Form::Plain { d } | Form::Combine { d, .. } => Piece::bare(d),
        Form::Merge { d, sel, .. } => Piece::word(d, dot(names::selector_number(sel))),
    }
}

fn form_last(f: Form) -> Piece
    ensures { text_of result ≡ further (form_last f) }
{
    match f {
        Form::Plain { .. } => Piece::NONE,
        Form::Merge { c, .. } | Form::Combine { c, .. } => Piece::bare(c).further(),
    }
}

fn scalar_texts(s: Scalar) -> [u64; 8]
    ensures { spelled result ≡ operands_text (scalar_trees s) }
{
    joined(
        form_piece(s.form),
        selected_piece(s.a).further(),
        selected_piece(s.b).further(),
        form_last(s.form),
    )
}

// ---- operands of the forms with 2 and 4: default masks and selectors are left out

fn mask_piece(w: LaneWidth, d: Word, k: Mask) -> Piece
    ensures { Shows result (mask_tree w d k) }
{
    if k == fits::full_mask(w) {
        Piece::bare(d)
    } else {
        Piece::word(d, dot(masks::mask_number(w, k)))
    }
}

fn digits_piece(w: LaneWidth, default: Digits, a: Word, s: Digits) -> Piece
    ensures { Shows result (digits_tree w default a s) }
{
    if s == default {
        Piece::bare(a)
    } else {
        Piece::word(a, dot(masks::digits_number(w, s)))
    }
}

fn lanes_texts(s: Lanes) -> [u64; 8]
    ensures { spelled result ≡ operands_text (lanes_trees s) }
{
    let asel = fits::default_digits(s.width, false);
    let bsel = fits::default_digits(s.width, true);
    joined(
        mask_piece(s.width, s.d, s.mask),
        digits_piece(s.width, asel, s.a, s.asel).further(),
        digits_piece(s.width, bsel, s.b, s.bsel).further(),
        Piece::bare(s.c).further(),
    )
}

// ---- operands of set, setp, selp and slct

fn operand_piece(o: Operand) -> Piece
    ensures { Shows result (bare (operand_place o)) }
{
    match o {
        Operand::Word(w) => Piece::bare(w),
        Operand::Half(h) => Piece::bare(h),
        Operand::Double(d) => Piece::bare(d),
    }
}

// Not Piece::bare, which takes a register alone: here `!` may stand before it.
fn condition_piece(c: Condition) -> Piece
    ensures { Shows result (condition_tree c) }
{
    Piece {
        front: condition_text(c),
        back: 0,
    }
}

#[tactic(auto, using(crate::specs::Pieces::last_text, crate::specs::Pieces::blank_text))]
fn combination_last(c: Combination) -> Piece
    ensures { text_of result ≡ further (combination_last c) }
{
    match c {
        Combination::Alone => Piece::NONE,
        Combination::With(_, c) => condition_piece(c).further(),
    }
}

// d, and the sources behind it.
fn sources_texts(d: Piece, s: Comparison) -> [u64; 8]
    ensures { spelled result ≡ text_of d ++ further (source_trees s) }
{
    joined(
        d,
        operand_piece(s.a).further(),
        operand_piece(s.b).further(),
        combination_last(s.combination),
    )
}

fn destination_piece(d: Destination) -> Piece
    ensures { Shows result (destination_tree d) }
{
    match d {
        Destination::One(a) => Piece::bare(a),
        Destination::Pair(a, b) => Piece {
            front: register_text(a),
            back: before(b'|', register_text(b)),
        },
        Destination::First(a) => Piece {
            front: register_text(a),
            back: before(b'|', b'_' as u64),
        },
        Destination::Second(b) => Piece {
            front: b'_' as u64,
            back: before(b'|', register_text(b)),
        },
    }
}

// d, a and b, and a last one that has its comma.
fn choice_texts(s: Choice, c: Piece) -> [u64; 8]
    ensures { spelled result ≡ choice_text s (text_of c) }
{
    joined(
        operand_piece(s.d),
        operand_piece(s.a).further(),
        operand_piece(s.b).further(),
        c,
    )
}

// ---- the line

fn head_texts(i: Instruction) -> [u64; 6]
    ensures { spelled result ≡ head_text (head_names i) }
{
    match i {
        Instruction::Arithmetic {
            op,
            dtype,
            sat,
            scalar,
        } => arithmetic_head(op, dtype, sat, scalar),
        Instruction::Vset { cmp, scalar } => vset_head(cmp, scalar),
        Instruction::VsetLanes { cmp, lanes } => vset_lanes_head(cmp, lanes),
        Instruction::ArithmeticLanes {
            op,
            dtype,
            sat,
            lanes,
        } => arithmetic_lanes_head(op, dtype, sat, lanes),
        Instruction::Set {
            dtype,
            comparison,
            ..
        } => comparison_head(names::SET, dot(names::set_type_number(dtype)), comparison),
        Instruction::Setp { comparison, .. } => comparison_head(names::SETP, 0, comparison),
        Instruction::Selp { choice, .. } => {
            let dtype = dot(names::type_number(choice.dtype));
            [names::SELP, dtype, 0, 0, 0, 0]
        }
        Instruction::Slct { ctype, choice, .. } => slct_head(ctype, choice),
    }
}

fn operand_texts(i: Instruction) -> [u64; 8]
    ensures { spelled result ≡ operands_text (operand_trees i) }
{
    match i {
        Instruction::Arithmetic { scalar, .. } | Instruction::Vset { scalar, .. } => {
            scalar_texts(scalar)
        }
        Instruction::VsetLanes { lanes, .. } | Instruction::ArithmeticLanes { lanes, .. } => {
            lanes_texts(lanes)
        }
        Instruction::Set { d, comparison, .. } => sources_texts(Piece::bare(d), comparison),
        Instruction::Setp { d, comparison } => sources_texts(destination_piece(d), comparison),
        Instruction::Selp { choice, c } => choice_texts(choice, Piece::bare(c).further()),
        Instruction::Slct { choice, c, .. } => choice_texts(choice, Piece::bare(c).further()),
    }
}

#[derive(Clone, Copy)]
struct Texts {
    guard: [u64; 2],
    head: [u64; 6],
    operands: [u64; 8],
}

#[tactic(auto, unfolding(rules::specs::StandardLine::standard))]
fn line_texts(x: Record) -> Texts
    ensures { line_of result ≡ standard x }
{
    Texts {
        guard: guard_texts(x.guard),
        head: head_texts(x.instruction),
        operands: operand_texts(x.instruction),
    }
}

fn put_line(out: &mut [u8], t: Texts) -> usize
    ensures { Puts (buffer out.old 0) (line_of t) (buffer out.new result) }
{
    let at = text::put_all(out, 0, &t.guard);
    let at = text::put_all(out, at, &t.head);
    let at = text::push(out, at, b' ');
    let at = text::put_all(out, at, &t.operands);
    text::push(out, at, b';')
}

// The line at the front of buf, where it has room.
fn copy_out(t: Texts, buf: &mut [u8]) -> Result<usize, Refusal>
    requires { length (line_of t) ≤ longest_line }
    ensures { outcome (answer_of result) buf.new ≡ copied (line_of t) buf.old }
{
    let mut line = [0u8; ROOM];
    let n = put_line(&mut line, t);
    if buf.len() < n {
        return Err(Refusal::TooShort);
    }
    text::put(buf, 0, &line[..n]);
    Ok(n)
}

// ---- the entry point

// The record's standard line at the front of buf, and its length. A refusal changes nothing.
#[tactic(auto, using(laws::specs::LineLengths::standard_length), unfolding(rules::specs::Writing::writing))]
pub fn write(x: Record, buf: &mut [u8]) -> Result<usize, Refusal>
    ensures { outcome (answer_of result) buf.new ≡ writing x buf.old }
{
    if !legal::legal(x) {
        return Err(Refusal::NotLegal);
    }
    copy_out(line_texts(x), buf)
}
