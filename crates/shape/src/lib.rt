// The shape of a line, document 01: what the parts of a line are, and how far a line has the shape. Every function takes every slice.
#![tactic(auto)]

ghost use Rattle.std.specs.Prelude.{◌≡◌, cond, leb, set};
ghost use Rattle.scan.specs.Registers.{register_of};
ghost use Rattle.shape.specs.Operand.{operand_scanned, inverted_by, after_by, second_of, part_of};
ghost use Rattle.shape.specs.Head.{head_of, head_read};
ghost use Rattle.shape.specs.Operands.{divider_of, operands_scanned, operands_read};
ghost use Rattle.shape.specs.Guard.{guard_by, guard_of};
ghost use Rattle.shape.specs.Line.{from_end, from_operands, shape_of};

use scan::{Class, byte, further, name_code, read_register, rest, run_len};
use tree::{Guarding, Head, Operands, Parts, Place, Slot, Spot, Tree};

// What stands at the front of a slice, and how many bytes it takes; or how far it was read, to the first byte that is
// wrong or past the last turn.
pub type Read<T> = Result<(T, usize), usize>;

// `!` and a register; or two places joined by `|`; or a register, optionally with `.` and a name.
#[tactic(auto, unfolding(crate::specs::Operand::operand_scanned, crate::specs::Operand::first_of))]
pub fn read_operand(s: &[u8]) -> Read<Tree>
    ensures { result ≡ operand_scanned s.now }
{
    match (byte(s, 0), byte(s, 1)) {
        (b'!', _) => inverted(rest(s, 1)),
        (b'_', b'|') => second(Spot::Nothing, 2, s),
        (b'_', _) => Err(1),
        _ => {
            let (p, n) = read_register(s)?;
            after(p, n, byte(s, n as usize), s)
        }
    }
}

// By what follows `!`.
#[tactic(auto, unfolding(crate::specs::Operand::inverted_by))]
fn inverted(w: &[u8]) -> Read<Tree>
    ensures { result ≡ inverted_by (register_of w.now) }
{
    let (p, n) = read_register(w).map_err(|q| q as usize + 1)?;
    Ok((Tree::Inverted(p), n as usize + 1))
}

// By the byte that follows the first n, a register.
#[tactic(auto, unfolding(crate::specs::Operand::after_by))]
fn after(p: Place, n: u16, b: u8, s: &[u8]) -> Read<Tree>
    ensures { result ≡ after_by p n b s.now }
{
    match b {
        b'|' => second(Spot::At(p), n as u32 + 1, s),
        b'.' => part(p, n as u32 + 1, s),
        _ => Ok((Tree::Bare(p), n as usize)),
    }
}

// The second place of a pair, after n bytes.
#[tactic(auto, unfolding(crate::specs::Operand::second_of, crate::specs::Operand::second_by))]
fn second(p: Spot, n: u32, s: &[u8]) -> Read<Tree>
    ensures { result ≡ second_of p n s.now }
{
    let w = rest(s, n as usize);
    if byte(w, 0) == b'_' {
        return Ok((Tree::Pair(p, Spot::Nothing), n as usize + 1));
    }
    let (q, m) = read_register(w).map_err(|q| n as usize + q as usize)?;
    Ok((Tree::Pair(p, Spot::At(q)), n as usize + m as usize))
}

// The name of a register's part, after n bytes.
#[tactic(auto, unfolding(crate::specs::Operand::part_of))]
fn part(p: Place, n: u32, s: &[u8]) -> Read<Tree>
    ensures { result ≡ part_of p n s.now }
{
    let w = rest(s, n as usize);
    let m = run_len(Class::Name, w);
    if m == 0 {
        return Err(n as usize);
    }
    Ok((Tree::Part(p, name_code(w, m)), further(n as usize, m)))
}

// A turn that goes on takes a byte at least, and a line has at most 160.
const MOST_TURNS: usize = 161;

// Keeps x as the one after n others, where there is room.
fn keep<T: Copy, const N: usize>(at: &mut [T; N], n: usize, x: T)
    ensures { at.new ≡ cond (leb N n) at.old (set at.old n x) }
{
    if n < N {
        at[n] = x;
    }
}

// How many names of a head are kept.
const NAMES_KEPT: usize = 8;

// Names joined by `.`.
#[tactic(auto, using(crate::specs::Head::names_loop))]
fn read_head(s: &[u8]) -> Read<Head>
    ensures { result ≡ head_read (head_of s.now) }
{
    // The array is a local of the loop: in a state by value all of it would move with each name.
    let mut at = [0; NAMES_KEPT];
    let mut w = s;
    let mut place = 0;
    for n in 0..MOST_TURNS {
        let m = run_len(Class::Name, w);
        if m == 0 {
            return Err(place);
        }
        keep(&mut at, n, name_code(w, m));
        let end = further(place, m);
        if byte(w, m) != b'.' {
            return Ok((Head { n: n + 1, at }, end));
        }
        place = further(end, 1);
        w = rest(w, further(m, 1));
    }
    Err(place)
}

// How many operands are kept.
const OPERANDS_KEPT: usize = 5;

// What divides an operand from the next, or ends the list, with the blanks around it and its length.
#[derive(Clone, Copy)]
pub enum Divider {
    Comma(usize),
    Semicolon(usize),
}

// The divider, or the place of a wrong byte.
#[tactic(auto, unfolding(crate::specs::Operands::divider_of, crate::specs::Operands::divider_by))]
pub fn read_divider(w: &[u8]) -> Result<Divider, usize>
    ensures { result ≡ divider_of w.now }
{
    let n = run_len(Class::Blank, w);
    let sign = rest(w, n);
    let end = further(n, 1);
    match byte(sign, 0) {
        b',' => Ok(Divider::Comma(further(end, run_len(Class::Blank, rest(sign, 1))))),
        b';' => Ok(Divider::Semicolon(end)),
        _ => Err(n),
    }
}

// One or more operands divided by a comma with optional blanks around it; optional blanks; `;`.
#[tactic(auto, using(crate::specs::Operands::list_loop))]
fn read_operands(s: &[u8]) -> Read<Operands>
    ensures { result ≡ operands_read (operands_scanned s.now) }
{
    let spare = Slot {
        tree: Tree::Pair(Spot::Nothing, Spot::Nothing),
    };
    // The array is a local of the loop: in a state by value all of it would move with each operand.
    let mut at = [spare; OPERANDS_KEPT];
    let mut w = s;
    let mut place = 0;
    for n in 0..MOST_TURNS {
        let (tree, m) = read_operand(w).map_err(|p| further(place, p))?;
        keep(&mut at, n, Slot { tree });
        let end = further(place, m);
        match read_divider(rest(w, m)).map_err(|p| further(end, p))? {
            Divider::Comma(k) => {
                place = further(end, k);
                w = rest(w, further(m, k));
            }
            Divider::Semicolon(k) => {
                return Ok((Operands { n: n + 1, at }, further(end, k)));
            }
        }
    }
    Err(place)
}

// Optionally `@`, optional `!`, a register, and at least one blank.
#[tactic(auto, unfolding(crate::specs::Guard::guard_of))]
pub fn read_guard(w: &[u8]) -> Read<Guarding>
    ensures { result ≡ guard_of w.now }
{
    match (byte(w, 0), byte(w, 1)) {
        (b'@', b'!') => guarded(true, 2, rest(w, 2)),
        (b'@', _) => guarded(false, 1, rest(w, 1)),
        _ => Ok((Guarding::Unguarded, 0)),
    }
}

// By what follows the guard's n signs.
#[tactic(auto, unfolding(crate::specs::Guard::guard_by))]
fn guarded(negated: bool, n: u32, w: &[u8]) -> Read<Guarding>
    ensures { result ≡ guard_by negated n (register_of w.now) w.now }
{
    let (p, m) = read_register(w).map_err(|q| n as usize + q as usize)?;
    match run_len(Class::Blank, rest(w, m as usize)) {
        0 => Err(n as usize + m as usize),
        blanks => Ok((
            Guarding::Guarded(negated, p),
            further(n as usize + m as usize, blanks),
        )),
    }
}

// The parts of a line that has the shape, and how far it was read; or how far it has the shape.
pub type Scanned = Read<Parts>;

// Optional blanks; optionally a guard and at least one blank; the head; at least one blank; operands; optional blanks;
// `;`; optional blanks.
#[tactic(auto, using(crate::specs::Line::head_found), unfolding(crate::specs::Line::shape_of))]
pub fn shape(line: &[u8]) -> Scanned
    ensures { result ≡ shape_of line.now }
{
    let before = run_len(Class::Blank, line);
    let w = rest(line, before);
    let (guard, n) = read_guard(w).map_err(|p| further(before, p))?;
    let place = further(before, n);
    let w = rest(w, n);
    let (head, n) = read_head(w).map_err(|p| further(place, p))?;
    let place = further(place, n);
    let w = rest(w, n);
    match run_len(Class::Blank, w) {
        0 => Err(place),
        gap => from_operands(further(place, gap), guard, head, rest(w, gap)),
    }
}

// From the operands on.
#[tactic(auto, using(crate::specs::Line::operands_found))]
fn from_operands(place: usize, guard: Guarding, head: Head, w: &[u8]) -> Scanned
    ensures { result ≡ from_operands place guard head w.now }
{
    let (operands, n) = read_operands(w).map_err(|p| further(place, p))?;
    from_end(
        further(place, n),
        Parts {
            guard,
            head,
            operands,
        },
        rest(w, n),
    )
}

// After the semicolon: blanks, and nothing else.
#[tactic(auto, unfolding(crate::specs::Line::from_end))]
fn from_end(place: usize, parts: Parts, w: &[u8]) -> Scanned
    ensures { result ≡ from_end place parts w.now }
{
    let n = run_len(Class::Blank, w);
    let end = further(place, n);
    if n < w.len() {
        return Err(end);
    }
    Ok((parts, end))
}
