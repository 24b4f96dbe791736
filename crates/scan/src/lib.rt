// What stands at the front of a slice of a line: runs of bytes, names as numbers, registers. Every function takes every slice; a length
// that it answers counts from the front of the slice that it is lent.
#![tactic(auto)]

ghost use Rattle.std.specs.Prelude.{◌≡◌, ◌%◌, get_or, drop, take};
ghost use Rattle.signs.specs.Bytes.{is_blank, is_digit, is_name_byte};
ghost use Rattle.base.specs.Pack.{radix, code_of};
ghost use Rattle.scan.specs.Runs.{capped_sum, in_class, run_length};
ghost use Rattle.scan.specs.Numbers.{digit_of, number_by, number_found};
ghost use Rattle.tree.specs.Seen.{place_in};
ghost use Rattle.scan.specs.Registers.{prefix_by, register_of};

use record::{Double, File, Half, Pred, Word};
use tree::Place;

// The byte at i, or 0 past the end: no line that has the shape has a byte 0.
pub fn byte(s: &[u8], i: usize) -> u8
    ensures { result ≡ get_or s.now i 0 }
{
    s.get(i).copied().unwrap_or(0)
}

// What follows the first n bytes.
pub fn rest(s: &[u8], n: usize) -> &[u8]
    ensures { result.now ≡ drop n s.now }
{
    &s[n.min(s.len())..]
}

// The first n bytes, or all where there are fewer.
fn front(s: &[u8], n: usize) -> &[u8]
    ensures { result.now ≡ take n s.now }
{
    &s[..n.min(s.len())]
}

// The place n bytes after another; no slice is so long that it stops at the highest.
#[tactic(auto, unfolding(crate::specs::Runs::capped_sum))]
pub fn further(place: usize, n: usize) -> usize
    ensures { result ≡ capped_sum place n }
{
    place.saturating_add(n)
}

// The classes of bytes of which a line has runs.
// Not a closure: law run_len_one_outcome and the clause of `run_len` speak of `in_class`, which goes by the three.
#[derive(Clone, Copy)]
pub enum Class {
    Blank,
    Digit,
    Name,
}

pub fn is_blank(b: u8) -> bool
    ensures { result ≡ is_blank b }
{
    matches!(b, b' ' | b'\t')
}

pub fn is_digit(b: u8) -> bool
    ensures { result ≡ is_digit b }
{
    b.is_ascii_digit()
}

pub fn is_name_byte(b: u8) -> bool
    ensures { result ≡ is_name_byte b }
{
    matches!(b, b'a'..=b'z' | b'0'..=b'9')
}

fn in_class(c: Class, b: u8) -> bool
    ensures { result ≡ in_class c b }
{
    match c {
        Class::Blank => is_blank(b),
        Class::Digit => is_digit(b),
        Class::Name => is_name_byte(b),
    }
}

// How many bytes of the class stand at the front.
pub fn run_len(c: Class, s: &[u8]) -> usize
    ensures { result ≡ run_length (in_class c) s.now }
{
    for (i, b) in s.iter().enumerate() {
        if !in_class(c, *b) {
            return i;
        }
    }
    s.len()
}

// Nine digits fit 64 bits.
const LONGEST_NAME: usize = 9;

fn name_digit(b: u8) -> u64
    ensures { result ≡ b % radix }
{
    u64::from(b) % base::RADIX
}

// The number of a name, its first byte the lowest digit; 0 of one that is longer than any that the bench knows.
// A number, not a text: see base::RADIX.
fn code(w: &[u8]) -> u64
    ensures { result ≡ code_of w.now }
{
    if LONGEST_NAME < w.len() {
        return 0;
    }
    let mut number = 0;
    for b in w.iter().rev() {
        number = name_digit(*b) + base::RADIX * number;
    }
    number
}

// The number of the name of n bytes at the front.
pub fn name_code(s: &[u8], n: usize) -> u64
    ensures { result ≡ code_of (take n s.now) }
{
    code(front(s, n))
}

// A number of 1 to 3 digits with no leading zero, and how many digits; or the place of the first byte that is wrong.
type Number = Result<(u16, u8), u8>;

#[tactic(auto, unfolding(crate::specs::Numbers::number_found))]
fn read_number(s: &[u8]) -> Number
    ensures { result ≡ number_found s.now }
{
    let n = run_len(Class::Digit, s);
    let a = digit(byte(s, 0));
    let b = digit(byte(s, 1));
    let c = digit(byte(s, 2));
    number_by(n, a, b, c)
}

// By the count of digits and the first three.
#[tactic(auto, unfolding(crate::specs::Numbers::number_by))]
fn number_by(n: usize, a: u8, b: u8, c: u8) -> Number
    ensures { result ≡ number_by n a b c }
{
    match n {
        0 => Err(0),
        1 => Ok((a as u16, 1)),
        _ if a == 0 => Err(1),
        2 => Ok((10 * (a as u16) + (b as u16), 2)),
        3 => Ok((100 * (a as u16) + 10 * (b as u16) + (c as u16), 3)),
        _ => Err(3),
    }
}

fn digit(b: u8) -> u8
    ensures { result ≡ digit_of b }
{
    b.saturating_sub(b'0') % 10
}

// The front of a register: its file and how many bytes; or the place of the first byte that is wrong.
type Prefix = Result<(File, u8), u8>;

#[tactic(auto, unfolding(crate::specs::Registers::prefix_by))]
fn prefix_by(a: u8, b: u8, c: u8) -> Prefix
    ensures { result ≡ prefix_by a b c }
{
    match (a, b, c) {
        (b'%', b'p', _) => Ok((File::Preds, 2)),
        (b'%', b'r', b'd') => Ok((File::Doubles, 3)),
        (b'%', b'r', b's') => Ok((File::Halves, 3)),
        (b'%', b'r', _) => Ok((File::Words, 2)),
        (b'%', _, _) => Err(1),
        _ => Err(0),
    }
}

// A register, and how many bytes it took; or the place of the first byte that is wrong.
pub type Register = Result<(Place, u16), u16>;

#[tactic(auto, unfolding(crate::specs::Registers::register_of, crate::specs::Registers::register_by, crate::specs::Registers::register_from))]
pub fn read_register(s: &[u8]) -> Register
    ensures { result ≡ register_of s.now }
{
    let (f, n) = prefix_by(byte(s, 0), byte(s, 1), byte(s, 2))?;
    let (v, m) = read_number(rest(s, n as usize)).map_err(|place| n as u16 + place as u16)?;
    Ok((place_in(f, v), n as u16 + m as u16))
}

// Not `From`, which takes one value, and both types are of other crates.
fn place_in(f: File, v: u16) -> Place
    ensures { result ≡ place_in f v }
{
    match f {
        File::Words => Place::Word(Word(v)),
        File::Halves => Place::Half(Half(v)),
        File::Doubles => Place::Double(Double(v)),
        File::Preds => Place::Pred(Pred(v)),
    }
}
