// Where the pieces of a line that has the shape start.
#![tactic(auto)]

ghost use Rattle.std.specs.Prelude.{◌≡◌};
ghost use Rattle.starts.specs.Over.{in_file, is_over, over_at};
ghost use Rattle.starts.specs.Starts.{head_at, name_from, operands_at, bar_at, next_at, operand_from};

use scan::{Class, Register, byte, further, read_register, rest, run_len};
use shape::{Divider, read_divider, read_guard, read_operand};
use tree::Place;

// The start of the opcode.
#[tactic(auto, unfolding(crate::specs::Starts::head_at, crate::specs::Starts::guard_end))]
pub fn head_start(line: &[u8]) -> usize
    ensures { result ≡ head_at line.now }
{
    let n = run_len(Class::Blank, line);
    match read_guard(rest(line, n)) {
        Ok((_, m)) => further(n, m),
        Err(_) => n,
    }
}

// The start of the k-th name of the head at the front of s, or the end of the head.
// Not one with operand_start, which is no plainer: the step would be a closure with a law. `for` counts turns only.
#[tactic(auto, using(crate::specs::Starts::name_loop))]
pub fn name_start(s: &[u8], k: usize) -> usize
    ensures { result ≡ name_from 0 k s.now }
{
    let mut w = s;
    let mut place = 0;
    for _turn in 0..k {
        let m = run_len(Class::Name, w);
        if byte(w, m) != b'.' {
            return further(place, m);
        }
        let step = further(m, 1);
        w = rest(w, step);
        place = further(place, step);
    }
    place
}

// A line of at most 160 bytes has no more names.
const MANY: usize = 160;

// The start of the first operand.
#[tactic(auto, unfolding(crate::specs::Starts::operands_at))]
pub fn operands_start(line: &[u8]) -> usize
    ensures { result ≡ operands_at line.now }
{
    let h = head_start(line);
    let w = rest(line, h);
    let n = name_start(w, MANY);
    let b = run_len(Class::Blank, rest(w, n));
    further(further(h, n), b)
}

// What follows the operand at the front: another one after so many bytes, or the end after so many.
#[derive(Clone, Copy)]
enum Next {
    Operand(usize),
    End(usize),
}

#[tactic(auto, unfolding(crate::specs::Starts::next_at, crate::specs::Starts::next_of, crate::specs::Starts::next_by))]
fn next_at(w: &[u8]) -> Next
    ensures { result ≡ next_at w.now }
{
    let Ok((_, n)) = read_operand(w) else {
        return Next::End(0);
    };
    match read_divider(rest(w, n)) {
        Ok(Divider::Comma(m)) => Next::Operand(further(n, m)),
        Ok(Divider::Semicolon(_)) | Err(_) => Next::End(n),
    }
}

// The start of the k-th operand at the front of s, or the end of the last.
// Not one with name_start: see there. `for` counts turns only.
#[tactic(auto, using(crate::specs::Starts::operand_loop))]
pub fn operand_start(s: &[u8], k: usize) -> usize
    ensures { result ≡ operand_from 0 k s.now }
{
    let mut w = s;
    let mut place = 0;
    for _turn in 0..k {
        match next_at(w) {
            Next::Operand(n) => {
                w = rest(w, n);
                place = further(place, n);
            }
            Next::End(n) => return further(place, n),
        }
    }
    place
}

// The start of the second place of the first pair: the byte after the line's first `|`; without one, the byte after the line's length.
pub fn second_start(line: &[u8]) -> usize
    ensures { result ≡ bar_at line.now }
{
    further(line.iter().take_while(|b| **b != b'|').count(), 1)
}

fn in_file(p: Place) -> bool
    ensures { result ≡ in_file p }
{
    match p {
        Place::Word(w) => record::in_file(w),
        Place::Half(h) => record::in_file(h),
        Place::Double(d) => record::in_file(d),
        Place::Pred(q) => record::in_file(q),
    }
}

fn is_over(r: Register) -> bool
    ensures { result ≡ is_over r }
{
    matches!(r, Ok((p, _)) if !in_file(p))
}

// The first register of the line whose number is at or over its file's size.
pub fn first_over(line: &[u8]) -> usize
    ensures { result ≡ over_at 0 line.now }
{
    for (i, b) in line.iter().enumerate() {
        if *b == b'%' && is_over(read_register(&line[i..])) {
            return i;
        }
    }
    line.len()
}
