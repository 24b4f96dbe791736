// Who wrote this last: the last accepted line of a listing that has a given `%r` as destination. The listing is read from its end back, a line at a
// time, and no further than to the line found.
#![tactic(auto)]

ghost use Rattle.std.specs.Prelude.{◌≡◌, [], ◌∷◌, ◌≤◌, ◌<◌, length};
ghost use Rattle.record.specs.Registers.{operand_place};
ghost use Rattle.rules.specs.Executing.{form_d, destinations};
ghost use Rattle.last.specs.Last.{has_word, told, ByFullReading, distance_of, answer_of};
ghost use Rattle.last.specs.Back.{own_has, line_end, line_start, line_back, goes_on, found_at, last_beyond};

use record::{Form, Instruction, Mode, Operand, Target, WORDS, Word};
use refusals::Refusal;

// At most so many bytes of a listing.
const LISTING_LIMIT: usize = 65536;

const LINE_FEED: u8 = 10;

// ---- a line

fn form_d(f: Form) -> Word
    ensures { result ≡ form_d f }
{
    match f {
        Form::Plain { d } | Form::Merge { d, .. } | Form::Combine { d, .. } => d,
    }
}

fn operand_is(o: Operand, n: u16) -> bool
    ensures { result ≡ has_word n (operand_place o ∷ []) }
{
    matches!(o, Operand::Word(w) if w.0 == n)
}

// Whether the instruction has `%r` number n as destination; no predicate is one.
fn has_word(i: Instruction, n: u16) -> bool
    ensures { result ≡ has_word n (destinations i) }
{
    match i {
        Instruction::Arithmetic { scalar, .. } | Instruction::Vset { scalar, .. } => {
            form_d(scalar.form).0 == n
        }
        Instruction::ArithmeticLanes { lanes, .. } | Instruction::VsetLanes { lanes, .. } => {
            lanes.d.0 == n
        }
        Instruction::Set { d, .. } => d.0 == n,
        Instruction::Setp { .. } => false,
        Instruction::Selp { choice, .. } | Instruction::Slct { choice, .. } => {
            operand_is(choice.d, n)
        }
    }
}

// Whether the line is accepted at sm_30, in ordinary reading, and has it.
fn line_has(line: &[u8], n: u16) -> bool
    ensures { result ≡ own_has n line.now }
{
    match read::read(Target::Sm30, Mode::Ordinary, line) {
        Ok(r) => has_word(r.instruction, n),
        Err(_) => false,
    }
}

// ---- from the end back

// Where the line that ends before `at` ends: before its line feed, if it has one.
fn line_end(s: &[u8], at: usize) -> usize
    requires { (0 < at) × (at ≤ length s.now) }
    ensures { result ≡ line_end s.now at }
{
    if s[at - 1] == LINE_FEED { at - 1 } else { at }
}

// Where the line that ends at `end` begins: behind a line feed, or with the listing.
fn line_start(s: &[u8], end: usize) -> usize
    requires { end ≤ length s.now }
    ensures { result ≡ line_start s.now end }
{
    for k in (0..end).rev() {
        if s[k] == LINE_FEED {
            return k + 1;
        }
    }
    0
}

// How far from the end the line begins that stands before the last `gone` bytes.
fn line_back(s: &[u8], gone: usize) -> usize
    ensures { result ≡ line_back s.now gone }
{
    let size = s.len();
    let at = lines::left(size, gone);
    if at == 0 {
        return size;
    }
    let end = line_end(s, at);
    lines::left(size, line_start(s, end))
}

// Whether there is such a line and it has not that destination.
fn goes_on_at(s: &[u8], gone: usize, n: u16) -> bool
    ensures { result ≡ goes_on s.now gone n }
{
    let at = lines::left(s.len(), gone);
    if at == 0 {
        return false;
    }
    let end = line_end(s, at);
    let start = line_start(s, end);
    !line_has(&s[start..end], n)
}

// Where it begins, if there is one.
fn found_at(s: &[u8], gone: usize) -> Option<usize>
    ensures { distance_of result ≡ told (found_at s.now gone) }
{
    if gone < s.len() {
        return Some(line_back(s, gone));
    }
    None
}

// ---- the reader

// It remembers the listing and how far back it has gone: so many bytes from the listing's end.
#[derive(Clone, Copy)]
struct Back<'a> {
    listing: &'a [u8],
    gone: usize,
}

// At the end: nothing is read.
fn at_end<'a>(listing: &'a [u8]) -> Back<'a>
    ensures { (result.listing ≡ listing.entry) × (result.gone ≡ 0) }
{
    Back { listing, gone: 0 }
}

// Whether it has to go on: there is a line before, and it has not that destination.
fn goes_on<'a>(b: Back<'a>, n: u16) -> bool
    ensures { result ≡ goes_on b.entry.listing.now b.entry.gone n }
{
    goes_on_at(b.listing, b.gone, n)
}

// One line further back.
fn line_further<'a>(b: Back<'a>) -> Back<'a>
    ensures { (result.listing ≡ b.entry.listing) × (result.gone ≡ line_back b.entry.listing.now b.entry.gone) }
{
    Back {
        listing: b.listing,
        gone: line_back(b.listing, b.gone),
    }
}

// The line before, if there is one.
fn found<'a>(b: Back<'a>) -> Option<usize>
    ensures { distance_of result ≡ told (found_at b.entry.listing.now b.entry.gone) }
{
    found_at(b.listing, b.gone)
}

// From the end back, a line at a time, to the first line that has it.
fn search(listing: &[u8], n: u16) -> Option<usize>
    ensures { distance_of result ≡ told (last_beyond listing.now 0 n) }
{
    let mut b = at_end(listing);
    while goes_on(b, n) {
        b = line_further(b);
    }
    found(b)
}

// ---- the entry point

// How far the first byte of the line that wrote the register last is from the end of the listing, if one did. The answer is that of reading all of
// the listing from the front.
pub fn last_writer(listing: &[u8], register: Word) -> Result<Option<usize>, Refusal>
    ensures { ByFullReading listing.now register.0 (answer_of result) }
{
    let n = register.0;
    let too_long = LISTING_LIMIT < listing.len();
    let out_of_file = WORDS <= n;
    if too_long {
        return Err(Refusal::ListingTooLong);
    }
    if out_of_file {
        return Err(Refusal::OutOfFile);
    }
    Ok(search(listing, n))
}
