// What the listing program prints of a listing's lines at a target and in a mode: each with its answer. Crate changes prints the registers behind them.
#![tactic(auto)]

ghost use Rattle.std.specs.Prelude.{◌≡◌, ◌<◌, ◌≤◌, ◌&&◌, length, nat_le, nat_lt};
ghost use Rattle.record.specs.Refusals.{Legal};
ghost use Rattle.record.specs.Registers.{Files, files};
ghost use Rattle.rules.specs.Executing.{done, skipped, run};
ghost use Rattle.execute.specs.Answers as executed;
ghost use Rattle.text.specs.Buffer.{buffer, Puts};
ghost use Rattle.lines.specs.Lines.{listing_limit};
ghost use Rattle.report.specs.Listing.{refused_text, placed_text, executed_text};
ghost use Rattle.report.specs.Chunks.{line_text, behind, line_room, PutsAnswer, PutsTurn, Prints};

use execute::Executed;
use read::Refused;
use record::{Mode, Record, Target};
use refusals::Refusal;

// At most so many bytes of a listing.
const LISTING_LIMIT: usize = 65536;

// As many bytes as the text of a line has at most.
const LINE_ROOM: usize = 107;

const LINE_FEED: u8 = 10;

// Room for any standard line.
const STANDARD_ROOM: usize = 160;

// How far a listing is printed: the place and the number of the next line, and how many bytes of the lent buffer were used.
// The buffer is the caller's. Not one with passlog's, which has a tally: `Prints` and `Logs` are of the fields.
#[derive(Clone, Copy)]
pub struct Progress {
    pub at: usize,
    pub number: u64,
    pub len: usize,
}

// ---- one line

// The standard line; of a record that is not legal, nothing.
// ATTACKS names it with buffer and place, as put_refused. What calls them here is so too: Out does not lend its buffer.
pub fn put_standard(out: &mut [u8], at: usize, r: Record) -> usize
    ensures { Puts (buffer out.old at) (line_text r) (buffer out.new result) }
{
    let mut line = [0u8; STANDARD_ROOM];
    match write::write(r, &mut line) {
        Ok(n) => text::put(out, at, &line[0..n]),
        Err(_) => at,
    }
}

// `refused` and the number.
// n is a number, as `refused_text n` is of every n.
pub fn put_refused(out: &mut [u8], at: usize, n: u8) -> usize
    ensures { Puts (buffer out.old at) (refused_text n) (buffer out.new result) }
{
    let next = text::put(out, at, b"refused ");
    text::put_decimal(out, next, n as u64)
}

// The place goes behind the number.
// n is a number: see put_refused.
fn put_placed(out: &mut [u8], at: usize, n: u8, place: usize) -> usize
    ensures { Puts (buffer out.old at) (placed_text n place) (buffer out.new result) }
{
    let at1 = put_refused(out, at, n);
    let at2 = text::push(out, at1, b' ');
    text::put_decimal(out, at2, place as u64)
}

fn put_done(out: &mut [u8], at: usize, r: Record) -> usize
    requires { Legal r }
    ensures { Puts (buffer out.old at) (executed_text done r) (buffer out.new result) }
{
    let next = text::put(out, at, b"done ");
    put_standard(out, next, r)
}

fn put_skipped(out: &mut [u8], at: usize, r: Record) -> usize
    requires { Legal r }
    ensures { Puts (buffer out.old at) (executed_text skipped r) (buffer out.new result) }
{
    let next = text::put(out, at, b"skipped ");
    put_standard(out, next, r)
}

fn put_executed(out: &mut [u8], at: usize, r: Record, x: Result<Executed, Refusal>) -> usize
    requires { Legal r }
    ensures { Puts (buffer out.old at) (executed_text (executed.answer_of x) r) (buffer out.new result) }
{
    match x {
        Ok(Executed::Done) => put_done(out, at, r),
        Ok(Executed::Skipped) => put_skipped(out, at, r),
        Err(refusal) => put_refused(out, at, refusal.number()),
    }
}

// Executes the record on the lent files.
fn put_run(
    target: Target,
    out: &mut [u8],
    at: usize,
    r: Record,
    words: &mut [u32],
    halves: &mut [u16],
    doubles: &mut [u64],
    preds: &mut [u8],
) -> usize
    requires { Legal r }
    ensures puts { Puts (buffer out.old at) (executed_text (run target r (files words.old halves.old doubles.old preds.old)).answer r) (buffer out.new result) }
    ensures preds_after { files words.new halves.new doubles.new preds.new ≡ (run target r (files words.old halves.old doubles.old preds.old)).files }
{
    let x = execute::execute(target, r, words, halves, doubles, preds);
    put_executed(out, at, r, x)
}

// Reads the line at the target and in the mode and, where it is a record, executes it.
fn put_answer(
    target: Target,
    mode: Mode,
    out: &mut [u8],
    at: usize,
    line: &[u8],
    words: &mut [u32],
    halves: &mut [u16],
    doubles: &mut [u64],
    preds: &mut [u8],
) -> usize
    ensures { PutsAnswer target mode line.now (files words.old halves.old doubles.old preds.old) (files words.new halves.new doubles.new preds.new) (buffer out.old at) (buffer out.new result) }
{
    match read::read(target, mode, line) {
        Ok(r) => put_run(target, out, at, r, words, halves, doubles, preds),
        Err(
            Refused {
                refusal,
                place: None,
            },
        ) => put_refused(out, at, refusal.number()),
        Err(
            Refused {
                refusal,
                place: Some(place),
            },
        ) => put_placed(out, at, refusal.number(), place),
    }
}

// The text of line number `number`: its number, what became of it, a line feed.
fn put_line(
    target: Target,
    mode: Mode,
    out: &mut [u8],
    at: usize,
    number: u64,
    line: &[u8],
    words: &mut [u32],
    halves: &mut [u16],
    doubles: &mut [u64],
    preds: &mut [u8],
) -> usize
    ensures { PutsTurn target mode number line.now (files words.old halves.old doubles.old preds.old) (files words.new halves.new doubles.new preds.new) (buffer out.old at) (buffer out.new result) }
{
    let at1 = text::put_decimal(out, at, number);
    let at2 = text::push(out, at1, b' ');
    let at3 = put_answer(target, mode, out, at2, line, words, halves, doubles, preds);
    text::push(out, at3, LINE_FEED)
}

// ---- the lines of a listing

fn next_place(s: &[u8], end: usize) -> usize
    requires { end ≤ length s.now }
    ensures { result ≡ behind (length s.now) end }
{
    if end < s.len() {
        return end + 1;
    }
    end
}

// Whether a line is left, and room for the text of any line.
fn goes_on(size: usize, at: usize, room: usize) -> bool
    ensures { result ≡ nat_lt at size && nat_le line_room room }
{
    (at < size) & (LINE_ROOM <= room)
}

// `while`: how long a line is and what room is left shows only turn by turn.
fn print_lines(
    target: Target,
    mode: Mode,
    listing: &[u8],
    from: usize,
    first: u64,
    words: &mut [u32],
    halves: &mut [u16],
    doubles: &mut [u64],
    preds: &mut [u8],
    out: &mut [u8],
) -> Progress
    requires { length listing.now ≤ listing_limit }
    ensures { Prints target mode listing.now from first (files words.old halves.old doubles.old preds.old) out.old result.at result.number result.len (files words.new halves.new doubles.new preds.new) out.new }
{
    let mut at = from;
    let mut number = first;
    let mut used = 0;
    while goes_on(listing.len(), at, out.len() - used) {
        let end = lines::until(listing, at, LINE_FEED);
        used = put_line(
            target,
            mode,
            out,
            used,
            number,
            &listing[at..end],
            words,
            halves,
            doubles,
            preds,
        );
        number = std::num::wrapping_add_u64(number, 1);
        at = next_place(listing, end);
    }
    Progress {
        at: at,
        number: number,
        len: used,
    }
}

// A listing over the limit: one text, and the listing is at its end.
fn too_long(listing: &[u8], from: usize, first: u64, out: &mut [u8]) -> Progress
    requires { listing_limit < length listing.now }
    ensures { (target : Target) (mode : Mode) (f : Files) → Prints target mode listing.now from first f out.old result.at result.number result.len f out.new }
{
    if !goes_on(listing.len(), from, out.len()) {
        return Progress {
            at: from,
            number: first,
            len: 0,
        };
    }
    let used = text::put(out, 0, b"input too long\n");
    Progress {
        at: listing.len(),
        number: first,
        len: used,
    }
}

// The lines at a target and in a mode, from a place on, where line number `first` begins, as many as there are and as out has room for.
pub fn some_lines(
    target: Target,
    mode: Mode,
    listing: &[u8],
    from: usize,
    first: u64,
    words: &mut [u32],
    halves: &mut [u16],
    doubles: &mut [u64],
    preds: &mut [u8],
    out: &mut [u8],
) -> Progress
    ensures { Prints target mode listing.now from first (files words.old halves.old doubles.old preds.old) out.old result.at result.number result.len (files words.new halves.new doubles.new preds.new) out.new }
{
    if LISTING_LIMIT < listing.len() {
        return too_long(listing, from, first, out);
    }
    print_lines(
        target, mode, listing, from, first, words, halves, doubles, preds, out,
    )
}
