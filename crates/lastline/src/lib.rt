// What `./bench --last WORD` makes of its word and of a listing: which register is asked for, and the text of the answer to who wrote it last.
#![tactic(auto)]

ghost use Rattle.std.specs.Prelude.{◌≡◌, ℕ, List};
ghost use Rattle.record.specs.Refusals.{Legal};
ghost use Rattle.text.specs.Buffer.{buffer, Puts};
ghost use Rattle.last.specs.Last.{answer_of};
ghost use Rattle.lastline.specs.LastText.{Asks, LineAt, TextOf, found_text};
ghost use Rattle.lastline.specs.Steps.{asked_of, word_in, feeds_in, PutsPrinted, said_of, Lays};

use record::{Mode, Record, Target, Word};
use refusals::Refusal;
use tree::Place;

// As many bytes as the text of an answer has at most.
const ANSWER_ROOM: usize = 99;

const LINE_FEED: u8 = 10;

// ---- the word

fn word_in(p: Place, whole: bool) -> Option<Word>
    ensures { asked_of result ≡ word_in p whole }
{
    match p {
        Place::Word(w) => if whole { Some(w) } else { None },
        Place::Half(_) | Place::Double(_) | Place::Pred(_) => None,
    }
}

// The register that the word is, and nothing behind it.
pub fn register_of(word: &[u8]) -> Option<Word>
    ensures { Asks word.now (asked_of result) }
{
    match scan::read_register(word) {
        Ok((p, n)) => word_in(p, n as usize == word.len()),
        Err(_) => None,
    }
}

// ---- the text

// How many line feeds there are.
// Not `filter` and `count`, which take twice the time: every byte is one branch there.
fn feeds(s: &[u8]) -> usize
    ensures { result ≡ feeds_in s.now }
{
    let mut n = 0;
    for b in s {
        n += usize::from(*b == LINE_FEED);
    }
    n
}

// A line's number and its standard line.
// Buffer and place, here and below, since report::put_standard takes them: Out does not lend its buffer.
fn put_record(out: &mut [u8], number: u64, r: Record) -> usize
    ensures { Legal r → Puts (buffer out.old 0) (found_text number r) (buffer out.new result) }
{
    let at1 = text::put_decimal(out, 0, number);
    let at2 = text::push(out, at1, b' ');
    report::put_standard(out, at2, r)
}

// The line that begins so far from the end: it is read once more, since the answer is the distance alone.
fn put_found(out: &mut [u8], listing: &[u8], d: usize) -> usize
    ensures { (number : ℕ) (m : Record) → LineAt listing.now d number m → Puts (buffer out.old 0) (found_text number m) (buffer out.new result) }
{
    let at = lines::left(listing.len(), d);
    let end = lines::until(listing, at, LINE_FEED);
    let number = (feeds(&listing[..at]) as u64).wrapping_add(1);
    match read::read(Target::Sm30, Mode::Ordinary, &listing[at..end]) {
        Ok(r) => put_record(out, number, r),
        Err(_) => 0,
    }
}

fn put_last(out: &mut [u8], listing: &[u8], a: Result<Option<usize>, Refusal>) -> usize
    ensures { (t : List ℕ) → TextOf listing.now (answer_of a) t → Puts (buffer out.old 0) t (buffer out.new result) }
{
    match a {
        Ok(Some(d)) => put_found(out, listing, d),
        Ok(None) => text::put(out, 0, b"none"),
        Err(refusal) => report::put_refused(out, 0, refusal.number()),
    }
}

fn put_answer(out: &mut [u8], listing: &[u8], register: Word) -> usize
    ensures { PutsPrinted listing.now register.0 (buffer out.old 0) (buffer out.new result) }
{
    let a = last::last_writer(listing, register);
    let at = put_last(out, listing, a);
    text::push(out, at, LINE_FEED)
}

// The answer's text at the front of the lent buffer, and how many bytes it has; nothing where the buffer is too short.
pub fn answer(listing: &[u8], register: Word, out: &mut [u8]) -> Option<usize>
    ensures { Lays listing.now register.0 out.old (said_of result) out.new }
{
    if out.len() < ANSWER_ROOM {
        return None;
    }
    Some(put_answer(out, listing, register))
}
