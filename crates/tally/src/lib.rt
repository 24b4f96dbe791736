// The pass tally of a wash bay's gate (document 02, T-13): which tags passed, and how often. A read is a tag, a pass number and two words of antenna
// bytes; a tally of at most 32 tags is lent to each call and brought up to date there.
#![tactic(auto)]

ghost use Rattle.std.specs.Prelude.{◌≡◌, ◌+◌, ◌≤◌, ◌<◌, take, drop, get_or};
ghost use Rattle.std.proofs.Math.Option.{none, some};
ghost use Rattle.tally.specs.Votes.{floor_word, gate, vote_of};
ghost use Rattle.tally.specs.Passes.{most_tags, standing, count_fits, is_tally, next_count, judged};
ghost use Rattle.tally.specs.Lent.{no_entry, entries_of, outcome, answer_of, laid, call_of, empty_tally};
ghost use Rattle.tally.specs.Places.{place_of, put_at};

use record::{Cmp6, LaneWidth, Lanes, VideoType, Word};
use refusals::Refusal;

// A tag that the tally holds, its last pass number, and how many of its passes counted.
#[derive(Clone, Copy)]
pub struct Entry {
    pub tag: u32,
    pub last: u32,
    pub count: u8,
}

// The first `len` entries are held, in the order in which their tags came. Not every value of this type is a tally: a call refuses the others.
#[derive(Clone, Copy)]
pub struct Tally {
    pub len: usize,
    pub entries: [Entry; TAGS],
}

#[derive(Clone, Copy)]
pub struct Read {
    pub tag: u32,
    pub pass: u32,
    pub first: u32,
    pub second: u32,
}

// What a call that is not refused answers: the count that the tag stands at now; the votes of a weak read.
#[derive(Clone, Copy)]
pub enum Passed {
    Counted(u8),
    Duplicate,
    Weak(u32),
}

// The answer, and the tally brought up to date.
#[derive(Clone, Copy)]
pub struct Updated {
    pub answer: Result<Passed, Refusal>,
    pub tally: Tally,
}

const TAGS: usize = 32;

const ENOUGH_VOTES: u32 = 5;

const LEAST_COUNT: u8 = 1;

const WASHED: u8 = 3;

// A byte times this stands in all four bytes of a word.
const ONES: u32 = 0x0101_0101;

// ---- votes

fn floor_word(floor: u8) -> u32
    ensures { result ≡ floor_word floor }
{
    let f = floor as u32;
    f * ONES
}

// vset4.u32.u32.ge.add with the full mask and the default selectors.
fn at_or_above() -> Lanes
    ensures { result ≡ gate }
{
    Lanes {
        width: LaneWidth::Byte,
        atype: VideoType::U32,
        btype: VideoType::U32,
        add: true,
        d: Word(3),
        mask: fits::full_mask(LaneWidth::Byte),
        a: Word(1),
        asel: fits::default_digits(LaneWidth::Byte, false),
        b: Word(2),
        bsel: fits::default_digits(LaneWidth::Byte, true),
        c: Word(3),
    }
}

// How many of the eight antenna bytes are at or above the floor: two accumulations, the second on top of the first.
pub fn votes(r: Read, floor: u8) -> u32
    ensures { result ≡ vote_of floor r }
{
    let f = floor_word(floor);
    let l = at_or_above();
    let v = video::vset_lanes(Cmp6::Ge, l, r.first, f, 0);
    video::vset_lanes(Cmp6::Ge, l, r.second, f, v)
}

// ---- what a tally holds

// Where the tag stands from place `from` on among the first n entries; n where it does not.
fn place(entries: [Entry; TAGS], from: usize, n: usize, tag: u32) -> usize
    requires { (from ≤ n) × (n ≤ most_tags) }
    ensures { result ≡ from + place_of tag (drop from (take n entries)) }
{
    let mut i = from;
    while i < n {
        let e = entries[i];
        if e.tag == tag {
            return i;
        }
        i += 1;
    }
    n
}

fn count_fits(e: Entry) -> bool
    ensures { result ≡ count_fits e }
{
    (LEAST_COUNT <= e.count) & (e.count <= WASHED)
}

// Whether it is a tally: at most 32 tags, none twice, each count 1 to 3.
pub fn is_tally(t: Tally) -> bool
    ensures { result ≡ is_tally (entries_of t) }
{
    let n = t.len;
    let entries = t.entries;
    if TAGS < n {
        return false;
    }
    let mut i = 0;
    while i < n {
        let e = entries[i];
        if !count_fits(e) {
            return false;
        }
        let k = place(entries, i + 1, n, e.tag);
        if k < n {
            return false;
        }
        i += 1;
    }
    true
}

// ---- one call

fn next_count(c: u8) -> u8
    ensures { result ≡ next_count c }
{
    if c < WASHED { c + 1 } else { WASHED }
}

// The tally with the entry at place i, which is one of its places or the next one.
fn put(t: Tally, i: usize, e: Entry) -> Tally
    requires { i < most_tags }
    ensures { result ≡ put_at t i e }
{
    let len = t.len;
    let mut entries = t.entries;
    entries[i] = e;
    if i < len {
        return Tally { len, entries };
    }
    Tally {
        len: i + 1,
        entries,
    }
}

// A read of the tag at place i.
fn held_tag(t: Tally, i: usize, r: Read) -> Updated
    requires { (t.len ≤ most_tags) × (i < t.len) × (i ≡ place_of r.tag (take t.len t.entries)) }
    ensures { outcome (answer_of result.answer) result.tally ≡ laid t (judged (entries_of t) r (some (get_or t.entries i no_entry))) }
{
    let entries = t.entries;
    let e = entries[i];
    if r.pass == e.last {
        return Updated {
            answer: Ok(Passed::Duplicate),
            tally: t,
        };
    }
    if r.pass < e.last {
        return Updated {
            answer: Err(Refusal::LowerPass),
            tally: t,
        };
    }
    let c = next_count(e.count);
    let moved = Entry {
        tag: r.tag,
        last: r.pass,
        count: c,
    };
    Updated {
        answer: Ok(Passed::Counted(c)),
        tally: put(t, i, moved),
    }
}

// A read of a tag that the tally does not hold.
fn new_tag(t: Tally, r: Read) -> Updated
    requires { (t.len ≤ most_tags) × (t.len ≤ place_of r.tag (take t.len t.entries)) }
    ensures { outcome (answer_of result.answer) result.tally ≡ laid t (judged (entries_of t) r none) }
{
    let n = t.len;
    if n == TAGS {
        return Updated {
            answer: Err(Refusal::TallyFull),
            tally: t,
        };
    }
    let new = Entry {
        tag: r.tag,
        last: r.pass,
        count: LEAST_COUNT,
    };
    Updated {
        answer: Ok(Passed::Counted(LEAST_COUNT)),
        tally: put(t, n, new),
    }
}

// A read with votes enough, on a tally.
fn strong(t: Tally, r: Read) -> Updated
    requires { t.len ≤ most_tags }
    ensures { outcome (answer_of result.answer) result.tally ≡ laid t (judged (entries_of t) r (standing r.tag (entries_of t))) }
{
    let n = t.len;
    let entries = t.entries;
    let i = place(entries, 0, n, r.tag);
    if i < n {
        return held_tag(t, i, r);
    }
    new_tag(t, r)
}

// The answer to a read and the tally after it, by value.
pub fn update(t: Tally, r: Read, floor: u8) -> Updated
    ensures { outcome (answer_of result.answer) result.tally ≡ call_of t r floor }
{
    if !is_tally(t) {
        return Updated {
            answer: Err(Refusal::NotTally),
            tally: t,
        };
    }
    let v = votes(r, floor);
    if v < ENOUGH_VOTES {
        return Updated {
            answer: Ok(Passed::Weak(v)),
            tally: t,
        };
    }
    strong(t, r)
}

// A tally that holds no tag.
pub fn empty() -> Tally
    ensures { result ≡ empty_tally }
{
    Tally {
        len: 0,
        entries: [Entry {
            tag: 0,
            last: 0,
            count: 0,
        }; TAGS],
    }
}

// The tally is lent and brought up to date: a thin wrapper over the update by value.
pub fn pass(t: &mut Tally, r: Read, floor: u8) -> Result<Passed, Refusal>
    ensures { outcome (answer_of result) t.new ≡ call_of t.old r floor }
{
    let done = update(*t, r, floor);
    *t = done.tally;
    done.answer
}

// Lends the tally to `pass` and takes it back, for a caller that holds it by value.
pub fn lend(t: Tally, r: Read, floor: u8) -> Updated
    ensures { outcome (answer_of result.answer) result.tally ≡ call_of t r floor }
{
    let mut kept = t;
    let answer = pass(&mut kept, r, floor);
    Updated {
        answer,
        tally: kept,
    }
}
