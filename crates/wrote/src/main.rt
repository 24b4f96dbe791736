// Who wrote this last: reads standard input, a listing, and prints what crate `lastline` makes of it and of the
// register that is the one argument. With the argument `distances` it prints the answers of crate `last` as they are,
// for `%r0` to `%r64`.
#![tactic(auto)]

ghost use Rattle.std.specs.Prelude.{◌≤◌, length};
ghost use Rattle.lastline.specs.Steps.{answer_room};

use record::Word;
use refusals::Refusal;
use std::io::writer;
use std::rt::Env;

// One byte more than a listing may have: a longer one is seen to be too long.
const INPUT: usize = 65537;

// Room for the text of an answer.
const OUTPUT: usize = 99;

// As many bytes as the longest word has.
const WORD_ROOM: usize = 9;

// One more than there are words, so that the first number out of the file is asked for too.
const ASKED: u16 = 65;

// With that room there is a text (`no_room` of `Lays` is what a shorter buffer gets).
fn say_answer(rt: &impl Print, listing: &[u8], register: Word, out: &mut [u8])
    requires { answer_room ≤ length out.old }
{
    if let Some(n) = lastline::answer(listing, register, out) {
        streams::write_first(&mut writer(rt), out, n);
    }
}

fn put_distance(out: &mut [u8], at: usize, a: Result<Option<usize>, Refusal>) -> usize {
    match a {
        Ok(Some(d)) => text::put_decimal(out, at, d as u64),
        Ok(None) => text::put(out, at, b"none"),
        Err(refusal) => report::put_refused(out, at, refusal.number()),
    }
}

// Whether the system took it, as streams::write_first answers.
fn say_distance(rt: &impl Print, listing: &[u8], n: u16) -> bool {
    let mut out = [0u8; OUTPUT];
    let at1 = text::put(&mut out, 0, b"%r");
    let at2 = text::put_decimal(&mut out, at1, n as u64);
    let at3 = text::push(&mut out, at2, b' ');
    let at4 = put_distance(&mut out, at3, last::last_writer(listing, Word(n)));
    let end = text::push(&mut out, at4, b'\n');
    streams::write_first(&mut writer(rt), &out, end)
}

// No more of them, where the system does not take one.
fn say_distances(rt: &impl Print, listing: &[u8]) {
    for n in 0..ASKED {
        if !say_distance(rt, listing, n) {
            break;
        }
    }
}

// What the word behind the program asks for.
#[derive(Clone, Copy)]
enum Question {
    Of(Word),
    Distances,
}

// None where it is no question, or not one word.
fn question_given(rt: &impl Env) -> Option<Question> {
    if !streams::has_arg(rt, 1) || streams::has_arg(rt, 2) {
        return None;
    }
    // Of a longer word `arg` answers no byte, which is no question either.
    let mut word = [0u8; WORD_ROOM];
    let n = streams::arg(rt, 1, &mut word);
    match &word[..n] {
        b"distances" => Some(Question::Distances),
        word => Some(Question::Of(lastline::register_of(word)?)),
    }
}

fn main(rt: HostRuntime) {
    let Some(question) = question_given(&rt) else {
        let _ = eprintln!(rt;
            "wrote: the one word behind it is a register, `%r` and a number of up to 3 digits, or `distances`"
        );
        return;
    };
    let mut input = [0u8; INPUT];
    let n = streams::read_full(&mut rt.reader(), &mut input);
    let listing = &input[..n];
    match question {
        Question::Of(register) => {
            let mut out = [0u8; OUTPUT];
            say_answer(&rt, listing, register, &mut out);
        }
        Question::Distances => say_distances(&rt, listing),
    }
}
