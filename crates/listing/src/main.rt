// The listing program: reads standard input and prints what crates `report` and `changes` make of it, some lines at a
// time, then the registers. Its first argument, if it has one, is the target's name; a second one, `strict`, asks for
// strict reading.
#![tactic(auto)]

ghost use Rattle.std.specs.Prelude.{◌≤◌, ◌≡◌, true, length};
ghost use Rattle.record.specs.Registers.{files};
ghost use Rattle.report.specs.Chunks.{line_room};
ghost use Rattle.report.specs.OutputLaws.{Told};

use record::{Mode, Target};
use std::io::writer;
use std::rt::Env;

// One byte more than a listing may have: a longer input is seen to be too long.
const INPUT: usize = 65537;

// The sizes of the files.
const WORDS: usize = record::WORDS as usize;

const HALVES: usize = record::HALVES as usize;

const DOUBLES: usize = record::DOUBLES as usize;

const PREDS: usize = record::PREDS as usize;

// The four files, in the order in which they are lent.
#[derive(Clone, Copy)]
struct Registers {
    words: [u32; WORDS],
    halves: [u16; HALVES],
    doubles: [u64; DOUBLES],
    preds: [u8; PREDS],
}

// Calls `some_lines` until the listing ends, and prints what each call has put into the buffer; false, and no more is
// printed, where the system does not take it.
fn say_lines(
    rt: &impl Print,
    target: Target,
    mode: Mode,
    listing: &[u8],
    registers: &mut Registers,
    out: &mut [u8],
) -> bool
    requires { line_room ≤ length out.old }
    ensures { result ≡ true → Told target mode listing.now
        (files registers.old.words registers.old.halves registers.old.doubles registers.old.preds)
        (files registers.new.words registers.new.halves registers.new.doubles registers.new.preds) }
{
    let mut at = 0;
    let mut number = 1;
    while at < listing.len() {
        let p = report::some_lines(
            target,
            mode,
            listing,
            at,
            number,
            &mut registers.words,
            &mut registers.halves,
            &mut registers.doubles,
            &mut registers.preds,
            out,
        );
        if !streams::write_first(&mut writer(rt), out, p.len) {
            return false;
        }
        at = p.at;
        number = p.number;
    }
    true
}

fn say_registers(rt: &impl Print, registers: &Registers, out: &mut [u8]) {
    let printed = changes::registers(
        &registers.words,
        &registers.halves,
        &registers.doubles,
        &registers.preds,
        out,
    );
    // The caller's buffer is longer than all registers' texts, so there is room.
    if let Some(n) = printed {
        streams::write_first(&mut writer(rt), out, n);
    }
}

fn say_listing(rt: &impl Print, target: Target, mode: Mode, listing: &[u8]) {
    let mut registers = Registers {
        words: changes::start_words(),
        halves: changes::start_halves(),
        doubles: changes::start_doubles(),
        preds: changes::start_preds(),
    };
    let mut out = [0u8; 65536];
    if say_lines(rt, target, mode, listing, &mut registers, &mut out) {
        say_registers(rt, &registers, &mut out);
    }
}

// The listing uses sm_30, unless another is given.
fn target_given(rt: &impl Env) -> Option<Target> {
    if !streams::has_arg(rt, 1) {
        return Some(Target::Sm30);
    }
    // Of a longer word `arg` answers no byte, which is no name either.
    let mut name = [0u8; 5];
    let n = streams::arg(rt, 1, &mut name);
    targets::target_of(&name[..n])
}

// The listing is ordinary, unless `strict` is given, with nothing behind it; of other words there is none.
fn mode_given(rt: &impl Env) -> Option<Mode> {
    if !streams::has_arg(rt, 2) {
        return Some(Mode::Ordinary);
    }
    // As many bytes as `strict` has; of a longer word `arg` answers none.
    let mut word = [0u8; 6];
    let n = streams::arg(rt, 2, &mut word);
    match &word[..n] {
        b"strict" if !streams::has_arg(rt, 3) => Some(Mode::Strict),
        _ => None,
    }
}

// How the listing is worked; none where the arguments are not what they may be.
fn arguments(rt: &impl Env) -> Option<(Target, Mode)> {
    Some((target_given(rt)?, mode_given(rt)?))
}

fn main(rt: HostRuntime) {
    let Some((target, mode)) = arguments(&rt) else {
        let _ = eprintln!(rt;
            "listing: the target is sm_10, sm_13, sm_20 or sm_30, one of them; \
             behind it may stand `strict`, and nothing else"
        );
        return;
    };
    let mut input = [0u8; INPUT];
    let n = streams::read_full(&mut rt.reader(), &mut input);
    say_listing(&rt, target, mode, &input[..n]);
}
