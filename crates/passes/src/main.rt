// The tally program: reads standard input and prints what crate `passlog` makes of it, a line at a time, then the tags
// that the tally holds. Its one argument is the floor, two hexadecimal digits.
#![tactic(auto)]

ghost use Rattle.std.specs.Prelude.{◌≤◌, length, IfSome};
ghost use Rattle.passlog.specs.Steps.{line_room, end_room};
ghost use Rattle.passlog.specs.OutputLaws.{Told};

use std::io::writer;
use std::rt::Env;
use tally::Tally;

// One byte more than the input may have: a longer one is seen to be too long.
const INPUT: usize = 65537;

// Room for the text of a line, and for that of the end.
const OUTPUT: usize = 1056;

// Calls `log_line` until the input ends, and prints what each call has put into the buffer: the tally after the last;
// none, and no more is printed, where the system does not take a text.
fn say_lines(rt: &impl Print, floor: u8, input: &[u8], out: &mut [u8]) -> Option<Tally>
    requires { line_room ≤ length out.old }
    ensures { IfSome result (Told floor input.now) }
{
    let mut at = 0;
    let mut number = 1;
    let mut t = tally::empty();
    while at < input.len() {
        let p = passlog::log_line(floor, input, at, number, t, out);
        if !streams::write_first(&mut writer(rt), out, p.len) {
            return None;
        }
        at = p.at;
        number = p.number;
        t = p.tally;
    }
    Some(t)
}

// After all lines there is a text: what the calls leave is a tally (`told-ends`), and the buffer has room.
fn say_end(rt: &impl Print, t: Tally, out: &mut [u8])
    requires { end_room ≤ length out.old }
{
    if let Ok(n) = passlog::end(t, out) {
        streams::write_first(&mut writer(rt), out, n);
    }
}

fn say_log(rt: &impl Print, floor: u8, input: &[u8]) {
    let mut out = [0u8; OUTPUT];
    if let Some(t) = say_lines(rt, floor, input, &mut out) {
        say_end(rt, t, &mut out);
    }
}

fn floor_given(rt: &impl Env) -> Option<u8> {
    if !streams::has_arg(rt, 1) || streams::has_arg(rt, 2) {
        return None;
    }
    // As many bytes as a floor has; of a longer word `arg` answers none.
    let mut word = [0u8; 2];
    let n = streams::arg(rt, 1, &mut word);
    passlog::floor_of(&word[..n])
}

fn main(rt: HostRuntime) {
    let Some(floor) = floor_given(&rt) else {
        let _ = eprintln!(rt;
            "passes: the one word behind it is the floor, two hexadecimal digits, capitals"
        );
        return;
    };
    let mut input = [0u8; INPUT];
    let n = streams::read_full(&mut rt.reader(), &mut input);
    say_log(&rt, floor, &input[..n]);
}
