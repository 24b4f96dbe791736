// The answer to a line `R`: legality, and what writing does with buffers of several lengths.
ghost use Rattle.std.specs.Prelude.{◌<◌};

use record::Record;
use refusals::Refusal;
use std::io::Write;

// What the buffers and the bytes around them hold before.
const PATTERN: u8 = b'#';

// The longest buffer, the bytes on either side of it, and all of these.
const BUFFER: usize = 80;

const MARGIN: usize = 16;

const AREA: usize = 112;

// What writing answers, and what the area of the buffer holds then.
#[derive(Clone, Copy)]
struct Attempt {
    answer: Result<usize, Refusal>,
    area: [u8; AREA],
}

fn attempted(record: Record, size: usize) -> Attempt {
    let mut area = [PATTERN; AREA];
    let end = MARGIN + size.min(BUFFER);
    let answer = write::write(record, &mut area[MARGIN..end]);
    Attempt { answer, area }
}

// Whether the first n bytes of the buffer are as in the line, and all others as before.
fn holds(area: &[u8; AREA], line: &[u8; AREA], n: usize) -> bool {
    let end = MARGIN + n.min(BUFFER);
    let mut around = area[..MARGIN].iter().chain(&area[end..]);
    area[MARGIN..end] == line[MARGIN..end] && around.all(|b| *b == PATTERN)
}

// Line: the area after writing into the longest buffer.
fn print_attempt(out: &mut impl Write, attempt: Attempt, line: &[u8; AREA]) {
    let n = match attempt.answer {
        Ok(n) => {
            let _ = write!(out, " {n}");
            n
        }
        Err(refusal) => {
            let _ = write!(out, " -{}", refusal.number());
            0
        }
    };
    if !holds(&attempt.area, line, n) {
        streams::write_all(out, b"!");
    }
}

fn answer_sizes(out: &mut impl Write, record: Record, n: usize, line: &[u8; AREA])
    requires { 0 < n }
{
    for size in [n, n - 1, 0] {
        print_attempt(out, attempted(record, size), line);
    }
    streams::write_all(out, b" ");
    streams::write_first(out, &line[MARGIN..], n);
}

pub(crate) fn answer_record(out: &mut impl Write, record: Record) {
    let sign = if legal::legal(record) { b"+" } else { b"8" };
    streams::write_all(out, sign);
    let attempt = attempted(record, BUFFER);
    print_attempt(out, attempt, &attempt.area);
    match attempt.answer {
        Ok(n) if 0 < n => answer_sizes(out, record, n, &attempt.area),
        _ => {}
    }
    streams::write_all(out, b"\n");
}
