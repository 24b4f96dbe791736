// Standard input, standard output and the arguments, as the programs take them.
#![tactic(auto)]

ghost use Rattle.std.specs.Prelude.{◌≡◌, ◌<◌, ◌≤◌, length, take, true, false};
ghost use Rattle.std.specs.Io.KnownBytes.{Appends, Consumes};

use std::env::FillError;
use std::io::{Read, Write};
use std::rt::Env;

// Reads until buf is full, the input ends or a read fails, and answers how many bytes stand at the start of buf then.
// Not read_exact, which does not say how many, as the clause `take result buf.new` does.
pub fn read_full<R: Read>(reader: &mut R, buf: &mut [u8]) -> usize
    ensures bound { result ≤ length buf.new }
    ensures bytes { Consumes (R.remaining reader.old) (R.remaining reader.new) (take result buf.new) }
{
    let mut done = 0;
    while done < buf.len() {
        match reader.read(&mut buf[done..]) {
            Ok(0) | Err(_) => break,
            Ok(n) => done += n,
        }
    }
    done
}

// Whether the writer took all of the bytes.
// A bool, not a Result: its clause, which ATTACKS names, says what `true` means.
pub fn write_all<W: Write>(writer: &mut W, s: &[u8]) -> bool
    ensures { result ≡ true → Appends (W.contents writer.old) (W.contents writer.new) s.now }
{
    writer.write_all(s).is_ok()
}

// Whether the writer took all of the first n bytes; of a shorter text it is given none.
pub fn write_first<W: Write>(writer: &mut W, s: &[u8], n: usize) -> bool
    ensures all { result ≡ true → Appends (W.contents writer.old) (W.contents writer.new) (take n s.now) }
    ensures enough { result ≡ true → n ≤ length s.now }
    ensures too_short { length s.now < n → writer.new ≡ writer.old }
{
    match s.get(..n) {
        Some(first) => write_all(writer, first),
        None => false,
    }
}

// Argument i at the start of buf, of a longer one and of one that is not there no byte; how many bytes.
// How many, not the slice: its clause, which ATTACKS names, says so.
pub fn arg(rt: &impl Env, i: usize, buf: &mut [u8]) -> usize
    ensures { result ≤ length buf.new }
{
    rt.arg(i, buf).unwrap_or(0)
}

// Whether there is an argument i, the program's name being argument 0.
pub fn has_arg(rt: &impl Env, i: usize) -> bool {
    !matches!(rt.arg(i, &mut []), Err(FillError::NotPresent))
}
