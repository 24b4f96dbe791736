// The bench: a line is read, a record is written, a record is executed. What the three promise together stands in specs/Demands.antt.
#![tactic(auto)]

ghost use Rattle.std.specs.Prelude.{◌≡◌};
ghost use Rattle.record.specs.Registers.{files};
ghost use Rattle.rules.specs.Executing.{run};
ghost use Rattle.rules.specs.Executing as executing;
ghost use Rattle.rules.specs.Reading.{Answers};
ghost use Rattle.rules.specs.Writing.{outcome, writing};
ghost use Rattle.execute.specs.Answers as executed;
ghost use Rattle.read.specs.Paper.{answer_of};
ghost use Rattle.write.specs.Answers as written;

use execute::Executed;
use read::Refused;
use record::{Mode, Record, Target};
use refusals::Refusal;

// The record that the line spells, or the first refusal of 1 to 7, 12 and 15 that applies at the target and in the mode.
pub fn read(target: Target, mode: Mode, line: &[u8]) -> Result<Record, Refused>
    ensures { Answers target mode line.now (answer_of result) }
{
    read::read(target, mode, line)
}

// The record's standard line at the front of buf, and its length; or 8 or 9, and buf as it was.
pub fn write(r: Record, buf: &mut [u8]) -> Result<usize, Refusal>
    ensures { outcome (written.answer_of result) buf.new ≡ writing r buf.old }
{
    write::write(r, buf)
}

// The record executed at the target on the files, or skipped; or 8, 12, 10 or 11, and the files as they were.
pub fn execute(
    target: Target,
    r: Record,
    words: &mut [u32],
    halves: &mut [u16],
    doubles: &mut [u64],
    preds: &mut [u8],
) -> Result<Executed, Refusal>
    ensures { executing.outcome (executed.answer_of result) (files words.new halves.new doubles.new preds.new) ≡ run target r (files words.old halves.old doubles.old preds.old) }
{
    execute::execute(target, r, words, halves, doubles, preds)
}
