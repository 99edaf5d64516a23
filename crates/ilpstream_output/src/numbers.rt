//! What the numbers of faults and refusals mean, and the command `explain`, which prints it.
//!
//! The table is docs/errors.toml: `tools/errors.py` writes from it the tables of docs/ERRORS.md, the rows in specs/Rows.antt and
//! the texts in src/explanations.rt. How a row is laid out is in specs/Explaining.antt, and how the command ends in
//! specs/Explain.antt. Nothing here allocates.

ghost use Rattle.std.specs.Prelude.{◌≡◌, ◌≤◌, option_map};
ghost use Rattle.st_devices.specs.Tallies.{tally_of};
ghost use Rattle.st_devices.specs.declared.tally.Tally.{Tally};
ghost use Rattle.ilpstream_output.specs.Endings.{HasEnded};
ghost use Rattle.ilpstream_output.specs.Explain.{Explains, WritesText};
ghost use Rattle.ilpstream_output.specs.Explaining as specs;

use crate::explanations::texts;
use crate::output::{TURNS, put, say, tell_fault};
use st_devices::CountWrite;
use std::io::Write;

/// What is printed for a number that no fault and no refusal has.
const NO_FAULT: &str = "error: no fault and no refusal has this number\n";

/// The lines that say what a number means: for each variant of an error with this number its crate and name, which commands
/// of the program give it, its cause, and what to do. `None` if no fault and no refusal has this number.
pub fn explanation(number: u8) -> Option<&'static str>
    ensures { option_map (λ t. t.now) result ≡ specs.explanation number }
{
    let texts = texts(number / 10)?;
    texts[usize::from(number % 10)]
}

/// Writes a text. Status 0, or that of a fault.
fn write_text<W: Write, E: Write>(
    writer: &mut CountWrite<W>,
    errors: &mut CountWrite<E>,
    text: &str,
) -> u8
    ensures written { (r : Tally) → WritesText text.now W.contents E.contents
        (HasEnded r r (tally_of writer.old) (tally_of writer.new)) writer.old writer.new errors.old errors.new result }
    ensures status { result ≤ 1 }
{
    let mut turns = TURNS;
    match put(writer, text.as_bytes(), &mut turns) {
        Ok(()) => 0,
        Err(fault) => tell_fault(errors, fault),
    }
}

/// Prints what a number means: each error with this number, which commands report it, its cause, and what to do. Status 0,
/// or that of a fault. If no error has the number, that is reported to `errors`, and the status is 2.
pub fn explain<W: Write, E: Write>(
    number: u8,
    writer: &mut CountWrite<W>,
    errors: &mut CountWrite<E>,
) -> u8
    ensures explained { (r : Tally) → Explains number W.contents E.contents
        (HasEnded r r (tally_of writer.old) (tally_of writer.new)) writer.old writer.new errors.old errors.new result }
    ensures status { result ≤ 2 }
{
    match explanation(number) {
        Some(text) => write_text(writer, errors, text),
        None => {
            say(errors, NO_FAULT);
            2
        }
    }
}
