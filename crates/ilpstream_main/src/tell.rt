//! How the end of a command is reported.

ghost use Rattle.std.specs.Prelude.{◌≡◌, ◌≤◌, IfOk, string_bytes};
ghost use Rattle.ilpstream_output.specs.Texts.{fault_text};
ghost use Rattle.ilpstream_main.specs.Endings.{TellsEnd, TellsNumber};

use ilpstream_net::{Obstacle, RunError, has_terminal, put_terminal, words_of};
use ilpstream_output::{Fault, say, tell_fault};
use st_devices::CountWrite;
use std::alloc::{AllocError, Global};
use std::io::Write;

/// The line that reports the fault of this number.
#[tactic(auto, using(crate::proofs::Pieces::pieces))]
fn fault_line(alloc: Global, number: u8) -> Result<String, AllocError>
    ensures { IfOk result (λ text. string_bytes text ≡ fault_text number) }
{
    let text = format!(in alloc; "fault {number}\n")?;
    Ok(text)
}

/// Reports the fault of this number, as far as `errors` accepts it, or fault 99 if memory is refused. Returns the status of
/// a fault.
pub(crate) fn tell_number<E: Write>(alloc: Global, errors: &mut CountWrite<E>, number: u8) -> u8
    ensures { TellsNumber number E.contents errors.old errors.new result }
{
    let Ok(text) = fault_line(alloc, number) else {
        return tell_fault(errors, Fault::NoMemory);
    };
    say(errors, text.as_str());
    1
}

/// Writes a line to standard error, if that is a terminal.
pub(crate) fn tell_terminal(alloc: Global, words: &str) {
    if !has_terminal() {
        return;
    }
    if let Ok(line) = format!(in alloc; "{words}\n") {
        put_terminal(line.as_bytes());
    }
}

/// Reports the error with which a command ended, if there is one, and on a terminal also why, as a text. Returns the exit
/// status.
pub(crate) fn tell_end<E: Write>(
    alloc: Global,
    errors: &mut CountWrite<E>,
    obstacle: &Option<Obstacle<'_>>,
    ended: Result<(), RunError>,
) -> u8
    ensures told { TellsEnd ended E.contents errors.old errors.new result }
    ensures status { result ≤ 1 }
{
    match ended {
        Ok(()) => 0,
        Err(error) => {
            let status = tell_number(alloc, errors, error.number());
            if let Ok(words) = words_of(alloc, error, obstacle) {
                tell_terminal(alloc, words.as_str());
            }
            status
        }
    }
}
