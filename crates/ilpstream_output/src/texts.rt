//! The text of a fault.

ghost use Rattle.std.specs.Prelude.{◌≡◌};
ghost use Rattle.ilpstream_output.specs.Errors.{fault_number};
ghost use Rattle.ilpstream_output.specs.Texts.{fault_text};

use crate::error::Fault;

/// The line that reports a fault.
pub fn fault_line(fault: Fault) -> &'static str
    ensures { result.now ≡ fault_text (fault_number fault) }
{
    match fault {
        Fault::Input => "fault 90\n",
        Fault::Output => "fault 91\n",
        Fault::Turns => "fault 93\n",
        Fault::NoMemory => "fault 99\n",
    }
}
