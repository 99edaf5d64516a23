//! The texts that are written.

ghost use Rattle.std.specs.Prelude.{◌≡◌};
ghost use Rattle.ilpstream_local.specs.Errors.{fault_number};
ghost use Rattle.ilpstream_output.specs.Texts.{fault_text};

use crate::fault::LocalFault;

/// The line that a fault prints.
pub(crate) fn fault_line(fault: LocalFault) -> &'static str
    ensures { result.now ≡ fault_text (fault_number fault) }
{
    match fault {
        LocalFault::Failed => "fault 58\n",
        LocalFault::TooLong => "fault 84\n",
        LocalFault::Input => "fault 90\n",
        LocalFault::Output => "fault 91\n",
        LocalFault::Turns => "fault 93\n",
        LocalFault::Events => "fault 97\n",
        LocalFault::NoMemory => "fault 99\n",
    }
}
