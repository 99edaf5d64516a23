//! How a transfer of a sender ended.

ghost use Rattle.std.specs.Prelude.{◌≡◌};
ghost use Rattle.st_end.specs.Totals as totals;
ghost use Rattle.ilpstream_ends.specs.Keeping.{file_stream};
ghost use Rattle.ilpstream_ends.specs.Outcomes as outcomes;

use crate::delivery::STREAM;
use ilpstream_serving::TransferError;
use st_file::FileError;
use st_hub::{HubState, WorkEnd};
use st_queues::HubName;
use std::alloc::Global;

/// The error for why a worker ended, if it is an error.
fn fault_of(end: WorkEnd) -> Option<TransferError>
    ensures { result ≡ outcomes.fault_of end }
{
    match end {
        WorkEnd::Stopped => None,
        WorkEnd::Failed => Some(TransferError::Failed),
        WorkEnd::IvFault => Some(TransferError::IvFault),
        WorkEnd::NoMemory => Some(TransferError::NoMemory),
        WorkEnd::Turns => Some(TransferError::Turns),
        WorkEnd::Settled => None,
        WorkEnd::Stalled => Some(TransferError::Stalled),
    }
}

/// The first error of the workers, or otherwise the last argument.
fn first_fault(ends: &[WorkEnd], last: TransferError) -> TransferError
    ensures { result ≡ outcomes.first_fault ends.now last }
{
    match ends {
        [] => last,
        [end, rest @ ..] => match fault_of(*end) {
            Some(fault) => fault,
            None => first_fault(rest, last),
        },
    }
}

/// The error of the connection, or otherwise the first of the workers, or otherwise the last argument.
fn fault_told(failed: bool, ends: &[WorkEnd], last: TransferError) -> TransferError
    ensures { result ≡ outcomes.fault_told failed ends.now last }
{
    if failed {
        return TransferError::Failed;
    }
    first_fault(ends, last)
}

/// The result of a transfer.
pub(crate) fn told<N: HubName<Global>>(
    hub: &HubState<N, Global>,
    fed: Result<u64, FileError>,
    ends: &[WorkEnd],
) -> Result<u64, TransferError>
    ensures { result ≡ outcomes.outcome (totals.settled hub.now.flow.core file_stream) hub.now.flow.core.sending.failed ends.now fed }
{
    match fed {
        Ok(sent) => {
            if hub.settled(STREAM) {
                return Ok(sent);
            }
            Err(fault_told(hub.is_failed(), ends, TransferError::Turns))
        }
        Err(error) => Err(fault_told(hub.is_failed(), ends, TransferError::File(error))),
    }
}
