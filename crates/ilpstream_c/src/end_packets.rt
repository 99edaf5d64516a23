//! Calls that send and receive the packets of an end of a connection (RFC 0029).

ghost use Rattle.std.specs.Prelude.{◌≡◌};
ghost use Rattle.st_end.specs.Receiving.{t00_text};
ghost use Rattle.ilpstream_c.specs.Handles.{OnEnd, Copies, OnEndAt};
ghost use Rattle.ilpstream_c.specs.Ends.{Sends, Receives, Sequence, Spends, Faults};

use crate::end::on_end;
use crate::handle::copy_out;
use host_objects::{ARGUMENT, Answered, DONE, Handle, HostEnd, IDLE, MISUSE, Object, UNKNOWN};
use st_ilp::Moment;
use std::alloc::Global;

/// Outputs the bytes of the next Prepare; `len` is how many, and `flight` the number of its flight. `IDLE` if nothing is
/// to be sent.
#[unsafe(no_mangle)]
pub extern "C" fn ilp_end_send(
    alloc: Global,
    handle: &mut Handle,
    iv: &[u8; 12],
    now: i64,
    flight: &mut u64,
    len: &mut usize,
) -> u32
    ensures { OnEndAt now handle.old.state handle.new.state result (λ old new. Sends old new iv.now now result flight.new len.new) }
{
    let Some(now) = Moment::new(now) else {
        return ARGUMENT;
    };
    on_end!(alloc, handle, end => match end.send(*iv, now) {
        Ok(Some(sequence)) => {
            *flight = sequence;
            *len = end.output.len();
            DONE
        }
        Ok(None) => IDLE,
        Err(error) => u32::from(error.number()),
    })
}

/// Processes the bytes of the answer to a flight: `fulfilled` is 1 if they are a Fulfill that fits, otherwise 0. They
/// are decrypted in place. `UNKNOWN` exactly if no open flight has this number.
#[unsafe(no_mangle)]
pub extern "C" fn ilp_end_answer(
    alloc: Global,
    handle: &mut Handle,
    flight: u64,
    bytes: &mut [u8],
    fulfilled: &mut u32,
) -> u32
    ensures { OnEnd handle.old.state handle.new.state result (λ old new. Spends old new flight bytes.old result fulfilled.new) }
{
    on_end!(alloc, handle, end => match end.answer(flight, bytes) {
        Some(pays) => {
            *fulfilled = u32::from(pays);
            DONE
        }
        None => UNKNOWN,
    })
}

/// There is no answer to a flight: what it carries is queued again. `UNKNOWN` exactly if no open flight has this number.
#[unsafe(no_mangle)]
pub extern "C" fn ilp_end_fault(alloc: Global, handle: &mut Handle, flight: u64) -> u32
    ensures { OnEnd handle.old.state handle.new.state result (λ old new. Faults old new flight result) }
{
    on_end!(alloc, handle, end => if end.fault(flight) { DONE } else { UNKNOWN })
}

/// What an end did with a Prepare.
#[repr(C)]
#[derive(Clone, Copy, Debug, Drop)]
pub struct HostReceived {
    /// How many bytes the answer has.
    pub len: usize,
    /// The amount of the Prepare; 0 if it cannot be read.
    pub amount: u64,
    /// The sequence of its packet, if `opened` is 1.
    pub sequence: u64,
    /// 0 for a Fulfill; else why it is a Reject.
    pub reason: u32,
    /// 1 if the packet was decrypted and read, otherwise 0.
    pub opened: u32,
}

/// What an end did with a Prepare, for a host.
fn host_received(len: usize, answered: Answered) -> HostReceived
    ensures len { result.len ≡ len }
    ensures amount { result.amount ≡ answered.amount }
    ensures reason { result.reason ≡ answered.reason }
    ensures sequence { Sequence answered.sequence result.opened result.sequence }
{
    let (opened, sequence) = match answered.sequence {
        Some(sequence) => (1, sequence),
        None => (0, 0),
    };
    HostReceived {
        len,
        amount: answered.amount,
        sequence,
        reason: u32::from(answered.reason),
        opened,
    }
}

/// Outputs the answer to a Prepare, and reports what it is.
fn receive(end: &mut HostEnd, bytes: &[u8], now: Moment, received: &mut HostReceived) -> u32
    ensures { Receives end.old end.new bytes.now now result received.new }
{
    match end.receive(bytes, now) {
        Ok(answered) => {
            *received = host_received(end.output.len(), answered);
            DONE
        }
        Err(error) => u32::from(error.number()),
    }
}

/// Outputs the answer to the bytes of a Prepare that arrived at the time `now`. 54 if memory is refused.
#[unsafe(no_mangle)]
pub extern "C" fn ilp_end_receive(
    alloc: Global,
    handle: &mut Handle,
    bytes: &[u8],
    now: i64,
    received: &mut HostReceived,
) -> u32
    ensures { OnEndAt now handle.old.state handle.new.state result (λ old new. Receives old new bytes.now now result received.new) }
{
    let Some(now) = Moment::new(now) else {
        return ARGUMENT;
    };
    on_end!(alloc, handle, end => receive(end, bytes, now, received))
}

/// Copies a Reject T00 that is kept ready to the front of a buffer; `len` is how many bytes it has.
#[unsafe(no_mangle)]
pub extern "C" fn ilp_end_t00(
    alloc: Global,
    handle: &mut Handle,
    out: &mut [u8],
    len: &mut usize,
) -> u32
    ensures { OnEnd handle.old.state handle.new.state result (λ old new. (new ≡ old) × Copies (t00_text old.state.own) out.old out.new result len.new) }
{
    on_end!(alloc, handle, end => copy_out(end.state.t00(), out, len))
}
