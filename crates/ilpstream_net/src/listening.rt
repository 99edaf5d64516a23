//! The address at which a command listens.

use crate::log::{Log, tell};
use crate::terminal::put_terminal;
use ilpstream_log::Event;
use std::alloc::Global;
use std::net::TcpListener;
use std::time::Clock;

/// Reports the address at which a command listens, with the port that the system chose in place of 0. It is written to the
/// log, if there is one, and to standard error, if that is asked for. Nothing is reported if the system does not return the
/// address.
pub fn tell_listening<N: Clock>(
    rt: &N,
    alloc: Global,
    log: Log<'_>,
    verbose: bool,
    listener: &TcpListener,
) {
    let Ok(address) = listener.local_addr() else {
        return;
    };
    let Ok(address) = format!(in alloc; "{address}") else {
        return;
    };
    let event = Event::Listening {
        address: address.as_str(),
    };
    tell(rt, log, &event);
    if verbose && let Ok(line) = format!(in alloc; "listening address={address}\n") {
        put_terminal(line.as_bytes());
    }
}
