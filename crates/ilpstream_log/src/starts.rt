//! The lines of how a command begins.

ghost use Rattle.std.specs.Prelude.{◌≡◌, IfOk, string_bytes};
ghost use Rattle.ilpstream_log.specs.Lines as spec;

use crate::event::Start;
use crate::quote::quoted;
use std::alloc::{AllocError, Global};

fn send_text(
    alloc: Global,
    to: &str,
    address: &str,
    peer: &str,
    money: u64,
    workers: u8,
) -> Result<String, AllocError>
    ensures { IfOk result (λ text. string_bytes text ≡ spec.send_text to.now address.now peer.now money workers) }
{
    let to = quoted(alloc, to.as_bytes())?;
    let address = quoted(alloc, address.as_bytes())?;
    let peer = quoted(alloc, peer.as_bytes())?;
    format!(in alloc;
        "start command=send to={to} address={address} peer={peer} money={money} workers={workers}\n"
    )
}

fn receive_text(
    alloc: Global,
    listen: &str,
    address: &str,
    peer: &str,
    most: u64,
) -> Result<String, AllocError>
    ensures { IfOk result (λ text. string_bytes text ≡ spec.receive_text listen.now address.now peer.now most) }
{
    let listen = quoted(alloc, listen.as_bytes())?;
    let address = quoted(alloc, address.as_bytes())?;
    let peer = quoted(alloc, peer.as_bytes())?;
    format!(in alloc;
        "start command=receive listen={listen} address={address} peer={peer} receive_max={most}\n"
    )
}

fn connector_text(
    alloc: Global,
    listen: &str,
    own: &str,
    workers: u8,
    requests: u64,
) -> Result<String, AllocError>
    ensures { IfOk result (λ text. string_bytes text ≡ spec.connector_text listen.now own.now workers requests) }
{
    let listen = quoted(alloc, listen.as_bytes())?;
    let own = quoted(alloc, own.as_bytes())?;
    format!(in alloc;
        "start command=connector listen={listen} own={own} workers={workers} requests={requests}\n"
    )
}

/// The line of a connector that answers any number of requests.
fn endless_text(alloc: Global, listen: &str, own: &str, workers: u8) -> Result<String, AllocError>
    ensures { IfOk result (λ text. string_bytes text ≡ spec.endless_text listen.now own.now workers) }
{
    let listen = quoted(alloc, listen.as_bytes())?;
    let own = quoted(alloc, own.as_bytes())?;
    format!(in alloc;
        "start command=connector listen={listen} own={own} workers={workers} requests=endless\n"
    )
}

pub(crate) fn start_text(alloc: Global, start: Start<'_>) -> Result<String, AllocError>
    ensures { IfOk result (λ text. string_bytes text ≡ spec.start_text start.entry) }
{
    match start {
        Start::Send {
            to,
            address,
            peer,
            money,
            workers,
        } => send_text(alloc, to, address, peer, money, workers),
        Start::Receive {
            listen,
            address,
            peer,
            receive_max,
        } => receive_text(alloc, listen, address, peer, receive_max),
        Start::Connector {
            listen,
            own,
            workers,
            requests: Some(requests),
        } => connector_text(alloc, listen, own, workers, requests),
        Start::Connector {
            listen,
            own,
            workers,
            requests: None,
        } => endless_text(alloc, listen, own, workers),
    }
}
