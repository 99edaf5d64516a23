//! How a thread of a connector accepts a connection.

ghost use Rattle.std.specs.Prelude.{IsOkUnless};
ghost use Rattle.ilpstream_serving.specs.declared.error.TransferError.TheVariants.{Accept};

use crate::common::Common;
use ilpstream_serving::{
    AwaitListener, PAUSE, TRIES, TransferError, Tried, accept_next, accept_soon,
};
use std::net::SocketAddr;
use std::sync::Wait;
use std::sync::ledger::Ledger;
use std::thread;
use std::time::{Clock, Duration};

/// Tries to accept a connection, once no other thread does. A connector that is stopped accepts none.
fn try_accept<C: Ledger, D: Ledger, L: AwaitListener, R: Wait>(
    rt: &R,
    common: &Common<'_, C, D, L>,
) -> Tried<L::Stream> {
    let turn = common.turn.lock(rt);
    let tried = if common.crew.is_stopped(rt) {
        Tried::Nothing
    } else {
        accept_soon(common.listener)
    };
    drop(turn);
    tried
}

/// Accepts the next connection, as `accept_next` does. `None` if the connector is stopped before.
fn accept_asked<C: Ledger, D: Ledger, L: AwaitListener, R: Wait + Clock>(
    rt: &R,
    common: &Common<'_, C, D, L>,
) -> Result<Option<(L::Stream, SocketAddr)>, TransferError>
    ensures refused { IsOkUnless result Accept }
{
    let mut failures = 0;
    for _ in rt.forever() {
        if !common.crew.rest(rt) {
            return Ok(None);
        }
        match try_accept(rt, common) {
            Tried::Came(stream, from) => return Ok(Some((stream, from))),
            Tried::Nothing => failures = 0,
            Tried::Failed if failures < TRIES - 1 => {
                failures += 1;
                thread::sleep(rt, Duration::from_millis(PAUSE));
            }
            Tried::Failed | Tried::Shut => {
                thread::sleep(rt, Duration::from_millis(PAUSE));
                return Err(TransferError::Accept);
            }
        }
    }
    unreachable!()
}

/// Accepts the next connection. `None` if the connector is stopped before.
pub(crate) fn accept_one<C: Ledger, D: Ledger, L: AwaitListener, R: Wait + Clock>(
    rt: &R,
    common: &Common<'_, C, D, L>,
) -> Result<Option<(L::Stream, SocketAddr)>, TransferError>
    ensures refused { IsOkUnless result Accept }
{
    if common.is_asked {
        return accept_asked(rt, common);
    }
    match accept_next(rt, common.listener) {
        Ok(accepted) => Ok(Some(accepted)),
        Err(error) => Err(error),
    }
}
