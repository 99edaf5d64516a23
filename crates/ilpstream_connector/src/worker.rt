//! The threads of a connector: each accepts connections, and serves one request on each.

use crate::accept::accept_one;
use crate::common::Common;
use crate::roster::Failed;
use crate::server::Server;
use crate::storing::Storing;
use ilpstream_serving::{AwaitListener, SharedClock, serve_on, shut};
use st_hop_desk::Till;
use st_links::Keeper;
use std::alloc::Global;
use std::cell::Cell;
use std::io::{Read, Write};
use std::net::{Net, OpenStream};
use std::sync::Wait;
use std::sync::ledger::Ledger;
use std::thread::Scope;
use std::time::Clock;

/// Accepts a connection and serves one request on it. Whether the thread is to accept the next one.
fn serve_next<C: Ledger, D: Ledger, K: Keeper, L: AwaitListener, R: Net + Wait + Clock>(
    server: &mut Server<'_, C, D, K, L, R>,
) -> bool
where
    L::Stream: Read + Write + OpenStream,
{
    let (rt, common, withheld) = (server.rt, server.common, server.withheld);
    let Common {
        alloc,
        listener,
        crew,
        terms,
        ..
    } = common;
    match accept_one(rt, common) {
        Ok(None) => false,
        Ok(Some((stream, from))) => {
            let Some(needed) = crew.take(rt) else {
                return false;
            };
            server.note_accepted(needed);
            serve_on(
                rt,
                *alloc,
                stream,
                from,
                terms.tokens,
                server,
                terms.turns,
                withheld,
                terms.log,
            );
            crew.finish(rt, server.sent_for, !server.is_unreached)
        }
        Err(error) => match crew.fail(rt, error) {
            Failed::Again => true,
            Failed::Leave => false,
            Failed::End => {
                shut(*listener);
                false
            }
        },
    }
}

/// A thread of a connector: it accepts connections and serves one request on each, until the crew needs it no more.
fn serve_all<'a, C: Ledger, D: Ledger, K: Keeper, L: AwaitListener, R: Net + Wait + Clock>(
    rt: &'a R,
    common: &'a Common<'a, C, D, L>,
    till: Option<&'a Till<K, Global>>,
)
where
    L::Stream: Read + Write + OpenStream,
{
    let crew = &common.crew;
    let withheld = Cell::new(false);
    let mut server = Server {
        rt,
        common,
        needed: 0,
        latest: None,
        books: Storing {
            rt,
            till,
            crew,
            listener: common.listener,
        },
        clock: SharedClock {
            rt,
            last: &common.last,
            log: common.terms.log,
        },
        account: None,
        sent_for: None,
        is_unreached: false,
        withheld: &withheld,
    };
    crew.begin(rt);
    for _ in rt.forever() {
        if !serve_next(&mut server) {
            return;
        }
    }
}

/// What each thread of a connector is given.
#[derive(Drop)]
pub(crate) struct Job<'a, C: Ledger, D: Ledger, K: Keeper, L, R> {
    pub(crate) rt: &'a R,
    pub(crate) common: &'a Common<'a, C, D, L>,
    pub(crate) till: Option<&'a Till<K, Global>>,
}

/// Does the work of a thread.
fn serve_job<C: Ledger, D: Ledger, K: Keeper, L: AwaitListener, R: Net + Wait + Clock>(
    job: &Job<'_, C, D, K, L, R>,
)
where
    L::Stream: Read + Write + OpenStream,
{
    serve_all(job.rt, job.common, job.till);
}

/// Makes a thread of a connector. False if that is refused.
pub(crate) fn spawn_one<
    's,
    E,
    C: Ledger + Send + Sync,
    D: Ledger + Send + Sync,
    K: Keeper + Send,
    R: Net + Wait + Clock + Sync,
>(scope: &Scope<'s, E>, job: &'s Job<'s, C, D, K, R::Listener, R>) -> bool
where
    R::Stream: Send,
    R::Listener: AwaitListener + Send + Sync,
{
    scope.spawn(move || serve_job(job)).is_ok()
}
