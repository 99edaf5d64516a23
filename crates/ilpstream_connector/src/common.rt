//! What the threads of a connector share.

ghost use Rattle.std.specs.Prelude.{◌≡◌, IfErr, IfOk};
ghost use Rattle.ilpstream_connector.specs.Crew.{IsOfConnector};

use crate::counts::Counts;
use crate::crew::Crew;
use ilpstream_serving::{ConnectTerms, LastMoment, Neighbourhood, TransferError};
use st_hop_desk::{AccountShares, HopDesk};
use std::alloc::Global;
use std::sync::Mutex;
use std::sync::ledger::Ledger;

/// What the threads of a connector share.
#[derive(Drop)]
pub(crate) struct Common<'a, C: Ledger, D: Ledger, L> {
    pub(crate) alloc: Global,
    pub(crate) listener: &'a L,
    pub(crate) desk: Mutex<HopDesk<C, D, Global>>,
    pub(crate) shares: Mutex<AccountShares<C, D>>,
    pub(crate) counts: Mutex<Counts>,
    /// Whether it may be asked to stop: then no thread waits long for a connection.
    pub(crate) is_asked: bool,
    /// Locked by the thread which waits for a connection, if no thread waits long.
    pub(crate) turn: Mutex<()>,
    /// The moment that the clock gave last, to any thread.
    pub(crate) last: Mutex<LastMoment>,
    pub(crate) crew: Crew,
    pub(crate) neighbourhood: Neighbourhood<'a>,
    /// A Reject of the hop with code T00.
    pub(crate) t00: Vec<u8>,
    pub(crate) terms: ConnectTerms<'a>,
}

/// What the threads of a connector are to share.
pub(crate) fn common_of<'a, C: Ledger, D: Ledger, L>(
    alloc: Global,
    listener: &'a L,
    mut desk: HopDesk<C, D, Global>,
    terms: ConnectTerms<'a>,
    is_asked: bool,
) -> Result<Common<'a, C, D, L>, TransferError>
    ensures workers { IfOk result (λ common. common.crew.workers ≡ terms.entry.workers) }
    ensures refused { IfErr result IsOfConnector }
{
    let shares = desk.shares().map_err(TransferError::Desk)?;
    let counts = Counts::new(alloc, terms.tokens.len())?;
    let t00 = Vec::from_slice(alloc, desk.t00())?;
    let neighbourhood = Neighbourhood::new(alloc, terms.neighbours, terms.turns)?;
    let crew = Crew::new(alloc, terms.requests, terms.workers, terms.tokens.len())?;
    Ok(Common {
        alloc,
        listener,
        desk: Mutex::new(desk),
        shares: Mutex::new(shares),
        counts: Mutex::new(counts),
        last: Mutex::new(LastMoment::none()),
        crew,
        is_asked,
        turn: Mutex::new(()),
        neighbourhood,
        t00,
        terms,
    })
}
