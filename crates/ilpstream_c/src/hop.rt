//! Calls on a hop: the connector between two neighbours (RFC 0027).

ghost use Rattle.std.specs.Prelude.{◌≡◌, ◌<◌, true, false, length, nat_lt, pos, Some, None, Err, IfOk, IsOk, MatchBool};
ghost use Rattle.st_hop.specs.Refusals.{t00_text};
ghost use Rattle.host_objects.specs.Codes.{done};
ghost use Rattle.host_objects.specs.Hops.{IsRestarted};
ghost use Rattle.ilpstream_c.specs.Handles.{OnHop, Copies, OnHopAt};
ghost use Rattle.ilpstream_c.specs.Hops.{IsHopMade, IsHopRestored, HopArrives, Closes, Settles, Abandons, Balances, AreBalances, TellsBooking, IsBooking, IsNoBooking, MakesHop, RestoresHop};

use crate::handle::{copy_out, is_empty, put_new};
use crate::table::{HostAccount, HostRoute, table_of};
use host_objects::{
    ARGUMENT, DONE, Handle, HostHop, MISUSE, ONWARD, Object, Settling, UNKNOWN, Way,
};
use st_hop::{HopError, Open};
use st_ilp::Moment;
use std::alloc::{AllocError, Global};

/// What is done with the hop of a handle. A handle of anything else is refused.
macro_rules! on_hop {
    ($alloc:ident, $handle:ident, $hop:ident => $body:expr) => {{
        let Some(mut object) = $handle.take($alloc) else {
            return MISUSE;
        };
        let code = match &mut *object {
            Object::Hop($hop) => $body,
            _ => MISUSE,
        };
        $handle.put(object);
        code
    }};
}

/// The hop of a table.
fn hop_of(
    alloc: Global,
    own: &[u8],
    accounts: &[HostAccount],
    text: &[u8],
    routes: &[HostRoute],
) -> Result<HostHop, u32>
    ensures { MakesHop own.now accounts.now text.now routes.now result }
{
    let table = table_of(alloc, own, accounts, text, routes)?;
    match HostHop::new(alloc, table.own, &table.accounts, &table.routes) {
        Ok(hop) => Ok(hop),
        Err(error) => Err(u32::from(error.number())),
    }
}

/// Makes a hop in an empty handle: its ILP address (RFC 0015), its accounts and its routes, whose prefixes follow each
/// other in `prefixes`.
///
/// `MISUSE` if the handle is not empty; `ARGUMENT` if an address is not valid, a rate has a 0, or `prefixes` is not the
/// prefixes; 34 if the table is bad; 35 if memory is refused.
#[unsafe(no_mangle)]
pub extern "C" fn ilp_hop_new(
    alloc: Global,
    handle: &mut Handle,
    own: &[u8],
    accounts: &[HostAccount],
    prefixes: &[u8],
    routes: &[HostRoute],
) -> u32
    ensures { IsHopMade own.now accounts.now prefixes.now routes.now handle.old.state handle.new.state result }
{
    if !is_empty(alloc, handle) {
        return MISUSE;
    }
    let no_memory = u32::from(HopError::NoMemory.number());
    match hop_of(alloc, own, accounts, prefixes, routes) {
        Ok(hop) => put_new(alloc, handle, Object::Hop(hop), no_memory),
        Err(code) => code,
    }
}

/// The hop of a table that continues with these books.
fn restored_of(
    alloc: Global,
    own: &[u8],
    accounts: &[HostAccount],
    text: &[u8],
    routes: &[HostRoute],
    claims: &[u64],
    dues: &[u64],
    next: u64,
) -> Result<HostHop, u32>
    ensures { RestoresHop own.now accounts.now text.now routes.now claims.now dues.now next result }
{
    let table = table_of(alloc, own, accounts, text, routes)?;
    match HostHop::restored(
        alloc,
        table.own,
        &table.accounts,
        &table.routes,
        claims,
        dues,
        next,
    ) {
        Ok(hop) => Ok(hop),
        Err(error) => Err(u32::from(error.number())),
    }
}

/// Makes a hop in an empty handle that continues with the books of an earlier one: as `ilp_hop_new`, with the claim and the
/// due of each account. No ticket is open. Tickets are numbered from `next` on, which has to be above each number that an
/// earlier hop with these books gave out.
///
/// Refused as `ilp_hop_new` is; 37 if not each account has a claim and a due, one owes more than its limit above its due, or
/// a sum is above 2^63 - 1.
#[unsafe(no_mangle)]
pub extern "C" fn ilp_hop_restored(
    alloc: Global,
    handle: &mut Handle,
    own: &[u8],
    accounts: &[HostAccount],
    prefixes: &[u8],
    routes: &[HostRoute],
    claims: &[u64],
    dues: &[u64],
    next: u64,
) -> u32
    ensures { IsHopRestored own.now accounts.now prefixes.now routes.now claims.now dues.now next handle.old.state handle.new.state result }
{
    if !is_empty(alloc, handle) {
        return MISUSE;
    }
    let no_memory = u32::from(HopError::NoMemory.number());
    match restored_of(alloc, own, accounts, prefixes, routes, claims, dues, next) {
        Ok(hop) => put_new(alloc, handle, Object::Hop(hop), no_memory),
        Err(code) => code,
    }
}

/// Forgets every open ticket, as a restart with the same books does. Claims and dues stay, nothing is reserved any more, and
/// the numbering of tickets continues.
#[unsafe(no_mangle)]
pub extern "C" fn ilp_hop_restart(alloc: Global, handle: &mut Handle) -> u32
    ensures { OnHop handle.old.state handle.new.state result (λ old new. (result ≡ done) × IsRestarted old new) }
{
    on_hop!(alloc, handle, hop => {
        hop.restart();
        DONE
    })
}

/// What a hop did with a Prepare.
#[repr(C)]
#[derive(Clone, Copy, Debug, Drop)]
pub struct HostArrived {
    /// How many bytes were output.
    pub len: usize,
    /// The index of the account to which they are forwarded.
    pub account: usize,
    /// The number of the ticket under which they are forwarded.
    pub ticket: u64,
}

/// Processes the bytes of a Prepare from an account at the time `now`. Outputs the Reject that answers it, or, with
/// `ONWARD`, the Prepare that is forwarded to another account under a ticket.
///
/// 36 if there is no such account; 35 if memory is refused.
#[unsafe(no_mangle)]
pub extern "C" fn ilp_hop_arrive(
    alloc: Global,
    handle: &mut Handle,
    account: usize,
    bytes: &[u8],
    now: i64,
    arrived: &mut HostArrived,
) -> u32
    ensures { OnHopAt now handle.old.state handle.new.state result (λ old new. HopArrives old new account bytes.now now result arrived.new) }
{
    let Some(now) = Moment::new(now) else {
        return ARGUMENT;
    };
    on_hop!(alloc, handle, hop => match hop.arrive(account, bytes, now) {
        Ok(Way::Back) => {
            *arrived = HostArrived {
                len: hop.output.len(),
                account: 0,
                ticket: 0,
            };
            DONE
        }
        Ok(Way::Onward { ticket, account }) => {
            *arrived = HostArrived {
                len: hop.output.len(),
                account,
                ticket,
            };
            ONWARD
        }
        Err(error) => u32::from(error.number()),
    })
}

/// What settling a ticket books, in units of the accounts' links. If it books nothing, all are 0.
#[repr(C)]
#[derive(Clone, Copy, Debug, Drop)]
pub struct HostBooking {
    /// The index of the account from which the Prepare arrived.
    pub payer: usize,
    /// What it owes more.
    pub claim: u64,
    /// The index of the account to which the Prepare was forwarded.
    pub payee: usize,
    /// What it is owed more.
    pub due: u64,
    /// 1 if the ticket books, otherwise 0.
    pub books: u32,
}

/// The claim and the due of a ticket.
fn booking_of(ticket: Open) -> HostBooking
    ensures { IsBooking ticket result }
{
    HostBooking {
        payer: ticket.incoming,
        claim: ticket.amount_in,
        payee: ticket.outgoing,
        due: ticket.amount_out,
        books: 1,
    }
}

/// No claim and no due.
fn no_booking() -> HostBooking
    ensures { IsNoBooking result }
{
    HostBooking {
        payer: 0,
        claim: 0,
        payee: 0,
        due: 0,
        books: 0,
    }
}

/// What `ilp_hop_settle` with the same arguments would book, so that a host can store it before. Changes nothing.
///
/// `UNKNOWN` if no open ticket has this number; 35 if memory is refused.
#[unsafe(no_mangle)]
pub extern "C" fn ilp_hop_books(
    alloc: Global,
    handle: &mut Handle,
    ticket: u64,
    bytes: &[u8],
    now: i64,
    booking: &mut HostBooking,
) -> u32
    ensures { OnHopAt now handle.old.state handle.new.state result (λ old new. TellsBooking old new ticket bytes.now now result booking.new) }
{
    let Some(now) = Moment::new(now) else {
        return ARGUMENT;
    };
    on_hop!(alloc, handle, hop => match hop.books(alloc, ticket, bytes, now) {
        Ok(Settling::Unknown) => UNKNOWN,
        Ok(Settling::Nothing) => {
            *booking = no_booking();
            DONE
        }
        Ok(Settling::Books(open)) => {
            *booking = booking_of(open);
            DONE
        }
        Err(AllocError) => u32::from(HopError::NoMemory.number()),
    })
}

/// Processes the bytes of the answer to a Prepare that was forwarded under a ticket, at the time `now`. Outputs the
/// answer to the Prepare that had arrived; `len` is how many bytes it has.
///
/// `UNKNOWN` if no open ticket has this number; 35 if memory is refused.
#[unsafe(no_mangle)]
pub extern "C" fn ilp_hop_settle(
    alloc: Global,
    handle: &mut Handle,
    ticket: u64,
    bytes: &[u8],
    now: i64,
    len: &mut usize,
) -> u32
    ensures { OnHopAt now handle.old.state handle.new.state result (λ old new. Settles old new ticket bytes.now now result len.new) }
{
    let Some(now) = Moment::new(now) else {
        return ARGUMENT;
    };
    on_hop!(alloc, handle, hop => match hop.settle(alloc, ticket, bytes, now) {
        Ok(true) => {
            *len = hop.output.len();
            DONE
        }
        Ok(false) => UNKNOWN,
        Err(AllocError) => u32::from(HopError::NoMemory.number()),
    })
}

/// There is no answer to a Prepare that was forwarded under a ticket. Outputs the Reject that answers the Prepare that
/// had arrived; `len` is how many bytes it has. `UNKNOWN` exactly if no open ticket has this number.
#[unsafe(no_mangle)]
pub extern "C" fn ilp_hop_fault(
    alloc: Global,
    handle: &mut Handle,
    ticket: u64,
    len: &mut usize,
) -> u32
    ensures { OnHop handle.old.state handle.new.state result (λ old new. Closes old new ticket None (pos 0) result len.new) }
{
    let Some(now) = Moment::new(0) else {
        return ARGUMENT;
    };
    on_hop!(alloc, handle, hop => if hop.fault(ticket, now) {
        *len = hop.output.len();
        DONE
    } else {
        UNKNOWN
    })
}

/// Gives up a ticket without an answer. The amount stays reserved. `UNKNOWN` exactly if no open ticket has this number.
#[unsafe(no_mangle)]
pub extern "C" fn ilp_hop_abandon(alloc: Global, handle: &mut Handle, ticket: u64) -> u32
    ensures { OnHop handle.old.state handle.new.state result (λ old new. Abandons old new ticket result) }
{
    on_hop!(alloc, handle, hop => if hop.abandon(ticket) { DONE } else { UNKNOWN })
}

/// Copies a Reject T00 that is kept ready to the front of a buffer; `len` is how many bytes it has.
#[unsafe(no_mangle)]
pub extern "C" fn ilp_hop_t00(
    alloc: Global,
    handle: &mut Handle,
    out: &mut [u8],
    len: &mut usize,
) -> u32
    ensures { OnHop handle.old.state handle.new.state result (λ old new. (new ≡ old) × Copies (t00_text old.state.own) out.old out.new result len.new) }
{
    on_hop!(alloc, handle, hop => copy_out(hop.state.t00(), out, len))
}

/// What an account and the hop owe each other, in units of their link.
#[repr(C)]
#[derive(Clone, Copy, Debug, Drop)]
pub struct HostBalances {
    /// What the account owes the hop.
    pub claims: u64,
    /// What the hop owes the account.
    pub dues: u64,
    /// What is reserved of the account.
    pub held: u64,
}

/// The balances of an account.
fn balances_of(hop: &HostHop, account: usize) -> Result<HostBalances, HopError>
    ensures { MatchBool (nat_lt account (length hop.now.state.accounts))
        (IfOk result (AreBalances hop.now account) × IsOk result) (result ≡ Err HopError.NoAccount) }
{
    Ok(HostBalances {
        claims: hop.state.claims(account)?,
        dues: hop.state.dues(account)?,
        held: hop.state.held(account)?,
    })
}

/// The balances of an account. 36 if there is no such account.
#[unsafe(no_mangle)]
pub extern "C" fn ilp_hop_balances(
    alloc: Global,
    handle: &mut Handle,
    account: usize,
    balances: &mut HostBalances,
) -> u32
    ensures { OnHop handle.old.state handle.new.state result (λ old new. Balances old new account result balances.new) }
{
    on_hop!(alloc, handle, hop => match balances_of(hop, account) {
        Ok(found) => {
            *balances = found;
            DONE
        }
        Err(error) => u32::from(error.number()),
    })
}
