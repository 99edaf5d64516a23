//! The totals that the sides of a transfer report.

use crate::books::till_of;
use crate::sides::{
    Counter, connect_storing, nothing_yet, receive_telling, send_telling, with_money,
};
use crate::transfers::{Place, listen, pattern, use_up};
use ilpstream_connector::{AccountTotals, ConnectorEnded};
use ilpstream_serving::TransferError;
use st_devices::Counting;
use st_end::Totals;
use std::alloc::Global;
use std::net::{Net, TcpListener, TcpStream};
use std::process::Abort;
use std::sync::Wait;
use std::sync::atomic::AtomicU64;
use std::thread;
use std::thread::Threads;

/// The totals of the two ends, and of the accounts of the connector between them; and all claims and dues that it booked.
#[derive(Drop)]
struct Told {
    sender: Totals,
    receiver: Totals,
    accounts: Vec<AccountTotals>,
    booked: (u64, u64),
}

/// The two ends of a transfer of these bytes and 500 units, by way of the host `next`, whose connections are used up then.
fn tell_ends<
    R: Net<Listener = TcpListener, Stream = TcpStream> + Threads + Wait + std::time::Clock + Sync,
>(
    rt: &R,
    alloc: Global,
    listener: TcpListener,
    next: &str,
    bytes: &[u8],
    sender: &mut Totals,
    receiver: &mut Totals,
) {
    let (terms, random) = (with_money(500, 2), Counter { next: 1 });
    let mut writer = Counting::new(Vec::new(alloc));
    let (came, _) = thread::join(
        rt,
        || receive_telling(rt, alloc, listener, &mut writer, terms),
        || send_telling(rt, alloc, next, bytes, random, terms, sender),
    );
    *receiver = came.totals;
    use_up(rt, next);
}

/// What all sides report of such a transfer through a connector.
fn tell<
    R: Net<Listener = TcpListener, Stream = TcpStream>
        + Abort
        + Threads
        + Wait
        + std::time::Clock
        + Sync,
>(rt: &R, alloc: Global, bytes: &[u8]) -> Told {
    let hub = listen(rt, alloc);
    let end = listen(rt, alloc);
    let (mut sender, mut receiver) = (nothing_yet(), nothing_yet());
    let (hub_listener, next) = (hub.listener, hub.host.as_str());
    let (listener, host) = (end.listener, end.host.as_str());
    let count = AtomicU64::new(0);
    let till = till_of(rt, alloc, &count, usize::MAX);
    let (ended, _) = thread::join(
        rt,
        || connect_storing(rt, alloc, hub_listener, host, 4, Some(&till)),
        || tell_ends(rt, alloc, listener, next, bytes, &mut sender, &mut receiver),
    );
    let ConnectorEnded {
        accounts,
        overloaded,
        ..
    } = ended.expect(rt, "there is memory");
    let (books, refused) = till.into_books();
    assert!(rt; overloaded == 0 && refused.is_none());
    Told {
        sender,
        receiver,
        accounts,
        booked: books.sums(),
    }
}

/// The sender paid what the receiver was credited; the first account owes that, and the second is owed it. The books of the
/// connector have each booking once.
#[test]
fn each_side_tells_its_totals(rt: HostRuntime) {
    let alloc = rt.alloc();
    let bytes = pattern(&rt, alloc, 70_000);
    let Told {
        sender,
        receiver,
        accounts,
        booked,
    } = tell(&rt, alloc, &bytes);
    let sent = Totals {
        accepted: 70_000,
        paid: 500,
        ..nothing_yet()
    };
    let came = Totals {
        delivered: 70_000,
        credited: 500,
        ..nothing_yet()
    };
    assert!(rt; sender == sent && receiver == came && booked == (500, 500));
    assert!(rt; accounts.len() == 2);
    let (first, second) = (accounts[0], accounts[1]);
    assert!(rt; first.claims == 500 && first.dues == 0 && first.held == 0);
    assert!(rt; second.claims == 0 && second.dues == 500 && second.held == 0);
}

/// A sender that reaches nobody reports its totals too: it paid nothing.
#[test]
fn a_failed_sender_tells_its_totals(rt: HostRuntime) {
    let alloc = rt.alloc();
    let Place { listener, host } = listen(&rt, alloc);
    drop(listener);
    let (host, random) = (host.as_str(), Counter { next: 1 });
    let mut totals = nothing_yet();
    let terms = with_money(500, 1);
    let sent = send_telling(
        &rt,
        alloc,
        host,
        b"abc".as_slice(),
        random,
        terms,
        &mut totals,
    );
    assert!(rt; sent == Err(TransferError::Failed));
    assert!(rt; totals.accepted == 3 && totals.paid == 0);
}
