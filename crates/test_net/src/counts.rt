//! What a connector counts of the Prepares of its accounts, and reports while it runs.

ghost use Rattle.std.specs.Prelude.{⊤};

use crate::books::{FULFILL, PREPARE, ask_with};
use crate::sides::{Crossing, TOKEN, TURNS, connect_telling, usual};
use crate::transfers::{listen, use_up};
use ilpstream_connector::{AccountCounts, AccountTotals, CodeCount, Counts, Minutes};
use st_devices::Counting;
use st_hop_desk::{NoBooks, Till};
use st_http::{Answerer, serve_one};
use std::alloc::Global;
use std::net::{Net, TcpListener};
use std::thread;

/// The Prepare to an address without a route.
const NO_ROUTE: &[u8; 67] = b"\x0c\x41\0\0\0\0\0\0\0\x0a99990101000000000\
\x66\x68\x7a\xad\xf8\x62\xbd\x77\x6c\x8f\xc1\x8b\x8e\x9f\x8e\x20\
\x08\x97\x14\x85\x6e\xe2\x33\xb3\x90\x2a\x59\x1d\x0d\x5f\x29\x25\x06test.c\0";

/// A Reject of the receiver's side.
const REJECT: &[u8; 14] = b"\x0e\x0cF99\x06test.b\0\0";

/// What answers the first request with the Fulfill, the second with the Reject, and no other.
#[derive(Drop)]
struct InTurn {
    alloc: Global,
    turn: u8,
}

impl Answerer for InTurn {
    ghost gives = { λ _ _ _ _ _. ⊤ };

    fn answer(&mut self, _account: usize, _body: &[u8]) -> Option<Vec<u8>> {
        self.turn = self.turn.saturating_add(1);
        match self.turn {
            1 => Vec::from_slice(self.alloc, FULFILL).ok(),
            2 => Vec::from_slice(self.alloc, REJECT).ok(),
            _ => None,
        }
    }
}

/// Such a receiver, for three connections.
fn answer_three(alloc: Global, listener: TcpListener) {
    let mut answers = InTurn { alloc, turn: 0 };
    for _ in 0..3u8 {
        if let Ok((stream, _)) = listener.accept() {
            let mut stream = Counting::new(stream);
            let _ = serve_one(alloc, alloc, &mut stream, &[TOKEN], &mut answers, TURNS);
        }
    }
}

/// Has three Prepares sent on and one refused, and uses up what the connector waits for.
fn ask_four<N: Net + std::time::Clock>(net: &N, alloc: Global, hub: &str) {
    for _ in 0..3u8 {
        let _ = ask_with(net, alloc, hub, PREPARE);
    }
    let _ = ask_with(net, alloc, hub, NO_ROUTE);
    use_up(net, hub);
}

/// How often totals were reported during the run, and how many Prepares were fulfilled by then.
#[derive(Clone, Copy)]
struct Told {
    times: u64,
    fulfilled: u64,
}

impl Minutes for Told {
    fn minute(&mut self, _totals: &[AccountTotals], counts: &Counts, _overloaded: u64) {
        self.times = self.times.saturating_add(1);
        if let Some(counts) = counts.accounts.first() {
            self.fulfilled = counts.fulfilled;
        }
    }
}

/// One of a code.
fn one(code: &[u8; 3]) -> CodeCount {
    CodeCount {
        account: 0,
        code: *code,
        count: 1,
    }
}

/// Of four Prepares one is fulfilled, one rejected by the next side, one lost, and one refused.
#[test]
fn each_prepare_counts_as_it_ended(rt: HostRuntime) {
    let alloc = rt.alloc();
    let (hub, end) = (listen(&rt, alloc), listen(&rt, alloc));
    let (hub_listener, hub_host) = (hub.listener, hub.host.as_str());
    let (listener, next) = (end.listener, end.host.as_str());
    let none = None::<&Till<NoBooks, Global>>;
    let often = Crossing {
        period: 10,
        ..usual()
    };
    let mut told = Told {
        times: 0,
        fulfilled: 0,
    };
    let (ended, _) = thread::join(
        &rt,
        || connect_telling(&rt, alloc, hub_listener, next, often, none, &mut told),
        || {
            thread::join(
                &rt,
                || answer_three(alloc, listener),
                || ask_four(&rt, alloc, hub_host),
            )
        },
    );
    let counts = ended.expect(&rt, "there is memory").counts;
    let first = AccountCounts {
        fulfilled: 1,
        rejected: 1,
        lost: 1,
        refused: 1,
        kinds: 3,
        other: 0,
    };
    assert!(rt; counts.accounts.len() == 2 && counts.accounts[0] == first);
    assert!(rt; counts.codes.as_slice() == [one(b"F02"), one(b"F99"), one(b"T01")].as_slice());
    assert!(rt; told.times > 0 && told.fulfilled == 1);
}
