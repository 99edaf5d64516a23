//! A receiver and a sender at work together, each in a thread.

use crate::sides::{Counter, Terms, receive, send, with_money};
use ilpstream_serving::TransferError;
use st_devices::Counting;
use std::alloc::Global;
use std::io::{Read, Write};
use std::net::{Net, TcpListener, TcpStream};
use std::process::Abort;
use std::sync::Wait;
use std::thread;
use std::thread::Threads;

/// `n` bytes, each of which depends on its place.
pub(crate) fn pattern(rt: &impl Abort, alloc: Global, n: u64) -> Vec<u8> {
    let mut bytes = Vec::new(alloc);
    for i in 0..n {
        assert!(rt; bytes.push((i % 251) as u8).is_ok());
    }
    bytes
}

/// A listener at a port that the kernel chose, and where it is reached.
#[derive(Drop)]
pub(crate) struct Place {
    pub(crate) listener: TcpListener,
    pub(crate) host: String,
}

/// Listens at a new place on loopback.
pub(crate) fn listen<R: Net<Listener = TcpListener, Stream = TcpStream> + Abort>(
    rt: &R,
    alloc: Global,
) -> Place {
    let listener = TcpListener::bind(rt, "127.0.0.1:0").expect(rt, "there is a port");
    let address = listener.local_addr().expect(rt, "it has an address");
    let host = format!(in alloc; "{address}").expect(rt, "there is memory");
    Place { listener, host }
}

/// Opens connections and drops them until one is refused. Each that is accepted counts as a request.
pub(crate) fn use_up<R: Net>(rt: &R, host: &str) {
    for _ in 0..100_000u32 {
        if TcpStream::connect(rt, host).is_err() {
            return;
        }
    }
}

/// Sends this input by the neighbour `next`, and then uses up the connections that each of the hosts still waits for.
fn send_all<I: Read + Drop, R: Net + Threads + Wait + std::time::Clock + Sync>(
    rt: &R,
    alloc: Global,
    next: &str,
    hosts: &[&str],
    input: I,
    terms: Terms,
) -> Result<u64, TransferError>
where
    R::Stream: Send,
    R::Listener: Send,
{
    let sent = send(rt, alloc, next, input, Counter { next: 1 }, terms);
    for host in hosts {
        use_up(rt, host);
    }
    sent
}

/// The result of a receiver, what it wrote, and the result of the sender.
#[derive(Drop)]
pub(crate) struct Kept {
    pub(crate) told: Result<u64, TransferError>,
    pub(crate) bytes: Vec<u8>,
    pub(crate) sent: Result<u64, TransferError>,
}

/// A transfer of this input, by the neighbour `next`, to a receiver that writes here: the results of the receiver and of
/// the sender. What the hosts still wait for is used up then.
pub(crate) fn transfer_into<
    I: Read + Drop + Send,
    W: Write + Send,
    R: Net + Threads + Wait + std::time::Clock + Sync,
>(
    rt: &R,
    alloc: Global,
    listener: TcpListener,
    next: &str,
    hosts: &[&str],
    input: I,
    writer: &mut Counting<W>,
    terms: Terms,
) -> (Result<u64, TransferError>, Result<u64, TransferError>)
where
    R::Stream: Send,
    R::Listener: Send,
{
    thread::join(
        rt,
        || receive(rt, alloc, listener, writer, terms),
        || send_all(rt, alloc, next, hosts, input, terms),
    )
}

/// The same, to a receiver whose output accepts all.
pub(crate) fn transfer<I: Read + Drop + Send, R: Net + Threads + Wait + std::time::Clock + Sync>(
    rt: &R,
    alloc: Global,
    listener: TcpListener,
    next: &str,
    hosts: &[&str],
    input: I,
    terms: Terms,
) -> Kept
where
    R::Stream: Send,
    R::Listener: Send,
{
    let mut writer = Counting::new(Vec::new(alloc));
    let (told, sent) = transfer_into(rt, alloc, listener, next, hosts, input, &mut writer, terms);
    Kept {
        told,
        bytes: writer.into_inner(),
        sent,
    }
}

/// A transfer by 1, 4 and 16 workers of each side: each byte is written once, in order.
#[test]
fn all_arrives_by_any_number_of_workers(rt: HostRuntime) {
    let alloc = rt.alloc();
    let bytes = pattern(&rt, alloc, 500_000);
    for workers in [1, 4, 16] {
        let Place { listener, host } = listen(&rt, alloc);
        let (host, terms) = (host.as_str(), with_money(0, workers));
        let kept = transfer(&rt, alloc, listener, host, &[], bytes.as_slice(), terms);
        assert!(rt;
            kept.told == Ok(500_000) && kept.sent == Ok(500_000),
            "{workers}"
        );
        assert!(rt; kept.bytes.as_slice() == bytes.as_slice(), "{workers}");
    }
}
