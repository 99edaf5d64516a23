//! Runs what scripts of `bench/` time. Its arguments are parts, one after the other: a name, and then numbers, of which those that
//! are left out at the end are 0.
//!
//! `end PREPARES STREAMS SEALED HASHED` (`bench/end.sh`) passes Prepares of 16,000 bytes from one end to another in memory, on
//! STREAMS streams; seals and opens SEALED packets alone; and hashes HASHED packets. It prints how many bytes were read, how many
//! packets were opened, and the last condition.
//!
//! `cost STREAMS FLIGHTS TIMES BUSY` (`bench/end.sh`) asks a sender TIMES times for its next packet, with STREAMS streams open, FLIGHTS
//! Prepares of 80 bytes in flight, and 80 bytes due on the first BUSY streams. Each packet is taken back. It prints how many
//! packets there were.
//!
//! `hop ACCOUNTS OPEN FULFILLED UNREACHABLE LONG` (`bench/hop.sh`) passes Prepares through a hop in memory:
//!
//! 1. the accounts of the hop, each with a route
//! 2. the Prepares that are open, without an answer, before the others arrive
//! 3. the Prepares that arrive and are fulfilled, over all routes in turn
//! 4. the Prepares that arrive for an address of 1,023 characters to which no route leads
//! 5. if not 0, one more account, with a route whose prefix has 1,023 characters too
//!
//! It prints how many Prepares were forwarded, those that are open not counted; how many of them were fulfilled; and how many
//! were rejected with F02.
//!
//! `hub CHUNKS LENGTH SENT WORKERS` (`bench/hub.sh`) passes CHUNKS chunks of LENGTH bytes through a ring of a hub, from
//! thread to thread, and SENT chunks of 4,096 bytes from a writer of one hub to a reader of another, by WORKERS workers of
//! each, 1 to 31. It prints how many chunks and how many bytes arrived.
#![tactic(auto)]

mod alone;
mod asking;
mod halves;
mod hubs;
mod packets;
mod pair;
mod passing;
mod ring;

use alone::{hash_again, seal_again};
use asking::{Filling, ask_again};
use hubs::pass_bytes;
use passing::{Sizes, pass_all};
use ring::pass_chunks;
use std::alloc::Global;
use std::rt::HostRuntime;
use std::sync::Wait;
use std::thread::Threads;
use std::{env, io};

/// The bytes of one Prepare between two ends.
const PIECE: usize = 16_000;

/// The bytes of one Prepare of the part `cost`.
const SMALL: usize = 80;

/// The most parts of one run.
const PARTS: usize = 4;

/// The number that an argument spells, or 0.
fn number(argument: Option<String>) -> u64 {
    match argument {
        Some(argument) => argument.as_str().parse().unwrap_or(0),
        None => 0,
    }
}

/// The part `end`.
fn end(rt: &HostRuntime, pieces: u64, streams: u64, sealed: u64, hashed: u64) -> io::Result<()> {
    let piece = vec![in rt.alloc(); 7u8; PIECE]?;
    match pair::pass_all(rt.alloc(), &piece, pieces, streams) {
        Ok(read) => println!(rt; "{read}")?,
        Err(error) => println!(rt; "{error}")?,
    }
    match seal_again(rt.alloc(), &piece, sealed) {
        Ok(opened) => println!(rt; "{opened}")?,
        Err(error) => println!(rt; "{error}")?,
    }
    for byte in hash_again(&piece, hashed) {
        print!(rt; "{byte:02x}")?;
    }
    println!(rt)
}

/// The part `cost`.
fn cost(rt: &HostRuntime, streams: u64, flights: u64, times: u64, busy: u64) -> io::Result<()> {
    let bytes = vec![in rt.alloc(); 7u8; SMALL]?;
    let filling = Filling {
        streams: streams.min(64) as u8,
        flights,
        times,
        busy: busy.min(64) as u8,
    };
    match ask_again(rt.alloc(), &bytes, filling) {
        Some(packets) => println!(rt; "{packets}"),
        None => println!(rt; "not filled"),
    }
}

/// The part `hop`.
fn hop(rt: &HostRuntime, sizes: Sizes) -> io::Result<()> {
    match pass_all(rt.alloc(), sizes) {
        Some(counts) => println!(rt;
            "{} forwarded, {} fulfilled, {} rejected",
            counts.forwarded, counts.fulfilled, counts.rejected
        ),
        None => println!(rt; "not passed"),
    }
}

/// The part `hub`: how many chunks and how many bytes arrived.
fn hub<R: Threads + Wait + std::time::Clock + Sync>(
    rt: &R,
    alloc: Global,
    chunks: u64,
    length: u64,
    sent: u64,
    workers: u64,
) -> (u64, u64) {
    let arrived = pass_chunks(rt, alloc, chunks, length);
    let workers = u8::try_from(workers).unwrap_or(0);
    let bytes = if workers == 0 {
        None
    } else {
        pass_bytes(rt, alloc, sent, workers)
    };
    (arrived, bytes.unwrap_or(0))
}

fn main(rt: HostRuntime) -> io::Result<()> {
    let mut arguments = env::args(&rt)?;
    let _program = arguments.next();
    for _ in 0..PARTS {
        let Some(part) = arguments.next() else {
            return Ok(());
        };
        let first = number(arguments.next());
        let second = number(arguments.next());
        let third = number(arguments.next());
        let fourth = number(arguments.next());
        match part.as_str() {
            "cost" => cost(&rt, first, second, third, fourth)?,
            "end" => end(&rt, first, second, third, fourth)?,
            "hub" => {
                let (chunks, bytes) = hub(&rt, rt.alloc(), first, second, third, fourth);
                println!(rt; "{chunks}\n{bytes}")?;
            }
            _ => hop(
                &rt,
                Sizes {
                    accounts: first,
                    open: second,
                    fulfilled: third,
                    unreachable: fourth,
                    has_long_route: number(arguments.next()) != 0,
                },
            )?,
        }
    }
    Ok(())
}
