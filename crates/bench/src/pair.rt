//! Two ends in memory.

use st_end::{EndError, EndState, Flight, Role, StreamId};
use st_ilp::Moment;
use st_keys::Keys;
use st_oer::is_address;
use st_receiver::Got;
use st_sender::{EndConfig, MAX_PACKETS};
use std::alloc::Global;

/// How many streams of its own an end opens.
const OWN: u64 = 32;

/// An end with these addresses, which have to be some.
fn end_between(
    alloc: Global,
    role: Role,
    own: &str,
    peer: &str,
) -> Result<EndState<Global>, EndError> {
    let Some(config) = EndConfig::new(1, MAX_PACKETS, 1) else {
        return Err(EndError::NoStream);
    };
    if !is_address(own) || !is_address(peer) {
        return Err(EndError::NoStream);
    }
    EndState::new(alloc, role, Keys::of([7; 32]), own, peer, config)
}

/// A Fulfill arrives for its flight.
fn land(end: &mut EndState<Global>, flight: Flight, mut answer: Vec<u8>) -> Result<(), EndError> {
    if !end.is_open(&flight) {
        flight.abandon();
        return Err(EndError::NoStream);
    }
    if end.answer(flight, &mut answer) {
        Ok(())
    } else {
        Err(EndError::ConnectionFailed)
    }
}

/// The next Prepare of an end is sent to the other one, under the IV of this number, and its Fulfill arrives.
fn pass(
    from: &mut EndState<Global>,
    to: &mut EndState<Global>,
    number: u64,
) -> Result<(), EndError> {
    let Some(now) = Moment::new(0) else {
        return Err(EndError::NoStream);
    };
    let mut iv = [0; 12];
    iv[4..].copy_from_slice(&number.to_be_bytes());
    let Some((flight, bytes)) = from.send(iv, now)? else {
        return Err(EndError::Full);
    };
    match to.receive(&bytes, now) {
        Ok(received) => land(from, flight, received.bytes),
        Err(fault) => {
            flight.abandon();
            Err(fault)
        }
    }
}

/// Writes bytes on a stream, passes them, and reads them: how many were read.
fn pass_piece(
    from: &mut EndState<Global>,
    to: &mut EndState<Global>,
    stream: StreamId,
    piece: &[u8],
    number: u64,
) -> Result<u64, EndError> {
    from.write(stream, piece)?;
    pass(from, to, number)?;
    match to.read(stream, piece.len().max(1))? {
        Got::Bytes(bytes) => Ok(bytes.len() as u64),
        _ => Ok(0),
    }
}

/// Opens streams 1 to 64 at both ends: each end opens its own, and writes a byte on each, which opens it at the other.
fn open_all(client: &mut EndState<Global>, server: &mut EndState<Global>) -> Result<(), EndError> {
    for number in 0..OWN {
        let own = client.open_stream()?;
        pass_piece(client, server, own, &[7], 2 * number)?;
        let own = server.open_stream()?;
        pass_piece(server, client, own, &[7], 2 * number + 1)?;
    }
    Ok(())
}

/// Passes `pieces` chunks of bytes on 1 to 64 `streams` in turn: how many bytes were read.
fn pass_pieces(
    client: &mut EndState<Global>,
    server: &mut EndState<Global>,
    piece: &[u8],
    pieces: u64,
    streams: u64,
) -> Result<u64, EndError> {
    let mut read = 0_u64;
    for number in 0..pieces {
        let Some(stream) = StreamId::new((number % streams.clamp(1, 64) + 1) as u8) else {
            return Err(EndError::NoStream);
        };
        let iv = number.saturating_add(2 * OWN);
        let more = pass_piece(client, server, stream, piece, iv)?;
        read = read.saturating_add(more);
    }
    Ok(read)
}

/// Passes `pieces` chunks of bytes on `streams` streams in turn from a client to a server: how many bytes were read.
pub(crate) fn pass_all(
    alloc: Global,
    piece: &[u8],
    pieces: u64,
    streams: u64,
) -> Result<u64, EndError> {
    let mut client = end_between(alloc, Role::Client, "test.a", "test.b")?;
    let mut server = end_between(alloc, Role::Server, "test.b", "test.a")?;
    open_all(&mut client, &mut server)?;
    pass_pieces(&mut client, &mut server, piece, pieces, streams)
}
