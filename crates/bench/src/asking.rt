//! What the next packet of a sender costs, with streams that are open and Prepares in flight.

use st_end::StreamId;
use st_frames::Frame;
use st_sender::{EndConfig, Outbox};
use std::alloc::Global;

/// How many bytes a packet may have. A data frame of 80 bytes fits many times.
const ROOM: usize = 2_000;

/// What a sender has while it is asked, and how often it is asked.
#[derive(Clone, Copy)]
pub(crate) struct Filling {
    /// The streams that are open, at most 64.
    pub(crate) streams: u8,
    /// The Prepares in flight, each with 80 bytes of one stream.
    pub(crate) flights: u64,
    /// How often the next packet is asked for.
    pub(crate) times: u64,
    /// The streams that have bytes due while it is asked for.
    pub(crate) busy: u8,
}

/// Opens a stream whose peer accepts many bytes, and much money.
fn open(outbox: &mut Outbox<Global>, stream: StreamId) {
    if !outbox.has_stream(stream) {
        outbox.add_stream(stream);
    }
    outbox.raise_limits(&Frame::StreamMaxData {
        stream: u64::from(stream.number()),
        max_offset: 1 << 60,
    });
    outbox.raise_limits(&Frame::StreamMaxMoney {
        stream: u64::from(stream.number()),
        receive_max: 1 << 40,
        total_received: 0,
    });
}

/// Whether bytes of a stream were accepted, and sent in a packet.
fn send(outbox: &mut Outbox<Global>, number: u8, bytes: &[u8]) -> bool {
    let Some(stream) = StreamId::new(number) else {
        return false;
    };
    if outbox.accept(stream, bytes).is_err() {
        return false;
    }
    match outbox.next(ROOM, &[]) {
        Ok(Some(_)) => true,
        _ => false,
    }
}

/// A sender with these streams and Prepares in flight.
fn filled(alloc: Global, bytes: &[u8], filling: Filling) -> Option<Outbox<Global>> {
    let config = EndConfig::new(64, 2_000_000_000, 1_000_000)?;
    let Ok(mut outbox) = Outbox::new(alloc, config) else {
        return None;
    };
    outbox.raise_limits(&Frame::ConnectionMaxData {
        max_offset: 1 << 60,
    });
    for number in 1..65_u8 {
        if let Some(stream) = StreamId::new(number)
            && number <= filling.streams
        {
            open(&mut outbox, stream);
        }
    }
    let mut number = 0_u8;
    for _ in 0..filling.flights {
        number = if number >= filling.streams {
            1
        } else {
            number.saturating_add(1)
        };
        if !send(&mut outbox, number, bytes) {
            return None;
        }
    }
    for number in 1..65_u8 {
        if let Some(stream) = StreamId::new(number)
            && number <= filling.busy
            && outbox.accept(stream, bytes).is_err()
        {
            return None;
        }
    }
    Some(outbox)
}

/// Asks for the next packet `times` times, and takes each back: how many there were. `None` if the streams cannot be filled.
pub(crate) fn ask_again(alloc: Global, bytes: &[u8], filling: Filling) -> Option<u64> {
    let mut outbox = filled(alloc, bytes, filling)?;
    let mut packets: u64 = 0;
    for _ in 0..filling.times {
        if let Ok(Some(load)) = outbox.next(ROOM, &[]) {
            outbox.take_back(load);
            packets = packets.saturating_add(1);
        }
    }
    Some(packets)
}
