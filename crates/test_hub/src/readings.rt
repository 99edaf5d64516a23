//! What is read at a hub.

use crate::hubs::pump;
use st_hub::HubState;
use st_queues::{Got, HubName, StreamReader};
use std::alloc::Global;
use std::process::Abort;

/// What was read of the lowest stream that the peer opened.
#[derive(Drop)]
pub(crate) struct Reading<N: HubName<Global>> {
    reader: Option<StreamReader<N, Global>>,
    pub(crate) read: Vec<u8>,
    pub(crate) is_over: bool,
}

/// Reads all that is in a ring. Returns whether that is the end.
fn read_all<N: HubName<Global>>(
    rt: &impl Abort,
    reader: &mut StreamReader<N, Global>,
    read: &mut Vec<u8>,
) -> bool {
    for _ in 0..64u8 {
        match reader.try_read() {
            Got::Bytes(bytes) => sure!(rt; read.extend_from_slice(bytes.as_slice()).is_ok()),
            Got::End => return true,
            _ => return false,
        }
    }
    false
}

impl<N: HubName<Global>> Reading<N> {
    pub(crate) fn new(alloc: Global) -> Reading<N> {
        Reading {
            reader: None,
            read: Vec::new(alloc),
            is_over: false,
        }
    }

    /// Pumps the hub, and reads what arrived on the stream.
    pub(crate) fn go_on(&mut self, rt: &impl Abort, hub: &mut HubState<N, Global>) {
        pump(rt, hub);
        if self.reader.is_none() {
            self.reader = hub.take_stream().map(|(_, _, reader)| reader);
        }
        if let Some(reader) = &mut self.reader {
            self.is_over = read_all(rt, reader, &mut self.read);
        }
    }
}
