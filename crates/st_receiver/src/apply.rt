//! How a packet takes effect: its data first, then its money, then its closes. Does not allocate.

ghost use Rattle.std.specs.Prelude.{◌≡◌, ◌≢◌, ◌<◌, ◌≤◌, ◌||◌, ℕ, map, set, length, true, false, None, is_some, is_err, slice_index};
ghost use Rattle.st_frames.specs.Frames.{frame_of, frames_of};
ghost use Rattle.st_frames.specs.Packets.{packet_of};
ghost use Rattle.st_frames.specs.Seen.{seen};
ghost use Rattle.st_streams.specs.Slots.{slot};
ghost use Rattle.st_reassembly.specs.Inserting.{inserted};
ghost use Rattle.st_receiver.specs.Streams.{incoming_or, fresh_incoming, incoming_at, with_incoming, opened_stream};
ghost use Rattle.st_receiver.specs.Data.{after_data, after_frame, frame_fault, after_frames, frames_fault};
ghost use Rattle.st_receiver.specs.Closes.{with_close, after_close, after_closes, with_abort, after_connection_close, after_connection_closes};
ghost use Rattle.st_receiver.specs.Standing.{is_ready, opens, Keeps, AllReady};

use crate::incoming::{Incoming, Window};
use crate::intake::Intake;
use st_frames::{Frame, Frames};
use std::alloc::Allocator;

/// The stream of a place as it opens, in the window that waits for it.
fn opened<A: Allocator + Copy>(
    windows: &mut Vec<Option<Window<A>>, A>,
    kept: &[u64; 65],
    k: usize,
) -> Incoming<A>
    requires within { k < 65 }
    requires size { length windows.old.items ≡ 65 }
    requires ready { is_some (slot windows.old.items k) ≡ true }
    ensures size { length windows.new.items ≡ 65 }
    ensures others { (j : ℕ) → j ≢ k → slot windows.new.items j ≡ slot windows.old.items j }
    ensures stream { result ≡ fresh_incoming (slice_index kept.now k) }
{
    let window = windows[k].take().unwrap();
    window.open(kept[k])
}

/// The stream of a place as it is, or as it opens. It leaves its slot.
pub(crate) fn drawn<A: Allocator + Copy>(
    slots: &mut Vec<Option<Incoming<A>>, A>,
    windows: &mut Vec<Option<Window<A>>, A>,
    kept: &[u64; 65],
    k: usize,
) -> Incoming<A>
    requires within { k < 65 }
    requires slots { length slots.old.items ≡ 65 }
    requires windows { length windows.old.items ≡ 65 }
    requires ready { (is_some (slot slots.old.items k) || is_some (slot windows.old.items k)) ≡ true }
    ensures left { slots.new.items ≡ set slots.old.items k None }
    ensures windows { length windows.new.items ≡ 65 }
    ensures others { (j : ℕ) → j ≢ k → slot windows.new.items j ≡ slot windows.old.items j }
    ensures stream { result ≡ incoming_or (fresh_incoming (slice_index kept.now k)) (slot slots.old.items k) }
{
    match slots[k].take() {
        Some(incoming) => incoming,
        None => opened(windows, kept, k),
    }
}

impl<A: Allocator + Copy> Intake<A> {
    /// Bytes arrive on a stream, which opens if it was not open.
    fn take_data(&mut self, stream: u64, offset: u64, bytes: &[u8])
        requires ready { is_ready self.old stream ≡ true }
        requires lawful { is_err (inserted offset bytes.now (incoming_at self.old.state stream).held) ≡ false }
        ensures state { self.new.state ≡ after_data self.old.state stream offset bytes.now }
        ensures keeps { Keeps self.old self.new }
    {
        let k = stream as usize;
        let mut incoming = drawn(&mut self.slots, &mut self.windows, &self.kept, k);
        incoming.put(offset, bytes);
        self.slots[k] = Some(incoming);
    }

    /// A stream opens if it was not open.
    pub(crate) fn open_ready(&mut self, stream: u64)
        requires ready { is_ready self.old stream ≡ true }
        ensures state { self.new.state ≡ opened_stream self.old.state stream }
        ensures keeps { Keeps self.old self.new }
    {
        let k = stream as usize;
        let incoming = drawn(&mut self.slots, &mut self.windows, &self.kept, k);
        self.slots[k] = Some(incoming);
    }

    /// A frame brings its data, and opens its stream.
    fn take_frame(&mut self, frame: Frame<'_>)
        requires ready { (k : ℕ) → opens k (seen frame) ≡ true → is_ready self.old k ≡ true }
        requires lawful { frame_fault self.old.state (seen frame) ≡ None }
        ensures state { self.new.state ≡ after_frame self.old.state (seen frame.entry) }
        ensures keeps { Keeps self.old self.new }
    {
        match frame {
            Frame::StreamData {
                stream,
                offset,
                bytes,
            } => self.take_data(stream, offset, bytes),
            Frame::StreamMoney { stream, shares: _ } => self.open_ready(stream),
            Frame::StreamClose {
                stream,
                code: _,
                message: _,
            } => self.open_ready(stream),
            _ => {}
        }
    }

    /// The frames of a packet bring their data, one after another.
    pub(crate) fn take_frames(&mut self, mut frames: Frames<'_>)
        requires ready { AllReady self.old (map frame_of frames) }
        requires lawful { frames_fault self.old.state (map frame_of frames) ≡ None }
        ensures state { self.new.state ≡ after_frames self.old.state (map frame_of frames.entry) }
        ensures keeps { Keeps self.old self.new }
    {
        while let Some((_, frame)) = frames.next() {
            self.take_frame(frame);
        }
    }

    /// A stream is closed: code 1 fixes its end, any other aborts it.
    fn close_stream(&mut self, stream: u64, code: u8)
        requires ready { is_ready self.old stream ≡ true }
        ensures state { self.new.state ≡ with_incoming self.old.state stream (with_close code (incoming_at self.old.state stream)) }
        ensures keeps { Keeps self.old self.new }
    {
        let k = stream as usize;
        let mut incoming = drawn(&mut self.slots, &mut self.windows, &self.kept, k);
        incoming.close(code);
        self.slots[k] = Some(incoming);
    }

    /// A frame closes its stream, if it is a StreamClose.
    fn take_close(&mut self, frame: Frame<'_>)
        requires ready { (k : ℕ) → opens k (seen frame) ≡ true → is_ready self.old k ≡ true }
        ensures state { self.new.state ≡ after_close self.old.state (seen frame.entry) }
        ensures keeps { Keeps self.old self.new }
    {
        if let Frame::StreamClose {
            stream,
            code,
            message: _,
        } = frame
        {
            self.close_stream(stream, code);
        }
    }

    /// The StreamClose frames of a packet, one after another.
    pub(crate) fn take_closes(&mut self, mut frames: Frames<'_>)
        requires ready { AllReady self.old (map frame_of frames) }
        ensures state { self.new.state ≡ after_closes self.old.state (map frame_of frames.entry) }
        ensures keeps { Keeps self.old self.new }
    {
        while let Some((_, frame)) = frames.next() {
            self.take_close(frame);
        }
    }
}

/// A stream after an abort.
fn aborted<A: Allocator + Copy>(slot: Option<Incoming<A>>, code: u8) -> Option<Incoming<A>>
    ensures { result ≡ with_abort code slot }
{
    match slot {
        Some(mut incoming) => {
            incoming.abort(code);
            Some(incoming)
        }
        None => None,
    }
}

/// Aborts each direction that has not ended.
fn abort_all<A: Allocator + Copy>(slots: &mut Vec<Option<Incoming<A>>, A>, code: u8)
    requires { length slots.old.items ≡ 65 }
    ensures { slots.new.items ≡ map (with_abort code) slots.old.items }
{
    for k in 0..65 {
        let slot = slots[k].take();
        slots[k] = aborted(slot, code);
    }
}

impl<A: Allocator + Copy> Intake<A> {
    /// The peer closes the connection.
    fn close_connection(&mut self, code: u8)
        ensures state { self.new.state ≡ record self.old.state { streams = map (with_abort code) self.old.state.streams; closed = true } }
        ensures room { self.new.room ≡ self.old.room }
    {
        abort_all(&mut self.slots, code);
        self.closed = true;
    }

    /// A frame closes the connection, if it is a ConnectionClose.
    fn take_connection_close(&mut self, frame: Frame<'_>)
        ensures state { self.new.state ≡ after_connection_close self.old.state (seen frame.entry) }
        ensures room { self.new.room ≡ self.old.room }
    {
        if let Frame::ConnectionClose { code, message: _ } = frame {
            self.close_connection(code);
        }
    }

    /// The ConnectionClose frames of a packet, one after another.
    pub(crate) fn take_connection_closes(&mut self, mut frames: Frames<'_>)
        ensures state { self.new.state ≡ after_connection_closes self.old.state (map frame_of frames.entry) }
        ensures room { self.new.room ≡ self.old.room }
    {
        while let Some((_, frame)) = frames.next() {
            self.take_connection_close(frame);
        }
    }
}
