//! The inboxes of the streams of a connection.

ghost use Rattle.std.specs.Prelude.{◌≡◌, ◌<◌, ◌-◌, [], ◌∷◌, true, false, ℕ, List, length, slice_index_or, slice_set, None, Some, Ok, IfOk, IfErr, OnOk, OnErr, IsOkUnless, MatchOption};
ghost use Rattle.std.specs.Option.{option_map, option_or, unwrap_or};
ghost use Rattle.st_frames.specs.Frames.{Known};
ghost use Rattle.st_frames.specs.Reading.{packet_at};
ghost use Rattle.st_frames.specs.Seen.{seen};
ghost use Rattle.st_reassembly.specs.Held.{nothing_held};
ghost use Rattle.st_reassembly.specs.Run.{run};
ghost use Rattle.ilpstream_frames.specs.Answers.{prepare, by_packet};
ghost use Rattle.ilpstream_frames.specs.Inboxes.{opening, is_stream, after_piece, after_frame, after_frames, after_packet, draft_at};
ghost use Rattle.ilpstream_frames.specs.Drafts.{over, StandFor, IsPieceError, IsPacketError};

use crate::error::LineError;
use st_frames::{Frame, Frames, PacketKind, read_packet};
use st_reassembly::{Inbox, InboxError};
use std::alloc::{AllocError, Allocator};
use std::marker::Model;

/// The number of streams of a connection, which are numbered from 1 (a limit of this profile of RFC 0029).
pub const STREAMS: usize = 64;

/// The inboxes of the streams that a frame named.
#[derive(Drop)]
pub struct Streams<A: Allocator + Copy> {
    inboxes: Vec<Option<Inbox<A>>, A>,
    alloc: A,
}

impl<A: Allocator + Copy> Model for Streams<A> {
    ghost use Rattle.std.specs.Prelude.{◌≡◌, length};
    ghost use Rattle.ilpstream_frames.specs.Inboxes.{Inboxes};

    ghost Value = { Inboxes };

    ghost use Rattle.std.specs.Coded.{codes};
    ghost use Rattle.std.specs.FinMap as fmap;

    ghost coded = { Prim.hlevel (codes, fmap.code) };

    ghost view = { λ s. s.inboxes.items };

    ghost invariant = { λ s. length s.inboxes.items ≡ 64 };
}

/// The chunks of data that a packet's frames bring: none, one, or several.
#[derive(Clone, Copy)]
enum Pieces<'a> {
    None,
    One {
        stream: u64,
        offset: u64,
        bytes: &'a [u8],
    },
    Several,
}

/// Adds a frame's chunk, if it has one, to those of the frames before it.
fn with_piece<'a>(pieces: Pieces<'a>, frame: Frame<'a>) -> Pieces<'a>
    ensures { (index : ℕ) (rest all : List (ℕ × Known)) → StandFor pieces.entry ((index, seen frame.entry) ∷ rest) all → StandFor result rest all }
{
    let Frame::StreamData {
        stream,
        offset,
        bytes,
    } = frame
    else {
        return pieces;
    };
    match pieces {
        Pieces::None => Pieces::One {
            stream,
            offset,
            bytes,
        },
        Pieces::One { .. } | Pieces::Several => Pieces::Several,
    }
}

/// The chunks that these frames bring.
fn pieces_of(frames: Frames<'_>) -> Pieces<'_>
    ensures { StandFor result [] frames.entry }
{
    let mut pieces = Pieces::None;
    for (_, frame) in frames {
        pieces = with_piece(pieces, frame);
    }
    pieces
}

/// No inbox for any stream.
fn none_named<A: Allocator + Copy>(alloc: A) -> Result<Vec<Option<Inbox<A>>, A>, AllocError>
    ensures { IfOk result (λ v. v.items ≡ opening) }
{
    let mut inboxes = Vec::with_capacity(alloc, STREAMS)?;
    for _ in 0..STREAMS {
        inboxes.push(None)?;
    }
    Ok(inboxes)
}

impl<A: Allocator + Copy> Streams<A> {
    /// Makes the state in which no frame has named a stream. Fails if memory is refused.
    pub fn new(alloc: A) -> Result<Streams<A>, AllocError>
        ensures { IfOk result (λ s. s ≡ opening) }
    {
        let inboxes = none_named(alloc)?;
        Ok(Streams { inboxes, alloc })
    }

    /// The place of a stream's inbox.
    fn place_of(&self, stream: u64) -> Option<usize>
        ensures all { length self.now ≡ 64 }
        ensures place { MatchOption result (is_stream stream ≡ false) (λ place. (is_stream stream ≡ true) × (place ≡ stream - 1) × (place < 64)) }
    {
        if 1 <= stream && stream <= self.inboxes.len() as u64 {
            Some((stream - 1) as usize)
        } else {
            None
        }
    }

    /// An inbox that holds what the one at a place holds.
    fn copy_of(&self, place: usize) -> Result<Inbox<A>, InboxError>
        requires { place < 64 }
        ensures only_memory { IsOkUnless result InboxError.NoMemory }
        ensures same { IfOk result (λ inbox. inbox ≡ unwrap_or (slice_index_or self.now place None) nothing_held) }
    {
        match &self.inboxes[place] {
            Some(inbox) => inbox.copy(),
            None => Inbox::new(self.alloc),
        }
    }

    /// The draft of the inbox at a place, taken out, or a copy of the inbox there.
    fn take_draft(
        &self,
        drafts: &mut Vec<Option<Inbox<A>>, A>,
        place: usize,
    ) -> Result<Inbox<A>, InboxError>
        requires length { length drafts.old.items ≡ 64 }
        requires place { place < 64 }
        ensures only_memory { IsOkUnless result InboxError.NoMemory }
        ensures taken { drafts.new.items ≡ slice_set drafts.old.items place None }
        ensures draft { IfOk result (λ inbox. inbox ≡ draft_at drafts.old.items self.now place) }
    {
        match drafts[place].take() {
            Some(inbox) => Ok(inbox),
            None => self.copy_of(place),
        }
    }

    /// Puts a chunk into the draft of its stream's inbox.
    fn put_piece(
        &self,
        drafts: &mut Vec<Option<Inbox<A>>, A>,
        stream: u64,
        offset: u64,
        bytes: &[u8],
    ) -> Result<(), LineError>
        requires { length drafts.old.items ≡ 64 }
        ensures length { length drafts.new.items ≡ 64 }
        ensures put { OnOk result (after_piece (over drafts.old.items self.now) stream offset bytes.now ≡ Ok (over drafts.new.items self.now)) }
        ensures refused { IfErr result (IsPieceError (after_piece (over drafts.old.items self.now) stream offset bytes.now)) }
    {
        let Some(place) = self.place_of(stream) else {
            return Err(LineError::StreamId);
        };
        let mut inbox = self.take_draft(drafts, place)?;
        match inbox.insert(offset, bytes) {
            Ok(()) => {
                drafts[place] = Some(inbox);
                Ok(())
            }
            Err(error) => Err(LineError::Inbox(error)),
        }
    }

    /// Puts a frame's chunk, if it has one, into the draft of its stream's inbox.
    fn put_frame(
        &self,
        drafts: &mut Vec<Option<Inbox<A>>, A>,
        frame: Frame<'_>,
    ) -> Result<(), LineError>
        requires { length drafts.old.items ≡ 64 }
        ensures length { length drafts.new.items ≡ 64 }
        ensures put { OnOk result (after_frame (over drafts.old.items self.now) (seen frame.entry) ≡ Ok (over drafts.new.items self.now)) }
        ensures refused { IfErr result (IsPieceError (after_frame (over drafts.old.items self.now) (seen frame.entry))) }
    {
        match frame {
            Frame::StreamData {
                stream,
                offset,
                bytes,
            } => self.put_piece(drafts, stream, offset, bytes),
            _ => Ok(()),
        }
    }

    /// The inboxes that these frames change, as they are after them.
    fn drafts(&self, frames: Frames<'_>) -> Result<Vec<Option<Inbox<A>>, A>, LineError>
        ensures length { IfOk result (λ drafts. length drafts.items ≡ 64) }
        ensures changed { IfOk result (λ drafts. after_frames self.now frames.entry ≡ Ok (over drafts.items self.now)) }
        ensures refused { IfErr result (IsPieceError (after_frames self.now frames.entry)) }
    {
        let Ok(mut drafts) = none_named(self.alloc) else {
            return Err(LineError::Inbox(InboxError::NoMemory));
        };
        for (_, frame) in frames {
            self.put_frame(&mut drafts, frame)?;
        }
        Ok(drafts)
    }

    /// The draft, if there is one, takes its place.
    fn adopt_one(&mut self, place: usize, draft: Option<Inbox<A>>)
        requires { place < 64 }
        ensures { self.new ≡ slice_set self.old place (option_or draft (slice_index_or self.old place None)) }
    {
        if let Some(inbox) = draft {
            self.inboxes[place] = Some(inbox);
        }
    }

    /// The drafts take the place of what they were drawn from.
    fn adopt(&mut self, drafts: Vec<Option<Inbox<A>>, A>)
        requires { length drafts.items ≡ 64 }
        ensures { self.new ≡ over drafts.items self.old }
    {
        let mut drafts = drafts;
        for place in 0..self.inboxes.len() {
            let draft = drafts[place].take();
            self.adopt_one(place, draft);
        }
    }

    /// Puts a chunk into its stream's inbox. Nothing is copied: an inbox accepts all of a chunk or nothing.
    fn put_one(&mut self, stream: u64, offset: u64, bytes: &[u8]) -> Result<(), LineError>
        ensures put { OnOk result (after_piece self.old stream offset bytes.now ≡ Ok self.new) }
        ensures refused { IfErr result (IsPieceError (after_piece self.old stream offset bytes.now)) }
        ensures unchanged { OnErr result (self.new ≡ self.old) }
    {
        let Some(place) = self.place_of(stream) else {
            return Err(LineError::StreamId);
        };
        if let Some(inbox) = &mut self.inboxes[place] {
            return Ok(inbox.insert(offset, bytes)?);
        }
        let mut inbox = Inbox::new(self.alloc)?;
        inbox.insert(offset, bytes)?;
        self.inboxes[place] = Some(inbox);
        Ok(())
    }

    /// Puts in the chunks of these frames, by drafts: all of them, or none.
    fn put_all(&mut self, frames: Frames<'_>) -> Result<(), LineError>
        ensures put { OnOk result (after_frames self.old frames.entry ≡ Ok self.new) }
        ensures refused { IfErr result (IsPieceError (after_frames self.old frames.entry)) }
        ensures unchanged { OnErr result (self.new ≡ self.old) }
    {
        let drafts = self.drafts(frames)?;
        self.adopt(drafts);
        Ok(())
    }

    /// Accepts the packet of a line: the bytes of all its StreamData frames, or none of them (RFC 0029).
    ///
    /// Fails with `Packet` if the bytes are not a plain packet, with `StreamId` if a frame names a stream outside 1 to
    /// 64, and with `Inbox` if an inbox refuses the bytes or memory is refused. Then nothing has changed.
    pub fn take_packet(&mut self, bytes: &[u8]) -> Result<(), LineError>
        ensures taken { OnOk result (after_packet self.old (by_packet (packet_at prepare bytes.now)) ≡ Ok self.new) }
        ensures refused { IfErr result (IsPacketError self.old (by_packet (packet_at prepare bytes.now))) }
        ensures unchanged { OnErr result (self.new ≡ self.old) }
    {
        let packet = read_packet(bytes, PacketKind::Prepare)?;
        match pieces_of(packet.frames.again()) {
            Pieces::None => Ok(()),
            Pieces::One {
                stream,
                offset,
                bytes,
            } => self.put_one(stream, offset, bytes),
            Pieces::Several => self.put_all(packet.frames),
        }
    }

    /// The number of streams: 64.
    pub fn count(&self) -> usize
        ensures all { length self.now ≡ 64 }
        ensures count { result ≡ 64 }
    {
        self.inboxes.len()
    }

    /// The longest run of the stream at a place, if a frame named the stream: its bytes from offset 0 up to the first
    /// gap. The stream counts as not named afterwards. Fails if memory is refused.
    pub fn take_run(&mut self, place: usize) -> Result<Option<Vec<u8, A>>, AllocError>
        requires { place < 64 }
        ensures run { IfOk result (λ bytes. option_map (λ v. v.items) bytes ≡ option_map run (slice_index_or self.old place None)) }
        ensures others { self.new ≡ slice_set self.old place None }
    {
        let Some(mut inbox) = self.inboxes[place].take() else {
            return Ok(None);
        };
        let length = inbox.run_length();
        match inbox.take(length) {
            Ok(bytes) => Ok(Some(bytes)),
            Err(_) => Err(AllocError),
        }
    }
}
