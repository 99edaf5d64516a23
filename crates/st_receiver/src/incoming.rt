//! One stream's incoming direction, and the window that waits for a stream that is not open.

ghost use Rattle.std.specs.Prelude.{◌≡◌, ◌+◌, ◌^◌, ◌<◌, ◌≤◌, false, length, is_err, max, take, IfOk, OnOk, OnErr, IsOkUnless};
ghost use Rattle.st_reassembly.specs.Held.{nothing_held, is_over};
ghost use Rattle.st_reassembly.specs.Inserting.{inserted};
ghost use Rattle.st_receiver.specs.Streams.{fresh_incoming, read_of};
ghost use Rattle.st_receiver.specs.Data.{with_data, raised_to};
ghost use Rattle.st_receiver.specs.Closes.{with_close};
ghost use Rattle.std.specs.Prelude.{Some};
ghost use Rattle.st_reassembly.specs.Closing.{after_abort};
ghost use Rattle.st_reassembly.specs.Run.{run, after_take};
ghost use Rattle.st_receiver.specs.Reading.{Bytes, is_read, got_count, got_none, got, after_get};
ghost use Rattle.st_receiver.specs.Ready.{is_some_got};
ghost use Rattle.st_receiver.specs.Decided.{got_seen};

use crate::reason::Reason;
use st_reassembly::{Inbox, InboxError};
use st_streams::StreamRead;
use std::alloc::Allocator;
use std::marker::Model;

/// An empty window.
#[derive(Drop)]
pub(crate) struct Window<A: Allocator + Copy> {
    inbox: Inbox<A>,
}

impl<A: Allocator + Copy> Model for Window<A> {
    ghost use Rattle.std.specs.Prelude.{◌≡◌};
    ghost use Rattle.std.specs.Coded.{codes};
    ghost use Rattle.std.specs.FinMap as map;
    ghost use Rattle.st_reassembly.specs.Held.{Held, nothing_held};

    ghost Value = { Held };

    ghost coded = { Prim.hlevel (codes, map.code) };

    ghost view = { λ w. w.inbox };

    ghost invariant = { λ w. w.inbox ≡ nothing_held };
}

impl<A: Allocator + Copy> Window<A> {
    /// Allocates the memory for all that a stream will buffer.
    pub(crate) fn new(alloc: A) -> Result<Window<A>, InboxError>
        ensures only_memory { IsOkUnless result InboxError.NoMemory }
    {
        let inbox = Inbox::new(alloc)?;
        Ok(Window { inbox })
    }

    /// A stream that opens in this window.
    pub(crate) fn open(self, receive_max: u64) -> Incoming<A>
        ensures { result ≡ fresh_incoming receive_max }
    {
        Incoming {
            inbox: self.inbox,
            highest: 0,
            receive_max,
            credited: 0,
        }
    }
}

/// One stream's incoming direction.
#[derive(Drop)]
pub(crate) struct Incoming<A: Allocator + Copy> {
    inbox: Inbox<A>,
    /// The highest end of data that arrived.
    highest: u64,
    /// The most that may be credited in all, in units of this end's asset.
    receive_max: u64,
    /// The amount credited, in units of this end's asset.
    credited: u64,
}

impl<A: Allocator + Copy> Model for Incoming<A> {
    ghost use Rattle.std.specs.Coded.{codes};
    ghost use Rattle.std.specs.FinMap as map;
    ghost use Rattle.st_receiver.specs.Streams.{Incoming};

    ghost Value = { Incoming };

    ghost coded = { Prim.hlevel (codes, map.code) };

    ghost view = { λ s. record { held = s.inbox; highest = s.highest; receive_max = s.receive_max; credited = s.credited } };
}

impl<A: Allocator + Copy> Incoming<A> {
    /// The highest byte end received.
    pub(crate) fn highest(&self) -> u64
        ensures { result ≡ self.now.highest }
    {
        self.highest
    }

    /// What counts as read: after an abort all that was received.
    pub(crate) fn read(&self) -> u64
        ensures { result ≡ read_of (Some self.now) }
    {
        if self.inbox.abort_code().is_some() {
            return self.highest;
        }
        self.inbox.read_count()
    }

    /// How many bytes were read.
    pub(crate) fn read_count(&self) -> u64
        ensures { result ≡ self.now.held.read }
    {
        self.inbox.read_count()
    }

    /// The most that may be credited in all.
    pub(crate) fn receive_max(&self) -> u64
        ensures { result ≡ self.now.receive_max }
    {
        self.receive_max
    }

    /// What was credited.
    pub(crate) fn credited(&self) -> u64
        ensures { result ≡ self.now.credited }
    {
        self.credited
    }

    /// A clean close or an abort came.
    pub(crate) fn is_over(&self) -> bool
        ensures { result ≡ is_over self.now.held }
    {
        self.inbox.end_at().is_some() || self.inbox.abort_code().is_some()
    }

    /// The highest byte end once a chunk arrived.
    fn raised(&self, offset: u64, bytes: &[u8]) -> u64
        requires { offset + length bytes.now < 2 ^ 64 }
        ensures { result ≡ raised_to offset bytes.now self.now }
    {
        if self.is_over() || bytes.is_empty() {
            return self.highest;
        }
        self.highest.max(offset + bytes.len() as u64)
    }

    /// Buffers a chunk that ends within the window.
    #[tactic(auto, using(crate::proofs::Pieces::pieces))]
    pub(crate) fn put(&mut self, offset: u64, bytes: &[u8])
        requires { is_err (inserted offset bytes.now self.old.held) ≡ false }
        ensures { self.new ≡ with_data offset bytes.now self.old }
    {
        let highest = self.raised(offset, bytes);
        self.inbox.insert(offset, bytes).unwrap();
        self.highest = highest;
    }

    /// A close: code 1 fixes the end, any other aborts.
    pub(crate) fn close(&mut self, code: u8)
        ensures { self.new ≡ with_close code self.old }
    {
        if code == 1 {
            self.inbox.finish();
        } else {
            self.inbox.abort(u64::from(code));
        }
    }

    /// An abort.
    pub(crate) fn abort(&mut self, code: u8)
        ensures { self.new ≡ record self.old { held = after_abort code self.old.held } }
    {
        self.inbox.abort(u64::from(code));
    }

    /// Credits an amount.
    pub(crate) fn credit(&mut self, amount: u64)
        requires { self.old.credited + amount < 2 ^ 64 }
        ensures { self.new ≡ record self.old { credited = self.old.credited + amount } }
    {
        self.credited += amount;
    }

    /// Raises what may be credited in all.
    pub(crate) fn raise_receive_max(&mut self, amount: u64)
        ensures { self.new ≡ record self.old { receive_max = max self.old.receive_max amount } }
    {
        self.receive_max = self.receive_max.max(amount);
    }

    /// All bytes before the fixed end were read.
    fn is_read(&self) -> bool
        ensures { result ≡ is_read self.now.held.read self.now.held.end }
    {
        match self.inbox.end_at() {
            Some(end) => end == self.inbox.read_count(),
            None => false,
        }
    }

    /// What can be reported if no byte can be read.
    fn get_none(&self) -> StreamRead<A>
        ensures told { got_seen result ≡ got_none self.now.held }
        ensures none { got_count (got_seen result) ≡ 0 }
    {
        if self.is_read() {
            StreamRead::End
        } else {
            StreamRead::Nothing
        }
    }

    /// The first bytes of the run, if there are any.
    fn get_some(&mut self, max: usize) -> Result<StreamRead<A>, Reason>
        ensures only_memory { IsOkUnless result Reason.NoMemory }
        ensures got { IfOk result (λ g. got_seen g ≡ Bytes (take max (run self.old.held))) }
        ensures few { IfOk result (λ g. got_count (got_seen g) ≤ 65536) }
        ensures left { OnOk result (self.new ≡ record self.old { held = after_take max self.old.held }) }
        ensures unchanged { OnErr result (self.new ≡ self.old) }
    {
        match self.inbox.take(max) {
            Ok(bytes) => Ok(StreamRead::Bytes(bytes)),
            Err(_) => Err(Reason::NoMemory),
        }
    }

    /// Whether a read gives anything.
    pub(crate) fn is_ready(&self) -> bool
        ensures { result ≡ is_some_got (got 1 self.now.held) }
    {
        if self.inbox.abort_code().is_some() {
            return true;
        }
        if self.inbox.run_length().min(1) == 0 {
            return self.is_read();
        }
        true
    }

    /// A read, of at most `max` bytes.
    pub(crate) fn get(&mut self, max: usize) -> Result<StreamRead<A>, Reason>
        ensures only_memory { IsOkUnless result Reason.NoMemory }
        ensures got { IfOk result (λ g. got_seen g ≡ got max self.old.held) }
        ensures few { IfOk result (λ g. got_count (got_seen g) ≤ 65536) }
        ensures left { OnOk result (self.new ≡ after_get max self.old) }
        ensures unchanged { OnErr result (self.new ≡ self.old) }
    {
        if let Some(code) = self.inbox.abort_code() {
            return Ok(StreamRead::Aborted(code));
        }
        if self.inbox.run_length().min(max) == 0 {
            return Ok(self.get_none());
        }
        self.get_some(max)
    }
}
