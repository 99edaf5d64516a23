//! Which threads of a receiver read requests, and why no further request is read.

ghost use Rattle.std.specs.Prelude.{◌≡◌, ◌⊎◌, ◌-◌, ◌<◌, false, true, IfNone, Some};
ghost use Rattle.ilpstream_ends.specs.Lobby.{HaveEnded, HaveFailed};

/// Why a thread of a receiver reads no further request.
#[derive(Clone, Copy)]
pub(crate) enum Leaves {
    /// The transfer is over.
    Over,
    /// No further connection may be accepted, and none is left.
    Done,
    /// The listener gave no connection.
    Failed,
}

/// The threads of a receiver that read requests.
#[derive(Clone, Copy)]
pub(crate) struct Readers {
    /// How many there are.
    at_work: u64,
    /// Whether there were any.
    has_begun: bool,
    /// Whether one of them ended because the listener gave no connection.
    has_failed: bool,
    /// Whether no further connection is to be accepted.
    is_stopped: bool,
    /// Whether the transfer is over.
    is_over: bool,
}

impl Readers {
    /// None yet.
    pub(crate) fn none() -> Readers
        ensures { (result.has_begun ≡ false) × (result.has_failed ≡ false) }
    {
        Readers {
            at_work: 0,
            has_begun: false,
            has_failed: false,
            is_stopped: false,
            is_over: false,
        }
    }

    /// This number of threads begins.
    pub(crate) fn begin(&mut self, threads: u8)
        ensures { (self.new.at_work ≡ threads) × (self.new.has_begun ≡ true) }
    {
        self.at_work = u64::from(threads);
        self.has_begun = true;
    }

    /// Whether they began.
    pub(crate) fn has_begun(&self) -> bool
        ensures { result ≡ self.now.has_begun }
    {
        self.has_begun
    }

    /// A thread ends. That the listener gives no connection does not count if none is to be accepted.
    pub(crate) fn leave(&mut self, leaves: Leaves)
        ensures fewer { self.new.at_work ≡ self.old.at_work - 1 }
        ensures kept { self.old.has_failed ≡ true → self.new.has_failed ≡ true }
        ensures failed { self.new.has_failed ≡ true → (self.old.has_failed ≡ true) ⊎ ((leaves ≡ Leaves.Failed) × (self.old.is_stopped ≡ false) × (self.old.is_over ≡ false)) }
        ensures noted { leaves ≡ Leaves.Failed → self.old.is_stopped ≡ false → self.old.is_over ≡ false → self.new.has_failed ≡ true }
    {
        self.at_work = self.at_work.saturating_sub(1);
        if leaves == Leaves::Failed && !self.is_stopped && !self.is_over {
            self.has_failed = true;
        }
    }

    /// No further connection is to be accepted. That the listener gave none does not count any more.
    pub(crate) fn stop(&mut self)
        ensures { (self.new.is_stopped ≡ true) × (self.new.has_failed ≡ false) }
    {
        self.is_stopped = true;
        self.has_failed = false;
    }

    /// Whether none is.
    pub(crate) fn is_stopped(&self) -> bool
        ensures { result ≡ self.now.is_stopped }
    {
        self.is_stopped
    }

    /// The transfer is over.
    pub(crate) fn end(&mut self)
        ensures { self.new.is_over ≡ true }
    {
        self.is_over = true;
    }

    /// Whether it is.
    pub(crate) fn is_over(&self) -> bool
        ensures { result ≡ self.now.is_over }
    {
        self.is_over
    }

    /// Why no further request is read, once each thread has ended: `Failed` if one ended because the listener gave no
    /// connection, and else `Done`. `None` before.
    pub(crate) fn why(&self) -> Option<Leaves>
        ensures done { result ≡ Some Leaves.Done → HaveEnded self.now }
        ensures failed { result ≡ Some Leaves.Failed → HaveFailed self.now }
        ensures over { ¬ (result ≡ Some Leaves.Over) }
        ensures none { IfNone result ((self.now.has_begun ≡ false) ⊎ (0 < self.now.at_work)) }
    {
        if !self.has_begun || self.at_work > 0 {
            return None;
        }
        if self.has_failed {
            Some(Leaves::Failed)
        } else {
            Some(Leaves::Done)
        }
    }
}
