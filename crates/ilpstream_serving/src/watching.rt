//! The reports of a transfer while it runs.

ghost use Rattle.std.specs.Prelude.{◌≡◌};
ghost use Rattle.ilpstream_serving.specs.Telling as spec;

use ilpstream_log::{Blocked, Brief};
use st_streams::EndTotals;
use std::sync::Mutex;
use std::time::Duration;

/// Receives reports of the progress of a transfer, while it runs.
pub trait Watch {
    /// How much time passes at least between two calls of `look` for a sender, and at most for a receiver. `None` if nothing is to be
    /// reported: then `look` is not called for a sender.
    fn period(&self) -> Option<Duration>;

    /// What the totals of the end are, at which limit of its peer it waits, and why the last exchange that failed did: it
    /// brought a sender no Fulfill, or a receiver refused it. No lock is kept meanwhile. It is called each period for a sender, and
    /// for a receiver as often as it was called or a period is over.
    fn look(&mut self, totals: &EndTotals, waits: Option<Blocked>, last: Option<Brief>);

    /// Whether a receiver is to accept no further connection, and to end once those that it has are done.
    fn is_stopped(&self) -> bool {
        false
    }

    /// The transfer is over.
    fn end(&mut self);
}

/// Reports nothing.
#[derive(Clone, Copy)]
pub struct NoWatch;

impl Watch for NoWatch {
    fn period(&self) -> Option<Duration> {
        None
    }

    fn look(&mut self, _: &EndTotals, _: Option<Blocked>, _: Option<Brief>) {}

    fn end(&mut self) {}
}

/// A receiver that waits for its next request.
#[derive(Drop)]
pub struct Idle<'a, V> {
    pub watch: &'a mut V,
    pub totals: EndTotals,
    pub last: Option<Brief>,
}

impl<V: Watch> Idle<'_, V> {
    /// How long it may wait before the next call of `look`.
    pub fn period(&self) -> Option<Duration> {
        self.watch.period()
    }

    /// Reports the progress of the transfer.
    pub fn look(&mut self) {
        self.watch.look(&self.totals, None, self.last);
    }

    /// Whether it is to accept no further connection.
    pub fn is_stopped(&self) -> bool {
        self.watch.is_stopped()
    }
}

/// A limit of the peer that a Prepare reports.
#[derive(Clone, Copy)]
pub(crate) struct Reached {
    limit: Blocked,
    /// Whether that Prepare is sent.
    is_sent: bool,
}

/// A limit that the next Prepare reports.
fn told_by_next(limit: Blocked) -> Reached
    ensures { result ≡ spec.told_by_next limit }
{
    Reached {
        limit,
        is_sent: false,
    }
}

/// What is known of a limit once one more Prepare is sent. The one that reports it is sent alone. So if another is sent, a
/// limit on bytes was raised; one on money stays while bytes are sent.
fn after_next(reached: Reached) -> Option<Reached>
    ensures { result ≡ spec.after_next reached }
{
    let Reached { limit, is_sent } = reached;
    if !is_sent {
        return Some(Reached {
            limit,
            is_sent: true,
        });
    }
    match limit {
        Blocked::Connection { .. } | Blocked::Data { .. } => None,
        Blocked::Money { .. } => Some(reached),
    }
}

/// The limit at which an end waits that paid this number of units, if this is the last one that it reported.
fn waits_at(limit: Blocked, paid: u64) -> Option<Blocked>
    ensures { result ≡ spec.waits_at limit paid }
{
    match limit {
        Blocked::Connection { .. } | Blocked::Data { .. } => Some(limit),
        Blocked::Money { total, .. } => { if paid == total { Some(limit) } else { None } }
    }
}

/// Why the last exchange that failed did, and which limit of the peer was reached last, for all threads of a sender. None
/// waits here for another.
#[derive(Drop)]
pub struct Latest {
    brief: Mutex<Option<Brief>>,
    limit: Mutex<Option<Reached>>,
}

impl Latest {
    /// No exchange failed yet, and no limit was reached.
    pub fn none() -> Latest {
        Latest {
            brief: Mutex::new(None),
            limit: Mutex::new(None),
        }
    }

    /// Keeps the limit that the next Prepare reports, unless another thread is here just now.
    pub fn reaches(&self, limit: Blocked) {
        if let Some(mut kept) = self.limit.try_lock() {
            *kept = Some(told_by_next(limit));
        }
    }

    /// Notes that a Prepare is sent, unless another thread is here just now.
    pub fn sends(&self) {
        if let Some(mut kept) = self.limit.try_lock() {
            *kept = match *kept {
                Some(reached) => after_next(reached),
                None => None,
            };
        }
    }

    /// The limit at which an end waits that paid this number of units. `None` also if another thread is here just now.
    pub fn waits(&self, paid: u64) -> Option<Blocked> {
        match self.limit.try_lock() {
            Some(kept) => match *kept {
                Some(reached) => waits_at(reached.limit, paid),
                None => None,
            },
            None => None,
        }
    }

    /// Keeps why an exchange failed, unless another thread is here just now.
    pub fn keep(&self, brief: Brief) {
        if let Some(mut kept) = self.brief.try_lock() {
            *kept = Some(brief);
        }
    }

    /// What was kept last. `None` also if another thread is here just now.
    pub fn seen(&self) -> Option<Brief> {
        match self.brief.try_lock() {
            Some(kept) => *kept,
            None => None,
        }
    }
}
