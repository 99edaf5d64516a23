//! An end that answers requests which were opened for it.

ghost use Rattle.std.specs.Prelude.{ℕ, List};
ghost use Rattle.st_http.specs.Serves.{bytes_of};
ghost use Rattle.st_end.specs.Opened.{IsOpenedBy};
ghost use Rattle.ilpstream_ends.specs.Answering.{Answers};
ghost use Rattle.ilpstream_ends.specs.Replies.{AnswersFor, IsOpenedFor, bytes_opened};

use ilpstream_serving::{Refusal, refusal_of};
use st_end::{EndState, Opened, Received};
use st_links::Clock;
use std::alloc::Global;

/// An end of a connection that answers the Prepares of its peer. If memory is refused it answers with a Reject of
/// code T00, and if there is no memory for that either, it gives no answer.
#[derive(Drop)]
pub(crate) struct Receiver<K: Clock> {
    pub(crate) end: EndState<Global>,
    pub(crate) clock: K,
    pub(crate) alloc: Global,
    /// Why the last request was refused. `None` if it was fulfilled.
    pub(crate) refused: Option<Refusal>,
}

impl<K: Clock> Receiver<K> {
    /// The answer to bytes that were opened by the end's keys.
    fn receive(&mut self, opened: &Opened<Global>) -> Option<Vec<u8>>
        requires { IsOpenedBy self.old.end.keys opened.now.bytes.items opened.now }
        ensures { Answers self.old.end opened.now.bytes.items (bytes_of (λ v. v.items) result) self.new.end }
    {
        let now = self.clock.now();
        match self.end.receive_opened(opened, now) {
            Ok(Received { bytes, reason, .. }) => {
                self.refused = refusal_of(&bytes, reason);
                Some(bytes)
            }
            Err(_) => self.receive_nothing(),
        }
    }

    /// The answer to bytes for which there is no memory, whatever they are.
    fn receive_nothing(&mut self) -> Option<Vec<u8>>
        ensures { (bytes : List ℕ) → Answers self.old.end bytes (bytes_of (λ v. v.items) result) self.new.end }
    {
        self.refused = Some(Refusal::without_memory());
        Vec::from_slice(self.alloc, self.end.t00()).ok()
    }

    /// The answer to bytes that were opened by the end's keys, or for which memory was refused.
    pub(crate) fn answer(&mut self, opened: &Option<Opened<Global>>) -> Option<Vec<u8>>
        requires { IsOpenedFor self.old.end.keys opened.now }
        ensures { AnswersFor self.old.end (bytes_opened opened.now) (bytes_of (λ v. v.items) result) self.new.end }
    {
        match opened {
            Some(opened) => self.receive(opened),
            None => self.receive_nothing(),
        }
    }
}
