//! Requests that threads opened, and how they are answered.

ghost use Rattle.std.specs.Prelude.{◌≡◌, ℕ, List, Option, Some, IfSome};
ghost use Rattle.std.specs.Option.{ForSome};
ghost use Rattle.st_http.specs.Progress.{body_of};
ghost use Rattle.st_http.specs.Serves.{Responds, bytes_of, response_text};
ghost use Rattle.st_devices.specs.Tallies.{device_of};
ghost use Rattle.st_end.specs.State as state;
ghost use Rattle.ilpstream_serving.specs.Answering.{IsWholeAt};
ghost use Rattle.ilpstream_ends.specs.Replies.{AnswersBody, AnswersFor, IsLater, IsOpenedFor, bytes_opened, no_end};

use crate::receiver::Receiver;
use ilpstream_serving::Timed;
use st_devices::Counting;
use st_end::Opened;
use st_http::{Answerer, HttpError, Reading, respond};
use st_keys::Keys;
use st_links::Clock;
use std::alloc::Global;
use std::io::Write;
use std::marker::{Brand, Model, PhantomData};
use std::net::OpenStream;

/// Names a receiver by its end, as it was when its threads began. A name is created by calling a function with `Brand`.
pub(crate) trait ReceiverName {
    /// The end, with its receive maximum set.
    ghost start: { state.EndState };
}

impl ReceiverName for Brand {
    ghost start = { no_end };
}

/// The keys by which requests are opened: those of the named receiver's end.
#[derive(Drop)]
pub(crate) struct OpeningKeys<N: ReceiverName> {
    keys: Keys,
    of: PhantomData<N>,
}

impl<N: ReceiverName> Model for OpeningKeys<N> {
    ghost use Rattle.std.specs.Prelude.{◌≡◌};
    ghost use Rattle.st_keys.specs.Keys.{DerivedKeys};

    ghost Value = { DerivedKeys };

    ghost view = { λ k. k.keys };

    ghost invariant = { λ k. k.keys ≡ N.start.keys };
}

impl<N: ReceiverName> OpeningKeys<N> {
    pub(crate) fn new(keys: Keys) -> OpeningKeys<N>
        requires { keys ≡ N.start.keys }
    {
        OpeningKeys {
            keys,
            of: PhantomData,
        }
    }
}

/// The bytes of a request, opened by these keys. `None` if memory for a copy of them was refused.
fn opened_bytes(alloc: Global, keys: &Keys, bytes: &[u8]) -> Option<Opened<Global>>
    ensures opened { IsOpenedFor keys.now result }
    ensures bytes { IfSome (bytes_opened result) (λ b. b ≡ bytes.now) }
{
    match Vec::from_slice(alloc, bytes) {
        Ok(bytes) => Some(Opened::of(alloc, keys, bytes)),
        Err(_) => None,
    }
}

/// The body of a request, opened for the end of the named receiver. Contracts see it as its bytes; `None` if memory for a
/// copy of them was refused.
#[derive(Drop)]
struct OpenedBody<N: ReceiverName> {
    opened: Option<Opened<Global>>,
    of: PhantomData<N>,
}

impl<N: ReceiverName> Model for OpenedBody<N> {
    ghost use Rattle.std.specs.Prelude.{ℕ, List, Option};
    ghost use Rattle.ilpstream_ends.specs.Replies.{IsOpenedFor, bytes_opened};

    ghost Value = { Option (List ℕ) };

    ghost view = { λ a. bytes_opened a.opened };

    ghost invariant = { λ a. IsOpenedFor N.start.keys a.opened };
}

impl<N: ReceiverName> OpenedBody<N> {
    /// Opens these bytes.
    fn of(alloc: Global, keys: &OpeningKeys<N>, bytes: &[u8]) -> OpenedBody<N>
        ensures { IfSome result (λ opened. opened ≡ bytes.now) }
    {
        OpenedBody {
            opened: opened_bytes(alloc, &keys.keys, bytes),
            of: PhantomData,
        }
    }

    /// The answer that the end of the named receiver gives to these bytes.
    fn judged<K: Clock>(&self, receiver: &mut Receiver<K>) -> Option<Vec<u8>>
        requires { IsLater N.start receiver.old.end }
        ensures { AnswersFor receiver.old.end self.now (bytes_of (λ v. v.items) result) receiver.new.end }
    {
        receiver.answer(&self.opened)
    }
}

/// Gives one answer, which was made before.
#[derive(Drop)]
struct Prepared {
    answer: Option<Vec<u8>>,
}

impl Answerer for Prepared {
    ghost use Rattle.std.specs.Prelude.{◌≡◌};
    ghost use Rattle.st_http.specs.Serves.{bytes_of};

    ghost gives = { λ old _ _ answer _. answer ≡ bytes_of (λ v. v.items) old.answer };

    fn answer(&mut self, _account: usize, _body: &[u8]) -> Option<Vec<u8>> {
        self.answer.take()
    }
}

/// Writes the response to a request with this answer to a stream. What fails on the stream ends it alone.
fn respond_with<T: Write>(
    alloc: Global,
    stream: &mut Counting<T>,
    reading: &Reading<'_, Global>,
    answer: Option<Vec<u8>>,
    turns: &mut u64,
) -> Result<(), HttpError>
    requires { IsWholeAt reading.now.standing }
    ensures { Responds (T.contents (device_of stream.old)) (T.contents (device_of stream.new)) (response_text (bytes_of (λ v. v.items) answer)) result }
{
    let mut prepared = Prepared { answer };
    respond(alloc, stream, reading, &mut prepared, turns)
}

/// A request that has arrived intact, with its connection, opened for the end of the named receiver.
#[derive(Drop)]
pub(crate) struct Asked<'a, N: ReceiverName, S, R: std::time::Clock> {
    stream: Counting<Timed<'a, S, R>>,
    reading: Reading<'a, Global>,
    /// The I/O calls that are left to the connection.
    turns: u64,
    body: OpenedBody<N>,
    ghost whole: { IsWholeAt reading.standing },
    ghost same: { ForSome body (λ bytes. body_of reading.standing ≡ Some bytes) },
}

impl<'a, N: ReceiverName, S, R: std::time::Clock> Asked<'a, N, S, R> {
    /// Opens the body of a request that has arrived intact on a connection, of which `turns` I/O calls are left.
    #[tactic(auto, using(crate::proofs::Keeping::body_opened))]
    pub(crate) fn of(
        alloc: Global,
        keys: &OpeningKeys<N>,
        stream: Counting<Timed<'a, S, R>>,
        reading: Reading<'a, Global>,
        turns: u64,
    ) -> Asked<'a, N, S, R>
        requires { IsWholeAt reading.standing }
        ensures { (result.stream ≡ stream.entry) × (result.reading ≡ reading.entry) × (result.turns ≡ turns) }
    {
        let body = OpenedBody::of(alloc, keys, reading.body().unwrap());
        Asked {
            stream,
            reading,
            turns,
            body,
        }
    }
}

impl<N: ReceiverName, S: Write + OpenStream, R: std::time::Clock> Asked<'_, N, S, R> {
    /// Has the end of the named receiver judge the request, and writes its answer as the response. What fails on the
    /// connection ends it alone. A response is at most some kilobytes, and the first that is written to its connection. So
    /// the write does not wait for the peer, and the stream's deadline bounds it in any case.
    #[tactic(auto, using(crate::proofs::Keeping::answers_body))]
    pub(crate) fn answer<K: Clock>(
        &mut self,
        alloc: Global,
        receiver: &mut Receiver<K>,
    ) -> Result<(), HttpError>
        requires { IsLater N.start receiver.old.end }
        ensures { (answer : Option (List ℕ)) × AnswersBody receiver.old.end self.old.reading.standing answer receiver.new.end
            × Responds (S.contents (device_of self.old.stream).stream) (S.contents (device_of self.new.stream).stream) (response_text answer) result }
    {
        let answer = self.body.judged(receiver);
        respond_with(
            alloc,
            &mut self.stream,
            &self.reading,
            answer,
            &mut self.turns,
        )
    }
}
