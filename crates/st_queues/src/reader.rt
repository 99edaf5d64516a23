//! The application's side of a ring to read from.
ghost use Rattle.std.specs.Prelude.{◌≡◌, ◌<◌};
ghost use Rattle.rtrb.specs.Ring.{received, known_items};
ghost use Rattle.st_queues.specs.Names.{consumer_ring};
ghost use Rattle.st_queues.specs.Reading.{ReadsAs};
ghost use Rattle.st_queues.specs.declared.items.Over.TheVariants.{Open};

use crate::items::{Delivery, Over};
use crate::name::HubName;
use rtrb::Consumer;
use st_streams::StreamRead;
use std::alloc::Allocator;
use std::marker::{Model, PhantomData};

/// The reader of a stream of the hub `N`.
#[derive(Drop)]
pub struct StreamReader<N: HubName<A>, A: Allocator + Copy> {
    pub(crate) consumer: Consumer<Delivery<A>, A>,
    // The place of its stream in the hub, below 64.
    stream: u8,
    over: Over,
    of: PhantomData<N>,
}

impl<N: HubName<A>, A: Allocator + Copy> Model for StreamReader<N, A> {
    ghost use Rattle.std.specs.Prelude.{◌≡◌, ◌<◌};
    ghost use Rattle.rtrb.specs.Ring.{received, known_items};
    ghost use Rattle.st_queues.specs.Reading.{Read};
    ghost use Rattle.st_queues.specs.Names.{consumer_ring};

    ghost Value = { Read A };

    ghost view = { λ r. record { stream = r.stream; items = received r.consumer; known = known_items r.consumer; over = r.over } };

    ghost invariant = { λ r. (consumer_ring r.consumer ≡ N.read_ring r.stream) × (r.stream < 64) };
}

impl<N: HubName<A>, A: Allocator + Copy> StreamReader<N, A> {
    // The end of the ring of the stream at this place in the hub.
    pub(crate) fn new(consumer: Consumer<Delivery<A>, A>, stream: u8) -> StreamReader<N, A>
        requires named { consumer_ring consumer ≡ N.read_ring stream }
        requires place { stream < 64 }
        ensures { (result.stream ≡ stream) × (result.items ≡ received consumer) × (result.known ≡ known_items consumer) × (result.over ≡ Open) }
    {
        StreamReader {
            consumer,
            stream,
            over: Over::Open,
            of: PhantomData,
        }
    }

    /// The next item that the hub delivered: bytes or an end. After an end it gives the same end again. Does not
    /// allocate and does not wait.
    pub fn try_read(&mut self) -> StreamRead<A>
        ensures stream { self.new.stream ≡ self.old.stream }
        ensures read { ReadsAs self.old self.new result }
    {
        match self.over {
            Over::Open => {}
            Over::Ended => return StreamRead::End,
            Over::Aborted(code) => return StreamRead::Aborted(code),
        }
        match self.consumer.pop() {
            Ok(Delivery::Bytes(bytes)) => StreamRead::Bytes(bytes),
            Ok(Delivery::End) => {
                self.over = Over::Ended;
                StreamRead::End
            }
            Ok(Delivery::Aborted(code)) => {
                self.over = Over::Aborted(code);
                StreamRead::Aborted(code)
            }
            Err(_) => StreamRead::Nothing,
        }
    }

    /// The index of its stream in the hub: 0 to 63.
    pub fn stream(&self) -> usize
        ensures { (result ≡ self.now.stream) × (result < 64) }
    {
        usize::from(self.stream)
    }
}
