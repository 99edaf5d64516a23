//! The words of a gauge and the steps on them, of which there are three kinds: the hub's seat stores a total that is not
//! below its last, a seat reads a word, and a seat sets the stop word.
ghost use Rattle.std.specs.Prelude.{◌≡◌, ◌<◌, [], true, slice_set, IfOk};
ghost use Rattle.st_queues.specs.Gauged.{publisher, watcher, MayPublish, HasSeen, IsSplit};

use atomic_table::{Play, Seat, Split, Table, TableRule};
use std::alloc::{AllocError, Allocator};
use std::collections::LinkedList;

// What a seat knows of the words, whether it is the one that publishes, and whether it asked to stop. No value of it is
// made.
pub struct View {
    pub publishes: bool,
    pub asked: bool,
    pub seen: LinkedList<u64>,
}

pub struct Rising;

impl TableRule<u64, View, ()> for Rising {
    ghost use Rattle.st_queues.specs.Gauged.{Gauged, publisher};

    ghost holds = { λ _. Gauged };

    ghost first = { λ _. publisher };
}

// The word that was found or stored is what the seat has now seen of it.
pub struct Records;

impl Play<u64, View> for Records {
    ghost use Rattle.st_queues.specs.Gauged.{Rises};

    ghost then = { Rises };
}

// The stop word is set, and the seat asked for it.
pub struct AsksStop;

impl Play<u64, View> for AsksStop {
    ghost use Rattle.st_queues.specs.Gauged.{Asks};

    ghost then = { Asks };
}

// A seat stays as it is, and another one is made that has seen as much and does not publish.
pub struct Watches;

impl Split<View> for Watches {
    ghost use Rattle.st_queues.specs.Gauged.{watcher};

    ghost left = { λ v. v };

    ghost right = { watcher };
}

pub(crate) type GaugeTable<A> = Table<u64, View, (), Rising, A>;

pub(crate) type RawSeat = Seat<u64, View>;

// The five words at 0, and the seat that publishes.
pub(crate) fn open<A: Allocator + Copy>(alloc: A) -> Result<(GaugeTable<A>, RawSeat), AllocError>
    ensures { IfOk result (λ t. (t.0.shared.table_id.words ≡ 5) × (t.1.table_id ≡ t.0.shared.table_id) × (t.1.id ≡ 0) × (t.1.me ≡ (publisher, []))) }
{
    GaugeTable::of_words(alloc, &[0, 0, 0, 0, 0], &())
}

// Reads a word.
pub(crate) fn look<A: Allocator + Copy>(
    table: &GaugeTable<A>,
    seat: &mut RawSeat,
    word: usize,
) -> u64
    requires { (seat.old.table_id ≡ table.now.shared.table_id) × (table.now.shared.table_id.words ≡ 5) × (word < 5) }
    ensures { HasSeen word result seat.old seat.new }
{
    table.shared.load::<Records>(seat, word)
}

// The hub's store of a total.
pub(crate) fn put<A: Allocator + Copy>(
    table: &GaugeTable<A>,
    seat: &mut RawSeat,
    word: usize,
    new: u64,
)
    requires { MayPublish table.now.shared.table_id word new seat.old }
    ensures { (seat.new.table_id ≡ seat.old.table_id) × (seat.new.me.0 ≡ record seat.old.me.0 { seen = slice_set seat.old.me.0.seen word new }) }
{
    table.shared.store::<Records>(seat, word, new);
}

// The stop word is set.
pub(crate) fn set_stop<A: Allocator + Copy>(table: &GaugeTable<A>, seat: &mut RawSeat)
    requires { (seat.old.table_id ≡ table.now.shared.table_id) × (table.now.shared.table_id.words ≡ 5) }
    ensures { (seat.new.table_id ≡ seat.old.table_id) × (seat.new.me.0 ≡ record seat.old.me.0 { asked = true; seen = slice_set seat.old.me.0.seen 0 1 }) }
{
    table.shared.store::<AsksStop>(seat, 0, 1);
}

// Splits off another seat, which does not publish.
pub(crate) fn split<A: Allocator + Copy>(table: &GaugeTable<A>, seat: &mut RawSeat) -> RawSeat
    requires { (seat.old.table_id ≡ table.now.shared.table_id) × (table.now.shared.table_id.words ≡ 5) }
    ensures { IsSplit seat.old seat.new result }
{
    table.shared.split_seat::<Watches>(seat)
}
