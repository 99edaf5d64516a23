//! The sequences of the fulfilled Prepares. They are kept as runs of consecutive numbers, so that a long connection has
//! few of them, and a search takes a number of steps that is logarithmic in the number of runs.

ghost use Rattle.std.specs.Prelude.{◌≡◌, ◌↔◌, ◌<◌, ◌≤◌, ◌+◌, ◌-◌, true, false, length, vec_len, vec_capacity, OnOk};
ghost use Rattle.std.specs.FinSet.{empty, contains, insert};
ghost use Rattle.st_receiver.specs.Sequences.{Rise, IsPlace, IsMore, last_at, first_at, is_among};

use std::alloc::{AllocError, Allocator};
use std::marker::Model;

/// Sequences in a row: both ends are among them.
#[derive(Clone, Copy)]
struct Run {
    first: u64,
    last: u64,
}

/// A set of sequences, with room for more that was allocated in advance.
#[derive(Drop)]
pub(crate) struct Sequences<A: Allocator + Copy> {
    runs: Vec<Run, A>,
}

impl<A: Allocator + Copy> Model for Sequences<A> {
    ghost use Rattle.std.specs.Prelude.{◌-◌, vec_len, vec_capacity};
    ghost use Rattle.std.specs.Coded.{codes};
    ghost use Rattle.std.specs.FinMap as map;
    ghost use Rattle.st_receiver.specs.Standing.{Seated};
    ghost use Rattle.st_receiver.specs.Sequences.{Rise, set_of};

    ghost Value = { Seated };

    ghost coded = { Prim.hlevel (codes, map.code) };

    ghost view = { λ s. record { set = set_of s.runs.items; room = vec_capacity s.runs - vec_len s.runs } };

    ghost invariant = { λ s. Rise 0 s.runs.items };
}

/// How many runs end before a sequence.
fn runs_before<A: Allocator>(runs: &Vec<Run, A>, sequence: u64) -> usize
    requires { Rise 0 runs.now.items }
    ensures { IsPlace runs.now.items result sequence }
{
    let mut low = 0;
    let mut high = runs.len();
    while low < high {
        let middle = low + (high - low) / 2;
        if runs[middle].last < sequence {
            low = middle + 1;
        } else {
            high = middle;
        }
    }
    low
}

/// Whether a sequence is in the first run that does not end before it.
fn has<A: Allocator>(runs: &Vec<Run, A>, place: usize, sequence: u64) -> bool
    requires place { IsPlace runs.now.items place sequence }
    ensures { result ≡ is_among sequence runs.now.items }
{
    if place >= runs.len() {
        return false;
    }
    runs[place].first <= sequence
}

/// Whether the run before a place ends right before a sequence.
fn joins_before<A: Allocator>(runs: &Vec<Run, A>, place: usize, sequence: u64) -> bool
    requires place { IsPlace runs.now.items place sequence }
    ensures { (result ≡ true) ↔ ((0 < place) × (last_at runs.now.items (place - 1) + 1 ≡ sequence)) }
{
    if place == 0 {
        return false;
    }
    sequence.saturating_sub(runs[place - 1].last) == 1
}

/// Whether the run at a place begins right after a sequence.
fn joins_behind<A: Allocator>(runs: &Vec<Run, A>, place: usize, sequence: u64) -> bool
    ensures { (result ≡ true) ↔ ((place < length runs.now.items) × (sequence + 1 ≡ first_at runs.now.items place)) }
{
    if place >= runs.len() {
        return false;
    }
    runs[place].first.saturating_sub(sequence) == 1
}

/// Inserts a sequence that is in no run, at its place. The runs have room for one more: it does not allocate.
fn join<A: Allocator>(runs: &mut Vec<Run, A>, place: usize, sequence: u64)
    requires place { IsPlace runs.old.items place sequence }
    requires fresh { is_among sequence runs.old.items ≡ false }
    requires room { vec_len runs.old + 1 ≤ vec_capacity runs.old }
    ensures { IsMore runs.old.items sequence runs.new.items }
{
    let behind = joins_behind(runs, place, sequence);
    if joins_before(runs, place, sequence) {
        if behind {
            let next = runs.remove(place);
            runs[place - 1].last = next.last;
        } else {
            runs[place - 1].last = sequence;
        }
    } else if behind {
        runs[place].first = sequence;
    } else {
        let alone = Run {
            first: sequence,
            last: sequence,
        };
        runs.insert(place, alone).unwrap();
    }
}

impl<A: Allocator + Copy> Sequences<A> {
    /// No sequence yet.
    pub(crate) fn new(alloc: A) -> Sequences<A>
        ensures { result.set ≡ empty }
    {
        Sequences {
            runs: Vec::new(alloc),
        }
    }

    /// Whether a sequence is among them.
    pub(crate) fn contains(&self, sequence: u64) -> bool
        ensures { result ≡ contains self.now.set sequence }
    {
        has(&self.runs, runs_before(&self.runs, sequence), sequence)
    }

    /// Makes room for one more.
    pub(crate) fn reserve(&mut self) -> Result<(), AllocError>
        ensures set { self.new.set ≡ self.old.set }
        ensures room { OnOk result (1 ≤ self.new.room) }
    {
        self.runs.reserve(1)
    }

    /// Inserts a sequence. Does not allocate.
    pub(crate) fn insert(&mut self, sequence: u64)
        requires { 1 ≤ self.old.room }
        ensures { self.new.set ≡ insert self.old.set sequence }
    {
        let place = runs_before(&self.runs, sequence);
        if !has(&self.runs, place, sequence) {
            join(&mut self.runs, place, sequence);
        }
    }
}
