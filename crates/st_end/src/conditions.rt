//! The conditions of the Prepares in flight, by sequence.

ghost use Rattle.std.specs.Prelude.{◌≡◌, ◌≤◌, true, false, length, filter, not, nat_eq, is_some, OnOk, OnErr, MatchOption};
ghost use Rattle.std.specs.Prelude as list;
ghost use Rattle.std.specs.declared.option.Option.TheVariants.{Some, None};
ghost use Rattle.std.specs.FinMap as map;
ghost use Rattle.st_end.specs.Sending.{is_kept};
ghost use Rattle.st_end.specs.Inside.{with_value};

use crate::kept::Kept;
use std::alloc::{AllocError, Allocator};
use std::marker::Model;

/// The bytes of a condition: the most that is kept of a Prepare.
const CONDITION: usize = 32;

/// The conditions of what is in flight, by sequence. Until a packet is sealed, its IV is in the condition's place.
#[derive(Drop)]
pub(crate) struct Conditions<A: Allocator + Copy> {
    /// The newest first.
    kept: Vec<(u64, Kept<CONDITION>), A>,
}

impl<A: Allocator + Copy> Model for Conditions<A> {
    ghost use Rattle.std.specs.Prelude.{ℕ, List};
    ghost use Rattle.std.specs.Ordering.{nat_cmp};
    ghost use Rattle.std.specs.Coded.{codes};
    ghost use Rattle.std.specs.FinMap as map;

    ghost Value = { map.FinMap nat_cmp (List ℕ) };

    ghost coded = { Prim.hlevel (codes, map.code) };

    ghost view = { λ c. map.from_entries c.kept.items };
}

/// Takes those of one sequence out.
fn keep_others<A: Allocator>(kept: &mut Vec<(u64, Kept<CONDITION>), A>, sequence: u64)
    ensures { kept.new.items ≡ filter (λ entry. not (nat_eq entry.0 sequence)) kept.old.items }
{
    kept.retain(|entry| entry.0 != sequence);
}

/// Keeps a condition in this entry if it is the one of this sequence.
fn renew(entry: &mut (u64, Kept<CONDITION>), sequence: u64, condition: [u8; 32])
    ensures { entry.new ≡ with_value sequence condition entry.old }
{
    if entry.0 == sequence {
        entry.1 = Kept::all_of(&condition);
    }
}

/// Keeps a condition in the entries of one sequence.
fn renew_all<A: Allocator>(
    kept: &mut Vec<(u64, Kept<CONDITION>), A>,
    sequence: u64,
    condition: [u8; 32],
)
    ensures { kept.new.items ≡ list.map (with_value sequence condition) kept.old.items }
{
    for i in 0..kept.len() {
        renew(&mut kept[i], sequence, condition);
    }
}

impl<A: Allocator + Copy> Conditions<A> {
    /// Nothing is in flight.
    pub(crate) fn new(alloc: A) -> Conditions<A>
        ensures { result ≡ map.empty }
    {
        Conditions {
            kept: Vec::new(alloc),
        }
    }

    /// What is kept for this sequence.
    fn get(&self, sequence: u64) -> Option<&[u8]>
        ensures { MatchOption result (map.get self.now sequence ≡ None) (λ kept. map.get self.now sequence ≡ Some kept.now) }
    {
        for (by, kept) in &self.kept {
            if *by == sequence {
                return Some(kept.as_slice());
            }
        }
        None
    }

    /// Whether this is kept for this sequence.
    pub(crate) fn has(&self, sequence: u64, wanted: &[u8]) -> bool
        ensures { result ≡ is_kept wanted.now (map.get self.now sequence) }
    {
        match self.get(sequence) {
            Some(kept) => kept == wanted,
            None => false,
        }
    }

    /// Keeps an IV or a condition.
    pub(crate) fn insert(&mut self, sequence: u64, bytes: &[u8]) -> Result<(), AllocError>
        requires { length bytes.now ≤ CONDITION }
        ensures kept { OnOk result (self.new ≡ map.insert self.old sequence bytes.now) }
        ensures unchanged { OnErr result (self.new ≡ self.old) }
    {
        self.kept.insert(0, (sequence, Kept::all_of(bytes)))?;
        Ok(())
    }

    /// Keeps a condition in the place of what is kept for this sequence. Does not allocate.
    fn replace(&mut self, sequence: u64, condition: [u8; 32])
        requires { is_some (map.get self.old sequence) ≡ true }
        ensures { self.new ≡ map.insert self.old sequence condition }
    {
        renew_all(&mut self.kept, sequence, condition);
    }

    /// Keeps a condition in the place of this IV, if the IV is what is kept for this sequence. Does not allocate.
    pub(crate) fn know(&mut self, sequence: u64, iv: &[u8], condition: [u8; 32])
        ensures known { is_kept iv.now (map.get self.old sequence) ≡ true → self.new ≡ map.insert self.old sequence condition }
        ensures other { is_kept iv.now (map.get self.old sequence) ≡ false → self.new ≡ self.old }
    {
        if self.has(sequence, iv) {
            self.replace(sequence, condition);
        }
    }

    /// Removes the condition of this sequence. Does not allocate.
    pub(crate) fn remove(&mut self, sequence: u64)
        ensures { self.new ≡ map.remove self.old sequence }
    {
        keep_others(&mut self.kept, sequence);
    }
}
