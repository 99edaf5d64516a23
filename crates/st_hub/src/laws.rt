//! A law about the merge of a stream's writers.

ghost use Rattle.std.specs.Prelude.{◌≡◌, ℕ, ◌<◌, List, map};
ghost use Rattle.st_queues.specs.declared.items.Item.{Item};
ghost use Rattle.st_hub.specs.Merge.{Took, MergeOf, of_writer, number, item, merge};

use std::alloc::Allocator;

/// States a law; it does nothing. The items taken from a stream's rings are the merge that is given by the list of
/// their writers' numbers. In that merge the items of each writer are complete and in their own order.
pub fn merges_are_told<A: Allocator + Copy>()
    ensures computed { (log : List (Took A)) (rings : ℕ → List (Item A)) → MergeOf log rings → map item log ≡ merge (map number log) rings }
    ensures whole { (log : List (Took A)) (rings : ℕ → List (Item A)) → MergeOf log rings → (j : ℕ) → j < 8 → of_writer j log ≡ rings j }
{}
