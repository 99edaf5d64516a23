//! Laws of every run, over the definitions alone. These functions do nothing: the contract is the law.

ghost use Rattle.std.specs.Prelude.{◌≡◌, ℕ, true, List};
ghost use Rattle.st_world_parts.specs.State.{World};
ghost use Rattle.st_world_parts.specs.Events.{Event, Crash, Told, Silent};
ghost use Rattle.st_world.specs.Steps.{Step, with_refusal};
ghost use Rattle.st_world.specs.Runs.{Chain, Run, opening};
ghost use Rattle.st_world.specs.Holds.{Holds};
ghost use Rattle.st_world.specs.Crashes.{LosesTickets, FulfillsOnce};
ghost use Rattle.st_world.specs.Laws.{AStreamOpensAndCloses, HopsStayLawful, LateAnswersAreLost, MetLeavesTheNote, PendingBoundsTheCost, PreparesGoAcross, ReadingStops, SpentAnswersAreLost, TicketsPayAmounts};

/// What holds after any list of calls, arrivals, answers, faults and crashes of hops over any chain of hops, in which
/// Prepares and answers may be lost, repeated and reordered:
///
/// - What was read of each stream is a prefix of what was written, and all of it if a read gave the end.
/// - Each end's credit is the sum of the Prepares that it fulfilled, each sequence once.
/// - Each hop's claims and dues are the sums of the Prepares that were fulfilled over it.
/// - On each link the claims less the dues are the Fulfills that were sent and not yet booked.
///
/// Once a read gave the end or an abort of a stream, no run reads more of it.
pub fn every_run_holds()
    ensures holds { (c : Chain) (events : List Event) (w : World) → Run (opening c) events w → Holds w }
    ensures stays { ReadingStops }
{}

/// A crash of a hop costs its open tickets, and no more. It is possible at any moment (`any_moment`).
///
/// - All claims, dues and credits stay, and all that was sent on any link. No ticket is open at the hop (`books`).
/// - From then on, no answer to a Prepare that the hop sent before the crash changes anything, and no fault (`late`).
///   So no late answer settles a ticket that was given out since.
/// - A Prepare whose ticket was not open before the crash was lost without it (`spent`).
/// - The amount of an open ticket is that of its Prepare (`amount`).
pub fn crashes_cost_open_tickets()
    ensures books { (w v : World) (i : ℕ) (told : Told) → Step w (Crash i) told v → LosesTickets w v i }
    ensures any_moment { (w : World) (i : ℕ) → (v : World) × Step w (Crash i) Silent v }
    ensures late { LateAnswersAreLost }
    ensures spent { SpentAnswersAreLost }
    ensures amount { TicketsPayAmounts }
{}

/// All Fulfills that are ever sent for the Prepares that are pending at a hop towards one neighbour are together at most
/// the amount that is pending there. After a crash none of them is booked, so a crash costs at most that amount.
pub fn what_is_pending_bounds_the_cost()
    ensures { PendingBoundsTheCost }
{}

/// On no link is a Prepare fulfilled twice, whatever is repeated. So two neighbours differ by at most its amount for one
/// Prepare.
pub fn prepares_are_fulfilled_once()
    ensures { (c : Chain) (events : List Event) (w : World) → Run (opening c) events w → FulfillsOnce w }
{}

/// A world notes that a call of an end or a hop ran out of memory. An event whose call did not leaves the note as it
/// was, and one whose call did sets it.
pub fn want_of_memory_is_noted()
    ensures met { MetLeavesTheNote }
    ensures refused { (w : World) → (with_refusal w).refused ≡ true }
{}

/// In every run from the start of a lawful chain each hop stays lawful and has two accounts: each account is within its
/// limit, and all sums are below 2^63.
pub fn hops_stay_lawful()
    ensures { HopsStayLawful }
{}

/// A lawful hop with two accounts, one towards each end, forwards a Prepare only to the account towards the other end.
pub fn prepares_go_across()
    ensures { PreparesGoAcross }
{}

/// Runs exist: over any chain the client may open its stream 1 and close it.
pub fn streams_open_and_close()
    ensures { AStreamOpensAndCloses }
{}
