//! Laws of the definitions.

ghost use Rattle.std.specs.Prelude.{◌≡◌, ◌≢◌, ℕ, ◌+◌, ◌<◌, ℤ, List, Option, length, slice_index, sum};
ghost use Rattle.std.specs.List.{sum_by};
ghost use Rattle.st_hop.specs.declared.account.Account as accounts;
ghost use Rattle.st_hop.specs.declared.ticket.Open as tickets;
ghost use Rattle.st_hop.specs.Hop.{Hop, Way, held_for, due_for, restarted};
ghost use Rattle.st_hop.specs.Books.{AreBooks, GoesOn, restored, GoesOnByTable};
ghost use Rattle.st_hop.specs.Tickets.{IsAmong};
ghost use Rattle.st_hop.specs.Arriving.{arrived, IfForwarded, BooksNothing};
ghost use Rattle.st_hop.specs.Exchanging.{GoesAsRouted};
ghost use Rattle.st_ilp.specs.Packets.{PreparePacket};
ghost use Rattle.st_ilp.specs.Reading.{prepare_at, is_fulfill_text};
ghost use Rattle.st_hop.specs.Settling.{settled, claim_of, due_of, is_booked, KeepsRest};
ghost use Rattle.st_hop.specs.Table.{new_hop};
ghost use Rattle.st_hop.specs.Lawful.{IsLawful};
ghost use Rattle.st_hop.specs.Runs.{run, fulfilled, AfterEveryRun};
ghost use Rattle.st_hop.specs.Routing.{route_to, IsRouteTo};

/// After any list of arrivals, settlements and restarts from a new hop on, each account's claims are the sum of the
/// amounts of the fulfilled Prepares that arrived from it. Its dues are the sum of the amounts of those that were forwarded
/// to it.
pub fn every_run_balances()
    ensures claims { AfterEveryRun (λ h acts. (a : ℕ) → slice_index (run h acts).claims a ≡ sum_by (held_for a) (fulfilled h acts)) }
    ensures dues { AfterEveryRun (λ h acts. (a : ℕ) → slice_index (run h acts).dues a ≡ sum_by (due_for a) (fulfilled h acts)) }
{}

/// After any list of arrivals, settlements and restarts each account is within its limit, and the sums are below 2^63.
pub fn every_run_is_lawful()
    ensures { AfterEveryRun (λ h acts. IsLawful (run h acts)) }
{}

/// The books of any lawful hop are books with which a hop of its table can continue. That hop is the one that was restarted.
/// A hop of another table with the same number of accounts that can have these books continues with them too.
pub fn books_go_on()
    ensures books { (h : Hop) → IsLawful h → AreBooks h.accounts h.claims h.dues }
    ensures same { (h : Hop) (next : ℕ) → restored (new_hop h.own h.accounts h.routes) h.claims h.dues next ≡ restarted h next }
    ensures restarted { (h : Hop) → GoesOn h (restarted h h.next) }
    ensures restored { (h : Hop) (accounts : List accounts.Account) (routes : List Way) (next : ℕ) → GoesOnByTable h accounts routes next }
{}

/// The route to an address is the one with the longest prefix of it. There is none only if no prefix fits.
pub fn longest_route_law()
    ensures { (routes : List Way) (address : List ℕ) → IsRouteTo routes address (route_to routes address) }
{}

/// The ticket of a forwarded Prepare is open. After it is settled it is open no more, and every other ticket is as
/// before.
pub fn tickets_settle_once()
    ensures opened { (h : Hop) (account : ℕ) (bytes : List ℕ) (now : ℤ) → IsLawful h →
        IfForwarded (arrived h account bytes now) (λ k t outgoing. IsAmong k.tickets t) }
    ensures spent { (h : Hop) (t : tickets.Open) (outcome : Option (List ℕ)) (now : ℤ) → IsLawful h → ¬ (IsAmong (settled h t outcome now).1.tickets t) }
    ensures others { (h : Hop) (t u : tickets.Open) (outcome : Option (List ℕ)) (now : ℤ) → u.number ≢ t.number →
        IsAmong h.tickets u → IsAmong (settled h t outcome now).1.tickets u }
{}

/// A Prepare is forwarded to an existing account other than the one it arrived from. An arrival books nothing.
pub fn arrivals_go_across()
    ensures across { (h : Hop) (account : ℕ) (bytes : List ℕ) (now : ℤ) → IsLawful h →
        IfForwarded (arrived h account bytes now) (λ k t outgoing. (outgoing < length h.accounts) × (outgoing ≢ account)) }
    ensures nothing_booked { (h : Hop) (account : ℕ) (bytes : List ℕ) (now : ℤ) → BooksNothing h (arrived h account bytes now).1 }
{}

/// A Prepare is forwarded to the account of its longest route. The forwarded amount is at most what that route's rate
/// gives, and less than one unit below it.
pub fn prepares_go_on_as_routed()
    ensures { (h : Hop) (account : ℕ) (bytes : List ℕ) (p : PreparePacket) (now : ℤ) → prepare_at bytes ≡ Ok p →
        IfForwarded (arrived h account bytes now) (λ k t outgoing. GoesAsRouted h p t outgoing) }
{}

/// Settling an open ticket adds the ticket's amount to the sum of all claims, and the forwarded amount to the sum of
/// all dues, if the Prepare was fulfilled. Otherwise both stay. The answer is a Fulfill exactly if it booked. The
/// ticket is removed, and everything else stays.
pub fn settlements_book()
    ensures claims { (h : Hop) (t : tickets.Open) (outcome : Option (List ℕ)) (now : ℤ) → IsLawful h → IsAmong h.tickets t →
        sum (settled h t outcome now).1.claims ≡ sum h.claims + claim_of t outcome now }
    ensures dues { (h : Hop) (t : tickets.Open) (outcome : Option (List ℕ)) (now : ℤ) → IsLawful h → IsAmong h.tickets t →
        sum (settled h t outcome now).1.dues ≡ sum h.dues + due_of t outcome now }
    ensures fulfills { (h : Hop) (t : tickets.Open) (outcome : Option (List ℕ)) (now : ℤ) → IsLawful h →
        is_fulfill_text (settled h t outcome now).0 ≡ is_booked t outcome now }
    ensures keeps_rest { (h : Hop) (t : tickets.Open) (outcome : Option (List ℕ)) (now : ℤ) → KeepsRest h (settled h t outcome now).1 t }
{
    st_ilp::answer_law();
}
