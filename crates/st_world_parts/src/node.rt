//! A hop with its open tickets and its answered Prepares.

ghost use Rattle.std.specs.Prelude.{◌≡◌, ◌<◌, ℕ, [], ◌∷◌, OnOk, OnErr, IfOk, None, Some, map, length, nat_eq, nat_lt, slice_index, vec_len, vec_capacity, if◌then◌else◌};
ghost use Rattle.std.specs.HashMap.{get, spare};
ghost use Rattle.st_links.specs.Outcomes.{outcome_seen};
ghost use Rattle.st_hop.specs.Seen.{way_seen as hop_way_seen};
ghost use Rattle.st_hop.specs.Table.{is_table, new_hop, RefusesBadTable};
ghost use Rattle.st_world_parts.specs.Seen.{way_seen, told_seen};
ghost use Rattle.st_world_parts.specs.Parts.{HopMet, HopBack, HopCrashed};

use crate::entry::{AnsweredAtHop, amount_in};
use crate::lane::{Direction, SentAnswer, SentPrepare, mark_taken};
use crate::side::Way;
use crate::told::Told;
use st_hop::{Account, HopError, HopState, OpenTicket, Route, Ticket, Verdict, settlements_book};
use st_ilp::Moment;
use st_links::Outcome;
use std::alloc::{AllocError, Allocator};
use std::collections::HashMap;
use std::hash::{BuildHasherDefault, FoldHasher};
use std::marker::Model;

/// Tickets that wait for their answers, each under its number.
type Tickets<A> = HashMap<u64, OpenTicket, BuildHasherDefault<FoldHasher>, A>;

/// Keeps a ticket. There is room for it.
fn keep_ticket<A: Allocator + Copy>(kept: &mut Tickets<A>, ticket: Ticket)
    requires { 0 < spare kept.old }
    ensures { (n : ℕ) → get nat_eq kept.new n ≡ (if nat_eq ticket.number n then Some ticket else get nat_eq kept.old n) }
{
    let number = ticket.read().number;
    let put: Result<_, _> = kept.insert(number, OpenTicket::new(ticket));
    let _replaced = put.unwrap();
}

/// Takes out the ticket of a number.
fn take_ticket<A: Allocator + Copy>(kept: &mut Tickets<A>, number: u64) -> Option<Ticket>
    ensures found { result ≡ get nat_eq kept.old number }
    ensures rest { (n : ℕ) → get nat_eq kept.new n ≡ (if nat_eq number n then None else get nat_eq kept.old n) }
{
    Some(kept.remove(&number)?.spend())
}

/// A hop (RFC 0027), its open tickets, and the Prepares that it answered. A ticket represents a Prepare that was
/// forwarded and has no outcome yet.
pub struct Node<A: Allocator + Copy> {
    state: HopState<A>,
    kept: Tickets<A>,
    answered: Vec<AnsweredAtHop, A>,
    alloc: A,
}

// It is written out, so that a caller does not prove again how each part is dropped.
impl<A: Allocator + Copy> Drop for Node<A> {
    fn drop(self) {
        let Node {
            state: _,
            kept: _,
            answered: _,
            alloc: _,
        } = self;
    }
}

impl<A: Allocator + Copy> Model for Node<A> {
    ghost use Rattle.std.specs.Prelude.{◌≡◌, length};
    ghost use Rattle.st_world_parts.specs.State as world;
    ghost use Rattle.st_world_parts.specs.Kept.{AreByNumber};
    ghost use Rattle.std.specs.Coded.{codes};

    ghost Value = { world.Node };

    ghost coded = { Prim.hlevel (codes) };

    ghost view = { λ a. record { state = a.state; answered = a.answered.items } };

    ghost invariant = { λ a. AreByNumber a.kept a.state.tickets × (length a.state.accounts ≡ 2) };
}

impl<A: Allocator + Copy> Node<A> {
    /// A hop at the address `own`, with an account to each of its two neighbours. Both have the terms of `account`, and
    /// nothing is owed. Fails with `BadTable` if no hop can be made of the table, and with `NoMemory` if memory is
    /// refused.
    pub fn new(
        alloc: A,
        own: &str,
        account: Account,
        routes: &[Route<'_>],
    ) -> Result<Node<A>, HopError>
        ensures made { IfOk result (λ n. n ≡ record { state = new_hop own.now (account ∷ account ∷ []) (map hop_way_seen routes.now); answered = [] }) }
        ensures refused { RefusesBadTable (is_table own.now (account ∷ account ∷ []) (map hop_way_seen routes.now)) result }
    {
        let state = HopState::new(alloc, own, &[account, account], routes)?;
        Ok(Node {
            state,
            kept: Tickets::with_hasher(alloc, BuildHasherDefault::<FoldHasher>::new()),
            answered: Vec::new(alloc),
            alloc,
        })
    }

    /// What an account owes the hop, in units of that account's asset. Fails with `NoAccount` if there is no such
    /// account. Does not allocate.
    pub fn claims(&self, account: usize) -> Result<u64, HopError>
        ensures { result ≡ (if nat_lt account (length self.now.state.accounts) then Ok (slice_index self.now.state.claims account)
            else Err HopError.NoAccount) }
    {
        self.state.claims(account)
    }

    /// What the hop owes an account, in units of that account's asset. Fails with `NoAccount` if there is no such
    /// account. Does not allocate.
    pub fn dues(&self, account: usize) -> Result<u64, HopError>
        ensures { result ≡ (if nat_lt account (length self.now.state.accounts) then Ok (slice_index self.now.state.dues account) else Err HopError.NoAccount) }
    {
        self.state.dues(account)
    }

    /// The Prepares that it answered, in order. Does not allocate.
    pub fn answered(&self) -> &[AnsweredAtHop]
        ensures { result.now ≡ self.now.answered }
    {
        self.answered.as_slice()
    }

    /// The hop crashes, and is started again with its books: what is owed stays owed, and each ticket that it gave out and that
    /// is not spent is gone. Does not allocate.
    pub fn crash(&mut self)
        ensures { HopCrashed self.old self.new }
    {
        self.kept.clear();
        self.state.restart();
    }
}

/// Makes room for one more of each that an arrival adds. What there is stays, whatever the result.
fn make_room<A: Allocator + Copy>(
    kept: &mut Tickets<A>,
    answered: &mut Vec<AnsweredAtHop, A>,
    prepares: &mut Vec<SentPrepare<A>, A>,
    given: &mut Vec<SentAnswer<A>, A>,
) -> Result<(), AllocError>
    ensures same_kept { (n : ℕ) → get nat_eq kept.new n ≡ get nat_eq kept.old n }
    ensures same_answered { answered.new.items ≡ answered.old.items }
    ensures same_prepares { prepares.new.items ≡ prepares.old.items }
    ensures same_given { given.new.items ≡ given.old.items }
    ensures has_tickets { OnOk result (0 < spare kept.new) }
    ensures has_answered { OnOk result (vec_len answered.new < vec_capacity answered.new) }
    ensures has_prepares { OnOk result (vec_len prepares.new < vec_capacity prepares.new) }
    ensures has_given { OnOk result (vec_len given.new < vec_capacity given.new) }
{
    kept.reserve(1)?;
    answered.reserve(1)?;
    prepares.reserve(1)?;
    given.reserve(1)
}

/// A Prepare arrives at a hop, at the moment `now`. The hop forwards it on the lane `next`, or answers it on the lane
/// `back`, from which it arrived as the Prepare number `which`. If the call runs out of memory, the answer is a Reject
/// T00 and the result `Told::NoMemory`. Fails if memory for the record is refused, and then nothing has changed.
pub fn arrive_at<A: Allocator + Copy>(
    node: &mut Node<A>,
    next: &mut Direction<A>,
    back: &mut Direction<A>,
    way: Way,
    which: usize,
    bytes: &[u8],
    now: Moment,
) -> Result<Told<A>, AllocError>
    ensures met { IfOk result (λ told. HopMet (way_seen way) which bytes.now now (told_seen told) node.old node.new next.old next.new back.old back.new) }
    ensures same_node { OnErr result (node.new ≡ node.old) }
    ensures same_next { OnErr result (next.new ≡ next.old) }
    ensures same_back { OnErr result (back.new ≡ back.old) }
{
    make_room(
        &mut node.kept,
        &mut node.answered,
        &mut next.prepares,
        &mut back.given,
    )?;
    let t00 = Vec::from_slice(node.alloc, node.state.t00())?;
    let amount = amount_in(bytes);
    let entry = AnsweredAtHop {
        incoming: way.account(),
        outgoing: None,
        amount_in: amount,
        amount_out: amount,
        fulfilled: false,
    };
    node.state.is_lawful();
    match node.state.arrive(way.account(), bytes, now) {
        Ok(
            Verdict::Forward {
                ticket,
                account: _,
                bytes,
            },
        ) => {
            let put = SentPrepare::of_ticket(&ticket.read(), bytes, which);
            keep_ticket(&mut node.kept, ticket);
            next.prepares.push(put).unwrap();
            Ok(Told::Went)
        }
        Ok(Verdict::Answer(bytes)) => {
            node.answered.push(entry).unwrap();
            back.given.push(SentAnswer::new(which, bytes)).unwrap();
            Ok(Told::Replied)
        }
        Err(HopError::NoMemory) => {
            node.answered.push(entry).unwrap();
            back.given.push(SentAnswer::new(which, t00)).unwrap();
            Ok(Told::NoMemory)
        }
        Err(_) => unreachable!(),
    }
}

/// The outcome of a Prepare that a hop sent on the lane `from`. If its ticket is open, it is settled, and the answer is
/// sent on the lane `back`. If the outcome is the answer number `which` of `from` and the hop booked it, that is noted.
/// Fails if memory for the record is refused, and then nothing has changed.
pub fn settle_at<A: Allocator + Copy>(
    node: &mut Node<A>,
    from: &mut Direction<A>,
    back: &mut Direction<A>,
    put: &SentPrepare<A>,
    which: usize,
    outcome: Outcome<A>,
    now: Moment,
) -> Result<Told<A>, AllocError>
    ensures settled { IfOk result (λ told. HopBack put.now which (outcome_seen outcome) now (told_seen told)
        node.old node.new from.old from.new back.old back.new) }
    ensures same_node { OnErr result (node.new ≡ node.old) }
    ensures same_from { OnErr result (from.new ≡ from.old) }
    ensures same_back { OnErr result (back.new ≡ back.old) }
{
    node.answered.reserve(1)?;
    back.given.reserve(1)?;
    let Some(ticket) = take_ticket(&mut node.kept, put.name) else {
        return Ok(Told::Nothing);
    };
    settlements_book();
    node.state.is_lawful();
    let open = ticket.read();
    let booked = ticket.is_booked_by(&outcome, now);
    let bytes = node.state.settle(ticket, outcome, now);
    let entry = AnsweredAtHop {
        incoming: open.incoming,
        outgoing: Some(open.outgoing),
        amount_in: open.amount_in,
        amount_out: open.amount_out,
        fulfilled: booked,
    };
    node.answered.push(entry).unwrap();
    mark_taken(&mut from.given, which, booked);
    back.given.push(SentAnswer::new(put.cause, bytes)).unwrap();
    Ok(Told::Replied)
}
