//! The state of a connector hop (a desk) that several threads share under one lock.

ghost use Rattle.std.specs.Prelude.{◌≡◌, ◌+◌, ◌<◌, true, Some, length, nat_lt, sum, vec_len, OnOk, OnErr, IfOk, IfErr, IsErrOf, IsOkUnless, MatchBool};
ghost use Rattle.std.specs.List.{sum_by};
ghost use Rattle.st_ilp.specs.Reading.{is_fulfill_text};
ghost use Rattle.st_hop.specs.Lawful.{IsLawful};
ghost use Rattle.st_hop.specs.Tickets.{IsAmong};
ghost use Rattle.st_hop.specs.Arriving.{arrived};
ghost use Rattle.st_hop.specs.Refusals.{t00_text};
ghost use Rattle.st_hop.specs.Settling.{settled, claim_of, due_of, is_booked};
ghost use Rattle.st_links.specs.Outcomes.{outcome_seen};
ghost use Rattle.st_hop.specs.Seen.{verdict_seen, IsReady, GoesAcross};
ghost use Rattle.st_hop.specs.declared.error.HopError.TheVariants as refusals;
ghost use Rattle.st_hop_desk.specs.Desk.{claims_in, dues_in, with_share_out, with_all_back};
ghost use Rattle.st_hop_desk.specs.Stored.{booking_of, counted, settled_by};
ghost use Rattle.st_hop_desk.specs.declared.error.DeskError.TheVariants.{NoShareLeft, Stranger, MissingShare, NoMemory};

use crate::error::DeskError;
use crate::stored::counted;
use st_hop::{HopError, HopState, Ticket, Verdict};
use st_ilp::Moment;
use st_links::{Booked, Outcome};
use std::alloc::Allocator;
use std::marker::Model;
use std::sync::ledger::{Blank, Book, Ledger, Share};

/// The largest number of `AccountShares` of one desk that can be outstanding at a time: one for each thread that
/// settles.
pub const SHARES: u64 = 63;

/// A hop and two ledgers, the value of one lock. `C` is the ledger of what all accounts owe the hop (claims), and `D`
/// is the ledger of what the hop owes all accounts (dues), both in units.
pub struct HopDesk<C: Ledger, D: Ledger, A: Allocator + Copy> {
    hop: HopState<A>,
    claims: Book<C>,
    dues: Book<D>,
    // What was never given out, and what was given back.
    spare_claims: Share<C>,
    spare_dues: Share<D>,
    // How many shares are out: at most 63.
    out: u64,
    alloc: A,
}

// It is written out, so that a caller does not prove again how each part is dropped.
impl<C: Ledger, D: Ledger, A: Allocator + Copy> Drop for HopDesk<C, D, A> {
    fn drop(self) {
        let HopDesk {
            hop: _,
            claims: _,
            dues: _,
            spare_claims: _,
            spare_dues: _,
            out: _,
            alloc: _,
        } = self;
    }
}

impl<C: Ledger, D: Ledger, A: Allocator + Copy> Model for HopDesk<C, D, A> {
    ghost use Rattle.std.specs.Prelude.{◌≡◌, ◌+◌, ◌<◌, sum};
    ghost use Rattle.st_hop_desk.specs.Desk.{Desk};

    ghost Value = { Desk };

    ghost view = { λ d. record { hop = d.hop; out = d.out; kept_claims = d.spare_claims.amount; kept_dues = d.spare_dues.amount } };

    ghost invariant = { λ d. (d.claims.total ≡ sum d.hop.claims)
        × (d.dues.total ≡ sum d.hop.dues)
        × (d.spare_claims.parts + d.out ≡ 64) × (d.spare_dues.parts + d.out ≡ 64)
        × (d.out < 64) × (C.parts ≡ 64) × (D.parts ≡ 64) };
}

/// One thread's part of the two ledgers of a desk, in units: the claims and the dues that this thread booked. The value
/// belongs to the desk that gave it.
#[derive(Drop)]
pub struct AccountShares<C: Ledger, D: Ledger> {
    claims: Share<C>,
    dues: Share<D>,
}

impl<C: Ledger, D: Ledger> Model for AccountShares<C, D> {
    ghost use Rattle.std.specs.Prelude.{◌≡◌};
    ghost use Rattle.st_hop_desk.specs.Desk.{Held};

    ghost Value = { Held };

    ghost view = { λ s. record { claims = s.claims.amount; dues = s.dues.amount } };

    ghost invariant = { λ s. (s.claims.parts ≡ 1) × (s.dues.parts ≡ 1) };
}

/// A Prepare that arrived at a hop.
#[must_use]
pub struct Arrived<A: Allocator + Copy> {
    /// The index of the account that it arrived from.
    pub account: usize,
    /// What is to be done with it.
    pub verdict: Verdict<A>,
}

/// What is owed at a hop, summed over all its accounts, in units.
#[derive(Clone, Copy, Debug, PartialEq, Eq)]
pub struct Owed {
    /// What the accounts owe the hop, in units.
    pub claims: u64,
    /// What the hop owes the accounts, in units.
    pub dues: u64,
}

impl<C: Ledger, D: Ledger, A: Allocator + Copy> HopDesk<C, D, A> {
    /// Makes a desk over a hop. What is owed there already was booked before, by no share that is out: nothing at a new hop,
    /// its books at one that was restored. `claims` and `dues` are blanks of 64 parts, picked for the ledgers `C` and `D`. Does
    /// not allocate.
    pub fn new(alloc: A, hop: HopState<A>, claims: Blank, dues: Blank) -> HopDesk<C, D, A>
        requires claims { (claims.name ≡ C.name) × (claims.parts ≡ C.parts) × (claims.parts ≡ 64) }
        requires dues { (dues.name ≡ D.name) × (dues.parts ≡ D.parts) × (dues.parts ≡ 64) }
        ensures { result ≡ record { hop = hop; out = 0; kept_claims = sum hop.claims; kept_dues = sum hop.dues } }
    {
        let (mut claims, mut spare_claims) = claims.open::<C>();
        let (mut dues, mut spare_dues) = dues.open::<D>();
        claims.add(&mut spare_claims, hop.all_claims());
        dues.add(&mut spare_dues, hop.all_dues());
        HopDesk {
            hop,
            claims,
            dues,
            spare_claims,
            spare_dues,
            out: 0,
            alloc,
        }
    }

    /// The hop, to read an account's claims, dues and reserved amount from.
    pub fn hop(&self) -> &HopState<A>
        ensures { result.now ≡ self.now.hop }
    {
        &self.hop
    }

    /// Gives the shares for one thread that settles, with nothing booked. Does not allocate.
    ///
    /// Fails with `NoShareLeft` if 63 are outstanding; then nothing has changed.
    pub fn shares(&mut self) -> Result<AccountShares<C, D>, DeskError>
        ensures given { IfOk result (λ s. (s ≡ record { claims = 0; dues = 0 }) × (self.old.out < 63) × (self.new ≡ with_share_out self.old)) }
        ensures none_left { IfErr result (λ e. (e ≡ NoShareLeft) × (self.old.out ≡ 63) × (self.new ≡ self.old)) }
    {
        if self.out >= SHARES {
            return Err(DeskError::NoShareLeft);
        }
        let HopDesk {
            spare_claims,
            spare_dues,
            out,
            ..
        } = self;
        let claims = spare_claims.split_off(1, 0);
        let dues = spare_dues.split_off(1, 0);
        *out += 1;
        Ok(AccountShares { claims, dues })
    }

    /// Processes the bytes of a Prepare that arrived from an account at the moment `now`, as `HopState::arrive` does (RFC
    /// 0027). Returns that account and the verdict: a Reject that answers the Prepare, or a Prepare to forward with a
    /// ticket for its answer. It books nothing in the ledgers.
    ///
    /// Fails with `HopError::NoAccount` if there is no such account, and otherwise with `HopError::NoMemory` if
    /// memory is refused. At an error nothing has changed.
    pub fn arrive(
        &mut self,
        account: usize,
        bytes: &[u8],
        now: Moment,
    ) -> Result<Arrived<A>, HopError>
        ensures account { IfOk result (λ a. a.account ≡ account) }
        ensures lawful { IsLawful self.old.hop }
        ensures arrived { IfOk result (λ a. arrived self.old.hop a.account bytes.now now ≡ (verdict_seen a.verdict, self.new.hop)) }
        ensures ready { IfOk result (λ a. IsReady self.new.hop a.verdict) }
        ensures across { IfOk result (λ a. GoesAcross self.old.hop account a.verdict) }
        ensures rest { self.new ≡ record self.old { hop = self.new.hop } }
        ensures refused { MatchBool (nat_lt account (length self.old.hop.accounts)) (IsOkUnless result refusals.NoMemory) (IsErrOf result refusals.NoAccount) }
        ensures unchanged { OnErr result (self.new ≡ self.old) }
    {
        self.hop.is_lawful();
        match self.hop.arrive(account, bytes, now) {
            Ok(verdict) => Ok(Arrived { account, verdict }),
            Err(error) => Err(error),
        }
    }

    /// Ends a ticket with the outcome of its exchange at the moment `now`, as `HopState::settle` does: returns the bytes that
    /// answer the Prepare (RFC 0027). The claim and the due that the hop books are also booked in `shares`. Does not
    /// allocate.
    ///
    /// A Fulfill is passed back and booked only with the token of what this ticket books (`booking_of`), which says that this
    /// was stored before. Without it the Fulfill counts as no answer: nothing is booked, and the Prepare is answered with T01.
    ///
    /// Fails with `Stranger` if the ticket is not open at this desk. Then nothing has changed, and the ticket is
    /// spent.
    pub fn settle(
        &mut self,
        shares: &mut AccountShares<C, D>,
        ticket: Ticket,
        outcome: Outcome<A>,
        now: Moment,
        token: Option<Booked>,
    ) -> Result<Vec<u8, A>, DeskError>
        ensures lawful { IsLawful self.old.hop }
        ensures settled { IfOk result (λ v. IsAmong self.old.hop.tickets ticket
            × (settled_by self.old.hop ticket (outcome_seen outcome) now token ≡ (v.items, self.new.hop))) }
        ensures claims { OnOk result (shares.new.claims ≡ shares.old.claims + claim_of ticket (counted ticket (outcome_seen outcome) now token) now) }
        ensures dues { OnOk result (shares.new.dues ≡ shares.old.dues + due_of ticket (counted ticket (outcome_seen outcome) now token) now) }
        ensures fulfills { IfOk result (λ v. is_fulfill_text v.items ≡ is_booked ticket (counted ticket (outcome_seen outcome) now token) now) }
        ensures stored { IfOk result (λ v. is_fulfill_text v.items ≡ true → token ≡ Some (booking_of ticket (outcome_seen outcome) now)) }
        ensures rest { self.new ≡ record self.old { hop = self.new.hop } }
        ensures stranger { IfErr result (λ e. (e ≡ Stranger) × (¬ (IsAmong self.old.hop.tickets ticket)) × (self.new ≡ self.old) × (shares.new ≡ shares.old)) }
    {
        self.hop.is_lawful();
        if !self.hop.is_open(&ticket) {
            ticket.abandon();
            return Err(DeskError::Stranger);
        }
        let HopDesk {
            hop,
            claims,
            dues,
            ..
        } = self;
        let AccountShares {
            claims: my_claims,
            dues: my_dues,
        } = shares;
        let outcome = counted(&ticket, outcome, now, &token);
        let claimed = hop.all_claims();
        let due = hop.all_dues();
        let answer = hop.settle(ticket, outcome, now);
        claims.add(my_claims, hop.all_claims() - claimed);
        dues.add(my_dues, hop.all_dues() - due);
        Ok(answer)
    }

    /// Takes all shares back and returns what is owed. Each of the two sums is the sum of what was booked in the
    /// shares.
    ///
    /// Fails with `MissingShare`, and gives the shares back, if an outstanding one is not among them.
    pub fn gather(
        &mut self,
        shares: Vec<AccountShares<C, D>, A>,
    ) -> Result<Owed, (DeskError, Vec<AccountShares<C, D>, A>)>
        ensures claims { IfOk result (λ n. (n.claims ≡ sum self.old.hop.claims) × (n.claims ≡ self.old.kept_claims + sum_by claims_in shares.items)) }
        ensures dues { IfOk result (λ n. (n.dues ≡ sum self.old.hop.dues) × (n.dues ≡ self.old.kept_dues + sum_by dues_in shares.items)) }
        ensures all_here { IfOk result (λ n. (vec_len shares ≡ self.old.out) × (self.new ≡ with_all_back self.old n.claims n.dues)) }
        ensures missing { IfErr result (λ back. (back ≡ (MissingShare, shares)) × (vec_len shares < self.old.out) × (self.new ≡ self.old)) }
    {
        if (shares.len() as u64) < self.out {
            return Err((DeskError::MissingShare, shares));
        }
        let HopDesk {
            hop,
            claims,
            dues,
            spare_claims,
            spare_dues,
            out,
            ..
        } = self;
        for share in shares {
            let AccountShares { claims, dues } = share;
            spare_claims.merge(claims);
            spare_dues.merge(dues);
        }
        claims.audit(spare_claims);
        dues.audit(spare_dues);
        *out = 0;
        Ok(Owed {
            claims: hop.all_claims(),
            dues: hop.all_dues(),
        })
    }

    /// A complete Reject with code T00 (RFC 0027), kept ready as the answer if memory is refused. Does not allocate.
    pub fn t00(&self) -> &[u8]
        ensures { result.now ≡ t00_text self.now.hop.own }
    {
        self.hop.t00()
    }

    /// A copy of `t00`. Fails with `NoMemory` if memory is refused.
    pub(crate) fn copy_of_t00(&self) -> Result<Vec<u8, A>, DeskError>
        ensures lawful { IsLawful self.now.hop }
        ensures copied { IfOk result (λ v. v.items ≡ t00_text self.now.hop.own) }
        ensures only_memory { IsOkUnless result NoMemory }
    {
        self.hop.is_lawful();
        Ok(Vec::from_slice(self.alloc, self.t00())?)
    }
}
