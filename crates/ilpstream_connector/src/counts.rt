//! How the Prepares of each account of a connector ended.

ghost use Rattle.std.specs.Prelude.{◌≡◌, [], replicate, IfOk, IsTrue};
ghost use Rattle.st_ilp.specs.Reading.{answer_at};
ghost use Rattle.st_links.specs.Outcomes.{outcome_seen};
ghost use Rattle.ilpstream_connector.specs.Counts as spec;

use st_ilp::{Answer, read_answer};
use st_links::Outcome;
use std::alloc::{AllocError, Global};
use std::sync::{Mutex, Wait};

/// How many codes of Rejects are told apart for one account. Those of further codes are counted together.
pub const MOST_CODES: u64 = 32;

/// What an exchange with a neighbour brought for a Prepare.
#[derive(Clone, Copy)]
pub(crate) enum Came {
    /// There was no exchange.
    NotSent,
    /// A Reject.
    Reject,
    /// A Fulfill, or nothing that is an answer.
    NoReject,
}

/// How a Prepare ended that was answered. A Reject has its code.
#[derive(Clone, Copy)]
pub(crate) enum Fate {
    /// It was fulfilled.
    Fulfilled,
    /// A Reject of a later node was passed back.
    Rejected([u8; 3]),
    /// It was sent on, and the hop answered with its own Reject: no answer arrived, or none that could be passed back.
    Lost([u8; 3]),
    /// It was not sent on.
    Refused([u8; 3]),
}

/// How a code was counted.
#[derive(Clone, Copy)]
enum Entry {
    /// It had an entry of its own, or there was no code.
    Known,
    /// It has an entry of its own now.
    First,
    /// It has none.
    Other,
}

/// How many Prepares of an account were answered, by how they ended. Each count stops at `u64::MAX`.
#[derive(Clone, Copy, PartialEq, Eq)]
pub struct AccountCounts {
    /// Those that were fulfilled.
    pub fulfilled: u64,
    /// Those for which a later node's Reject was passed back.
    pub rejected: u64,
    /// Those that were sent on, and then answered with the hop's own Reject: no answer arrived in time, or none that
    /// could be passed back.
    pub lost: u64,
    /// Those that were not sent on.
    pub refused: u64,
    /// How many codes of its Rejects have an entry of their own, at most `MOST_CODES`.
    pub kinds: u64,
    /// How many of its Rejects had a code without an entry.
    pub other: u64,
}

/// How many Prepares of an account were answered with a Reject of one code.
#[derive(Clone, Copy, PartialEq, Eq)]
pub struct CodeCount {
    /// The account's place.
    pub account: usize,
    /// The code (RFC 0027).
    pub code: [u8; 3],
    /// How many.
    pub count: u64,
}

/// How the Prepares of all accounts of a connector ended.
#[derive(Drop)]
pub struct Counts {
    /// Of each account, by its place.
    pub accounts: Vec<AccountCounts>,
    /// The codes of their Rejects, in the order of the account and then of the code.
    pub codes: Vec<CodeCount>,
}

/// What an exchange of this outcome brought.
pub(crate) fn came_of(outcome: &Outcome<Global>) -> Came
    ensures { result ≡ spec.came_of (outcome_seen outcome.now) }
{
    match outcome {
        Outcome::Fault => Came::NoReject,
        Outcome::Answered(bytes) => match read_answer(bytes) {
            Ok(Answer::Reject { .. }) => Came::Reject,
            _ => Came::NoReject,
        },
    }
}

/// How a Prepare ended that was answered with a Reject of this code.
fn rejected_as(came: Came, code: [u8; 3]) -> Fate
    ensures { result ≡ spec.rejected_as came code }
{
    match came {
        Came::NotSent => Fate::Refused(code),
        Came::Reject => Fate::Rejected(code),
        Came::NoReject => Fate::Lost(code),
    }
}

/// How a Prepare ended that was answered with these bytes. `None` if they are not a valid answer.
fn fate_of(came: Came, answer: &[u8]) -> Option<Fate>
    ensures { result ≡ spec.fate_of came (answer_at answer.now) }
{
    let Ok(answer) = read_answer(answer) else {
        return None;
    };
    match answer {
        Answer::Fulfill { .. } => Some(Fate::Fulfilled),
        Answer::Reject { code, .. } => Some(rejected_as(came, code.text())),
    }
}

/// By which codes are in order.
fn rank(account: usize, code: [u8; 3]) -> u128
    ensures { result ≡ spec.rank account code }
{
    account as u128 * 16_777_216
        + u128::from(code[0]) * 65_536
        + u128::from(code[1]) * 256
        + u128::from(code[2])
}

/// The place at which a code is in codes that are in order, or would be.
#[derive(Clone, Copy)]
enum Found {
    /// It has this entry at this place.
    At(usize, CodeCount),
    /// It has none, and this is its place.
    Missing(usize),
}

/// Looks for the code of this rank.
fn find(codes: &[CodeCount], rank_of: u128) -> Found
    ensures { spec.Finds rank_of codes.now result }
{
    for place in 0..codes.len() {
        let here = codes[place];
        let rank_here = rank(here.account, here.code);
        if rank_here == rank_of {
            return Found::At(place, here);
        }
        if rank_of < rank_here {
            return Found::Missing(place);
        }
    }
    Found::Missing(codes.len())
}

/// Counts one Reject of this code more. A code without an entry gets one only if it `may` have one, and there is memory.
fn count_code(codes: &mut Vec<CodeCount>, account: usize, code: [u8; 3], may: bool) -> Entry
    ensures counted { spec.CountsCode account code result codes.old.items codes.new.items }
    ensures first { result ≡ Entry.First → IsTrue may }
{
    match find(codes, rank(account, code)) {
        Found::At(place, here) => {
            codes[place] = CodeCount {
                count: here.count.saturating_add(1),
                ..here
            };
            Entry::Known
        }
        Found::Missing(place) => {
            let count = CodeCount {
                account,
                code,
                count: 1,
            };
            if may && codes.insert(place, count).is_ok() {
                Entry::First
            } else {
                Entry::Other
            }
        }
    }
}

/// Counts the code of a Prepare that ended so.
fn count_fate(codes: &mut Vec<CodeCount>, account: usize, fate: Fate, may: bool) -> Entry
    ensures counted { spec.CountsFate account fate result codes.old.items codes.new.items }
    ensures first { result ≡ Entry.First → IsTrue may }
{
    match fate {
        Fate::Fulfilled => Entry::Known,
        Fate::Rejected(code) => count_code(codes, account, code, may),
        Fate::Lost(code) => count_code(codes, account, code, may),
        Fate::Refused(code) => count_code(codes, account, code, may),
    }
}

/// The counts of an account after one more that ended so.
fn tallied(fate: Fate, counts: AccountCounts) -> AccountCounts
    ensures { result ≡ spec.tallied fate counts }
{
    let mut counts = counts;
    match fate {
        Fate::Fulfilled => counts.fulfilled = counts.fulfilled.saturating_add(1),
        Fate::Rejected(_) => counts.rejected = counts.rejected.saturating_add(1),
        Fate::Lost(_) => counts.lost = counts.lost.saturating_add(1),
        Fate::Refused(_) => counts.refused = counts.refused.saturating_add(1),
    }
    counts
}

/// The counts of an account after its code was counted so.
fn entered(entry: Entry, counts: AccountCounts) -> AccountCounts
    ensures { result ≡ spec.entered entry counts }
{
    let mut counts = counts;
    match entry {
        Entry::Known => {}
        Entry::First => counts.kinds = counts.kinds.saturating_add(1),
        Entry::Other => counts.other = counts.other.saturating_add(1),
    }
    counts
}

impl Counts {
    /// The counts of no account.
    pub fn none(alloc: Global) -> Counts
        ensures { (result.accounts.items ≡ []) × (result.codes.items ≡ []) }
    {
        Counts {
            accounts: Vec::new(alloc),
            codes: Vec::new(alloc),
        }
    }

    /// No counts yet, for this number of accounts.
    pub fn new(alloc: Global, accounts: usize) -> Result<Counts, AllocError>
        ensures { IfOk result (λ c. (c.accounts.items ≡ replicate accounts spec.no_counts) × (c.codes.items ≡ [])) }
    {
        let nothing = AccountCounts {
            fulfilled: 0,
            rejected: 0,
            lost: 0,
            refused: 0,
            kinds: 0,
            other: 0,
        };
        Ok(Counts {
            accounts: Vec::from_elem(alloc, nothing, accounts)?,
            codes: Vec::new(alloc),
        })
    }

    /// A copy of all counts.
    pub fn copied(&self, alloc: Global) -> Result<Counts, AllocError>
        ensures { IfOk result (λ c. (c.accounts.items ≡ self.now.accounts.items) × (c.codes.items ≡ self.now.codes.items)) }
    {
        Ok(Counts {
            accounts: Vec::from_slice(alloc, &self.accounts)?,
            codes: Vec::from_slice(alloc, &self.codes)?,
        })
    }

    /// Counts one Prepare of this account more, which ended so.
    fn add(&mut self, account: usize, fate: Fate)
        ensures { spec.Adds account fate self.old.accounts.items self.new.accounts.items self.old.codes.items self.new.codes.items }
    {
        if account >= self.accounts.len() {
            return;
        }
        let old = self.accounts[account];
        let entry = count_fate(&mut self.codes, account, fate, old.kinds < MOST_CODES);
        self.accounts[account] = entered(entry, tallied(fate, old));
    }
}

// Each function here that acquires the lock releases it before it returns.

/// Counts a Prepare of this account that was answered with these bytes.
pub(crate) fn count_answer(
    rt: &impl Wait,
    counts: &Mutex<Counts>,
    account: usize,
    came: Came,
    answer: &[u8],
) {
    if let Some(fate) = fate_of(came, answer) {
        counts.lock(rt).add(account, fate);
    }
}

/// A copy of the counts as they are now.
pub(crate) fn counts_now(
    rt: &impl Wait,
    alloc: Global,
    counts: &Mutex<Counts>,
) -> Result<Counts, AllocError> {
    counts.lock(rt).copied(alloc)
}
