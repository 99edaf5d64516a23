//! Why a Prepare in flight failed, and what that does to the packet limit.

ghost use Rattle.std.specs.Prelude.{◌≡◌, ◌||◌, nat_le};
ghost use Rattle.st_sender.specs.Answering.{half, smaller, limit_after, is_final, failure_of};
ghost use Rattle.st_sender.specs.Shown.{why};

/// The number of failures in a row that fail the connection: 200.
pub const MAX_FAILURES: u64 = 200;

/// Why a Prepare in flight failed.
#[derive(Clone, Copy, Debug, PartialEq, Eq)]
pub enum Failure {
    /// No answer, an answer that does not fit, or a Reject whose code does not concern the packet's contents.
    Plain,
    /// A Reject with a code that begins with F, other than F08 and F99 (RFC 0027): the connection fails.
    Final,
    /// A Reject F08 (amount too large, RFC 0027), with the received and the maximum amount if its data have them.
    TooLarge(Option<(u64, u64)>),
}

/// Half of what was sent, at least 1.
fn half(sent: u64) -> u128
    ensures { result ≡ half sent }
{
    u128::from(sent / 2).max(1)
}

/// The packet limit that F08 asks for.
#[tactic(auto, using(crate::proofs::Products::product_fits))]
fn smaller(sent: u64, told: Option<(u64, u64)>) -> u128
    ensures { result ≡ smaller sent told }
{
    match told {
        None => half(sent),
        Some((received, maximum)) => {
            if received == 0 || received <= maximum {
                half(sent)
            } else {
                (u128::from(sent) * u128::from(maximum) / u128::from(received)).max(1)
            }
        }
    }
}

impl Failure {
    /// The failure that a Reject of this code is (RFC 0027). F08 is read without its amounts.
    pub fn of(code: [u8; 3]) -> Failure
        ensures { why result ≡ failure_of code }
    {
        if code == *b"F08" {
            Failure::TooLarge(None)
        } else if code == *b"F99" {
            Failure::Plain
        } else if code[0] == 70 {
            Failure::Final
        } else {
            Failure::Plain
        }
    }

    /// Whether the connection fails at once.
    pub fn is_final(self) -> bool
        ensures { result ≡ is_final (why self) }
    {
        match self {
            Failure::Final => true,
            Failure::Plain => false,
            Failure::TooLarge(_told) => false,
        }
    }

    /// The packet limit after this failure of a Prepare of amount `sent`, if it was `limit` before. F08 may lower
    /// it, to 1 at least; other failures leave it.
    pub fn limit_after(self, limit: u64, sent: u64) -> u64
        ensures { result ≡ limit_after limit sent (why self) }
    {
        match self {
            Failure::TooLarge(told) => u128::from(limit).min(smaller(sent, told)) as u64,
            Failure::Plain => limit,
            Failure::Final => limit,
        }
    }
}

/// Whether the connection has failed: it had failed before, this failure is final, or `failures` is `MAX_FAILURES` or
/// more.
pub fn fails(failed: bool, failure: Failure, failures: u64) -> bool
    ensures { result ≡ (failed || is_final (why failure) || nat_le 200 failures) }
{
    failed || failure.is_final() || failures >= MAX_FAILURES
}
