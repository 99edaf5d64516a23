//! The records of Prepares that were answered.

ghost use Rattle.std.specs.Prelude.{◌≡◌};
ghost use Rattle.st_ilp.specs.Reading.{is_fulfill_text};
ghost use Rattle.st_end.specs.Receiving.{prepare_in};

use st_ilp::{Answer, read_answer, read_prepare};
use std::marker::Model;

/// A Prepare (RFC 0027) that a hop answered.
#[derive(Clone, Copy, Debug, PartialEq, Eq)]
pub struct AnsweredAtHop {
    /// The number of the account from which it arrived.
    pub incoming: usize,
    /// The number of the account to which it was forwarded, if it was.
    pub outgoing: Option<usize>,
    /// The amount with which it arrived, in units of the incoming account's asset.
    pub amount_in: u64,
    /// The amount with which it was forwarded, in units of the outgoing account's asset.
    pub amount_out: u64,
    /// Whether it was fulfilled.
    pub fulfilled: bool,
}

impl Model for AnsweredAtHop {
    ghost use Rattle.st_world_parts.specs.State as world;

    ghost Value = { world.AnsweredAtHop };

    ghost view = { λ e. record { incoming = e.incoming; outgoing = e.outgoing; amount_in = e.amount_in; amount_out = e.amount_out; fulfilled = e.fulfilled } };

    ghost inverse = { λ e. record { incoming = e.incoming; outgoing = e.outgoing; amount_in = e.amount_in; amount_out = e.amount_out; fulfilled = e.fulfilled } };
}

/// A Prepare (RFC 0027) that an end answered.
#[derive(Clone, Copy, Debug, PartialEq, Eq)]
pub struct AnsweredAtEnd {
    /// Its amount in units of the end's asset.
    pub amount: u64,
    /// The sequence of its packet (RFC 0029, section 5.2), if its payload was decrypted.
    pub sequence: Option<u64>,
    /// Whether it was fulfilled.
    pub fulfilled: bool,
}

impl Model for AnsweredAtEnd {
    ghost use Rattle.st_world_parts.specs.State as world;

    ghost Value = { world.AnsweredAtEnd };

    ghost view = { λ e. record { amount = e.amount; sequence = e.sequence; fulfilled = e.fulfilled } };

    ghost inverse = { λ e. record { amount = e.amount; sequence = e.sequence; fulfilled = e.fulfilled } };
}

/// The amount of a Prepare's bytes: 0 if they are not a valid Prepare.
pub(crate) fn amount_in(bytes: &[u8]) -> u64
    ensures { result ≡ (prepare_in bytes.now).amount }
{
    match read_prepare(bytes) {
        Ok(prepare) => prepare.amount,
        Err(_) => 0,
    }
}

/// Whether an answer is a Fulfill.
pub(crate) fn is_fulfill(bytes: &[u8]) -> bool
    ensures { result ≡ is_fulfill_text bytes.now }
{
    matches!(read_answer(bytes), Ok(Answer::Fulfill { .. }))
}
