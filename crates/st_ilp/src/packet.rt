//! ILP packets as values that borrow their texts and data.

ghost use Rattle.std.specs.Prelude.{◌≡◌, true, false, MatchResult};
ghost use Rattle.st_ilp.specs.Packets.{Rejected};
ghost use Rattle.st_ilp.specs.Rules as rules;
ghost use Rattle.st_ilp.specs.Seen.{answer_seen};

use crate::code::ErrorCode;
use crate::error::IlpError;
use st_oer::is_address;

/// The kind of a Prepare (RFC 0027): the packet's first byte.
pub(crate) const PREPARE: u8 = 12;

/// The kind of a Fulfill (RFC 0027).
pub(crate) const FULFILL: u8 = 13;

/// The kind of a Reject (RFC 0027).
pub(crate) const REJECT: u8 = 14;

/// The greatest length of a packet's data, in bytes (RFC 0027).
pub const MAX_DATA: usize = 32_767;

/// The greatest length of a Reject's message that is written, in bytes. Longer messages are still read.
pub const MAX_MESSAGE: usize = 8_191;

/// An ILP Prepare (RFC 0027).
#[derive(Clone, Copy, Debug, PartialEq, Eq)]
pub struct Prepare<'a> {
    /// The amount, in units of the asset that the two neighbours share.
    pub amount: u64,
    /// The time at which it expires, in milliseconds since 1970-01-01 00:00 UTC.
    pub expiry: i64,
    /// The condition: the SHA-256 digest of the fulfillment.
    pub condition: [u8; 32],
    /// The ILP address of the receiver (RFC 0015).
    pub destination: &'a str,
    /// Data for the receiver, at most 32,767 bytes.
    pub payload: &'a [u8],
}

/// The answer to a Prepare: an ILP Fulfill or an ILP Reject (RFC 0027).
#[derive(Clone, Copy, Debug, PartialEq, Eq)]
pub enum Answer<'a> {
    /// The Prepare was carried out.
    Fulfill {
        /// The bytes whose SHA-256 is the Prepare's condition.
        fulfillment: [u8; 32],
        /// Data for the sender of the Prepare, at most 32,767 bytes.
        payload: &'a [u8],
    },
    /// The Prepare was not carried out.
    Reject {
        /// The error code, for example `F02`.
        code: ErrorCode,
        /// The ILP address of the node that created the Reject (triggeredBy), or the empty text.
        by: &'a str,
        /// A message for people. Writing accepts at most 8,191 bytes.
        message: &'a str,
        /// Data for the sender of the Prepare, at most 32,767 bytes.
        payload: &'a [u8],
    },
}

impl<'a> Answer<'a> {
    /// A Reject whose code is given by its three characters. Fails with `Code` if they are not a code.
    pub fn reject(
        code: [u8; 3],
        by: &'a str,
        message: &'a str,
        payload: &'a [u8],
    ) -> Result<Answer<'a>, IlpError>
        ensures { MatchResult result
            (λ answer. (answer_seen answer ≡ Rejected code by.now message.now payload.now) × (rules.is_code code ≡ true))
            (λ e. (e ≡ IlpError.Code) × (rules.is_code code ≡ false)) }
    {
        let code = ErrorCode::new(code).ok_or(IlpError::Code)?;
        Ok(Answer::Reject {
            code,
            by,
            message,
            payload,
        })
    }
}

/// Whether a text may be the triggeredBy of a Reject.
pub(crate) fn is_sender(by: &str) -> bool
    ensures { result ≡ rules.is_sender by.now }
{
    by.is_empty() || is_address(by)
}
