//! Why a Prepare failed.

ghost use Rattle.std.specs.Prelude.{◌≡◌, ◌≤◌, length};
ghost use Rattle.st_end.specs.Failed as failures;
ghost use Rattle.st_end.specs.Failures as seen;

use crate::kept::Kept;
use st_ilp::ErrorCode;
use std::marker::Model;

/// The most bytes of a Reject's triggeredBy.
const MAX_BY: usize = 1_023;

/// The most bytes of a Reject's message that are kept.
const MAX_MESSAGE: usize = 255;

/// In what way a Prepare failed.
#[derive(Clone, Copy, Debug, PartialEq, Eq)]
pub enum FailedKind {
    /// No bytes were returned.
    Lost,
    /// The bytes of the answer are neither a Fulfill nor a Reject (RFC 0027).
    Unreadable,
    /// The answer is a Fulfill whose fulfillment does not have the Prepare's condition as its SHA-256.
    Unfit,
    /// The answer is a Reject.
    Rejected,
}

/// The same, with what a Reject says.
#[derive(Drop)]
pub(crate) enum Why {
    Lost,
    Unreadable,
    Unfit,
    Rejected {
        code: ErrorCode,
        by: Kept<MAX_BY>,
        message: Kept<MAX_MESSAGE>,
    },
}

/// Why a Prepare failed: the kind, and of a Reject (RFC 0027) its code, its triggeredBy and the first 255 bytes of its
/// message. It is kept without allocation.
#[derive(Drop)]
pub struct Failed {
    why: Why,
}

impl Model for Failed {
    ghost use Rattle.st_end.specs.Failed as failures;
    ghost use Rattle.st_end.specs.Failures.{seen};

    ghost Value = { failures.Failed };

    ghost view = { λ f. seen f.why };
}

impl Failed {
    /// No bytes were returned.
    pub(crate) fn lost() -> Failed
        ensures { result ≡ failures.Lost }
    {
        Failed { why: Why::Lost }
    }

    /// Bytes that cannot be read.
    pub(crate) fn unreadable() -> Failed
        ensures { result ≡ failures.Unreadable }
    {
        Failed {
            why: Why::Unreadable,
        }
    }

    /// A Fulfill that does not fit.
    pub(crate) fn unfit() -> Failed
        ensures { result ≡ failures.Unfit }
    {
        Failed { why: Why::Unfit }
    }

    /// A Reject.
    pub(crate) fn rejected(code: ErrorCode, by: &str, message: &str) -> Failed
        requires { length by.now ≤ 1023 }
        ensures { result ≡ failures.rejected_by code by.now message.now }
    {
        Failed {
            why: Why::Rejected {
                code,
                by: Kept::first_of(by.as_bytes()),
                message: Kept::first_of(message.as_bytes()),
            },
        }
    }

    /// In what way it failed.
    pub fn kind(&self) -> FailedKind
        ensures { result ≡ seen.kind_of self.now }
    {
        match &self.why {
            Why::Lost => FailedKind::Lost,
            Why::Unreadable => FailedKind::Unreadable,
            Why::Unfit => FailedKind::Unfit,
            Why::Rejected { .. } => FailedKind::Rejected,
        }
    }

    /// The code of the Reject, as `T04`. `None` if there was no Reject.
    pub fn code(&self) -> Option<ErrorCode>
        ensures { result ≡ seen.code_of self.now }
    {
        match &self.why {
            Why::Rejected { code, .. } => Some(*code),
            Why::Lost | Why::Unreadable | Why::Unfit => None,
        }
    }

    /// The triggeredBy of the Reject: the ILP address (RFC 0015) of whoever refused. Empty if the Reject does not
    /// have it, and if there was no Reject. At most 1,023 bytes.
    pub fn by(&self) -> &[u8]
        ensures by { result.now ≡ seen.by_of self.now }
        ensures short { length result.now ≤ 1023 }
    {
        match &self.why {
            Why::Rejected { by, .. } => by.as_slice(),
            Why::Lost | Why::Unreadable | Why::Unfit => &[],
        }
    }

    /// The first 255 bytes of the Reject's message, or all if it has fewer. Its UTF-8 may be cut inside a character.
    /// Whoever refused chose it: it may have any characters. Empty if there was no Reject.
    pub fn message(&self) -> &[u8]
        ensures message { result.now ≡ seen.message_of self.now }
        ensures short { length result.now ≤ 255 }
    {
        match &self.why {
            Why::Rejected { message, .. } => message.as_slice(),
            Why::Lost | Why::Unreadable | Why::Unfit => &[],
        }
    }

    /// The same cause once more, as for use after a lock was released.
    pub fn again(&self) -> Failed
        ensures { result ≡ self.now }
    {
        match &self.why {
            Why::Lost => Failed::lost(),
            Why::Unreadable => Failed::unreadable(),
            Why::Unfit => Failed::unfit(),
            Why::Rejected { code, by, message } => Failed {
                why: Why::Rejected {
                    code: *code,
                    by: by.again(),
                    message: message.again(),
                },
            },
        }
    }
}
