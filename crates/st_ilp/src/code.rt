//! The error codes of Rejects.

ghost use Rattle.std.specs.Prelude.{◌≡◌, true, false, MatchOption};
ghost use Rattle.st_ilp.specs.Rules.{is_code, class_of};

use std::marker::Model;

/// The error code of a Reject (RFC 0027): three characters of printable ASCII, none of them a space, for example `F02`.
#[derive(Clone, Copy, Debug, PartialEq, Eq)]
pub struct ErrorCode {
    characters: [u8; 3],
}

impl Model for ErrorCode {
    ghost use Rattle.std.specs.Prelude.{◌≡◌, ℕ, List, true};
    ghost use Rattle.st_ilp.specs.Rules.{is_code};

    ghost Value = { List ℕ };

    ghost view = { λ c. c.characters };

    ghost inverse = { λ characters. record { characters = characters } };

    ghost invariant = { λ c. is_code c.characters ≡ true };
}

impl ErrorCode {
    /// F01: the packet cannot be read.
    pub const INVALID_PACKET: ErrorCode = ErrorCode {
        characters: *b"F01",
    };

    /// F02: no route leads to the destination.
    pub const UNREACHABLE: ErrorCode = ErrorCode {
        characters: *b"F02",
    };

    /// F05: the fulfillment does not fit the condition.
    pub const WRONG_CONDITION: ErrorCode = ErrorCode {
        characters: *b"F05",
    };

    /// F06: the receiver does not know the payment.
    pub const UNEXPECTED_PAYMENT: ErrorCode = ErrorCode {
        characters: *b"F06",
    };

    /// F08: the amount is above what a node accepts in one packet.
    pub const AMOUNT_TOO_LARGE: ErrorCode = ErrorCode {
        characters: *b"F08",
    };

    /// F99: the receiver refused the packet.
    pub const APPLICATION_ERROR: ErrorCode = ErrorCode {
        characters: *b"F99",
    };

    /// T00: the node itself failed.
    pub const INTERNAL_ERROR: ErrorCode = ErrorCode {
        characters: *b"T00",
    };

    /// T01: no readable answer was returned to the node.
    pub const PEER_UNREACHABLE: ErrorCode = ErrorCode {
        characters: *b"T01",
    };

    /// T04: the amount exceeds what the node can pass on at present.
    pub const INSUFFICIENT_LIQUIDITY: ErrorCode = ErrorCode {
        characters: *b"T04",
    };

    /// R00: the Fulfill arrived after the expiry.
    pub const TRANSFER_TIMED_OUT: ErrorCode = ErrorCode {
        characters: *b"R00",
    };

    /// R02: too little time is left until the expiry.
    pub const INSUFFICIENT_TIMEOUT: ErrorCode = ErrorCode {
        characters: *b"R02",
    };

    /// The code with these three characters. `None` if one of them is a space, or is not printable ASCII.
    pub fn new(characters: [u8; 3]) -> Option<ErrorCode>
        ensures { MatchOption result (is_code characters ≡ false) (λ code. (code ≡ characters) × (is_code characters ≡ true)) }
    {
        if characters
            .iter()
            .all(|character| character.is_ascii_graphic())
        {
            Some(ErrorCode { characters })
        } else {
            None
        }
    }

    /// Its three characters.
    pub fn text(&self) -> [u8; 3]
        ensures text { result ≡ self.now }
        ensures lawful { is_code result ≡ true }
    {
        self.characters
    }

    /// Its first character: `F` of a final error, `T` of a temporary one, `R` of one that is relative to the sender.
    pub fn class(&self) -> u8
        ensures { result ≡ class_of self.now }
    {
        self.characters[0]
    }
}
