//! A slice that is read field by field from its front.

ghost use Rattle.std.specs.Prelude.{◌≡◌, ℕ, List};
ghost use Rattle.st_oer.specs.Reading.{fixed_at, byte_at, u64_at, octets_at, var_uint_at, limit_at};
ghost use Rattle.st_oer.specs.Seen.{Reads};

use crate::error::OerError;
use crate::reading::{byte_of, fixed_of, limit_of, octets_of, u64_of, var_uint_of};
use std::marker::Model;

/// The unread rest of a slice, read field by field from the front.
///
/// Each reading call advances past the field that it read. A call that fails leaves the cut as it was. No call
/// allocates.
#[derive(Drop)]
pub struct Cut<'a> {
    bytes: &'a [u8],
}

impl<'a> Model for Cut<'a> {
    ghost Value = { List ℕ };

    ghost view = { λ c. c.bytes.now };
}

impl<'a> Cut<'a> {
    /// A cut at the start of `bytes`.
    pub fn new(bytes: &'a [u8]) -> Cut<'a>
        ensures { result ≡ bytes.now }
    {
        Cut { bytes }
    }

    /// The bytes that are not read yet.
    pub fn rest(&self) -> &'a [u8]
        ensures { result.now ≡ self.now }
    {
        self.bytes
    }

    /// Reads a UInt8 (RFC 0030): one byte. Fails with `Short` if no byte is left.
    pub fn get_u8(&mut self) -> Result<u8, OerError>
        ensures { Reads (λ x. x) self.old self.new result (byte_at self.old) }
    {
        let (x, rest) = byte_of(self.bytes)?;
        self.bytes = rest;
        Ok(x)
    }

    /// Reads a UInt64 (RFC 0030): eight bytes, the highest first. Fails with `Short` if fewer than eight are left.
    pub fn get_u64(&mut self) -> Result<u64, OerError>
        ensures { Reads (λ x. x) self.old self.new result (u64_at self.old) }
    {
        let (x, rest) = u64_of(self.bytes)?;
        self.bytes = rest;
        Ok(x)
    }

    /// Reads a VarUInt (RFC 0030) of at most eight bytes in its shortest form.
    ///
    /// Fails with the error of its length prefix first: `Short`, `TooBig` or `LongLength`. Then with `LongNumber` if
    /// the number has no bytes, `TooBig` if it has more than eight, `Short` if fewer bytes are left, and
    /// `LongNumber` if there is a 0 in front of other bytes.
    pub fn var_uint(&mut self) -> Result<u64, OerError>
        ensures { Reads (λ x. x) self.old self.new result (var_uint_at self.old) }
    {
        let (x, rest) = var_uint_of(self.bytes)?;
        self.bytes = rest;
        Ok(x)
    }

    /// Reads a VarUInt (RFC 0030) that means a limit. A number of more than eight bytes gives `u64::MAX` (this
    /// profile).
    ///
    /// Fails with the error of its length prefix first: `Short`, `TooBig` or `LongLength`. Then with `Short` if
    /// fewer bytes are left, and `LongNumber` if the number has no bytes or there is a 0 in front of other bytes.
    pub fn limit(&mut self) -> Result<u64, OerError>
        ensures { Reads (λ x. x) self.old self.new result (limit_at self.old) }
    {
        let (x, rest) = limit_of(self.bytes)?;
        self.bytes = rest;
        Ok(x)
    }

    /// Reads a variable-length octet string (RFC 0030): a length prefix in its shortest form, then that number of
    /// bytes.
    ///
    /// Fails with `Short` if the prefix or the bytes extend past the end, `TooBig` if the prefix has more than eight
    /// length bytes, and `LongLength` if it is not the shortest.
    pub fn octets(&mut self) -> Result<&'a [u8], OerError>
        ensures { Reads (λ x. x.now) self.old self.new result (octets_at self.old) }
    {
        let (x, rest) = octets_of(self.bytes)?;
        self.bytes = rest;
        Ok(x)
    }

    /// Reads the next `n` bytes. Fails with `Short` if fewer are left.
    pub fn fixed(&mut self, n: usize) -> Result<&'a [u8], OerError>
        ensures { Reads (λ x. x.now) self.old self.new result (fixed_at n self.old) }
    {
        let (x, rest) = fixed_of(n, self.bytes)?;
        self.bytes = rest;
        Ok(x)
    }
}
