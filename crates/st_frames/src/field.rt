//! The fields of frames: from bytes, to bytes, and how long they are (RFC 0029, section 5.3; RFC 0030).

ghost use Rattle.std.specs.Prelude.{◌≡◌, ◌<◌, ◌≤◌, ◌+◌, ◌++◌, ◌^◌, length, vec_len, vec_capacity, true};
ghost use Rattle.st_oer.specs.Seen.{Gives};
ghost use Rattle.st_oer.specs.Spelling.{octets};
ghost use Rattle.st_oer.specs.Text.{is_utf8};
ghost use Rattle.st_frames.specs.Table.{Bytes, Text, Address};
ghost use Rattle.st_frames.specs.Contents.{field_at, refusing};
ghost use Rattle.st_frames.specs.Inside.{field_text};

use st_oer::{
    Cut, OerError, is_address, length_size, put_octets, put_u8, put_var_uint, utf8, var_uint_size,
};
use std::alloc::Allocator;

/// The contents of a known frame are malformed.
#[derive(Clone, Copy)]
pub(crate) struct Malformed;

impl From<OerError> for Malformed {
    fn from(_fault: OerError) -> Malformed {
        Malformed
    }
}

/// The next field as UTF-8.
pub(crate) fn read_text<'a>(cut: &mut Cut<'a>) -> Result<&'a str, Malformed>
    ensures { Gives (λ t. (Bytes t.now, cut.new)) (refusing tt result) (field_at Text cut.old) }
{
    let Some(text) = utf8(cut.octets()?) else {
        return Err(Malformed);
    };
    Ok(text)
}

/// The next field as an address, or as the empty text.
pub(crate) fn read_address<'a>(cut: &mut Cut<'a>) -> Result<&'a str, Malformed>
    ensures { Gives (λ t. (Bytes t.now, cut.new)) (refusing tt result) (field_at Address cut.old) }
{
    let text = read_text(cut)?;
    if text.is_empty() || is_address(text) {
        return Ok(text);
    }
    Err(Malformed)
}

/// A field of a frame that is to be written.
#[derive(Clone, Copy)]
pub(crate) enum Field<'a> {
    /// A UInt8.
    Byte(u8),
    /// A VarUInt.
    Number(u64),
    /// A variable octet string.
    Octets(&'a [u8]),
    /// No field: the frame has fewer than three.
    Nothing,
}

/// A text as a field. Its bytes are UTF-8.
#[tactic(auto, using(crate::proofs::Puts::texts))]
pub(crate) fn text(text: &str) -> Field<'_>
    ensures bytes { field_text result ≡ octets text.now }
    ensures utf8 { is_utf8 text.now ≡ true }
{
    Field::Octets(text.as_bytes())
}

impl Field<'_> {
    /// The length of its encoding, in bytes. In 128 bits no sum of such lengths overflows.
    #[tactic(auto, using(crate::proofs::Puts::lengths))]
    pub(crate) fn size(self) -> u128
        ensures value { result ≡ length (field_text self.entry) }
        ensures few { result < 2 ^ 64 + 9 }
    {
        match self {
            Field::Byte(_) => 1,
            Field::Number(x) => var_uint_size(x) as u128,
            Field::Octets(bytes) => length_size(bytes.len() as u64) as u128 + bytes.len() as u128,
            Field::Nothing => 0,
        }
    }

    /// Appends its encoding to a vector that has room for it.
    #[tactic(auto, using(crate::proofs::Puts::puts, crate::proofs::Puts::lengths))]
    pub(crate) fn append<A: Allocator>(self, out: &mut Vec<u8, A>)
        requires room { vec_len out.old + length (field_text self) ≤ vec_capacity out.old }
        ensures text { out.new.items ≡ out.old.items ++ field_text self.entry }
        ensures capacity { vec_capacity out.old ≤ vec_capacity out.new }
    {
        match self {
            Field::Byte(x) => put_u8(out, x).unwrap(),
            Field::Number(x) => put_var_uint(out, x).unwrap(),
            Field::Octets(bytes) => put_octets(out, bytes).unwrap(),
            Field::Nothing => (),
        }
    }
}
