//! Writing OER fields: the one encoding of each value, appended to a vector.
//!
//! `NoMemory` leaves the vector's bytes as they were, and does not occur if the vector has enough capacity.

ghost use Rattle.std.specs.Prelude.{◌≡◌, ◌≤◌, ◌+◌, ◌++◌, ◌∷◌, IsOk, IsOkUnless, OnOk, OnErr, length, vec_len, vec_capacity};
ghost use Rattle.std.specs.Int.{w64, to_be_bytes, bytes_high_first};
ghost use Rattle.st_oer.specs.Spelling.{byte_count, length_bytes, octets, uint64, uint8, var_uint};

use crate::error::OerError;
use std::alloc::Allocator;

/// Appends a UInt8 (RFC 0030): the byte itself.
///
/// Fails only with `NoMemory`, if memory is refused; `out` then keeps the bytes that it had.
pub fn put_u8<A: Allocator>(out: &mut Vec<u8, A>, x: u8) -> Result<(), OerError>
    ensures ok { OnOk result (out.new.items ≡ out.old.items ++ uint8 x) }
    ensures unchanged { OnErr result (out.new.items ≡ out.old.items) }
    ensures only_memory { IsOkUnless result OerError.NoMemory }
    ensures room { vec_len out.old + 1 ≤ vec_capacity out.old → IsOk result }
    ensures capacity { vec_capacity out.old ≤ vec_capacity out.new }
{
    out.push(x)?;
    Ok(())
}

/// Appends a UInt64 (RFC 0030): eight bytes, the highest first.
///
/// Fails only with `NoMemory`, if memory is refused; `out` then keeps the bytes that it had.
pub fn put_u64<A: Allocator>(out: &mut Vec<u8, A>, x: u64) -> Result<(), OerError>
    ensures ok { OnOk result (out.new.items ≡ out.old.items ++ uint64 x) }
    ensures unchanged { OnErr result (out.new.items ≡ out.old.items) }
    ensures only_memory { IsOkUnless result OerError.NoMemory }
    ensures room { vec_len out.old + 8 ≤ vec_capacity out.old → IsOk result }
    ensures capacity { vec_capacity out.old ≤ vec_capacity out.new }
{
    out.extend_from_slice(&x.to_be_bytes())?;
    Ok(())
}

/// How many bytes a number needs.
fn byte_count_of(x: u64) -> usize
    ensures value { result ≡ byte_count x }
    ensures some { 1 ≤ result }
    ensures few { result ≤ 8 }
{
    if x < 0x100 {
        1
    } else if x < 0x1_0000 {
        2
    } else if x < 0x100_0000 {
        3
    } else if x < 0x1_0000_0000 {
        4
    } else if x < 0x100_0000_0000 {
        5
    } else if x < 0x1_0000_0000_0000 {
        6
    } else if x < 0x100_0000_0000_0000 {
        7
    } else {
        8
    }
}

/// The length in bytes of the length prefix that says `x` (RFC 0030): 1 to 9. Does not allocate.
#[tactic(auto, using(crate::proofs::Puts::sizes))]
pub fn length_size(x: u64) -> usize
    ensures value { result ≡ length (length_bytes x) }
    ensures some { 1 ≤ result }
    ensures few { result ≤ 9 }
{
    if x < 128 { 1 } else { 1 + byte_count_of(x) }
}

/// The length in bytes of the VarUInt `x` (RFC 0030), its length prefix included: 2 to 9. Does not allocate.
#[tactic(auto, using(crate::proofs::Puts::sizes))]
pub fn var_uint_size(x: u64) -> usize
    ensures value { result ≡ length (var_uint x) }
    ensures some { 2 ≤ result }
    ensures few { result ≤ 9 }
{
    byte_count_of(x) + 1
}

/// A byte, and the eight bytes of a number.
fn spelled(front: u8, x: u64) -> [u8; 9]
    ensures { result ≡ front ∷ to_be_bytes w64 x }
{
    let b = x.to_be_bytes();
    [front, b[0], b[1], b[2], b[3], b[4], b[5], b[6], b[7]]
}

/// Appends a byte, and the lowest n bytes of a number.
fn put_tail<A: Allocator>(out: &mut Vec<u8, A>, first: u8, n: usize, x: u64) -> Result<(), OerError>
    requires some { 1 ≤ n }
    requires few { n ≤ 8 }
    ensures ok { OnOk result (out.new.items ≡ out.old.items ++ first ∷ bytes_high_first n x) }
    ensures unchanged { OnErr result (out.new.items ≡ out.old.items) }
    ensures only_memory { IsOkUnless result OerError.NoMemory }
    ensures room { vec_len out.old + 1 + n ≤ vec_capacity out.old → IsOk result }
    ensures capacity { vec_capacity out.old ≤ vec_capacity out.new }
{
    let mut text = spelled(first, x);
    text[8 - n] = first;
    out.extend_from_slice(&text[8 - n..])?;
    Ok(())
}

/// Appends a VarUInt (RFC 0030): a length prefix, then the number in the fewest bytes. It takes 2 to 9 bytes.
///
/// Fails only with `NoMemory`, if memory is refused; `out` then keeps the bytes that it had.
#[tactic(auto, using(crate::proofs::Puts::puts))]
pub fn put_var_uint<A: Allocator>(out: &mut Vec<u8, A>, x: u64) -> Result<(), OerError>
    ensures ok { OnOk result (out.new.items ≡ out.old.items ++ var_uint x) }
    ensures unchanged { OnErr result (out.new.items ≡ out.old.items) }
    ensures only_memory { IsOkUnless result OerError.NoMemory }
    ensures room { vec_len out.old + length (var_uint x) ≤ vec_capacity out.old → IsOk result }
    ensures capacity { vec_capacity out.old ≤ vec_capacity out.new }
{
    let n = byte_count_of(x);
    put_tail(out, n as u8, n, x)
}

/// Appends a length prefix (RFC 0030): one byte if `x` is below 128, else 128 plus the number of length bytes, then
/// those bytes. It takes 1 to 9 bytes.
///
/// Fails only with `NoMemory`, if memory is refused; `out` then keeps the bytes that it had.
#[tactic(auto, using(crate::proofs::Puts::puts))]
pub fn put_length<A: Allocator>(out: &mut Vec<u8, A>, x: u64) -> Result<(), OerError>
    ensures ok { OnOk result (out.new.items ≡ out.old.items ++ length_bytes x) }
    ensures unchanged { OnErr result (out.new.items ≡ out.old.items) }
    ensures only_memory { IsOkUnless result OerError.NoMemory }
    ensures room { vec_len out.old + length (length_bytes x) ≤ vec_capacity out.old → IsOk result }
    ensures capacity { vec_capacity out.old ≤ vec_capacity out.new }
{
    if x < 128 {
        out.push(x as u8)?;
        return Ok(());
    }
    let n = byte_count_of(x);
    put_tail(out, 128 + n as u8, n, x)
}

/// Appends a variable-length octet string (RFC 0030): a length prefix, then the bytes.
///
/// Fails only with `NoMemory`, if memory is refused; `out` then keeps the bytes that it had.
#[tactic(auto, using(crate::proofs::Puts::puts))]
pub fn put_octets<A: Allocator>(out: &mut Vec<u8, A>, x: &[u8]) -> Result<(), OerError>
    ensures ok { OnOk result (out.new.items ≡ out.old.items ++ octets x.now) }
    ensures unchanged { OnErr result (out.new.items ≡ out.old.items) }
    ensures only_memory { IsOkUnless result OerError.NoMemory }
    ensures room { vec_len out.old + length (octets x.now) ≤ vec_capacity out.old → IsOk result }
    ensures capacity { vec_capacity out.old ≤ vec_capacity out.new }
{
    let before = out.len();
    put_length(out, x.len() as u64)?;
    if out.extend_from_slice(x).is_err() {
        out.truncate(before);
        return Err(OerError::NoMemory);
    }
    Ok(())
}
