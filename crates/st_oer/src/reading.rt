//! The readers of one field from the front of a slice: each gives the value and the bytes after it.

ghost use Rattle.std.specs.Prelude.{◌≡◌, ◌≤◌, length};
ghost use Rattle.st_oer.specs.Spelling.{number};
ghost use Rattle.st_oer.specs.Reading.{fixed_at, byte_at, u64_at, length_at, octets_at, short_number, long_length, var_uint_at, limit_at};
ghost use Rattle.st_oer.specs.Seen.{Gives};

use crate::error::OerError;

/// The first n bytes.
pub(crate) fn fixed_of(n: usize, bytes: &[u8]) -> Result<(&[u8], &[u8]), OerError>
    ensures { Gives (λ x. (x.0.now, x.1.now)) result (fixed_at n bytes.now) }
{
    if bytes.len() < n {
        return Err(OerError::Short);
    }
    Ok(bytes.split_at(n))
}

/// A UInt8.
pub(crate) fn byte_of(bytes: &[u8]) -> Result<(u8, &[u8]), OerError>
    ensures { Gives (λ x. (x.0, x.1.now)) result (byte_at bytes.now) }
{
    match bytes {
        [] => Err(OerError::Short),
        [byte, rest @ ..] => Ok((*byte, rest)),
    }
}

/// A UInt64.
#[tactic(auto, unfolding(crate::specs::Reading::u64_at))]
pub(crate) fn u64_of(bytes: &[u8]) -> Result<(u64, &[u8]), OerError>
    ensures { Gives (λ x. (x.0, x.1.now)) result (u64_at bytes.now) }
{
    if bytes.len() < 8 {
        return Err(OerError::Short);
    }
    let (front, rest) = bytes.split_at(8);
    let number = u64::from_be_bytes([
        front[0], front[1], front[2], front[3], front[4], front[5], front[6], front[7],
    ]);
    Ok((number, rest))
}

/// The number in at most eight bytes.
fn number_of(bytes: &[u8]) -> u64
    requires { length bytes.now ≤ 8 }
    ensures { result ≡ number bytes.now }
{
    let mut n: u64 = 0;
    for byte in bytes {
        n = n * 256 + u64::from(*byte);
    }
    n
}

/// The length that these bytes give, if one byte would not do.
fn long_length_of(bytes: &[u8]) -> Result<u64, OerError>
    requires { length bytes.now ≤ 8 }
    ensures { Gives (λ x. x) result (long_length bytes.now) }
{
    let n = number_of(bytes);
    if n < 128 || bytes.is_empty() || bytes[0] == 0 {
        return Err(OerError::LongLength);
    }
    Ok(n)
}

/// A length prefix.
#[tactic(auto, unfolding(crate::specs::Reading::length_at))]
fn length_of(bytes: &[u8]) -> Result<(usize, &[u8]), OerError>
    ensures { Gives (λ x. (x.0, x.1.now)) result (length_at bytes.now) }
{
    let (first, rest) = byte_of(bytes)?;
    if first < 128 {
        return Ok((first as usize, rest));
    }
    if first == 128 {
        return Err(OerError::LongLength);
    }
    if first > 136 {
        return Err(OerError::TooBig);
    }
    let (long, rest) = fixed_of((first - 128) as usize, rest)?;
    let n = long_length_of(long)?;
    Ok((n as usize, rest))
}

/// A variable octet string.
#[tactic(auto, unfolding(crate::specs::Reading::octets_at))]
pub(crate) fn octets_of(bytes: &[u8]) -> Result<(&[u8], &[u8]), OerError>
    ensures { Gives (λ x. (x.0.now, x.1.now)) result (octets_at bytes.now) }
{
    let (n, rest) = length_of(bytes)?;
    fixed_of(n, rest)
}

/// The number that these bytes give, if no fewer would do.
fn short_number_of(bytes: &[u8]) -> Result<u64, OerError>
    requires { length bytes.now ≤ 8 }
    ensures { Gives (λ x. x) result (short_number bytes.now) }
{
    if bytes.len() > 1 && bytes[0] == 0 {
        return Err(OerError::LongNumber);
    }
    Ok(number_of(bytes))
}

/// A VarUInt of at most eight bytes.
#[tactic(auto, unfolding(crate::specs::Reading::var_uint_at))]
pub(crate) fn var_uint_of(bytes: &[u8]) -> Result<(u64, &[u8]), OerError>
    ensures { Gives (λ x. (x.0, x.1.now)) result (var_uint_at bytes.now) }
{
    let (n, rest) = length_of(bytes)?;
    if n == 0 {
        return Err(OerError::LongNumber);
    }
    if n > 8 {
        return Err(OerError::TooBig);
    }
    let (text, rest) = fixed_of(n, rest)?;
    let x = short_number_of(text)?;
    Ok((x, rest))
}

/// A VarUInt that says a limit.
#[tactic(auto, unfolding(crate::specs::Reading::limit_at))]
pub(crate) fn limit_of(bytes: &[u8]) -> Result<(u64, &[u8]), OerError>
    ensures { Gives (λ x. (x.0, x.1.now)) result (limit_at bytes.now) }
{
    let (n, rest) = length_of(bytes)?;
    let (text, rest) = fixed_of(n, rest)?;
    if text.is_empty() || (text.len() > 8 && text[0] == 0) {
        return Err(OerError::LongNumber);
    }
    if text.len() > 8 {
        return Ok((u64::MAX, rest));
    }
    let x = short_number_of(text)?;
    Ok((x, rest))
}
