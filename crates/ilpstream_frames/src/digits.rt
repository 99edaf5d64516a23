//! Text of hexadecimal digits.

ghost use Rattle.std.specs.Prelude.{◌≡◌, ◌*◌, ◌<◌, ◌≤◌, ℕ, false, length, slice_index, take, Ok, IfOk};
ghost use Rattle.std.specs.Bool.{OnTrue, OnFalse};
ghost use Rattle.std.specs.List.{AllPass};
ghost use Rattle.std.specs.Str.Lines.{strip_carriage_return};
ghost use Rattle.hex.specs.Hex.{decode_pairs, is_hex_digit};
ghost use Rattle.ilpstream_frames.specs.Digits.{Decodes, DoesNotDecode, digit_code, digit_codes};

use std::alloc::{AllocError, Allocator};

/// The value of each character that is a hexadecimal digit, and 255 for each other.
#[rattlefmt::skip]
static VALUES: [u8; 256] = [
    255, 255, 255, 255, 255, 255, 255, 255, 255, 255, 255, 255, 255, 255, 255, 255,
    255, 255, 255, 255, 255, 255, 255, 255, 255, 255, 255, 255, 255, 255, 255, 255,
    255, 255, 255, 255, 255, 255, 255, 255, 255, 255, 255, 255, 255, 255, 255, 255,
    0, 1, 2, 3, 4, 5, 6, 7, 8, 9, 255, 255, 255, 255, 255, 255,
    255, 10, 11, 12, 13, 14, 15, 255, 255, 255, 255, 255, 255, 255, 255, 255,
    255, 255, 255, 255, 255, 255, 255, 255, 255, 255, 255, 255, 255, 255, 255, 255,
    255, 10, 11, 12, 13, 14, 15, 255, 255, 255, 255, 255, 255, 255, 255, 255,
    255, 255, 255, 255, 255, 255, 255, 255, 255, 255, 255, 255, 255, 255, 255, 255,
    255, 255, 255, 255, 255, 255, 255, 255, 255, 255, 255, 255, 255, 255, 255, 255,
    255, 255, 255, 255, 255, 255, 255, 255, 255, 255, 255, 255, 255, 255, 255, 255,
    255, 255, 255, 255, 255, 255, 255, 255, 255, 255, 255, 255, 255, 255, 255, 255,
    255, 255, 255, 255, 255, 255, 255, 255, 255, 255, 255, 255, 255, 255, 255, 255,
    255, 255, 255, 255, 255, 255, 255, 255, 255, 255, 255, 255, 255, 255, 255, 255,
    255, 255, 255, 255, 255, 255, 255, 255, 255, 255, 255, 255, 255, 255, 255, 255,
    255, 255, 255, 255, 255, 255, 255, 255, 255, 255, 255, 255, 255, 255, 255, 255,
    255, 255, 255, 255, 255, 255, 255, 255, 255, 255, 255, 255, 255, 255, 255, 255,
];

/// The value of each digit, and 255 for each other character.
fn values() -> &'static [u8; 256]
    ensures { result.now ≡ digit_codes }
{
    &VALUES
}

/// The value of a character that is a digit, and 255 for each other.
#[inline(always)]
fn value_of(character: u8) -> u8
    ensures { result ≡ digit_code character }
{
    values()[character as usize]
}

/// The number of digits before the first character that is not one.
pub fn digits_before(text: &[u8]) -> usize
    ensures within { result ≤ length text.now }
    ensures digits { AllPass is_hex_digit (take result text.now) }
    ensures other { result < length text.now → is_hex_digit (slice_index text.now result) ≡ false }
{
    let mut count = 0;
    while count < text.len() && value_of(text[count]) < 16 {
        count += 1;
    }
    count
}

/// Writes the byte of each two digits. Returns whether all characters are digits; if not, what the bytes are is not
/// specified.
fn decode_into(text: &[u8], bytes: &mut [u8]) -> bool
    requires { length text.now ≡ 2 * length bytes.old }
    ensures digits { OnTrue result (decode_pairs 0 text.now ≡ Ok bytes.new) }
    ensures other { OnFalse result (DoesNotDecode (decode_pairs 0 text.now)) }
{
    for i in 0..bytes.len() {
        let high = value_of(text[2 * i]);
        let low = value_of(text[2 * i + 1]);
        if 15 < high || 15 < low {
            return false;
        }
        bytes[i] = high * 16 + low;
    }
    true
}

/// The bytes that a text spells, two digits to a byte. `None` if the number of its characters is odd or one of them is
/// not a digit. Fails if memory is refused.
pub fn decode<A: Allocator>(alloc: A, text: &[u8]) -> Result<Option<Vec<u8, A>>, AllocError>
    ensures { IfOk result (λ bytes. Decodes (λ v. v.items) text.now bytes) }
{
    if text.len() % 2 == 1 {
        return Ok(None);
    }
    let mut bytes = vec![in alloc; 0u8; text.len() / 2]?;
    if decode_into(text, &mut bytes) {
        Ok(Some(bytes))
    } else {
        Ok(None)
    }
}

/// A line's text: without a carriage return at its end.
pub fn without_return(line: &[u8]) -> &[u8]
    ensures { result.now ≡ strip_carriage_return line.now }
{
    if !line.is_empty() && line[line.len() - 1] == b'\r' {
        &line[..line.len() - 1]
    } else {
        line
    }
}
