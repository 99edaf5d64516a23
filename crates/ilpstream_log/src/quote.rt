//! Texts of others, as they are written in a line.

ghost use Rattle.std.specs.Prelude.{◌≡◌, ◌++◌, ◌<◌, ◌≤◌, IfOk, OnOk, length, string_bytes, take};
ghost use Rattle.ilpstream_log.specs.Quoting as spec;

use std::alloc::{AllocError, Global};

/// How many characters a text of a peer has in a line at most.
const MOST_QUOTED: usize = 256;

/// The character of a hexadecimal digit.
fn hex_digit(n: u8) -> u8
    requires { n < 16 }
    ensures digit { result ≡ spec.hex_digit n }
    ensures ascii { result < 128 }
{
    if n < 10 { b'0' + n } else { b'a' + (n - 10) }
}

/// Whether a byte is written in a line as it is.
fn is_plain(byte: u8) -> bool
    ensures { result ≡ spec.is_plain byte }
{
    byte >= 32 && byte <= 126 && byte != b'"' && byte != b'\\'
}

/// Appends a byte as `\xHH`.
fn put_hex(text: &mut String, byte: u8) -> Result<(), AllocError>
    ensures { OnOk result (string_bytes text.new ≡ string_bytes text.old ++ spec.hex_escape byte) }
{
    text.push_str("\\x")?;
    text.push(char::from(hex_digit(byte / 16)))?;
    text.push(char::from(hex_digit(byte % 16)))
}

/// Appends a byte as it is written in a line.
#[tactic(auto, unfolding(crate::specs::Quoting::escaped))]
fn put_escaped(text: &mut String, byte: u8) -> Result<(), AllocError>
    ensures { OnOk result (string_bytes text.new ≡ string_bytes text.old ++ spec.escaped byte) }
{
    if byte == b'"' {
        return text.push_str("\\\"");
    }
    if byte == b'\\' {
        return text.push_str("\\\\");
    }
    if is_plain(byte) {
        return text.push(char::from(byte));
    }
    put_hex(text, byte)
}

/// Appends bytes as they are written in a line.
fn put_all_escaped(text: &mut String, bytes: &[u8]) -> Result<(), AllocError>
    ensures { OnOk result (string_bytes text.new ≡ string_bytes text.old ++ spec.all_escaped bytes.now) }
{
    for byte in bytes {
        put_escaped(text, *byte)?;
    }
    Ok(())
}

/// Bytes as they are written in a line, in double quotes.
#[tactic(auto, using(crate::proofs::Pieces::pieces), unfolding(crate::specs::Quoting::quoted))]
pub(crate) fn quoted(alloc: Global, bytes: &[u8]) -> Result<String, AllocError>
    ensures { IfOk result (λ text. string_bytes text ≡ spec.quoted bytes.now) }
{
    let mut text = String::new(alloc);
    text.push('"')?;
    put_all_escaped(&mut text, bytes)?;
    text.push('"')?;
    Ok(text)
}

/// Bytes as they are written in a line, without quotes.
pub(crate) fn bare(alloc: Global, bytes: &[u8]) -> Result<String, AllocError>
    ensures { IfOk result (λ text. string_bytes text ≡ spec.all_escaped bytes.now) }
{
    let mut text = String::new(alloc);
    put_all_escaped(&mut text, bytes)?;
    Ok(text)
}

/// The code of a Reject as it is written in a line, without quotes.
pub(crate) fn code_text(alloc: Global, code: &[u8; 3]) -> Result<String, AllocError>
    ensures { IfOk result (λ text. string_bytes text ≡ spec.all_escaped code.now) }
{
    bare(alloc, code)
}

/// How many characters a byte has in a line.
#[tactic(auto, unfolding(crate::specs::Quoting::escaped))]
fn escaped_len(byte: u8) -> usize
    ensures { result ≡ length (spec.escaped byte) }
{
    match byte {
        b'"' | b'\\' => 2,
        _ if is_plain(byte) => 1,
        _ => 4,
    }
}

/// How many characters of a line have to be left for a byte to be written: if it begins a character of several bytes,
/// the number that all of these need.
fn needed(byte: u8) -> usize
    ensures { result ≡ spec.needed byte }
{
    match byte {
        0..192 => escaped_len(byte),
        192..224 => 8,
        224..240 => 12,
        _ => 16,
    }
}

/// How many bytes at the front of a text of a peer are written in a line.
fn fitting(text: &[u8]) -> usize
    ensures within { result ≤ length text.now }
    ensures front { take result text.now ≡ spec.fitting spec.most_quoted text.now }
{
    let mut left = MOST_QUOTED;
    let mut kept = 0;
    for byte in text {
        if needed(*byte) > left {
            return kept;
        }
        left = left.saturating_sub(escaped_len(*byte));
        kept += 1;
    }
    kept
}

/// A text of a peer as it is written in a line, in double quotes: cut at 256 characters, with `..` in place of the rest. No
/// character of the text is cut in two.
#[tactic(auto, using(crate::proofs::Pieces::pieces), unfolding(crate::specs::Quoting::quoted_short))]
pub(crate) fn quoted_short(alloc: Global, bytes: &[u8]) -> Result<String, AllocError>
    ensures { IfOk result (λ text. string_bytes text ≡ spec.quoted_short bytes.now) }
{
    let kept = fitting(bytes);
    let mut text = String::new(alloc);
    text.push('"')?;
    put_all_escaped(&mut text, &bytes[..kept])?;
    if kept < bytes.len() {
        text.push_str("..")?;
    }
    text.push('"')?;
    Ok(text)
}
