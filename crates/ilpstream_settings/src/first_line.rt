//! The token or the secret in the first line of a file.

ghost use Rattle.std.specs.Prelude.{◌≡◌, ◌==◌, ℕ, List, MatchOption, position};
ghost use Rattle.std.specs.Str.Lines.{strip_carriage_return};
ghost use Rattle.ilpstream_settings.specs.Sources as spec;
ghost use Rattle.ilpstream_settings.specs.Sources.{IsSecret, IsToken};

use hex::FromHex;
use st_http::is_field_text;
use st_oer::utf8;

/// The place of the first LF.
fn end_of_line(bytes: &[u8]) -> Option<usize>
    ensures { result ≡ position (λ b. b == 10) bytes.now }
{
    bytes.iter().position(|byte| *byte == b'\n')
}

/// A line without a CR at its end.
fn without_return(line: &[u8]) -> &[u8]
    ensures { result.now ≡ strip_carriage_return line.now }
{
    if line.is_empty() || line[line.len() - 1] != b'\r' {
        return line;
    }
    &line[..line.len() - 1]
}

/// The first line of a file, without its LF or CR LF. All bytes if there is no LF.
fn first_line(bytes: &[u8]) -> &[u8]
    ensures { result.now ≡ spec.first_line bytes.now }
{
    match end_of_line(bytes) {
        Some(end) => without_return(&bytes[..end]),
        None => bytes,
    }
}

/// The token in the first line of a file with these bytes: 1 to 255 visible characters, followed by LF, CR LF or the end.
/// `None` if the line is not a token.
pub fn first_token(bytes: &[u8]) -> Option<&str>
    ensures { MatchOption result ((t : List ℕ) → ¬ (IsToken (spec.first_line bytes.now) t)) (λ t. IsToken (spec.first_line bytes.now) t.now) }
{
    let text = utf8(first_line(bytes))?;
    if is_field_text(text) {
        Some(text)
    } else {
        None
    }
}

/// The secret in the first line of a file with these bytes: 64 hexadecimal digits, in upper or lower case, followed by LF, CR
/// LF or the end. `None` if the line is not a secret.
pub fn first_secret(bytes: &[u8]) -> Option<[u8; 32]>
    ensures { MatchOption result ((s : List ℕ) → ¬ (IsSecret (spec.first_line bytes.now) s)) (IsSecret (spec.first_line bytes.now)) }
{
    <[u8; 32] as FromHex>::from_hex(first_line(bytes)).ok()
}
