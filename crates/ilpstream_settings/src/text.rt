//! The texts of which options and lines consist.

ghost use Rattle.std.specs.Prelude.{◌≡◌, ℕ, List, MatchBool, MatchOption, Ok};
ghost use Rattle.hex.specs.Hex.{decode_sized};
ghost use Rattle.st_oer.specs.Ratios.{Ratio};
ghost use Rattle.ilpstream_settings.specs.Numbers.{AreTerms, IsHostPort, IsPair, IsRate, LacksColon};

use crate::number::read_number;
use hex::FromHex;
use st_http::is_field_text;
use st_oer::Rate;

/// The greatest port.
const MAX_PORT: u64 = 65_535;
/// The greatest number of a rate.
const MAX_TERM: u64 = 4_294_967_295;

/// The text before the last colon, and the text after it.
fn around_last_colon(text: &str) -> Option<(&[u8], &[u8])>
    ensures { MatchOption result (LacksColon text.now) (λ parts. IsPair text.now parts.0.now parts.1.now × LacksColon parts.1.now) }
{
    let place = text.rfind(':')?;
    let bytes = text.as_bytes();
    Some((&bytes[..place], &bytes[place + 1..]))
}

/// Whether a text is HOST:PORT: a name that is not empty, a colon and a port up to 65,535, and at most 255 visible characters
/// in all.
pub(crate) fn is_host_port(text: &str) -> bool
    ensures { MatchBool result (IsHostPort text.now) (¬ (IsHostPort text.now)) }
{
    let Some((host, port)) = around_last_colon(text) else {
        return false;
    };
    if host.is_empty() {
        return false;
    }
    match read_number(port, MAX_PORT) {
        Some(_) => is_field_text(text),
        None => false,
    }
}

/// The rate that two numbers write, each up to 2^32 - 1.
pub(crate) fn rate_of(num: &[u8], den: &[u8]) -> Option<Rate>
    ensures { MatchOption result ((r : Ratio) → ¬ (AreTerms num.now den.now r)) (AreTerms num.now den.now) }
{
    let num = read_number(num, MAX_TERM)?;
    let den = read_number(den, MAX_TERM)?;
    Rate::new(num as u32, den as u32)
}

/// The rate that a text NUM:DEN writes: NUM units out for DEN units in, each number from 1 to 2^32 - 1. `None` for any
/// other text.
pub fn read_rate(text: &str) -> Option<Rate>
    ensures { MatchOption result ((r : Ratio) → ¬ (IsRate text.now r)) (IsRate text.now) }
{
    let (num, den) = around_last_colon(text)?;
    rate_of(num, den)
}

/// The 32 bytes that 64 hexadecimal digits write, in upper or lower case. `None` for any other text.
pub fn read_secret(text: &str) -> Option<[u8; 32]>
    ensures { MatchOption result ((bytes : List ℕ) → ¬ (decode_sized text.now 32 ≡ Ok bytes)) (λ bytes. decode_sized text.now 32 ≡ Ok bytes) }
{
    <[u8; 32] as FromHex>::from_hex(text).ok()
}
