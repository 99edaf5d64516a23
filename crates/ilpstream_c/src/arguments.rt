//! Arguments of a host, tested.

ghost use Rattle.std.specs.Prelude.{◌≡◌, ◌<◌, true, false, MatchOption};
ghost use Rattle.st_oer.specs.Address.{is_address};

use st_oer::{is_address, utf8};

/// These bytes as an ILP address (RFC 0015). `None` exactly if they are not an address.
#[tactic(auto, using(crate::proofs::Addresses::addresses))]
pub(crate) fn address(bytes: &[u8]) -> Option<&str>
    ensures { MatchOption result (is_address bytes.now ≡ false) (λ text. (is_address bytes.now ≡ true) × (text.now ≡ bytes.now)) }
{
    let text = utf8(bytes)?;
    if is_address(text) { Some(text) } else { None }
}
