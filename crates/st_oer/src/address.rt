//! ILP addresses (RFC 0015).

ghost use Rattle.std.specs.Prelude.{◌≡◌};
ghost use Rattle.st_oer.specs.Address as specs;

/// The greatest length of an ILP address, in characters (RFC 0015).
pub const MAX_ADDRESS: usize = 1023;

/// Whether a byte is permitted in a segment of an address.
fn is_segment_character(byte: u8) -> bool
    ensures { result ≡ specs.is_segment_character byte }
{
    byte.is_ascii_alphanumeric() || byte == b'_' || byte == b'~' || byte == b'-'
}

/// Whether a text consists of segments that are not empty, with a dot between each two.
#[tactic(auto, using(crate::proofs::Addresses::addresses))]
fn is_segments(text: &[u8]) -> bool
    ensures { result ≡ specs.is_segments text.now }
{
    let mut filled = false;
    for byte in text {
        if *byte == b'.' {
            if !filled {
                return false;
            }
            filled = false;
        } else if is_segment_character(*byte) {
            filled = true;
        } else {
            return false;
        }
    }
    filled
}

/// Whether `address` is an ILP address in this profile (RFC 0015).
///
/// It is one if it has 1 to 1,023 characters, each is a letter, a digit, `_`, `~`, `-` or `.`, and no segment
/// between the dots is empty. Does not allocate.
#[tactic(auto, unfolding(crate::specs::Address::is_address))]
pub fn is_address(address: &str) -> bool
    ensures { result ≡ specs.is_address address.now }
{
    address.len() <= MAX_ADDRESS && is_segments(address.as_bytes())
}

/// Whether `address` equals `prefix` or continues it after a dot.
///
/// Whole segments are compared, as the routing tables of RFC 0027 do: `g.a` covers `g.a.b` and not `g.ab`. Does not
/// allocate.
#[tactic(auto, using(crate::proofs::Addresses::prefixes))]
pub fn is_within(prefix: &str, address: &str) -> bool
    ensures { result ≡ specs.is_within prefix.now address.now }
{
    match address.as_bytes().strip_prefix(prefix.as_bytes()) {
        Some([]) => true,
        Some([next, ..]) => *next == b'.',
        None => false,
    }
}
