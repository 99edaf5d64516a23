//! The lengths of encodings, in bytes.

ghost use Rattle.std.specs.Prelude.{◌≡◌, ◌<◌, ◌≤◌, ◌^◌, ◌+◌};
ghost use Rattle.st_ilp.specs.Writing.{octets_size, reject_contents_size};

use st_oer::length_size;

/// The length of an octet string of `n` bytes, its length prefix included. `usize::MAX` if it does not fit.
pub(crate) fn octets_len(n: usize) -> usize
    ensures exact { octets_size n < 2 ^ 64 → result ≡ octets_size n }
    ensures small { n < 2 ^ 63 → result ≡ octets_size n }
    ensures past { 2 ^ 64 ≤ octets_size n → result ≡ usize.MAX }
    ensures near { result ≤ n + 9 }
{
    n.saturating_add(length_size(n as u64))
}

/// The length in bytes of the contents of a Reject. `usize::MAX` if the number does not fit.
pub(crate) fn reject_contents_len(by: usize, message: usize, payload: usize) -> usize
    ensures exact { reject_contents_size by message payload < 2 ^ 64 → result ≡ reject_contents_size by message payload }
    ensures past { 2 ^ 64 ≤ reject_contents_size by message payload → result ≡ usize.MAX }
{
    octets_len(by)
        .saturating_add(octets_len(message))
        .saturating_add(octets_len(payload))
        .saturating_add(3)
}

/// The length in bytes of a Reject. `usize::MAX` if the number does not fit.
pub(crate) fn reject_size(by: usize, message: usize, payload: usize) -> usize
    ensures exact { 1 + octets_size (reject_contents_size by message payload) < 2 ^ 64 → result ≡ 1 + octets_size (reject_contents_size by message payload) }
    ensures past { 2 ^ 64 ≤ 1 + octets_size (reject_contents_size by message payload) → result ≡ usize.MAX }
{
    octets_len(reject_contents_len(by, message, payload)).saturating_add(1)
}
