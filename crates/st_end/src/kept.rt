//! Bytes that are kept in place.

ghost use Rattle.std.specs.Prelude.{◌≡◌, ◌≤◌, length, take};

use std::marker::Model;

/// At most `N` bytes, kept without allocation.
#[derive(Drop)]
pub(crate) struct Kept<const N: usize> {
    bytes: [u8; N],
    len: usize,
}

impl<const N: usize> Model for Kept<N> {
    ghost use Rattle.std.specs.Prelude.{ℕ, ◌≤◌, List, take};

    ghost Value = { List ℕ };

    ghost view = { λ k. take k.len k.bytes };

    ghost invariant = { λ k. k.len ≤ N };
}

impl<const N: usize> Kept<N> {
    /// The first of these bytes, at most `N`.
    pub(crate) fn first_of(from: &[u8]) -> Kept<N>
        ensures { result ≡ take N from.now }
    {
        let len = from.len().min(N);
        let mut bytes = [0; N];
        bytes[..len].copy_from_slice(&from[..len]);
        Kept { bytes, len }
    }

    /// All of these bytes.
    #[tactic(auto, using(std::proofs::lemmas::List::take_all))]
    pub(crate) fn all_of(from: &[u8]) -> Kept<N>
        requires { length from.now ≤ N }
        ensures { result ≡ from.now }
    {
        Kept::first_of(from)
    }

    /// The bytes.
    pub(crate) fn as_slice(&self) -> &[u8]
        ensures bytes { result.now ≡ self.now }
        ensures short { length result.now ≤ N }
    {
        &self.bytes[..self.len]
    }

    /// The same bytes.
    pub(crate) fn again(&self) -> Kept<N>
        ensures { result ≡ self.now }
    {
        Kept {
            bytes: self.bytes,
            len: self.len,
        }
    }
}
