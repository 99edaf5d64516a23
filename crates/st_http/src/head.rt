//! The head of an HTTP message while it arrives.

ghost use Rattle.std.specs.List.{list_any};
ghost use Rattle.std.specs.Prelude.{◌≡◌, ◌≤◌, ◌<◌, ◌++◌, [], ◌∷◌, length, take, IfOk, OnOk, OnErr};
ghost use Rattle.std.specs.Bool.{OnTrue, OnFalse};
ghost use Rattle.st_http.specs.Head as spec;
ghost use Rattle.st_http.specs.Head.{IsOpen};
ghost use Rattle.st_http.specs.Phases.{IsEnded};

use std::alloc::{AllocError, Allocator};
use std::marker::Model;

/// The most bytes of a head, the empty line at its end included.
pub const MAX_HEAD: usize = 8_192;

/// The most header fields of a head.
pub const MAX_FIELDS: usize = 64;

/// The bytes of a head that have arrived so far, at most `MAX_HEAD`.
#[derive(Drop)]
pub struct Head<A: Allocator> {
    bytes: Vec<u8, A>,
    /// Whether one of them is neither CR nor LF.
    has_text: bool,
}

impl<A: Allocator> Model for Head<A> {
    ghost use Rattle.std.specs.Prelude.{◌≡◌, ℕ, List};
    ghost use Rattle.std.specs.List.{list_any};
    ghost use Rattle.st_http.specs.Head.{is_text_byte};

    ghost Value = { List ℕ };

    ghost view = { λ s. s.bytes.items };

    ghost invariant = { λ s. s.has_text ≡ list_any is_text_byte s.bytes.items };
}

/// Whether some byte is neither CR nor LF.
fn has_text(bytes: &[u8]) -> bool
    ensures { result ≡ list_any spec.is_text_byte bytes.now }
{
    let mut rest = bytes;
    while let [b'\r' | b'\n', more @ ..] = rest {
        rest = more;
    }
    !rest.is_empty()
}

impl<A: Allocator> Head<A> {
    /// Makes a head of which no byte has arrived. Does not allocate.
    pub fn new(alloc: A) -> Head<A>
        ensures { result ≡ [] }
    {
        Head {
            bytes: Vec::new(alloc),
            has_text: false,
        }
    }

    /// The bytes that have arrived so far.
    pub fn bytes(&self) -> &[u8]
        ensures { result.now ≡ self.now }
    {
        &self.bytes
    }

    /// Whether the bytes end with an empty line, and are more than empty lines.
    #[tactic(auto, unfolding(crate::specs::Head::ends_head))]
    fn ends(&self) -> bool
        ensures { result ≡ spec.ends_head self.now }
    {
        self.has_text && (self.bytes.ends_with(b"\n\n") || self.bytes.ends_with(b"\n\r\n"))
    }

    fn push(&mut self, byte: u8) -> Result<(), AllocError>
        ensures pushed { OnOk result (self.new ≡ self.old ++ byte ∷ []) }
        ensures unchanged { OnErr result (self.new ≡ self.old) }
    {
        if self.bytes.push(byte).is_err() {
            return Err(AllocError);
        }
        self.has_text |= byte != b'\r' && byte != b'\n';
        Ok(())
    }

    /// Removes all bytes but the first `len`. Does not allocate.
    pub fn truncate(&mut self, len: usize)
        ensures { self.new ≡ take len self.old }
    {
        self.bytes.truncate(len);
        self.has_text = has_text(&self.bytes);
    }

    /// Appends the bytes of a chunk that belong to the head: up to its end, or up to `MAX_HEAD` bytes. Returns how many
    /// they were, and whether the head has ended. Fails if memory is refused, and then nothing has changed.
    pub fn take(&mut self, piece: &[u8]) -> Result<(usize, bool), AllocError>
        requires open { IsOpen self.old }
        requires short { length self.old < spec.head_limit }
        ensures taken { IfOk result (λ r. (r.0 ≤ length piece.now) × (self.new ≡ self.old ++ take r.0 piece.now)) }
        ensures some { IfOk result (λ r. 0 < length piece.now → 0 < r.0) }
        ensures short { IfOk result (λ r. length self.new ≤ spec.head_limit) }
        ensures ended { IfOk result (λ r. OnTrue r.1 (IsEnded self.new)) }
        ensures open { IfOk result (λ r. OnFalse r.1 (IsOpen self.new × (length self.new < spec.head_limit → r.0 ≡ length piece.now))) }
        ensures unchanged { OnErr result (self.new ≡ self.old) }
    {
        let before = self.bytes.len();
        let mut taken = 0;
        for byte in piece {
            if self.push(*byte).is_err() {
                self.truncate(before);
                return Err(AllocError);
            }
            taken += 1;
            if self.ends() {
                return Ok((taken, true));
            }
            if self.bytes.len() == MAX_HEAD {
                return Ok((taken, false));
            }
        }
        Ok((taken, false))
    }
}
