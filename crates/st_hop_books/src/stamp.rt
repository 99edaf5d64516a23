//! What books say of themselves, as the text of a view: the version of their tables, their identity, and the address of the
//! connector that keeps them.

ghost use Rattle.std.specs.Prelude.{◌≡◌, List, ℕ, codes, IsTrue, IfOk, IfSome, string_bytes};
ghost use Rattle.sqlite_resolve.specs.Compile.{view_defined_by};
ghost use Rattle.st_hop_books.specs.Stamp.{stamp_text, Stamps, IsStampText};

use crate::error::BooksError;
use sqlite_resolve::{CompileError, define_view};
use std::alloc::{AllocError, Global};
use std::hash::{BuildHasher, RandomState};
use std::rt::HostRuntime;

/// How many characters an identity has: 16 bytes, as hexadecimal digits.
const IDENTITY_LEN: usize = 32;

/// How many bytes of the text are before the identity.
const BEFORE_IDENTITY: usize = 42;

/// How many bytes of the text are before the address.
const BEFORE_ADDRESS: usize = 90;

/// How many bytes of the text are after the address.
const AFTER_ADDRESS: usize = 12;

/// The text that says this identity and this address.
#[tactic(auto, using(crate::proofs::Stamping::pieces))]
fn text_of(alloc: Global, identity: &str, address: &str) -> Result<String, AllocError>
    ensures { IfOk result (λ text. string_bytes text ≡ stamp_text identity.now address.now) }
{
    format!(in alloc;
        "CREATE VIEW books AS SELECT 2 AS schema, '{identity}' AS identity, '{address}' AS address"
    )
}

/// Whether SQLite reads a text as that of the view `books`.
fn is_view(alloc: Global, text: &str) -> Result<bool, BooksError>
    ensures { IfOk result (λ b. IsTrue b → view_defined_by text.now ≡ Ok (codes "books")) }
{
    match define_view(alloc, text.as_bytes()) {
        Ok(name) => Ok(name.as_slice() == b"books".as_slice()),
        Err(CompileError::OutOfMemory) => Err(BooksError::NoMemory),
        Err(_) => Ok(false),
    }
}

/// The text of the view of new books. Refuses with `NoBooks` an address that SQLite does not accept in it.
pub(crate) fn new_stamp(alloc: Global, identity: &str, address: &str) -> Result<String, BooksError>
    ensures stamps { IfOk result (λ text. IsStampText (string_bytes text)) }
    ensures made { IfOk result (λ text. string_bytes text ≡ stamp_text identity.now address.now) }
{
    let text = text_of(alloc, identity, address)?;
    if !is_view(alloc, text.as_str())? {
        return Err(BooksError::NoBooks);
    }
    Ok(text)
}

/// The parts of a text that may be the identity and the address.
fn parts_of(text: &[u8]) -> Option<(&str, &str)> {
    if text.len() < BEFORE_ADDRESS + AFTER_ADDRESS {
        return None;
    }
    let identity = &text[BEFORE_IDENTITY..BEFORE_IDENTITY + IDENTITY_LEN];
    let address = &text[BEFORE_ADDRESS..text.len() - AFTER_ADDRESS];
    match (str::from_utf8(identity), str::from_utf8(address)) {
        (Ok(identity), Ok(address)) => Some((identity, address)),
        _ => None,
    }
}

/// Whether an address is the one that is asked for, if any is.
fn is_asked(own: Option<&str>, address: &str) -> bool
    ensures { IsTrue result → IfSome own.entry (λ a. address.now ≡ a.now) }
{
    match own {
        Some(own) => address == own,
        None => true,
    }
}

fn is_same(text: &[u8], said: &str) -> bool
    ensures { IsTrue result → text.now ≡ said.now }
{
    text == said.as_bytes()
}

/// Whether a text is that of the view, and says this address, if one is asked for.
pub(crate) fn is_stamp(alloc: Global, text: &[u8], own: Option<&str>) -> Result<bool, BooksError>
    ensures { IfOk result (λ b. IsTrue b → (address : List ℕ) × Stamps address text.now × IfSome own.entry (λ a. address ≡ a.now)) }
{
    let Some((identity, address)) = parts_of(text) else {
        return Ok(false);
    };
    if !is_asked(own, address) {
        return Ok(false);
    }
    let made = text_of(alloc, identity, address)?;
    let said = made.as_str();
    if !is_same(text, said) {
        return Ok(false);
    }
    is_view(alloc, said)
}

/// An identity for new books: 16 bytes at random, as hexadecimal digits.
pub(crate) fn new_identity(rt: &HostRuntime) -> Result<String, BooksError> {
    let Ok(state) = RandomState::new(rt) else {
        return Err(BooksError::Taken);
    };
    let first = state.hash_one(&0u8);
    let second = state.hash_one(&1u8);
    let text = format!(in rt.alloc(); "{first:016x}{second:016x}")?;
    Ok(text)
}
