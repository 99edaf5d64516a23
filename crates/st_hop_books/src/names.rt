//! Names of accounts.

ghost use Rattle.std.specs.Prelude.{◌≡◌, ◌≢◌, ◌↔◌, ◌++◌, ◌∷◌, [], None, slice_get, IsTrue, IfOk, IfErr, IfSome};
ghost use Rattle.std.specs.List.{AllByRecursion};
ghost use Rattle.st_hop_books.specs.Sums.{nothing};
ghost use Rattle.st_hop_books.specs.declared.error.BooksError.TheVariants.{NoMemory};

use crate::balance::Amounts;
use crate::error::BooksError;
use sqlite_value::value::Bytes;
use std::alloc::Global;

/// Whether these are the bytes of a name.
fn is_name(bytes: &Bytes, name: &[u8]) -> bool
    ensures { IsTrue result ↔ (bytes.now ≡ name.now) }
{
    bytes.as_slice() == name
}

/// The place of a name.
pub(crate) fn place_of(names: &[Bytes], name: &[u8]) -> Option<usize>
    ensures found { IfSome result (λ at. slice_get names.now at ≡ Some name.now) }
    ensures missing { result ≡ None → AllByRecursion (λ other. other ≢ name.now) names.now }
{
    for at in 0..names.len() {
        if is_name(&names[at], name) {
            return Some(at);
        }
    }
    None
}

/// These names, followed by another.
fn with_name(alloc: Global, names: &[Bytes], name: &Bytes) -> Result<Vec<Bytes>, BooksError>
    ensures named { IfOk result (λ v. v.items ≡ names.now ++ name.now ∷ []) }
    ensures cause { IfErr result (λ e. e ≡ NoMemory) }
{
    let mut longer = Vec::new(alloc);
    for one in names {
        longer.push(Bytes::from_slice(alloc, one.as_slice())?)?;
    }
    longer.push(Bytes::from_slice(alloc, name.as_slice())?)?;
    Ok(longer)
}

/// The accounts of books with one more, to which and by which nothing is owed.
#[derive(Drop)]
pub(crate) struct Grown {
    /// Its name.
    pub(crate) name: Bytes,
    /// The names of all accounts.
    pub(crate) names: Vec<Bytes>,
    /// What is owed, by account.
    pub(crate) amounts: Vec<Amounts>,
}

/// The accounts of these names and amounts, with one more of a name.
pub(crate) fn with_account(
    alloc: Global,
    names: &[Bytes],
    amounts: &[Amounts],
    name: &[u8],
) -> Result<Grown, BooksError>
    ensures name { IfOk result (λ g. g.name ≡ name.now) }
    ensures names { IfOk result (λ g. g.names.items ≡ names.now ++ name.now ∷ []) }
    ensures amounts { IfOk result (λ g. g.amounts.items ≡ amounts.now ++ nothing ∷ []) }
    ensures cause { IfErr result (λ e. e ≡ NoMemory) }
{
    let name = Bytes::from_slice(alloc, name)?;
    let names = with_name(alloc, names, &name)?;
    let mut amounts = Vec::from_slice(alloc, amounts)?;
    amounts.push(Amounts { claims: 0, dues: 0 })?;
    Ok(Grown {
        name,
        names,
        amounts,
    })
}
