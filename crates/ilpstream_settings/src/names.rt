//! The names of a table's accounts.

ghost use Rattle.std.specs.Prelude.{◌≡◌, IfOk, MatchBool, decimal, map, string_bytes};
ghost use Rattle.ilpstream_settings.specs.Table.{AreDistinct, StandTwice};
ghost use Rattle.ilpstream_settings.specs.Table as specs;

use crate::line::AccountLine;
use indexmap::IndexSet;
use std::alloc::{AllocError, Allocator};
use std::hash::{BuildHasherDefault, FoldHasher};

/// The name of the account of this number: that of its line, or the number in decimal digits. Fails if memory is
/// refused.
pub(crate) fn name_of<A: Allocator + Copy>(
    alloc: A,
    number: usize,
    account: &AccountLine<'_>,
) -> Result<String<A>, AllocError>
    ensures { IfOk result (λ name. string_bytes name ≡ specs.name_of number account.now) }
{
    match account.name {
        Some(name) => String::from_str(alloc, name),
        None => number_text(alloc, number),
    }
}

fn number_text<A: Allocator + Copy>(alloc: A, number: usize) -> Result<String<A>, AllocError>
    ensures { IfOk result (λ text. string_bytes text ≡ decimal number) }
{
    format!(in alloc; "{number}")
}

/// The names of accounts, which are numbered from 0. Fails if memory is refused.
pub(crate) fn names_of<A: Allocator + Copy>(
    alloc: A,
    accounts: &[AccountLine<'_>],
) -> Result<Vec<String<A>, A>, AllocError>
    ensures { IfOk result (λ names. map string_bytes names.items ≡ specs.names_of accounts.now) }
{
    let mut names = Vec::new(alloc);
    for number in 0..accounts.len() {
        let name = name_of(alloc, number, &accounts[number])?;
        names.push(name)?;
    }
    Ok(names)
}

/// Whether all names are different. Fails if memory is refused.
pub(crate) fn are_distinct<A: Allocator + Copy>(
    alloc: A,
    names: &[String<A>],
) -> Result<bool, AllocError>
    ensures { IfOk result (λ r. MatchBool r (AreDistinct (map string_bytes names.now)) (StandTwice (map string_bytes names.now))) }
{
    let mut seen = IndexSet::with_capacity_and_hasher(
        alloc,
        names.len(),
        BuildHasherDefault::<FoldHasher>::new(),
    )?;
    for name in names {
        if !seen.insert(name.as_str())? {
            return Ok(false);
        }
    }
    Ok(true)
}
