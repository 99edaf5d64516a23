//! A fulfillment that proves a claim, in the third table of a store.

ghost use Rattle.std.specs.Prelude.{◌≡◌, ◌⊎◌, ◌+◌, ◌^◌, ◌≤◌, pos, length, IsTrue, IfErr, IfOk, IfSome, OnOk};
ghost use Rattle.sqlite_value.specs.Order.{column};
ghost use Rattle.sqlite_value.specs.declared.value.Value.TheVariants.{Int, Blob};
ghost use Rattle.sqlite_trees.specs.View.{IsClean, IsQuiet, OnlyWrites};
ghost use Rattle.sqlite_trees.specs.declared.store.Shape.TheVariants as shapes;
ghost use Rattle.st_hop_books.specs.declared.error.BooksError.TheVariants.{NoMemory, TooMuch};
ghost use Rattle.st_hop_books.specs.Fulfillments.{proof_tree, line_of_proof, last_id, AddsProof, AreProofs, IsProofLine};
ghost use Rattle.st_hop_books.specs.Standing.{Keeps, PutsRow, ReadsOnly};
ghost use Rattle.st_hop_books.specs.Reasons.{FailsOnlyFor, row_excuses};

use crate::error::BooksError;
use crate::lines::{count_in, is_null, text_in};
use crate::table::counted;
use sqlite_trees::store::{Alter, Direction, Store};
use sqlite_value::row::Row;
use sqlite_value::value::{Bytes, ValueRef};
use st_links::Proof;

/// The id after this one.
fn next_id(last: u64) -> Result<i64, BooksError>
    ensures next { IfOk result (λ id. id ≡ pos (last + 1)) }
    ensures cause { IfErr result (λ e. e ≡ NoMemory) }
{
    // No disk has room for that number of fulfillments.
    let Some(next) = last.checked_add(1) else {
        return Err(BooksError::NoMemory);
    };
    match counted(next) {
        Some(id) => Ok(id),
        None => Err(BooksError::NoMemory),
    }
}

/// Makes a row the line of a proof after the fulfillment of this id, and returns its own.
fn write_proof(
    row: &mut Row,
    last: u64,
    name: &Bytes,
    amount: u64,
    proof: &Proof,
) -> Result<u64, BooksError>
    ensures id { IfOk result (λ id. id ≡ last + 1) }
    ensures line { OnOk result (row.new ≡ line_of_proof (last + 1) name.now amount proof.now) }
    ensures cause { IfErr result (λ e. (e ≡ NoMemory) ⊎ ((e ≡ TooMuch) × (2 ^ 63 ≤ amount))) }
{
    let Some(amount) = counted(amount) else {
        return Err(BooksError::TooMuch);
    };
    let id = next_id(last)?;
    row.clear();
    row.push(ValueRef::Int(id))?;
    row.push(ValueRef::Null)?;
    row.push(ValueRef::Text(name.as_slice()))?;
    row.push(ValueRef::Blob(&proof.condition))?;
    row.push(ValueRef::Blob(&proof.fulfillment))?;
    row.push(ValueRef::Int(amount))?;
    row.push(ValueRef::Int(proof.moment))?;
    Ok(id as u64)
}

/// Writes the proof of a claim of this amount after the fulfillment of this id, which is the last one, and returns its
/// id.
pub(crate) fn file_proof<S: Alter>(
    store: &mut S,
    row: &mut Row,
    last: u64,
    name: &Bytes,
    amount: u64,
    proof: Proof,
) -> Result<u64, BooksError>
    requires { IsClean (S.Store.view store.old) → (S.Store.view store.old).shape proof_tree ≡ shapes.Table }
    ensures id { IfOk result (λ id. id ≡ last + 1) }
    ensures put { PutsRow S.Store store.old store.new result proof_tree (line_of_proof (last + 1) name.now amount proof) }
    ensures behind { OnOk result (IsClean (S.Store.view store.new)
        → AddsProof ((S.Store.view store.old).trees proof_tree) ((S.Store.view store.new).trees proof_tree)
        last (line_of_proof (last + 1) name.now amount proof)) }
    ensures frame { OnOk result (IsClean (S.Store.view store.new) → OnlyWrites (S.Store.view store.old) (S.Store.view store.new)) }
    ensures keeps { Keeps (S.Store.view store.old) (S.Store.view store.new) }
    ensures quiet { IsQuiet S.Store.view S.Store.faults S.Store.recovers S.Store.is_shielded store.old store.new }
    ensures cause { FailsOnlyFor S.Store store.old store.new result
        (row_excuses (2 ^ 63 ≤ amount) (S.Store.view store.old) proof_tree (line_of_proof (last + 1) name.now amount proof)) }
{
    let id = write_proof(row, last, name, amount, &proof)?;
    store.put(3, row)?;
    Ok(id)
}

/// The bytes in a column, if it has bytes.
fn blob_in(row: &Row, at: usize) -> Option<&[u8]>
    ensures { IfSome result (λ b. column row.now at ≡ Blob b.now) }
{
    match row.get(at) {
        ValueRef::Blob(bytes) => Some(bytes),
        _ => None,
    }
}

/// The number in a column, if it is one.
fn number_in(row: &Row, at: usize) -> Option<i64>
    ensures { IfSome result (λ n. column row.now at ≡ Int n) }
{
    match row.get(at) {
        ValueRef::Int(n) => Some(n),
        _ => None,
    }
}

/// The id of a line of the third table, if the row is one.
fn id_in(row: &Row) -> Option<u64>
    ensures { IfSome result (λ id. IsProofLine row.now × (column row.now 0 ≡ Int (pos id))) }
{
    if row.len() != 7 || !is_null(row, 1) {
        return None;
    }
    let id = count_in(row, 0)?;
    let _name = text_in(row, 2)?;
    let _condition = blob_in(row, 3)?;
    let _fulfillment = blob_in(row, 4)?;
    let _amount = count_in(row, 5)?;
    let _moment = number_in(row, 6)?;
    Some(id)
}

/// The id of the last fulfillment, and 0 if there is none. Refuses with `NoBooks` if a row is not a line of one.
pub(crate) fn last_proof<S: Alter>(store: &mut S, row: &mut Row) -> Result<u64, BooksError>
    requires { IsClean (S.Store.view store.old) → (S.Store.view store.old).shape proof_tree ≡ shapes.Table }
    ensures lawful { OnOk result (IsClean (S.Store.view store.new) → AreProofs ((S.Store.view store.old).trees proof_tree)) }
    ensures last { IfOk result (λ n. IsClean (S.Store.view store.new) → last_id ((S.Store.view store.old).trees proof_tree) ≡ n) }
    ensures same { OnOk result (IsClean (S.Store.view store.new) → ReadsOnly (S.Store.view store.old) (S.Store.view store.new)) }
    ensures quiet { IsQuiet S.Store.view S.Store.faults S.Store.recovers S.Store.is_shielded store.old store.new }
{
    row.clear();
    store.seek(0, 3, row, Direction::Forward)?;
    let mut last = 0;
    // A disk that lies could keep a cursor going, so the loop counts.
    'rows: for _ in 0..u64::MAX {
        if !store.next(0, row)? {
            return Ok(last);
        }
        let Some(id) = id_in(row) else {
            return Err(BooksError::NoBooks);
        };
        last = id;
    }
    Err(BooksError::NoMemory)
}
