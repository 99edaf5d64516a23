//! The table of accounts in a store.

ghost use Rattle.std.specs.Prelude.{◌≡◌, ◌⊎◌, ◌+◌, ◌^◌, ◌<◌, ◌≤◌, ◌++◌, ◌∷◌, [], None, fold, length, pos, slice_set, IsTrue, IsOk, IfOk, IfErr, IfSome, OnOk, OnErr};
ghost use Rattle.sqlite_trees.specs.Objects.{version_tree, version_rows};
ghost use Rattle.sqlite_trees.specs.View.{IsClean, IsQuiet, IsRolledBack, Commits, KeepsCommitted, OnlyWrites, SetsTree};
ghost use Rattle.sqlite_trees.specs.declared.store.Shape.TheVariants as shapes;
ghost use Rattle.st_hop_books.specs.declared.error.BooksError.TheVariants.{NoMemory, TooMuch};
ghost use Rattle.st_hop_books.specs.Sums.{nothing, booked, booked_one, IsAbove};
ghost use Rattle.st_hop_books.specs.Fulfillments.{proof_tree, last_after};
ghost use Rattle.st_hop_books.specs.Trail.{later_tally, with_bookings};
ghost use Rattle.st_hop_books.specs.Table.{line};
ghost use Rattle.st_hop_books.specs.Standing.{Holds, Draws, Enters, Keeps, PutsRow, ReadsOnly, RecoversTo, RecoversToEntered, trail_in};
ghost use Rattle.st_hop_books.specs.Reasons.{FailsAsEntered, FailsOnlyFor, entry_excuses, line_excuses, no_excuse, row_excuses, sum_excuses};
ghost use Rattle.st_hop_books.specs.Commits.{booking_excuses, name_excuses};

use crate::balance::{Amounts, Tally};
use crate::error::BooksError;
use crate::filing::file_proof;
use sqlite_trees::store::Alter;
use sqlite_value::row::Row;
use sqlite_value::value::{Bytes, ValueRef};
use st_links::Booking;

/// A count as SQLite keeps it, or `None` above 2^63 - 1.
pub(crate) fn counted(count: u64) -> Option<i64>
    ensures fits { IfSome result (λ n. n ≡ pos count) }
    ensures above { result ≡ None → 2 ^ 63 ≤ count }
{
    if count > i64::MAX as u64 {
        return None;
    }
    Some(count as i64)
}

/// Makes a row the line of an account.
fn write_line(row: &mut Row, at: usize, name: &Bytes, amounts: Amounts) -> Result<(), BooksError>
    ensures line { OnOk result (row.new ≡ line (at + 1) name.now amounts) }
    ensures cause { IfErr result (λ e. (e ≡ NoMemory) ⊎ ((e ≡ TooMuch) × IsAbove amounts)) }
{
    let Some(claims) = counted(amounts.claims) else {
        return Err(BooksError::TooMuch);
    };
    let Some(dues) = counted(amounts.dues) else {
        return Err(BooksError::TooMuch);
    };
    // No memory has room for that number of accounts.
    let Some(next) = (at as u64).checked_add(1) else {
        return Err(BooksError::NoMemory);
    };
    let Some(id) = counted(next) else {
        return Err(BooksError::NoMemory);
    };
    row.clear();
    row.push(ValueRef::Int(id))?;
    row.push(ValueRef::Null)?;
    row.push(ValueRef::Text(name.as_slice()))?;
    row.push(ValueRef::Int(claims))?;
    row.push(ValueRef::Int(dues))?;
    Ok(())
}

/// Writes an account's line, in the table and in the draft of it.
pub(crate) fn set_line<S: Alter>(
    store: &mut S,
    row: &mut Row,
    names: &[Bytes],
    draft: &mut [Amounts],
    at: usize,
    amounts: Amounts,
) -> Result<(), BooksError>
    requires table { IsClean (S.Store.view store.old) → (S.Store.view store.old).shape 0 ≡ shapes.Table }
    requires place { at < length draft.old }
    requires named { length names.now ≡ length draft.old }
    ensures set { OnOk result (draft.new ≡ slice_set draft.old at amounts) }
    ensures drawn { OnOk result (IsClean (S.Store.view store.new) → Draws (S.Store.view store.old) (S.Store.view store.new) names.now draft.old draft.new) }
    ensures keeps { Keeps (S.Store.view store.old) (S.Store.view store.new) }
    ensures quiet { IsQuiet S.Store.view S.Store.faults S.Store.recovers S.Store.is_shielded store.old store.new }
    ensures cause { FailsOnlyFor S.Store store.old store.new result (line_excuses (S.Store.view store.old) names.now amounts) }
{
    write_line(row, at, &names[at], amounts)?;
    store.put(0, row)?;
    draft[at] = amounts;
    Ok(())
}

/// Writes what a booking makes of the lines of its two accounts.
fn enter_sums<S: Alter>(
    store: &mut S,
    row: &mut Row,
    names: &[Bytes],
    draft: &mut [Amounts],
    booking: Booking,
) -> Result<(), BooksError>
    requires table { IsClean (S.Store.view store.old) → (S.Store.view store.old).shape 0 ≡ shapes.Table }
    requires named { length names.now ≡ length draft.old }
    ensures known { OnOk result (booking.payer < length names.now) }
    ensures booked { OnOk result (draft.new ≡ booked_one draft.old booking) }
    ensures drawn { OnOk result (IsClean (S.Store.view store.new) → Draws (S.Store.view store.old) (S.Store.view store.new) names.now draft.old draft.new) }
    ensures keeps { Keeps (S.Store.view store.old) (S.Store.view store.new) }
    ensures quiet { IsQuiet S.Store.view S.Store.faults S.Store.recovers S.Store.is_shielded store.old store.new }
    ensures cause { FailsOnlyFor S.Store store.old store.new result (sum_excuses (S.Store.view store.old) names.now draft.old booking) }
{
    let Booking {
        payer,
        claim,
        payee,
        due,
        ..
    } = booking;
    if payer >= draft.len() || payee >= draft.len() {
        return Err(BooksError::NoAccount);
    }
    let before = draft[payer];
    let Some(claims) = before.claims.checked_add(claim) else {
        return Err(BooksError::TooMuch);
    };
    let after = Amounts {
        claims,
        dues: before.dues,
    };
    set_line(store, row, names, draft, payer, after)?;
    let before = draft[payee];
    let Some(dues) = before.dues.checked_add(due) else {
        return Err(BooksError::TooMuch);
    };
    let after = Amounts {
        claims: before.claims,
        dues,
    };
    set_line(store, row, names, draft, payee, after)?;
    Ok(())
}

/// Writes what a booking makes of the lines of its two accounts, and its proof after the fulfillment of this id.
fn enter<S: Alter>(
    store: &mut S,
    row: &mut Row,
    names: &[Bytes],
    draft: &mut [Amounts],
    last: &mut u64,
    booking: Booking,
) -> Result<(), BooksError>
    requires table { IsClean (S.Store.view store.old) → (S.Store.view store.old).shape 0 ≡ shapes.Table }
    requires filed { IsClean (S.Store.view store.old) → (S.Store.view store.old).shape proof_tree ≡ shapes.Table }
    requires named { length names.now ≡ length draft.old }
    ensures booked { OnOk result (draft.new ≡ booked_one draft.old booking) }
    ensures last { OnOk result (last.new ≡ last_after last.old booking) }
    ensures entered { OnOk result (IsClean (S.Store.view store.new)
        → Enters (S.Store.view store.old) (S.Store.view store.new) names.now draft.old draft.new last.old (booking ∷ [])) }
    ensures keeps { Keeps (S.Store.view store.old) (S.Store.view store.new) }
    ensures quiet { IsQuiet S.Store.view S.Store.faults S.Store.recovers S.Store.is_shielded store.old store.new }
    ensures cause { FailsOnlyFor S.Store store.old store.new result (entry_excuses (S.Store.view store.old) names.now draft.old booking) }
{
    enter_sums(store, row, names, draft, booking)?;
    let Some(proof) = booking.proof else {
        return Ok(());
    };
    let payer = booking.payer;
    *last = file_proof(store, row, *last, &names[payer], booking.claim, proof)?;
    Ok(())
}

/// Writes what bookings make of the table, one after another.
fn enter_all<S: Alter>(
    store: &mut S,
    row: &mut Row,
    names: &[Bytes],
    draft: &mut [Amounts],
    last: &mut u64,
    bookings: &[Booking],
) -> Result<(), BooksError>
    requires table { IsClean (S.Store.view store.old) → (S.Store.view store.old).shape 0 ≡ shapes.Table }
    requires filed { IsClean (S.Store.view store.old) → (S.Store.view store.old).shape proof_tree ≡ shapes.Table }
    requires named { length names.now ≡ length draft.old }
    ensures booked { OnOk result (draft.new ≡ booked draft.old bookings.now) }
    ensures last { OnOk result (last.new ≡ fold last_after last.old bookings.now) }
    ensures entered { OnOk result (IsClean (S.Store.view store.new)
        → Enters (S.Store.view store.old) (S.Store.view store.new) names.now draft.old draft.new last.old bookings.now) }
    ensures keeps { Keeps (S.Store.view store.old) (S.Store.view store.new) }
    ensures quiet { IsQuiet S.Store.view S.Store.faults S.Store.recovers S.Store.is_shielded store.old store.new }
    ensures cause { FailsOnlyFor S.Store store.old store.new result (booking_excuses (S.Store.view store.old) names.now draft.old bookings.now) }
{
    for booking in bookings {
        enter(store, row, names, draft, last, *booking)?;
    }
    Ok(())
}

/// What was entered, with the count of starts written once more as it is. So the commit writes the first page, whose schema
/// cookie counts the commits.
fn counted_commit<S: Alter>(
    store: &mut S,
    entered: Result<(), BooksError>,
) -> Result<(), BooksError>
    ensures entered { OnOk result (IsOk entered) }
    ensures same { OnOk result (IsClean (S.Store.view store.new) → ReadsOnly (S.Store.view store.old) (S.Store.view store.new)) }
    ensures keeps { IsClean (S.Store.view store.new) → KeepsCommitted (S.Store.view store.old) (S.Store.view store.new) }
    ensures quiet { IsQuiet S.Store.view S.Store.faults S.Store.recovers S.Store.is_shielded store.old store.new }
    ensures cause { FailsAsEntered S.Store store.old store.new entered result }
{
    match entered {
        Ok(()) => {}
        Err(error) => return Err(error),
    }
    let starts = store.version();
    store.set_version(starts)?;
    Ok(())
}

/// Commits what was entered, or rolls back if something was refused.
pub(crate) fn conclude<S: Alter>(
    store: &mut S,
    entered: Result<(), BooksError>,
) -> Result<(), BooksError>
    ensures entered { OnOk result (IsOk entered) }
    ensures committed { OnOk result (IsClean (S.Store.view store.new) → Commits (S.Store.view store.old) (S.Store.view store.new)) }
    ensures undone { OnErr result (IsClean (S.Store.view store.new) → IsRolledBack (S.Store.view store.old) (S.Store.view store.new)) }
    ensures clean { IsClean (S.Store.view store.new) → IsClean (S.Store.view store.old) }
    ensures crash { RecoversToEntered S.Store store.old store.new entered }
    ensures counts { S.Store.faults store.old ≤ S.Store.faults store.new }
    ensures cause { FailsAsEntered S.Store store.old store.new entered result }
{
    match counted_commit(store, entered) {
        Ok(()) => {
            store.commit()?;
            Ok(())
        }
        Err(error) => {
            store.rollback();
            Err(error)
        }
    }
}

/// Commits what bookings make of the tables, or rolls back. The count of starts serves the clauses alone.
pub(crate) fn commit_bookings<S: Alter>(
    store: &mut S,
    row: &mut Row,
    _starts: u32,
    tally: &mut Tally,
    names: &[Bytes],
    draft: &mut [Amounts],
    bookings: &[Booking],
) -> Result<(), BooksError>
    requires holds { Holds (S.Store.view store.old) _starts names.now draft.old (trail_in (S.Store.view store.old)) tally.old }
    requires named { length names.now ≡ length draft.old }
    ensures booked { OnOk result (draft.new ≡ booked draft.old bookings.now) }
    ensures tally { OnOk result (tally.new ≡ later_tally tally.old bookings.now) }
    ensures holds { OnOk result (Holds (S.Store.view store.new) _starts names.now draft.new
        (with_bookings (trail_in (S.Store.view store.old)) names.now bookings.now) (later_tally tally.old bookings.now)) }
    ensures stays_open { OnOk result (IsClean (S.Store.view store.new) → IsTrue (S.Store.view store.new).is_open) }
    ensures undone { OnErr result (Holds (S.Store.view store.new) _starts names.now draft.old (trail_in (S.Store.view store.old)) tally.old) }
    ensures any_moment { RecoversTo S.Store store.old store.new _starts names.now
        (booked draft.old bookings.now) (with_bookings (trail_in (S.Store.view store.old)) names.now bookings.now) }
    ensures cause { FailsOnlyFor S.Store store.old store.new result (booking_excuses (S.Store.view store.old) names.now draft.old bookings.now) }
{
    let entered = enter_all(store, row, names, draft, &mut tally.filed, bookings);
    conclude(store, entered)
}

/// Writes the line of an account at the end of the table.
fn add_line<S: Alter>(
    store: &mut S,
    row: &mut Row,
    at: usize,
    name: &Bytes,
) -> Result<(), BooksError>
    requires { IsClean (S.Store.view store.old) → (S.Store.view store.old).shape 0 ≡ shapes.Table }
    ensures put { PutsRow S.Store store.old store.new result 0 (line (at + 1) name.now nothing) }
    ensures frame { OnOk result (IsClean (S.Store.view store.new) → OnlyWrites (S.Store.view store.old) (S.Store.view store.new)) }
    ensures keeps { Keeps (S.Store.view store.old) (S.Store.view store.new) }
    ensures quiet { IsQuiet S.Store.view S.Store.faults S.Store.recovers S.Store.is_shielded store.old store.new }
    ensures cause { FailsOnlyFor S.Store store.old store.new result (row_excuses ⊥ (S.Store.view store.old) 0 (line (at + 1) name.now nothing)) }
{
    write_line(row, at, name, Amounts { claims: 0, dues: 0 })?;
    store.put(0, row)?;
    Ok(())
}

/// Commits an account more, or rolls back.
pub(crate) fn commit_account<S: Alter>(
    store: &mut S,
    row: &mut Row,
    _starts: u32,
    _tally: Tally,
    names: &[Bytes],
    amounts: &[Amounts],
    name: &Bytes,
) -> Result<(), BooksError>
    requires holds { Holds (S.Store.view store.old) _starts names.now amounts.now (trail_in (S.Store.view store.old)) _tally }
    requires named { length names.now ≡ length amounts.now }
    ensures holds { OnOk result (Holds (S.Store.view store.new) _starts
        (names.now ++ name.now ∷ []) (amounts.now ++ nothing ∷ []) (trail_in (S.Store.view store.old)) _tally) }
    ensures stays_open { OnOk result (IsClean (S.Store.view store.new) → IsTrue (S.Store.view store.new).is_open) }
    ensures undone { OnErr result (Holds (S.Store.view store.new) _starts names.now amounts.now (trail_in (S.Store.view store.old)) _tally) }
    ensures any_moment { RecoversTo S.Store store.old store.new _starts
        (names.now ++ name.now ∷ []) (amounts.now ++ nothing ∷ []) (trail_in (S.Store.view store.old)) }
    ensures cause { FailsOnlyFor S.Store store.old store.new result (name_excuses (S.Store.view store.old) names.now name.now) }
{
    let entered = add_line(store, row, names.len(), name);
    conclude(store, entered)
}

/// Sets the count of starts.
fn set_starts<S: Alter>(store: &mut S, starts: u32) -> Result<(), BooksError>
    ensures set { OnOk result (IsClean (S.Store.view store.new)
        → SetsTree (S.Store.view store.old) (S.Store.view store.new) version_tree (λ _. version_rows starts)) }
    ensures keeps { IsClean (S.Store.view store.new) → Keeps (S.Store.view store.old) (S.Store.view store.new) }
    ensures quiet { IsQuiet S.Store.view S.Store.faults S.Store.recovers S.Store.is_shielded store.old store.new }
    ensures cause { FailsOnlyFor S.Store store.old store.new result no_excuse }
{
    store.set_version(starts)?;
    Ok(())
}

/// Commits a count of starts, or rolls back.
pub(crate) fn commit_starts<S: Alter>(
    store: &mut S,
    _before: u32,
    starts: u32,
    _tally: Tally,
    names: &[Bytes],
    amounts: &[Amounts],
) -> Result<(), BooksError>
    requires holds { Holds (S.Store.view store.old) _before names.now amounts.now (trail_in (S.Store.view store.old)) _tally }
    ensures holds { OnOk result (Holds (S.Store.view store.new) starts names.now amounts.now (trail_in (S.Store.view store.old)) _tally) }
    ensures stays_open { OnOk result (IsClean (S.Store.view store.new) → IsTrue (S.Store.view store.new).is_open) }
    ensures undone { OnErr result (Holds (S.Store.view store.new) _before names.now amounts.now (trail_in (S.Store.view store.old)) _tally) }
    ensures any_moment { RecoversTo S.Store store.old store.new starts names.now amounts.now (trail_in (S.Store.view store.old)) }
    ensures cause { FailsOnlyFor S.Store store.old store.new result no_excuse }
{
    let entered = set_starts(store, starts);
    conclude(store, entered)
}
