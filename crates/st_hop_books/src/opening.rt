//! Books in a file.

ghost use Rattle.std.specs.Prelude.{◌≡◌, false, length, List, ℕ, IsTrue, IfOk, IfSome, OnOk};
ghost use Rattle.sqlite_trees.specs.Objects.{catalog_tree};
ghost use Rattle.sqlite_trees.specs.View.{IsClean, IsQuiet};
ghost use Rattle.sqlite.specs.Steps.{IsFresh};
ghost use Rattle.sqlite_trees.specs.declared.store.Shape.TheVariants as shapes;
ghost use Rattle.sqlite_wal.specs.Files.{image_at};
ghost use Rattle.sqlite_store.specs.FileStore.{view};
ghost use Rattle.sqlite.specs.Files.{file_state, image_of, over_files};
ghost use Rattle.sqlite.specs.State.{HasCleanDisk};
ghost use Rattle.sqlite.specs.Held.{state};
ghost use Rattle.st_hop_books.specs.Payments.{ArePayments};
ghost use Rattle.st_hop_books.specs.Trail.{tally_of, paid_alone};
ghost use Rattle.st_hop_books.specs.Stamp.{IsStampText};
ghost use Rattle.st_hop_books.specs.Table.{payment_tree, lines, AreDistinct, ListsTables, IsOf};
ghost use Rattle.st_hop_books.specs.Standing.{IsReadyOnceLaid, ReadsOnly, Takes};
ghost use Rattle.st_hop_books.specs.Found.{FindsWhole};

use crate::balance::{Amounts, Tally};
use crate::books::Books;
use crate::continuing::refuse_strange_log;
use crate::error::BooksError;
use crate::existing::{files_at, options_of, refuse_lone_log};
use crate::filing::last_proof;
use crate::laying::{is_absent, is_unlaid, lists_books, make};
use crate::lines::{line_in, payment_in};
use crate::making::may_make;
use crate::names::place_of;
use crate::stamp::{new_identity, new_stamp};
use sqlite::{Connection, Error, ErrorCode, FileFrom, FileStore, Files, Options, Start};
use sqlite_disk::Disk;
use sqlite_trees::store::{Alter, Direction, Store};
use sqlite_value::row::Row;
use sqlite_value::value::Bytes;
use std::alloc::Global;
use std::rt::HostRuntime;

/// The names and amounts of the lines of a table.
struct Lines {
    names: Vec<Bytes>,
    amounts: Vec<Amounts>,
}

/// Reads the lines of the table. Refuses with `NoBooks` if a row is not a line or its place is not its id, and if a name
/// is there twice.
fn read_lines<S: Alter>(alloc: Global, store: &mut S, row: &mut Row) -> Result<Lines, BooksError>
    requires { IsClean (S.Store.view store.old) → (S.Store.view store.old).shape 0 ≡ shapes.Table }
    ensures found { IfOk result (λ r. IsClean (S.Store.view store.new) → (S.Store.view store.old).trees 0 ≡ lines r.names.items r.amounts.items) }
    ensures named { IfOk result (λ r. length r.names.items ≡ length r.amounts.items) }
    ensures distinct { IfOk result (λ r. AreDistinct r.names.items) }
    ensures same { OnOk result (IsClean (S.Store.view store.new) → ReadsOnly (S.Store.view store.old) (S.Store.view store.new)) }
    ensures quiet { IsQuiet S.Store.view S.Store.faults S.Store.recovers S.Store.is_shielded store.old store.new }
{
    let mut names = Vec::new(alloc);
    let mut amounts = Vec::new(alloc);
    row.clear();
    store.seek(0, 0, row, Direction::Forward)?;
    // A disk that lies could keep a cursor going, so the loop counts.
    'rows: for _ in 0..u64::MAX {
        if !store.next(0, row)? {
            return Ok(Lines { names, amounts });
        }
        let Some((name, found)) = line_in(row, names.len()) else {
            return Err(BooksError::NoBooks);
        };
        match place_of(names.as_slice(), name) {
            Some(_) => return Err(BooksError::NoBooks),
            None => {}
        }
        names.push(Bytes::from_slice(alloc, name)?)?;
        amounts.push(found)?;
    }
    Err(BooksError::NoMemory)
}

/// The store of a connection, with nothing that was not committed.
fn let_go<S: Alter + Drop>(conn: Connection<S>) -> S
    ensures ready { IsReadyOnceLaid (S.Store.view result) }
    ensures fresh { IsClean (S.Store.view result) → IsTrue (S.Store.view result).is_open → IsFresh (S.Store.view result) }
    ensures same { IsTrue (S.Store.view result).is_open → (S.Store.view result).trees ≡ (state S.Store conn).committed.trees }
    ensures clean { IsClean (S.Store.view result) → HasCleanDisk (state S.Store conn) }
{
    conn.into_store()
}

/// Counts the lines of the second table, and finds the moment of the last one. Refuses with `NoBooks` if a row is not a line of
/// a payment or its place is not its id.
fn count_payments<S: Alter>(store: &mut S, row: &mut Row) -> Result<Tally, BooksError>
    requires { IsClean (S.Store.view store.old) → (S.Store.view store.old).shape payment_tree ≡ shapes.Table }
    ensures lawful { OnOk result (IsClean (S.Store.view store.new) → ArePayments ((S.Store.view store.old).trees payment_tree)) }
    ensures counted { IfOk result (λ t. IsClean (S.Store.view store.new) → tally_of (paid_alone ((S.Store.view store.old).trees payment_tree)) ≡ t) }
    ensures same { OnOk result (IsClean (S.Store.view store.new) → ReadsOnly (S.Store.view store.old) (S.Store.view store.new)) }
    ensures quiet { IsQuiet S.Store.view S.Store.faults S.Store.recovers S.Store.is_shielded store.old store.new }
{
    row.clear();
    store.seek(0, 1, row, Direction::Forward)?;
    let mut latest = 0;
    'rows: for lines in 0..u64::MAX {
        if !store.next(0, row)? {
            return Ok(Tally {
                lines,
                latest,
                filed: 0,
            });
        }
        let Some(line) = payment_in(row, lines) else {
            return Err(BooksError::NoBooks);
        };
        latest = line.moment;
    }
    Err(BooksError::NoMemory)
}

/// The books of a store that has their tables, and which are of this address, if one is asked for.
fn books_in<S: Alter + Drop>(
    alloc: Global,
    mut store: S,
    own: Option<&str>,
) -> Result<Books<S>, BooksError>
    requires { IsReadyOnceLaid (S.Store.view store) }
    ensures clean { IfOk result (λ b. IsClean (S.Store.view b.store) → IsClean (S.Store.view store)) }
    ensures taken { IfOk result (λ b. IsClean (S.Store.view b.store) → Takes S.Store (S.Store.view store).trees b) }
    ensures listed { IfOk result (λ b. IsClean (S.Store.view b.store) → ListsTables ((S.Store.view store).trees catalog_tree)) }
    ensures own { IfOk result (λ b. IsClean (S.Store.view b.store) → IfSome own.entry (λ a. IsOf a.now ((S.Store.view b.store).committed catalog_tree))) }
{
    if store.is_broken() {
        return Err(BooksError::Shut);
    }
    if !lists_books(alloc, &store, own)? {
        return Err(BooksError::NoBooks);
    }
    let starts = store.version();
    let mut row = Row::new(alloc);
    let Lines { names, amounts } = read_lines(alloc, &mut store, &mut row)?;
    let paid = count_payments(&mut store, &mut row)?;
    let filed = last_proof(&mut store, &mut row)?;
    let tally = Tally {
        lines: paid.lines,
        latest: paid.latest,
        filed,
    };
    Ok(Books::over(alloc, store, row, starts, names, amounts, tally))
}

/// New books, in a store that lists nothing and counts no start. This is the text of their view.
fn new_books<S: Alter + Drop>(
    alloc: Global,
    mut store: S,
    own: Option<&str>,
    text: &str,
) -> Result<Books<S>, BooksError>
    requires fresh { IsClean (S.Store.view store) → IsFresh (S.Store.view store) }
    requires stamps { IsStampText text.now }
    ensures clean { IfOk result (λ b. IsClean (S.Store.view b.store) → IsClean (S.Store.view store)) }
    ensures taken { IfOk result (λ b. IsClean (S.Store.view b.store) → IsTrue (S.Store.view store).is_open → Takes S.Store (S.Store.view store).trees b) }
    ensures own { IfOk result (λ b. IsClean (S.Store.view b.store) → IfSome own.entry (λ a. IsOf a.now ((S.Store.view b.store).committed catalog_tree))) }
{
    if !is_unlaid(alloc, &store)? {
        return Err(BooksError::NoBooks);
    }
    make(&mut store, text)?;
    books_in(alloc, store, own)
}

/// The books of a database, which are of this address, if one is asked for. If it lists nothing they are made with this text of
/// their view, if they may be.
fn books_of<S: Alter + Drop>(
    alloc: Global,
    conn: Connection<S>,
    may_make: bool,
    own: Option<&str>,
    text: &str,
) -> Result<Books<S>, BooksError>
    requires { IsTrue may_make → IsStampText text.now }
    ensures clean { IfOk result (λ b. IsClean (S.Store.view b.store) → HasCleanDisk (state S.Store conn)) }
    ensures taken { IfOk result (λ b. IsClean (S.Store.view b.store) → Takes S.Store (state S.Store conn).committed.trees b) }
    ensures listed { IfOk result (λ b. may_make ≡ false → IsClean (S.Store.view b.store) → ListsTables ((state S.Store conn).committed.trees catalog_tree)) }
    ensures own { IfOk result (λ b. IsClean (S.Store.view b.store) → IfSome own.entry (λ a. IsOf a.now ((S.Store.view b.store).committed catalog_tree))) }
{
    let store = let_go(conn);
    if store.is_broken() {
        return Err(BooksError::Shut);
    }
    if may_make && is_absent(store.shape(0)) {
        new_books(alloc, store, own, text)
    } else {
        books_in(alloc, store, own)
    }
}

/// The books of a database in files, as `books_of` finds or makes them. Their log is folded into the database file.
pub(crate) fn folded_books<D: Disk + Drop>(
    alloc: Global,
    conn: Connection<FileStore<D>>,
    may_make: bool,
    own: Option<&str>,
    text: &str,
) -> Result<Books<FileStore<D>>, BooksError>
    requires { IsTrue may_make → IsStampText text.now }
    ensures clean { IfOk result (λ b. IsClean (view b.store) → HasCleanDisk (file_state conn)) }
    ensures taken { IfOk result (λ b. IsClean (view b.store) → Takes over_files (file_state conn).committed.trees b) }
    ensures listed { IfOk result (λ b. may_make ≡ false → IsClean (view b.store) → ListsTables ((file_state conn).committed.trees catalog_tree)) }
    ensures own { IfOk result (λ b. IsClean (view b.store) → IfSome own.entry (λ a. IsOf a.now ((view b.store).committed catalog_tree))) }
{
    books_of(alloc, conn, may_make, own, text)?.folded()
}

/// Why SQLite's file was not opened.
pub(crate) fn refusal_of(error: Error) -> BooksError {
    match error {
        Error::SqliteFailure(ErrorCode::CannotOpen) => BooksError::Taken,
        Error::SqliteFailure(ErrorCode::DatabaseBusy) => BooksError::Taken,
        Error::SqliteFailure(ErrorCode::OutOfMemory) => BooksError::NoMemory,
        Error::SqliteFailure(ErrorCode::DiskFull) => BooksError::Full,
        Error::SqliteFailure(ErrorCode::SystemIoFailure) => BooksError::Device,
        Error::SqliteFailure(ErrorCode::DatabaseCorrupt) => BooksError::Damaged,
        _ => BooksError::NoBooks,
    }
}

/// Opens the books of a database file and its log on any disk, as `open` does. New books get this identity.
pub fn open_files<D: Disk + Drop>(
    alloc: Global,
    mut files: Files<D>,
    options: Options,
    identity: &str,
    own: &str,
) -> Result<Books<FileStore<D>>, BooksError>
    requires log { IsTrue (D.Disk.is_usable files.log) }
    requires db { IsTrue (D.Disk.is_usable files.db) }
    ensures { IfOk result (λ b. IsClean (view b.store) → FindsWhole own.now (image_of D.Disk files) b) }
{
    let text = new_stamp(alloc, identity, own)?;
    let may_make = may_make(alloc, &mut files)?;
    refuse_strange_log(alloc, &mut files)?;
    match Connection::open_files_with(alloc, files, options, true) {
        Ok(conn) => folded_books(alloc, conn, may_make, Some(own), text.as_str()),
        Err((error, _)) => Err(refusal_of(error)),
    }
}

/// Opens the books of a file, or makes them if neither the file nor its log is there, or the file is empty.
///
/// Each page of a new file ends in a sum of its bytes, so that a changed byte is found: `Damaged`. An sqlite3 without the
/// extension cksumvfs may read such a file, and must not write it.
///
/// New books say what they are, in a view that sqlite3 shows: the version of their tables, an identity of 16 random bytes, and
/// the address of the connector that keeps them. Those of another address or version, or without that view, are refused with
/// `NoBooks`.
///
/// After a crash it finds the books that the crash left. The log is then folded into the file. Refuses with `NoBooks` if the
/// file has something else, if the log is damaged, and if the log is there without its file, and leaves them; with `Taken` if
/// another process has the file.
pub fn open<S: Start>(
    rt: &HostRuntime,
    path: &str,
    own: &str,
    start: S,
) -> Result<Books<FileStore<FileFrom<S>>>, BooksError>
    ensures { IfOk result (λ b. IsClean (view b.store) → FindsWhole own.now (image_at S.Start) b) }
{
    refuse_lone_log(rt, path)?;
    let options = options_of(rt)?;
    let identity = new_identity(rt)?;
    let files = files_at(rt, path, start)?;
    open_files(rt.alloc(), files, options, identity.as_str(), own)
}
