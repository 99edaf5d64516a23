//! Whether books may be opened in files, and whether they may be made there. Nothing is written.

ghost use Rattle.std.specs.Prelude.{◌≡◌, ◌≤◌, ◌<◌, ◌↔◌, false, length, IsTrue, IfOk, OnOk};
ghost use Rattle.sqlite_wal.specs.PageSize.{bytes_of};
ghost use Rattle.sqlite_wal.specs.Recovery.{IsBegun};
ghost use Rattle.sqlite_wal.specs.Reads.{AreClean, IsClean, OnlyReads};
ghost use Rattle.sqlite.specs.Files.{image_of, IsBlankAs, IsNothing};
ghost use Rattle.st_hop_books.specs.Damage.{IsDamaged, IsUnmade, IsUnwritten};

use crate::damage::is_damaged;
use crate::error::BooksError;
use crate::frames::{HEADER_LEN, get_be32, is_signed};
use sqlite_disk::{Disk, Files};
use sqlite_pool::probe_blank;
use sqlite_wal::PageSize;
use std::alloc::Global;
use std::io;

/// The page size of a new file, which SQLite's kit makes.
pub(crate) const NEW_SIZE: usize = 4096;

/// The format's version in the header of a log.
const VERSION: u32 = 3007000;

/// The count of checkpoints in the header of a log of which no database was written yet.
const BEGUN: u32 = 0xffff_ffff;

/// The length of the header of a database file.
pub(crate) const LEAST_LEN: usize = 100;

/// The length of a log that has a header, and no frame.
const EMPTY_LEN: usize = 41;

/// Why the files were not read.
pub(crate) fn refusal_of_log(error: sqlite_wal::Error) -> BooksError {
    match error {
        sqlite_wal::Error::OutOfMemory => BooksError::NoMemory,
        sqlite_wal::Error::Io(_) => BooksError::Device,
        sqlite_wal::Error::Full => BooksError::Full,
        _ => BooksError::NoBooks,
    }
}

/// Whether there is no database yet, as an open that makes one with or without sums would find.
fn is_blank<D: Disk>(
    alloc: Global,
    files: &mut Files<D>,
    size: PageSize,
    has_sums: bool,
) -> Result<bool, BooksError>
    requires log { IsTrue (D.Disk.is_usable files.old.log) }
    requires db { IsTrue (D.Disk.is_usable files.old.db) }
    requires size { bytes_of size ≡ 4096 }
    ensures found { IfOk result (λ b. AreClean D.Disk files.new.log files.new.db → (IsTrue b ↔ IsBlankAs has_sums (image_of D.Disk files.old))) }
    ensures log { OnlyReads D.Disk files.old.log files.new.log }
    ensures db { OnlyReads D.Disk files.old.db files.new.db }
{
    match probe_blank(alloc, files, size, has_sums) {
        Ok(is_blank) => Ok(is_blank),
        Err(error) => Err(refusal_of_log(error)),
    }
}

/// Whether there is no database in the files yet.
pub(crate) fn holds_nothing<D: Disk>(
    alloc: Global,
    files: &mut Files<D>,
) -> Result<bool, BooksError>
    requires log { IsTrue (D.Disk.is_usable files.old.log) }
    requires db { IsTrue (D.Disk.is_usable files.old.db) }
    ensures found { IfOk result (λ b. AreClean D.Disk files.new.log files.new.db → b ≡ false → ¬ IsNothing (image_of D.Disk files.old)) }
    ensures log { OnlyReads D.Disk files.old.log files.new.log }
    ensures db { OnlyReads D.Disk files.old.db files.new.db }
{
    let size = PageSize::new(NEW_SIZE).unwrap();
    if is_blank(alloc, files, size, false)? {
        return Ok(true);
    }
    is_blank(alloc, files, size, true)
}

/// Refuses a log that is damaged.
pub(crate) fn refuse_damage<D: Disk>(alloc: Global, log: &mut D) -> Result<(), BooksError>
    requires { IsTrue (D.Disk.is_usable log.old) }
    ensures whole { OnOk result (IsClean D.Disk log.new → ¬ IsDamaged (D.Disk.seen log.old)) }
    ensures same { OnlyReads D.Disk log.old log.new }
{
    if is_damaged(alloc, log)? {
        return Err(BooksError::NoBooks);
    }
    Ok(())
}

/// Whether the log has the header with which a new database begins, and which no later call writes.
pub(crate) fn is_begun<D: Disk>(log: &mut D) -> io::Result<bool>
    requires { IsTrue (D.Disk.is_usable log.old) }
    ensures found { IfOk result (λ b. IsClean D.Disk log.new → IsTrue b → IsBegun 4096 (D.Disk.seen log.old)) }
    ensures same { OnlyReads D.Disk log.old log.new }
{
    if log.len()? < HEADER_LEN {
        return Ok(false);
    }
    let mut head = [0; 32];
    log.read_at(0, &mut head)?;
    if !is_signed(&head) {
        return Ok(false);
    }
    let version = get_be32(&head, 4);
    let size = get_be32(&head, 8);
    let round = get_be32(&head, 12);
    Ok((version == VERSION) & (size == NEW_SIZE as u32) & (round == BEGUN))
}

/// Whether there is no log, or its header is not finished.
fn is_unwritten<D: Disk>(log: &mut D) -> io::Result<bool>
    requires { IsTrue (D.Disk.is_usable log.old) }
    ensures found { IfOk result (λ b. IsClean D.Disk log.new → IsTrue b → IsUnwritten (D.Disk.seen log.old)) }
    ensures same { OnlyReads D.Disk log.old log.new }
{
    let len = log.len()?;
    if len == 0 {
        return Ok(true);
    }
    if len > EMPTY_LEN {
        return Ok(false);
    }
    let mut first = [0];
    log.read_at(0, &mut first)?;
    Ok(first[0] == 0)
}

/// Whether the files are those of books that are still to be made.
fn is_unmade<D: Disk>(files: &mut Files<D>, nothing: bool) -> io::Result<bool>
    requires log { IsTrue (D.Disk.is_usable files.old.log) }
    requires db { IsTrue (D.Disk.is_usable files.old.db) }
    requires nothing { AreClean D.Disk files.old.log files.old.db → nothing ≡ false → ¬ IsNothing (image_of D.Disk files.old) }
    ensures unmade { IfOk result (λ b. AreClean D.Disk files.new.log files.new.db → IsTrue b → IsUnmade (image_of D.Disk files.old)) }
    ensures log { OnlyReads D.Disk files.old.log files.new.log }
    ensures db { OnlyReads D.Disk files.old.db files.new.db }
{
    if is_begun(&mut files.log)? {
        return Ok(!nothing || files.log.len()? <= EMPTY_LEN);
    }
    let db_len = files.db.len()?;
    let log_len = files.log.len()?;
    if db_len > 1 || (db_len == 1 && log_len == 0) {
        return Ok(false);
    }
    is_unwritten(&mut files.log)
}

/// Whether books may be made in the files. Refuses with `NoBooks` if the log is damaged, and if a log is there without its
/// database.
pub(crate) fn may_make<D: Disk>(alloc: Global, files: &mut Files<D>) -> Result<bool, BooksError>
    requires log { IsTrue (D.Disk.is_usable files.old.log) }
    requires db { IsTrue (D.Disk.is_usable files.old.db) }
    ensures whole { OnOk result (AreClean D.Disk files.new.log files.new.db → ¬ IsDamaged (D.Disk.seen files.old.log)) }
    ensures unmade { IfOk result (λ b. AreClean D.Disk files.new.log files.new.db → IsTrue b → IsUnmade (image_of D.Disk files.old)) }
    ensures nothing { IfOk result (λ b. AreClean D.Disk files.new.log files.new.db → b ≡ false → ¬ IsNothing (image_of D.Disk files.old)) }
    ensures log { OnlyReads D.Disk files.old.log files.new.log }
    ensures db { OnlyReads D.Disk files.old.db files.new.db }
{
    refuse_damage(alloc, &mut files.log)?;
    let nothing = holds_nothing(alloc, files)?;
    let unmade = is_unmade(files, nothing)?;
    if !unmade && (nothing || files.db.len()? < LEAST_LEN) {
        return Err(BooksError::NoBooks);
    }
    Ok(unmade)
}
