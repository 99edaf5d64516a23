//! Books in a file that is there already.

ghost use Rattle.std.specs.Prelude.{◌≤◌, false, true, length, IsTrue, IfOk, OnOk};
ghost use Rattle.sqlite_wal.specs.Files.{image_at};
ghost use Rattle.sqlite_wal.specs.Reads.{AreClean, OnlyReads};
ghost use Rattle.sqlite_store.specs.FileStore.{view};
ghost use Rattle.sqlite_trees.specs.View.{IsClean};
ghost use Rattle.sqlite.specs.Files.{image_of, IsNothing};
ghost use Rattle.sqlite_std_file.specs.File.{file_is_usable, IsFresh};
ghost use Rattle.st_hop_books.specs.Found.{FindsOld};

use crate::books::Books;
use crate::continuing::refuse_strange_log;
use crate::error::BooksError;
use crate::making::{LEAST_LEN, holds_nothing, refuse_damage};
use crate::opening::{folded_books, refusal_of};
use sqlite::{Connection, FileFrom, FileStore, Files, Options, Start};
use sqlite_disk::Disk;
use sqlite_std_file::OpenError;
use std::alloc::Global;
use std::fs;
use std::hash::{BuildHasher, RandomState};
use std::io::ErrorKind;
use std::rt::HostRuntime;

/// Refuses files that hold no database yet, and a file that is too short for one.
fn refuse_nothing<D: Disk>(alloc: Global, files: &mut Files<D>) -> Result<(), BooksError>
    requires log { IsTrue (D.Disk.is_usable files.old.log) }
    requires db { IsTrue (D.Disk.is_usable files.old.db) }
    ensures something { OnOk result (AreClean D.Disk files.new.log files.new.db → ¬ IsNothing (image_of D.Disk files.old)) }
    ensures long { OnOk result (AreClean D.Disk files.new.log files.new.db → 100 ≤ length (D.Disk.seen files.old.db)) }
    ensures log { OnlyReads D.Disk files.old.log files.new.log }
    ensures db { OnlyReads D.Disk files.old.db files.new.db }
{
    let nothing = holds_nothing(alloc, files)?;
    if nothing || files.db.len()? < LEAST_LEN {
        return Err(BooksError::NoBooks);
    }
    Ok(())
}

/// Opens the books of a database file and its log on any disk, as `open_existing` does.
pub fn open_existing_files<D: Disk + Drop>(
    alloc: Global,
    mut files: Files<D>,
    options: Options,
) -> Result<Books<FileStore<D>>, BooksError>
    requires log { IsTrue (D.Disk.is_usable files.log) }
    requires db { IsTrue (D.Disk.is_usable files.db) }
    ensures { IfOk result (λ b. IsClean (view b.store) → FindsOld (image_of D.Disk files) b) }
{
    refuse_damage(alloc, &mut files.log)?;
    refuse_nothing(alloc, &mut files)?;
    refuse_strange_log(alloc, &mut files)?;
    match Connection::open_files(alloc, files, options) {
        Ok(conn) => folded_books(alloc, conn, false, None, ""),
        Err((error, _)) => Err(refusal_of(error)),
    }
}

/// Refuses if there is no file, or an empty one.
fn require_file(rt: &HostRuntime, path: &str) -> Result<(), BooksError> {
    match fs::metadata(rt, path) {
        Ok(found) if found.len() == 0 => Err(BooksError::NoBooks),
        Ok(_) => Ok(()),
        Err(error) if error.kind() == ErrorKind::NotFound => Err(BooksError::NoBooks),
        Err(_) => Err(BooksError::Taken),
    }
}

/// Refuses a log whose database file is gone.
pub(crate) fn refuse_lone_log(rt: &HostRuntime, path: &str) -> Result<(), BooksError> {
    match fs::metadata(rt, path) {
        Err(error) if error.kind() == ErrorKind::NotFound => {}
        _ => return Ok(()),
    }
    let log = format!(in rt.alloc(); "{path}-wal")?;
    match fs::symlink_metadata(rt, log.as_str()) {
        Err(error) if error.kind() == ErrorKind::NotFound => Ok(()),
        _ => Err(BooksError::NoBooks),
    }
}

/// The options of an open, with a seed for the log's salts.
pub(crate) fn options_of(rt: &HostRuntime) -> Result<Options, BooksError> {
    match RandomState::new(rt) {
        Ok(state) => Ok(Options::new(state.hash_one(&0u8))),
        Err(_) => Err(BooksError::Taken),
    }
}

/// The file at a path, and its log.
pub(crate) fn files_at<S: Start>(
    rt: &HostRuntime,
    path: &str,
    start: S,
) -> Result<Files<FileFrom<S>>, BooksError>
    ensures usable { IfOk result (λ files. IsTrue (file_is_usable S.Start files.log) × IsTrue (file_is_usable S.Start files.db)) }
    ensures fresh { IfOk result (λ files. IsFresh true files.log × IsFresh false files.db) }
{
    match sqlite_std_file::open(rt, path, start) {
        Ok(files) => Ok(files),
        Err(OpenError::OutOfMemory) => Err(BooksError::NoMemory),
        Err(_) => Err(BooksError::Taken),
    }
}

/// Opens the books of a file, whatever address they say. If there is no file, or nothing is in it, it refuses with
/// `NoBooks` and makes nothing.
///
/// Otherwise as `open`: it finds the books that a crash left, and refuses with `Taken` if another process has the file.
pub fn open_existing<S: Start>(
    rt: &HostRuntime,
    path: &str,
    start: S,
) -> Result<Books<FileStore<FileFrom<S>>>, BooksError>
    ensures { IfOk result (λ b. IsClean (view b.store) → FindsOld (image_at S.Start) b) }
{
    require_file(rt, path)?;
    let options = options_of(rt)?;
    let files = files_at(rt, path, start)?;
    open_existing_files(rt.alloc(), files, options)
}
