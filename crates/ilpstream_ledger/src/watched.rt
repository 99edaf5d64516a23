//! Books whose files are inspected before and after each commit.

ghost use Rattle.std.specs.Prelude.{◌≡◌, ◌⊎◌};

use st_hop_books::BooksError;
use st_links::{Booking, Keeper};
use std::alloc::{AllocError, Global};
use std::fs::{Files, Metadata};
use std::marker::Model;
use std::os::unix::fs::MetadataExt;

/// Which file a name leads to, how long it is in bytes, and when it was written.
#[derive(Clone, Copy)]
struct Standing {
    device: u64,
    inode: u64,
    len: u64,
    seconds: i64,
    nanos: i64,
}

impl Standing {
    fn of(found: &Metadata) -> Standing {
        Standing {
            device: found.dev(),
            inode: found.ino(),
            len: found.len(),
            seconds: found.mtime(),
            nanos: found.mtime_nsec(),
        }
    }

    fn is_same(self, other: Standing) -> bool {
        self.device == other.device && self.inode == other.inode
    }

    fn is_written(self, before: Standing) -> bool {
        self.seconds != before.seconds || self.nanos != before.nanos
    }
}

/// The files at the names of books: the file, and its log.
#[derive(Clone, Copy)]
pub struct Look {
    file: Standing,
    log: Standing,
}

impl Look {
    /// Whether these are the same two files as before, of the same lengths.
    fn stays(self, before: Look) -> bool {
        self.file.is_same(before.file)
            && self.log.is_same(before.log)
            && self.file.len == before.file.len
            && self.log.len == before.log.len
    }

    /// Whether these are the same two files after a commit. A commit makes neither of them shorter, unless the log was folded: then
    /// it begins anew, and the file was written.
    fn follows(self, before: Look) -> bool {
        self.file.is_same(before.file)
            && self.log.is_same(before.log)
            && self.file.len >= before.file.len
            && (self.log.len >= before.log.len || self.file.is_written(before.file))
    }
}

/// What inspects the files of books by their names. No clause can say what it finds there.
pub trait Watcher {
    /// The files at the names now. `None` if a file is gone, or cannot be inspected.
    fn look(&self) -> Option<Look>;
}

/// The names of books in a file system.
#[derive(Drop)]
pub struct FileNames<F> {
    files: F,
    file: String,
    log: String,
}

impl<F: Files + Drop> FileNames<F> {
    /// The names of the books that were opened at a path. As for SQLite, the log lies next to the file to which a link
    /// leads.
    pub fn new(files: F, alloc: Global, path: &str) -> Result<FileNames<F>, AllocError> {
        let file = format!(in alloc; "{path}")?;
        let log = match files.canonicalize(alloc, path) {
            Ok(real) => format!(in alloc; "{}-wal", real.as_str())?,
            Err(_) => format!(in alloc; "{path}-wal")?,
        };
        Ok(FileNames { files, file, log })
    }
}

impl<F: Files> Watcher for FileNames<F> {
    fn look(&self) -> Option<Look> {
        let file = self.files.metadata(self.file.as_str());
        let log = self.files.symlink_metadata(self.log.as_str());
        match (file, log) {
            (Ok(file), Ok(log)) => Some(Look {
                file: Standing::of(&file),
                log: Standing::of(&log),
            }),
            _ => None,
        }
    }
}

/// Books in a file and its log. Before a commit the names have to lead to both as the last one left them, and after it to the same
/// files. If one was removed, replaced or cut, the books refuse with 112. A cut within a commit is seen if it removes more than the
/// commit wrote.
#[derive(Drop)]
pub struct Watched<W, K> {
    watcher: W,
    /// The files at the names after the last commit.
    stood: Option<Look>,
    books: K,
}

impl<W, K> Model for Watched<W, K> {
    ghost Value = { K };

    ghost view = { λ w. w.books };
}

impl<W: Watcher, K> Watched<W, K> {
    /// Books that were opened in the files of a watcher.
    pub fn new(watcher: W, books: K) -> Watched<W, K>
        ensures { result ≡ books }
    {
        let stood = watcher.look();
        Watched {
            watcher,
            stood,
            books,
        }
    }
}

impl<W: Watcher, K: Keeper> Keeper for Watched<W, K> {
    ghost commits = { K.commits };

    // The books refused; or the files were others, before the commit or after it.
    ghost keeps = { λ old bookings new n. K.keeps old bookings new n ⊎ ((n ≡ 112) × ((new ≡ old) ⊎ K.commits old bookings new)) };

    fn commit(&mut self, bookings: &[Booking]) -> Result<(), u8> {
        let (Some(stood), Some(before)) = (self.stood, self.watcher.look()) else {
            return Err(BooksError::Device.number());
        };
        if !before.stays(stood) {
            return Err(BooksError::Device.number());
        }
        self.books.commit(bookings)?;
        self.stood = self.watcher.look();
        match self.stood {
            Some(now) if now.follows(before) => Ok(()),
            _ => Err(BooksError::Device.number()),
        }
    }
}
