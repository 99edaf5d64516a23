//! What opens the books of a file.

ghost use Rattle.std.specs.Prelude.{ℕ, List, IfOk};
ghost use Rattle.st_hop_books.specs.Standing.{Kept};

use crate::watched::Watcher;
use sqlite_trees::store::Alter;
use st_hop_books::{Books, BooksError};
use std::alloc::AllocError;

/// What opens the books of a file. A program is generic over it, as it is over the runtime that gives files and sockets.
/// It is implemented by a crate that chooses the type of the store: an interface that names an SQLite store in files has
/// some 300 definitions more, and so have those of the crates above.
pub trait OpensBooks {
    /// What the books are kept in.
    type Store: Alter + Send + Drop;

    /// What inspects the files of the books by their names.
    type Watcher: Watcher + Send + Drop;

    /// What is known of the books that it opens at a path.
    ghost finds: { Self → List ℕ → Kept Self.Store → Type 0 };

    /// What is known of those that it opens if they have to be there.
    ghost finds_existing: { Self → List ℕ → Kept Self.Store → Type 0 };

    /// Opens the books of a file, or makes them if there is no file, or nothing is in it. They say the address of the
    /// connector that keeps them; those of another address are refused with `NoBooks`.
    fn open(&self, path: &str, own: &str) -> Result<Books<Self::Store>, BooksError>
        ensures { IfOk result (finds self.now path.now) };

    /// Opens the books of a file. Refuses with `NoBooks` if there is no file, or nothing is in it, and makes none.
    fn open_existing(&self, path: &str) -> Result<Books<Self::Store>, BooksError>
        ensures { IfOk result (finds_existing self.now path.now) };

    /// What inspects the files of books that were opened at a path. Fails if memory is refused.
    fn watcher(&self, path: &str) -> Result<Self::Watcher, AllocError>;
}
