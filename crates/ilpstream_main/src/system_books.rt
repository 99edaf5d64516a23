//! What opens the books of a file in a process.

ghost use Rattle.std.specs.Prelude.{⊤};

use ilpstream_ledger::{FileNames, OpensBooks};
use sqlite::{FileFrom, FileStore, Unknown};
use st_hop_books::{Books, BooksError, open, open_existing};
use std::alloc::AllocError;

/// Books in the files of the system, which the runtime of a process opens. What these hold, no clause can say.
#[derive(Clone, Copy)]
pub(crate) struct SystemBooks<'a> {
    rt: &'a HostRuntime,
}

impl<'a> SystemBooks<'a> {
    /// The books that this runtime opens.
    pub(crate) fn new(rt: &'a HostRuntime) -> SystemBooks<'a> {
        SystemBooks { rt }
    }
}

impl OpensBooks for SystemBooks<'_> {
    type Store = FileStore<FileFrom<Unknown>>;

    type Watcher = FileNames<HostRuntime>;

    ghost finds = { λ _ _ _. ⊤ };

    ghost finds_existing = { λ _ _ _. ⊤ };

    fn open(&self, path: &str, own: &str) -> Result<Books<Self::Store>, BooksError> {
        open(self.rt, path, own, Unknown)
    }

    fn open_existing(&self, path: &str) -> Result<Books<Self::Store>, BooksError> {
        open_existing(self.rt, path, Unknown)
    }

    fn watcher(&self, path: &str) -> Result<Self::Watcher, AllocError> {
        FileNames::new(*self.rt, self.rt.alloc(), path)
    }
}
