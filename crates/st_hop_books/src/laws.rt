//! What joins a crash to the next open.

ghost use Rattle.st_hop_books.specs.Found.{NextFinds};

use sqlite_disk::Disk;

/// What a crash leaves of books, the next open finds: if each database that it may leave is one of two books, the open
/// finds one of these. After a commit, before another call, the two are the same.
pub fn the_next_open_finds_them<D: Disk, E: Disk>()
    ensures { NextFinds D.Disk E.Disk }
{}
