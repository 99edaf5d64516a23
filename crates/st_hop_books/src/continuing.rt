//! Whether a log continues its database file. Each commit of books writes the first page, whose schema cookie counts the
//! commits. So the first page of the file says how many commits the file has, and those in the log which ones it has.

ghost use Rattle.std.specs.Prelude.{◌≡◌, ◌≢◌, ◌⊎◌, ◌+◌, ◌<◌, ◌≤◌, ◌↔◌, None, length, slice_index, take, IsTrue, IfOk, IfSome, OnOk};
ghost use Rattle.sqlite_wal.specs.Format.{le32};
ghost use Rattle.sqlite_wal.specs.PageSize.{bytes_of};
ghost use Rattle.sqlite_wal.specs.Recovery.{AreFramesOf};
ghost use Rattle.sqlite_wal.specs.Reads.{AreClean, IsClean, OnlyReads};
ghost use Rattle.sqlite.specs.Files.{image_of};
ghost use Rattle.st_hop_books.specs.Continuing.{commits_in, count_before, list_at, list_in, page_in, IsEither, IsMixed, IsWhole, CountsOn, ContinuesWhole, ContinuesTorn, Continues, LacksFirstPage, IsFirst, IsLast, LogContinues, LogSaysNothing, IsContinued};

use crate::damage::MOST_FRAMES;
use crate::error::BooksError;
use crate::frames::{FRAME_HEADER_LEN, frame_offset, get_be32};
use crate::making::{NEW_SIZE, is_begun, refusal_of_log};
use sqlite_disk::{Disk, Files};
use sqlite_wal::{PageSize, checksum_of, probe_frames};
use std::alloc::Global;
use std::io;

/// The bytes of a page that are not its sum.
const USED: usize = 4088;

/// The place of the schema cookie in the first page, which counts the commits.
const COMMITS: usize = 40;

/// The place in the first page of the number that says at which of its bytes the list of objects begins.
const LIST: usize = 105;

/// Four bytes as a number, the lowest first.
fn get_le32(b: &[u8], at: usize) -> u32
    requires { at + 4 ≤ length b.now }
    ensures { result ≡ le32 b.now at }
{
    b[at] as u32
        + b[at + 1] as u32 * 0x100
        + b[at + 2] as u32 * 0x1_0000
        + b[at + 3] as u32 * 0x100_0000
}

/// Whether a page fits its sum.
fn is_whole(page: &[u8], used: usize) -> bool
    requires page { length page.now ≡ 4096 }
    requires used { used ≡ 4088 }
    ensures { IsTrue result ↔ IsWhole page.now }
{
    let stored = (get_le32(page, USED), get_le32(page, USED + 4));
    checksum_of(false, (0, 0), &page[..used]) == stored
}

/// Whether a file has as many commits as one that a log begins after, or as one that the log was folded into.
fn counts_on(file: &[u8], first: &[u8], last: &[u8]) -> bool
    requires file { length file.now ≡ 4096 }
    requires first { length first.now ≡ 4096 }
    requires last { length last.now ≡ 4096 }
    ensures { IsTrue result → CountsOn file.now first.now last.now }
{
    let there = get_be32(file, COMMITS);
    let begun = get_be32(first, COMMITS);
    let ended = get_be32(last, COMMITS);
    if there.wrapping_add(1) != begun && there != ended {
        return false;
    }
    true
}

/// Whether one of the four bytes of a count, given by its unit, is that of one of two others.
fn is_either(unit: u32, there: u32, before: u32, after: u32) -> bool
    requires { 0 < unit }
    ensures { IsTrue result → IsEither unit there before after }
{
    let byte = there / unit % 0x100;
    if byte == before / unit % 0x100 {
        return true;
    }
    byte == after / unit % 0x100
}

/// Whether each of the four bytes of a count is that of one of two others.
fn is_mixed(there: u32, before: u32, after: u32) -> bool
    ensures { IsTrue result → IsMixed there before after }
{
    if !is_either(0x100_0000, there, before, after) {
        return false;
    }
    if !is_either(0x1_0000, there, before, after) {
        return false;
    }
    if !is_either(0x100, there, before, after) {
        return false;
    }
    is_either(1, there, before, after)
}

/// Whether a count that a fold left unfinished is of the commit before a log, or of the log's last one.
fn counts_mixed(file: &[u8], first: &[u8], last: &[u8]) -> bool
    requires file { length file.now ≡ 4096 }
    requires first { length first.now ≡ 4096 }
    requires last { length last.now ≡ 4096 }
    ensures { IsTrue result → IsMixed (commits_in file.now) (count_before (commits_in first.now)) (commits_in last.now) }
{
    let there = get_be32(file, COMMITS);
    let begun = get_be32(first, COMMITS);
    let ended = get_be32(last, COMMITS);
    is_mixed(there, begun.wrapping_sub(1), ended)
}

/// Whether two first pages have the same bytes from the start of the list of objects in a third one on.
fn lists_same(page: &[u8], file: &[u8], last: &[u8]) -> bool
    requires page { length page.now ≡ 4096 }
    requires file { length file.now ≡ 4096 }
    requires last { length last.now ≡ 4096 }
    ensures { IsTrue result → list_in (list_at page.now) file.now ≡ list_in (list_at page.now) last.now }
{
    let at = page[LIST] as usize * 0x100 + page[LIST + 1] as usize;
    if at >= USED {
        return true;
    }
    file[at..USED] == last[at..USED]
}

/// Whether a log continues a file whose first page fits its sum.
fn continues_whole(file: &[u8], first: &[u8], last: &[u8]) -> bool
    requires file { length file.now ≡ 4096 }
    requires first { length first.now ≡ 4096 }
    requires last { length last.now ≡ 4096 }
    ensures { IsTrue result → ContinuesWhole file.now first.now last.now }
{
    if !counts_on(file, first, last) {
        return false;
    }
    lists_same(file, file, last)
}

/// Whether a log continues a file whose first page was left unfinished by a fold of it.
fn continues_torn(file: &[u8], first: &[u8], last: &[u8]) -> bool
    requires file { length file.now ≡ 4096 }
    requires first { length first.now ≡ 4096 }
    requires last { length last.now ≡ 4096 }
    ensures { IsTrue result → ContinuesTorn file.now first.now last.now }
{
    if !counts_mixed(file, first, last) {
        return false;
    }
    lists_same(last, file, last)
}

/// Whether the first page of a file goes with the one that its log wrote first, and the one that it wrote last.
fn continues(file: &[u8], first: &[u8], last: &[u8]) -> bool
    requires file { length file.now ≡ 4096 }
    requires first { length first.now ≡ 4096 }
    requires last { length last.now ≡ 4096 }
    ensures { IsTrue result → Continues file.now first.now last.now }
{
    if !is_whole(file, USED) {
        return continues_torn(file, first, last);
    }
    continues_whole(file, first, last)
}

/// The first of these that is 1.
fn first_one(numbers: &[u32]) -> Option<usize>
    ensures found { IfSome result (IsFirst numbers.now) }
    ensures none { result ≡ None → LacksFirstPage numbers.now }
{
    for at in 0..numbers.len() {
        if numbers[at] == 1 {
            return Some(at);
        }
    }
    None
}

/// The last one.
fn last_one(numbers: &[u32]) -> Option<usize>
    ensures found { IfSome result (IsLast numbers.now) }
    ensures none { result ≡ None → LacksFirstPage numbers.now }
{
    let len = numbers.len();
    for back in 0..len {
        if numbers[len - 1 - back] == 1 {
            return Some(len - 1 - back);
        }
    }
    None
}

/// The page of each frame that SQLite would read from the log.
fn frames_of<D: Disk>(alloc: Global, log: &mut D, size: PageSize) -> Result<Vec<u32>, BooksError>
    requires usable { IsTrue (D.Disk.is_usable log.old) }
    requires size { bytes_of size ≡ 4096 }
    ensures found { IfOk result (λ v. IsClean D.Disk log.new → AreFramesOf 4096 (D.Disk.seen log.old) v.items) }
    ensures few { IfOk result (λ v. length v.items ≤ 0xffff_ffff) }
    ensures same { OnlyReads D.Disk log.old log.new }
{
    match probe_frames(alloc, log, size) {
        Ok(numbers) if numbers.len() <= MOST_FRAMES => Ok(numbers),
        Ok(_) => Err(BooksError::NoBooks),
        Err(error) => Err(refusal_of_log(error)),
    }
}

/// Reads the page in frame `i`.
fn read_page<D: Disk>(log: &mut D, i: usize, page: &mut [u8]) -> io::Result<()>
    requires usable { IsTrue (D.Disk.is_usable log.old) }
    requires few { i ≤ 0xffff_ffff }
    requires page { length page.old ≡ 4096 }
    ensures read { OnOk result (IsClean D.Disk log.new → page.new ≡ page_in (D.Disk.seen log.old) i) }
    ensures same { OnlyReads D.Disk log.old log.new }
{
    log.read_at(frame_offset(NEW_SIZE, i) + FRAME_HEADER_LEN, page)
}

/// Whether a log continues a file that begins with this page.
fn log_continues<D: Disk>(alloc: Global, log: &mut D, page: &[u8]) -> Result<bool, BooksError>
    requires usable { IsTrue (D.Disk.is_usable log.old) }
    requires page { length page.now ≡ 4096 }
    ensures found { IfOk result (λ b. IsClean D.Disk log.new → IsTrue b → LogContinues page.now (D.Disk.seen log.old)) }
    ensures same { OnlyReads D.Disk log.old log.new }
{
    let size = PageSize::new(NEW_SIZE).unwrap();
    let numbers = frames_of(alloc, log, size)?;
    let Some(first) = first_one(&numbers) else {
        return Ok(true);
    };
    let Some(last) = last_one(&numbers) else {
        return Ok(true);
    };
    let mut first_page = [0; NEW_SIZE];
    let mut last_page = [0; NEW_SIZE];
    read_page(log, first, &mut first_page)?;
    read_page(log, last, &mut last_page)?;
    Ok(continues(page, &first_page, &last_page))
}

/// Refuses a log that has a first page, if its file has none and no making was cut short.
fn refuse_pages<D: Disk>(alloc: Global, log: &mut D, begun: bool) -> Result<(), BooksError>
    requires usable { IsTrue (D.Disk.is_usable log.old) }
    ensures lacking { OnOk result (IsClean D.Disk log.new → IsTrue begun ⊎ LogSaysNothing (D.Disk.seen log.old)) }
    ensures same { OnlyReads D.Disk log.old log.new }
{
    if begun {
        return Ok(());
    }
    let size = PageSize::new(NEW_SIZE).unwrap();
    let numbers = frames_of(alloc, log, size)?;
    match first_one(&numbers) {
        Some(_) => Err(BooksError::NoBooks),
        None => Ok(()),
    }
}

/// Refuses a log that does not continue a file that begins with this page, if no making was cut short.
fn refuse_others<D: Disk>(
    alloc: Global,
    log: &mut D,
    page: &[u8],
    begun: bool,
) -> Result<(), BooksError>
    requires usable { IsTrue (D.Disk.is_usable log.old) }
    requires page { length page.now ≡ 4096 }
    ensures continued { OnOk result (IsClean D.Disk log.new → (IsTrue begun × (¬ IsWhole page.now)) ⊎ LogContinues page.now (D.Disk.seen log.old)) }
    ensures same { OnlyReads D.Disk log.old log.new }
{
    let whole = is_whole(page, USED);
    if begun && !whole {
        return Ok(());
    }
    if !log_continues(alloc, log, page)? {
        return Err(BooksError::NoBooks);
    }
    Ok(())
}

/// Refuses a log that does not continue its database file: an older one, that of other books, or one of which the file is
/// older. A file that a making left unfinished says nothing.
pub(crate) fn refuse_strange_log<D: Disk>(
    alloc: Global,
    files: &mut Files<D>,
) -> Result<(), BooksError>
    requires log { IsTrue (D.Disk.is_usable files.old.log) }
    requires db { IsTrue (D.Disk.is_usable files.old.db) }
    ensures continued { OnOk result (AreClean D.Disk files.new.log files.new.db → IsContinued (image_of D.Disk files.old)) }
    ensures log { OnlyReads D.Disk files.old.log files.new.log }
    ensures db { OnlyReads D.Disk files.old.db files.new.db }
{
    let begun = is_begun(&mut files.log)?;
    if files.db.len()? < NEW_SIZE {
        return refuse_pages(alloc, &mut files.log, begun);
    }
    let mut page = [0; NEW_SIZE];
    files.db.read_at(0, &mut page)?;
    refuse_others(alloc, &mut files.log, &page, begun)
}
