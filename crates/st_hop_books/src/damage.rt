//! Damage in the log of books. A crash leaves a log that ends in part of one commit; this does not count as damage. A frame
//! that does not fit, with a later commit after it, is damage: SQLite would end the log there, and drop each commit after it.

ghost use Rattle.std.specs.Prelude.{◌≡◌, ◌+◌, ◌<◌, ◌≤◌, ◌↔◌, ◌*◌, ◌^◌, length, IsTrue, IfOk, MatchOption};
ghost use Rattle.sqlite_wal.specs.Format.{be32, IsSigned};
ghost use Rattle.sqlite_wal.specs.Recovery.{frame_at, frame, header};
ghost use Rattle.sqlite_wal.specs.Recovery as recovery;
ghost use Rattle.sqlite_wal.specs.Reads.{IsClean, OnlyReads};
ghost use Rattle.st_hop_books.specs.Damage.{IsBroken, IsDamaged, IsFit, IsFirstBroken, IsNext, HasNoNext, wants};

use crate::error::BooksError;
use crate::frames::{
    FRAME_HEADER_LEN, HEADER_LEN, Sum, frame_offset, get_be32, get_sum, is_frame, is_signed,
};
use sqlite_disk::Disk;
use std::alloc::Global;
use std::io;

/// No log has this number of frames.
pub(crate) const MOST_FRAMES: usize = 4_294_967_295;

/// How a frame fits the header of the one before it.
#[derive(Clone, Copy)]
pub(crate) enum Fit {
    /// The file ends before it does.
    Absent,
    /// It does not fit.
    Broken,
    /// It fits, and its commit continues.
    Inner,
    /// It fits, and ends its commit.
    Last,
}

/// The checksum from which a frame continues, as it is stored before the frame.
fn sum_before<D: Disk>(log: &mut D, head: &[u8; 32], page_size: usize, i: usize) -> io::Result<Sum>
    requires usable { IsTrue (D.Disk.is_usable log.old) }
    requires size { page_size ≤ 65536 }
    requires few { i ≤ 0xffff_ffff }
    requires head { IsClean D.Disk log.old → head.now ≡ header (D.Disk.seen log.old) }
    ensures sum { IfOk result (λ sum. IsClean D.Disk log.new → sum ≡ recovery.sum_before page_size (D.Disk.seen log.old) i) }
    ensures same { OnlyReads D.Disk log.old log.new }
{
    if i == 0 {
        return Ok(get_sum(head, 24));
    }
    let mut stored = [0; 8];
    log.read_at(frame_offset(page_size, i - 1) + 16, &mut stored)?;
    Ok(get_sum(&stored, 0))
}

/// How frame `i` fits. `len` is the length of the log.
fn look_at<D: Disk>(
    log: &mut D,
    len: usize,
    head: &[u8; 32],
    page_size: usize,
    i: usize,
    buf: &mut [u8],
) -> io::Result<Fit>
    requires usable { IsTrue (D.Disk.is_usable log.old) }
    requires len { IsClean D.Disk log.old → len ≡ length (D.Disk.seen log.old) }
    requires size { page_size ≤ 65536 }
    requires few { i ≤ 0xffff_ffff }
    requires head { IsClean D.Disk log.old → head.now ≡ header (D.Disk.seen log.old) }
    requires buf { length buf.old ≡ 24 + page_size }
    ensures fits { IfOk result (λ fit. IsClean D.Disk log.new → IsFit page_size (D.Disk.seen log.old) i fit) }
    ensures same { OnlyReads D.Disk log.old log.new }
{
    let at = frame_offset(page_size, i);
    if at + buf.len() > len {
        return Ok(Fit::Absent);
    }
    let before = sum_before(log, head, page_size, i)?;
    log.read_at(at, buf)?;
    if !is_frame(head, before, buf) {
        return Ok(Fit::Broken);
    }
    if get_be32(buf, 4) == 0 {
        Ok(Fit::Inner)
    } else {
        Ok(Fit::Last)
    }
}

/// The first frame that does not fit.
fn first_broken<D: Disk>(
    log: &mut D,
    len: usize,
    head: &[u8; 32],
    page_size: usize,
    buf: &mut [u8],
) -> Result<usize, BooksError>
    requires usable { IsTrue (D.Disk.is_usable log.old) }
    requires len { IsClean D.Disk log.old → len ≡ length (D.Disk.seen log.old) }
    requires size { page_size ≤ 65536 }
    requires head { IsClean D.Disk log.old → head.now ≡ header (D.Disk.seen log.old) }
    requires buf { length buf.old ≡ 24 + page_size }
    ensures first { IfOk result (λ n. IsClean D.Disk log.new → IsFirstBroken page_size (D.Disk.seen log.old) n) }
    ensures few { IfOk result (λ n. n < 0xffff_ffff) }
    ensures same { OnlyReads D.Disk log.old log.new }
{
    for i in 0..MOST_FRAMES {
        match look_at(log, len, head, page_size, i, buf)? {
            Fit::Absent | Fit::Broken => return Ok(i),
            Fit::Inner | Fit::Last => {}
        }
    }
    Err(BooksError::Damaged)
}

/// Whether a frame that fits so is one that fits and, if that is asked for, ends a commit.
fn is_wanted(fit: Fit, ends: bool) -> bool
    ensures { result ≡ wants fit ends }
{
    match fit {
        Fit::Absent | Fit::Broken => false,
        Fit::Inner => !ends,
        Fit::Last => true,
    }
}

/// The first frame from a place on that fits and, if that is asked for, ends a commit.
fn next_frame<D: Disk>(
    log: &mut D,
    len: usize,
    head: &[u8; 32],
    page_size: usize,
    from: usize,
    ends: bool,
    buf: &mut [u8],
) -> Result<Option<usize>, BooksError>
    requires usable { IsTrue (D.Disk.is_usable log.old) }
    requires len { IsClean D.Disk log.old → len ≡ length (D.Disk.seen log.old) }
    requires size { page_size ≤ 65536 }
    requires head { IsClean D.Disk log.old → head.now ≡ header (D.Disk.seen log.old) }
    requires buf { length buf.old ≡ 24 + page_size }
    ensures next { IfOk result (λ found. IsClean D.Disk log.new → MatchOption found
        (HasNoNext ends page_size (D.Disk.seen log.old) from) (IsNext ends page_size (D.Disk.seen log.old) from)) }
    ensures few { IfOk result (λ found. MatchOption found (0 ≤ from) (λ n. n < 0xffff_ffff)) }
    ensures same { OnlyReads D.Disk log.old log.new }
{
    for i in from..MOST_FRAMES {
        let fit = look_at(log, len, head, page_size, i, buf)?;
        if is_wanted(fit, ends) {
            return Ok(Some(i));
        }
        if let Fit::Absent = fit {
            return Ok(None);
        }
    }
    Err(BooksError::Damaged)
}

/// Whether a frame does not fit, with the end of a commit after it and a further frame after that.
fn is_broken<D: Disk>(
    log: &mut D,
    len: usize,
    head: &[u8; 32],
    page_size: usize,
    buf: &mut [u8],
) -> Result<bool, BooksError>
    requires usable { IsTrue (D.Disk.is_usable log.old) }
    requires len { IsClean D.Disk log.old → len ≡ length (D.Disk.seen log.old) }
    requires size { page_size ≤ 65536 }
    requires head { IsClean D.Disk log.old → head.now ≡ header (D.Disk.seen log.old) }
    requires buf { length buf.old ≡ 24 + page_size }
    ensures found { IfOk result (λ b. IsClean D.Disk log.new → (IsTrue b ↔ IsBroken page_size (D.Disk.seen log.old))) }
    ensures same { OnlyReads D.Disk log.old log.new }
{
    let bad = first_broken(log, len, head, page_size, buf)?;
    let Some(last) = next_frame(log, len, head, page_size, bad + 1, true, buf)? else {
        return Ok(false);
    };
    let later = next_frame(log, len, head, page_size, last + 1, false, buf)?;
    Ok(later.is_some())
}

/// Whether a log is damaged. It reads one frame at a time, and writes nothing.
pub(crate) fn is_damaged<D: Disk>(alloc: Global, log: &mut D) -> Result<bool, BooksError>
    requires { IsTrue (D.Disk.is_usable log.old) }
    ensures found { IfOk result (λ b. IsClean D.Disk log.new → (IsTrue b ↔ IsDamaged (D.Disk.seen log.old))) }
    ensures same { OnlyReads D.Disk log.old log.new }
{
    let len = log.len()?;
    if len < HEADER_LEN {
        return Ok(is_begun(log, len)?);
    }
    let mut head = [0; 32];
    log.read_at(0, &mut head)?;
    if !is_signed(&head) {
        return Ok(head[0] != 0);
    }
    let page_size = get_be32(&head, 8) as usize;
    if page_size > 65536 {
        return Err(BooksError::NoBooks);
    }
    let mut buf = vec![in alloc; 0; FRAME_HEADER_LEN + page_size]?;
    is_broken(log, len, &head, page_size, &mut buf)
}

/// Whether a file that is shorter than a log's header has its first byte.
fn is_begun<D: Disk>(log: &mut D, len: usize) -> io::Result<bool>
    requires usable { IsTrue (D.Disk.is_usable log.old) }
    requires len { IsClean D.Disk log.old → len ≡ length (D.Disk.seen log.old) }
    requires short { len < 32 }
    ensures found { IfOk result (λ b. IsClean D.Disk log.new → (IsTrue b ↔ IsDamaged (D.Disk.seen log.old))) }
    ensures same { OnlyReads D.Disk log.old log.new }
{
    if len == 0 {
        return Ok(false);
    }
    let mut first = [0];
    log.read_at(0, &mut first)?;
    Ok(first[0] != 0)
}
