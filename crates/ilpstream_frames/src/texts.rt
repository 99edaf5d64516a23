//! The texts that the commands write.

ghost use Rattle.std.specs.Prelude.{◌≡◌, IfOk, string_bytes};
ghost use Rattle.ilpstream_frames.specs.Texts.{line_text, numbered_text, plain_text, stream_text, wrapped_text};

use crate::error::LineError;
use std::alloc::{AllocError, Allocator};

/// The line that reports a refused line of input, by its index and the number of its error. Fails if memory is
/// refused.
pub fn refused_line<A: Allocator + Copy>(
    alloc: A,
    index: u64,
    error: LineError,
) -> Result<String<A>, AllocError>
    ensures { IfOk result (λ text. string_bytes text ≡ line_text index error) }
{
    numbered_line(alloc, index, error.number(), error.inner())
}

fn numbered_line<A: Allocator + Copy>(
    alloc: A,
    index: u64,
    number: u8,
    inner: Option<u64>,
) -> Result<String<A>, AllocError>
    ensures { IfOk result (λ text. string_bytes text ≡ numbered_text index number inner) }
{
    match inner {
        None => plain_line(alloc, index, number),
        Some(inner) => wrapped_line(alloc, index, number, inner),
    }
}

#[tactic(auto, using(crate::proofs::Pieces::pieces))]
fn plain_line<A: Allocator + Copy>(
    alloc: A,
    index: u64,
    number: u8,
) -> Result<String<A>, AllocError>
    ensures { IfOk result (λ text. string_bytes text ≡ plain_text index number) }
{
    let text = format!(in alloc; "line {index} refused {number}\n")?;
    Ok(text)
}

#[tactic(auto, using(crate::proofs::Pieces::pieces))]
fn wrapped_line<A: Allocator + Copy>(
    alloc: A,
    index: u64,
    number: u8,
    inner: u64,
) -> Result<String<A>, AllocError>
    ensures { IfOk result (λ text. string_bytes text ≡ wrapped_text index number inner) }
{
    let text = format!(in alloc; "line {index} refused {number}({inner})\n")?;
    Ok(text)
}

/// The line that reports a stream: its number, the length of its run in bytes, and the run in hexadecimal. Fails if
/// memory is refused.
#[tactic(auto, using(crate::proofs::Pieces::pieces))]
pub fn stream_line<A: Allocator + Copy>(
    alloc: A,
    stream: usize,
    bytes: &[u8],
) -> Result<String<A>, AllocError>
    ensures { IfOk result (λ text. string_bytes text ≡ stream_text stream bytes.now) }
{
    let length = bytes.len();
    if length == 0 {
        let text = format!(in alloc; "stream {stream} {length} -\n")?;
        return Ok(text);
    }
    let digits = hex::encode(alloc, bytes)?;
    let text = format!(in alloc; "stream {stream} {length} {digits}\n")?;
    Ok(text)
}
