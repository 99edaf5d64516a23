//! The skeleton of a packet's frames: their types and lengths (RFC 0029, section 5.3).

ghost use Rattle.std.specs.Prelude.{◌≡◌, IsOk, OnOk, IfErr, Err};
ghost use Rattle.st_oer.specs.Seen.{Gives};
ghost use Rattle.st_frames.specs.Reading.{raw_at, raws_at};

use st_oer::{Cut, OerError};

/// A frame's type and contents, and the bytes after it.
#[tactic(auto, unfolding(crate::specs::Reading::raw_at))]
pub(crate) fn raw_frame(bytes: &[u8]) -> Result<(u8, &[u8], &[u8]), OerError>
    ensures { Gives (λ x. (record { type = x.0; contents = x.1.now }, x.2.now)) result (raw_at bytes.now) }
{
    let mut cut = Cut::new(bytes);
    let kind = cut.get_u8()?;
    let contents = cut.octets()?;
    Ok((kind, contents, cut.rest()))
}

/// Checks that there are `count` frames in these bytes. Fails with the first fault in a type or a length.
pub(crate) fn check_skeleton(bytes: &[u8], count: u64) -> Result<(), OerError>
    ensures ok { OnOk result (IsOk (raws_at count bytes.now)) }
    ensures err { IfErr result (λ e. raws_at count bytes.now ≡ Err e) }
{
    let mut rest = bytes;
    for _ in 0..count {
        let (_, _, after) = raw_frame(rest)?;
        rest = after;
    }
    Ok(())
}
