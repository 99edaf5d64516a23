//! The greatest number of rounds of a lossless run.

ghost use Rattle.std.specs.Prelude.{◌≡◌, ◌<◌, ◌≤◌, ◌^◌, length, sum};
ghost use Rattle.st_world_quiet.specs.Plays.{all_frames, are_lawful};
ghost use Rattle.st_world_quiet.specs.Promised.{IsMoreThanNeeded};
ghost use Rattle.st_world_quiet.specs.Playing.{bytes_of};

/// The most streams that an end opens.
const MAX_STREAMS: usize = 32;

/// How many bytes of data a frame has at most.
const FRAME: usize = 16_000;

/// Whether there are 1 to 32 streams, and an amount for each.
pub(crate) fn are_lawful(input: &[&[u8]], money: &[u64]) -> bool
    ensures { result ≡ are_lawful (bytes_of input.now) money.now }
{
    input.len() == money.len() && !input.is_empty() && input.len() <= MAX_STREAMS
}

/// How many frames of data the input needs.
fn frames_of(input: &[&[u8]]) -> u64
    ensures { all_frames (bytes_of input.now) < 2 ^ 64 → result ≡ all_frames (bytes_of input.now) }
{
    let mut frames: u64 = 0;
    for bytes in input {
        frames = frames.saturating_add(bytes.len().div_ceil(FRAME) as u64);
    }
    frames
}

/// All money.
fn total(money: &[u64]) -> u64
    ensures { sum money.now < 2 ^ 64 → result ≡ sum money.now }
{
    let mut all: u64 = 0;
    for amount in money {
        all = all.saturating_add(*amount);
    }
    all
}

/// More rounds than a lossless run has: data and money are sent together, at least one unit with each Prepare, then the
/// closes, and the last Send gives no Prepare.
pub(crate) fn most_rounds(input: &[&[u8]], money: &[u64]) -> u64
    requires { length input.now ≤ 32 }
    ensures { IsMoreThanNeeded (bytes_of input.now) money.now result }
{
    let filled = frames_of(input).max(total(money));
    filled.saturating_add(input.len() as u64 + 1)
}
