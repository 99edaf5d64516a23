//! The length in bytes of a packet that has one frame.

ghost use Rattle.std.specs.Prelude.{[], ◌∷◌, length, ◌≡◌, ◌<◌, ◌≤◌, ◌+◌, ◌^◌, ◌⊎◌};
ghost use Rattle.st_frames.specs.Written.{packet_length, contents_text};
ghost use Rattle.st_sender.specs.Shown.{telling};
ghost use Rattle.st_sender.specs.Allowed.{packet_size, data_contents, close_contents, unit_contents, data_size, close_size, unit_size};

use crate::notice::Notice;
use st_oer::{length_size, var_uint_size};

/// The most bytes by which a StreamClose makes a packet longer: its frame has at most 13 bytes, and the packet's number of
/// frames grows by at most 7 (RFC 0029, section 5.2; RFC 0030).
pub const CLOSE_SIZE: usize = 20;
/// And by which a limit does: its frame has at most 29 bytes.
pub const LIMIT_SIZE: usize = 36;
/// And by which a frame of data does in addition to its bytes: it has at most 25 more than these.
pub const DATA_SIZE: usize = 32;

#[tactic(auto, unfolding(crate::specs::Allowed::packet_size))]
fn packet_size(sequence: u64, least: u64, contents: usize) -> usize
    requires { contents < 2 ^ 62 }
    ensures { result ≡ packet_size sequence least contents }
{
    2 + var_uint_size(sequence)
        + var_uint_size(least)
        + var_uint_size(1)
        + 1
        + length_size(contents as u64)
        + contents
}

#[tactic(auto, unfolding(crate::specs::Allowed::data_contents))]
fn data_contents(stream: u8, offset: u64, count: u64) -> usize
    requires { count < 2 ^ 32 }
    ensures value { result ≡ data_contents stream offset count }
    ensures small { result < 2 ^ 62 }
{
    var_uint_size(u64::from(stream)) + var_uint_size(offset) + length_size(count) + count as usize
}

#[tactic(auto, unfolding(crate::specs::Allowed::close_contents))]
fn close_contents(stream: u8) -> usize
    ensures value { result ≡ close_contents stream }
    ensures small { result < 2 ^ 62 }
{
    var_uint_size(u64::from(stream)) + 1 + length_size(0)
}

#[tactic(auto, unfolding(crate::specs::Allowed::unit_contents))]
fn unit_contents(stream: u8) -> usize
    ensures value { result ≡ unit_contents stream }
    ensures small { result < 2 ^ 62 }
{
    var_uint_size(u64::from(stream)) + var_uint_size(1)
}

/// The contents of a notice's frame.
fn notice_contents(notice: Notice) -> usize
    ensures value { result ≡ length (contents_text (telling notice)) }
    ensures small { result < 2 ^ 62 }
{
    match notice {
        Notice::ConnectionDataBlocked { max_offset } => var_uint_size(max_offset),
        Notice::StreamDataBlocked { stream, max_offset } => {
            var_uint_size(stream) + var_uint_size(max_offset)
        }
        Notice::StreamMoneyBlocked {
            stream,
            receive_max,
            total,
        } => var_uint_size(stream) + var_uint_size(receive_max) + var_uint_size(total),
        Notice::ConnectionMaxData { max_offset } => var_uint_size(max_offset),
        Notice::StreamMaxData { stream, max_offset } => {
            var_uint_size(stream) + var_uint_size(max_offset)
        }
        Notice::StreamMaxMoney {
            stream,
            receive_max,
            total,
        } => var_uint_size(stream) + var_uint_size(receive_max) + var_uint_size(total),
    }
}

/// The length in bytes of a packet with one notice.
pub fn notice_size(sequence: u64, notice: Notice) -> usize
    ensures { result ≡ packet_length sequence 0 (telling notice ∷ []) }
{
    packet_size(sequence, 0, notice_contents(notice))
}

fn data_size(sequence: u64, stream: u8, offset: u64, count: u64) -> usize
    requires { count < 2 ^ 32 }
    ensures { result ≡ data_size sequence stream offset count }
{
    packet_size(sequence, 0, data_contents(stream, offset, count))
}

/// The length in bytes of a packet with one StreamClose.
pub fn close_size(sequence: u64, stream: u8) -> usize
    ensures { result ≡ close_size sequence stream }
{
    packet_size(sequence, 0, close_contents(stream))
}

/// The length in bytes of a packet with one unit of money. `least` is its prepare amount.
pub fn unit_size(sequence: u64, least: u64, stream: u8) -> usize
    ensures { result ≡ unit_size sequence least stream }
{
    packet_size(sequence, least, unit_contents(stream))
}

/// How many bytes of a stream, at most `most`, fit from `offset` on in a packet of `room` bytes.
pub fn longest(sequence: u64, stream: u8, offset: u64, most: u64, room: usize) -> u64
    requires { most ≤ 16000 }
    ensures most { result ≤ most }
    ensures fits { (result ≡ 0) ⊎ (data_size sequence stream offset result ≤ room) }
    ensures longest { result < most → room < data_size sequence stream offset (result + 1) }
{
    let all = data_size(sequence, stream, offset, most);
    let guess = most.saturating_sub(all.saturating_sub(room) as u64);
    let start = if data_size(sequence, stream, offset, guess) <= room {
        guess
    } else {
        0
    };
    for count in start..most {
        if data_size(sequence, stream, offset, count + 1) > room {
            return count;
        }
    }
    most
}
