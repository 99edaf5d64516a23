//! How the input is cut into parts, each for a stream of its own.

ghost use Rattle.std.specs.Prelude.{◌≡◌, ◌<◌};
ghost use Rattle.ilpstream_local.specs.Parts.{part_size, stream_at};

/// The size in bytes of a part if `bytes` bytes are cut into `parts` parts, rounded up. The last parts may be
/// shorter, or empty. `parts` is at least 1.
pub fn part_size(bytes: usize, parts: usize) -> usize
    requires { 0 < parts }
    ensures { result ≡ part_size bytes parts }
{
    bytes.div_ceil(parts)
}

/// The number of the stream that carries the part at this place, from 0: the client's own numbers are odd.
pub(crate) fn stream_at(place: usize) -> u8
    requires { place < 32 }
    ensures { result ≡ stream_at place }
{
    (2 * place + 1) as u8
}
