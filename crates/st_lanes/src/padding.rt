//! The padded blocks of one text (FIPS 180-4, 5.1.1).

ghost use Rattle.std.specs.Prelude.{◌≡◌, ℕ, ◌+◌, ◌*◌, ◌%◌, ◌<◌, ◌≤◌, ◌++◌, length, take, drop};
ghost use Rattle.st_lanes.specs.Padded.{block_behind, count_behind, end_behind};

/// Block `i` of a text alone.
fn block_of(text: &[u8], i: usize) -> [u8; 64]
    requires { 64 * i + 64 ≤ length text.now }
    ensures { result ≡ take 64 (drop (i * 64) text.now) }
{
    let mut block = [0; 64];
    block.copy_from_slice(&text[64 * i..64 * i + 64]);
    block
}

/// The blocks of a text that follows whole blocks: its padding has nine bytes or more.
pub(crate) fn block_count(text: &[u8]) -> usize
    ensures { (n : ℕ) → n % 64 ≡ 0 → result ≡ count_behind n text.now }
{
    (text.len() + 8) / 64 + 1
}

/// Writes bytes from `at` on.
fn put_at(out: &mut [u8; 128], at: usize, bytes: &[u8])
    requires { at + length bytes.now ≤ 128 }
    ensures { out.new ≡ take at out.old ++ (bytes.now ++ drop (at + length bytes.now) out.old) }
{
    out[at..at + bytes.len()].copy_from_slice(bytes);
}

/// The text's last bytes and the padding, for a text after `before` bytes of whole blocks. They fill one block or two.
fn padded_end(text: &[u8], before: u64) -> [u8; 128]
    requires { before % 64 ≡ 0 }
    ensures { take (length (end_behind before text.now)) result ≡ end_behind before text.now }
{
    let rest = &text[text.len() / 64 * 64..];
    let bits = before.wrapping_add(text.len() as u64).wrapping_mul(8);
    let end = if rest.len() < 56 { 64 } else { 128 };
    let mut out = [0; 128];
    put_at(&mut out, 0, rest);
    put_at(&mut out, rest.len(), &[0x80]);
    put_at(&mut out, end - 8, &bits.to_be_bytes());
    out
}

/// Block `i` of a text that follows `before` bytes of whole blocks; zeros if there is none.
pub(crate) fn padded_block(text: &[u8], before: u64, i: usize) -> [u8; 64]
    requires { before % 64 ≡ 0 }
    ensures { i < count_behind before text.now → result ≡ block_behind before text.now i }
{
    let whole = text.len() / 64;
    if i < whole {
        return block_of(text, i);
    }
    if i - whole >= 2 {
        return [0; 64];
    }
    block_of(&padded_end(text, before), i - whole)
}
