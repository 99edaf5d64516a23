//! Bits of one word.
ghost use Rattle.std.specs.Prelude.{◌≡◌, ℕ, ◌+◌, ◌*◌, ◌<◌, ◌≤◌, true, false, not, if◌then◌else◌, nat_lt};
ghost use Rattle.st_streams.specs.Table.{is_between};
ghost use Rattle.st_reassembly.specs.Ring.{has_bit};

/// The lowest `n` bits.
#[inline]
fn ones(n: u32) -> u64
    requires { n ≤ 64 }
    ensures { (i : ℕ) → i < 64 → has_bit result i ≡ nat_lt i n }
{
    if n == 64 { u64::MAX } else { (1 << n) - 1 }
}

/// The bits from `low` on and below `high`.
#[inline]
fn span(low: u32, high: u32) -> u64
    requires low { low ≤ 64 }
    requires high { high ≤ 64 }
    ensures { (i : ℕ) → i < 64 → has_bit result i ≡ is_between low high i }
{
    ones(high) & !ones(low)
}

/// The bits of the places from `from` on and before `to`, in the word that has the places from 64 times `word` on.
#[inline]
pub fn part(word: usize, from: usize, to: usize) -> u64
    requires { word < 1024 }
    ensures { (i : ℕ) → i < 64 → has_bit result i ≡ is_between from to (64 * word + i) }
{
    let first = 64 * word;
    if from <= first && first + 64 <= to {
        return ones(64);
    }
    let low = from.saturating_sub(first).min(64) as u32;
    let high = to.saturating_sub(first).min(64) as u32;
    span(low, high)
}

/// The word itself where `same` is true, otherwise the word with each bit inverted.
#[inline]
pub fn turned(word: u64, same: bool) -> u64
    ensures { (i : ℕ) → i < 64 → has_bit result i ≡ (if same then has_bit word i else not (has_bit word i)) }
{
    if same { word } else { !word }
}

/// No bit of the word is set.
#[inline]
pub fn is_blank(word: u64) -> bool
    ensures { result ≡ true → (i : ℕ) → i < 64 → has_bit word i ≡ false }
{
    word == 0
}

/// The lowest bit from `from` on that is set, or 64.
#[inline]
pub fn lowest(word: u64, from: u32) -> u32
    requires { from < 64 }
    ensures from { from ≤ result }
    ensures within { result ≤ 64 }
    ensures passed { (i : ℕ) → from ≤ i → i < result → has_bit word i ≡ false }
    ensures found { result < 64 → has_bit word result ≡ true }
{
    let left = word >> from;
    if left == 0 {
        64
    } else {
        from + left.trailing_zeros()
    }
}
