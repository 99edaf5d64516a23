//! Numbers written in decimal digits.

ghost use Rattle.std.specs.Prelude.{◌≡◌, ℕ, MatchOption};
ghost use Rattle.ilpstream_settings.specs.Numbers.{IsNumber};

/// The number that a text writes in decimal digits, if it is at most `most`. `None` if the text is empty, has
/// another character than a digit, or writes a larger number. Leading zeros are allowed.
pub fn read_number(text: &[u8], most: u64) -> Option<u64>
    ensures { MatchOption result ((n : ℕ) → ¬ (IsNumber most text.now n)) (IsNumber most text.now) }
{
    if text.is_empty() {
        return None;
    }
    let mut number: u64 = 0;
    for digit in text {
        if !digit.is_ascii_digit() {
            return None;
        }
        number = number
            .checked_mul(10)?
            .checked_add(u64::from(digit.saturating_sub(b'0')))?;
        if number > most {
            return None;
        }
    }
    Some(number)
}
