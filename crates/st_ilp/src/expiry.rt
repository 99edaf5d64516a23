//! The text of an expiry (RFC 0027, field expiresAt).

ghost use Rattle.std.specs.Prelude.{◌≡◌, ◌≢◌, ◌+◌, ◌-◌, ◌*◌, ◌%◌, ◌<◌, ◌*ℤ◌, ◌≤ℤ◌, ℤ, pos, IfSome, IfNone, IsSomeAnd, slice_index};
ghost use Rattle.jiff_core.specs.DateTime.{civil_nanos};
ghost use Rattle.st_oer.specs.Seen.{Gives};
ghost use Rattle.st_ilp.specs.Calendar.{DateAndTime, Exists, milliseconds};
ghost use Rattle.st_ilp.specs.Dates.{seen};
ghost use Rattle.st_ilp.specs.Inside.{named_by};
ghost use Rattle.st_ilp.specs.Expiry.{digits_of, expiry_at, written_expiry};

use crate::error::IlpError;
use jiff::SignedDuration;
use jiff::civil::{DateTime, Time, date};

fn epoch() -> DateTime
    ensures { civil_nanos result ≡ pos 0 }
{
    date(1970, 1, 1).to_datetime(Time::midnight())
}

fn digit(n: u16) -> u8
    ensures { result ≡ 48 + n % 10 }
{
    b'0' + (n % 10) as u8
}

/// The digits of a date and time.
fn text_of(year: u16, month: u8, day: u8, hour: u8, minute: u8, second: u8, milli: u16) -> [u8; 17]
    ensures { result ≡ digits_of (record { year = year; month = month; day = day; hour = hour; minute = minute; second = second; milli = milli }) }
{
    let month = u16::from(month);
    let day = u16::from(day);
    let hour = u16::from(hour);
    let minute = u16::from(minute);
    let second = u16::from(second);
    [
        digit(year / 1000),
        digit(year / 100),
        digit(year / 10),
        digit(year),
        digit(month / 10),
        digit(month),
        digit(day / 10),
        digit(day),
        digit(hour / 10),
        digit(hour),
        digit(minute / 10),
        digit(minute),
        digit(second / 10),
        digit(second),
        digit(milli / 100),
        digit(milli / 10),
        digit(milli),
    ]
}

/// The digits of a date and time of the library, whose year is at least 0.
fn datetime_text(at: DateTime) -> [u8; 17]
    ensures { result ≡ digits_of (seen at) }
{
    text_of(
        at.year().unsigned_abs(),
        at.month().unsigned_abs(),
        at.day().unsigned_abs(),
        at.hour().unsigned_abs(),
        at.minute().unsigned_abs(),
        at.second().unsigned_abs(),
        at.millisecond().unsigned_abs(),
    )
}

/// The date and time that many milliseconds after the start of 1970, if its year has four digits.
fn datetime_at(millis: i64) -> Option<DateTime>
    ensures some { IfSome result (λ at. (pos 0 ≤ℤ at.date.year) × (civil_nanos at ≡ millis *ℤ pos 1_000_000)) }
    ensures none { IfNone result ((t : DateAndTime) → Exists t → millis ≢ milliseconds t) }
{
    match epoch().checked_add(SignedDuration::from_millis(millis)) {
        Ok(at) => {
            if at.year() < 0 {
                return None;
            }
            Some(at)
        }
        Err(_) => None,
    }
}

/// Writes an expiry as its 17 digits, YYYYMMDDHHMMSSfff in UTC (RFC 0027). `millis` is in milliseconds since 1970-01-01
/// 00:00 UTC.
///
/// Fails with `Expiry` if the year is outside 0000 to 9999.
pub fn write_expiry(millis: i64) -> Result<[u8; 17], IlpError>
    ensures { Gives (λ text. text) result (written_expiry millis) }
{
    match datetime_at(millis) {
        Some(at) => Ok(datetime_text(at)),
        None => Err(IlpError::Expiry),
    }
}

/// The number that two digits give.
fn two_digits(text: &[u8; 17], at: usize) -> u32
    requires { at < 16 }
    ensures { result ≡ (slice_index text.now at - 48) * 10 + (slice_index text.now (at + 1) - 48) }
{
    let tens = u32::from(text[at].saturating_sub(b'0'));
    let ones = u32::from(text[at + 1].saturating_sub(b'0'));
    tens * 10 + ones
}

/// The numbers of a date and a time of day, which may name none.
#[derive(Clone, Copy)]
struct Numbers {
    year: u32,
    month: u32,
    day: u32,
    hour: u32,
    minute: u32,
    second: u32,
    milli: u32,
}

/// The numbers that the digits give.
fn numbers_of(text: &[u8; 17]) -> Numbers
    ensures { (t : DateAndTime) → Exists t → text.now ≡ digits_of t → named_by result ≡ t }
{
    let ones = u32::from(text[16].saturating_sub(b'0'));
    Numbers {
        year: two_digits(text, 0) * 100 + two_digits(text, 2),
        month: two_digits(text, 4),
        day: two_digits(text, 6),
        hour: two_digits(text, 8),
        minute: two_digits(text, 10),
        second: two_digits(text, 12),
        milli: two_digits(text, 14) * 10 + ones,
    }
}

/// The date and time with these numbers, if there is one.
fn named(numbers: Numbers) -> Option<DateTime>
    ensures year { IfSome result (λ at. pos 0 ≤ℤ at.date.year) }
    ensures whole { IfSome result (λ at. at.time.subsec_nanosecond % 1_000_000 ≡ 0) }
    ensures found { Exists (named_by numbers) → IsSomeAnd result (λ at. seen at ≡ named_by numbers) }
{
    if numbers.year > 9999 || numbers.month > 12 || numbers.day > 31 {
        return None;
    }
    if numbers.hour > 23 || numbers.minute > 59 || numbers.second > 59 || numbers.milli > 999 {
        return None;
    }
    let made = DateTime::new(
        numbers.year as i16,
        numbers.month as i8,
        numbers.day as i8,
        numbers.hour as i8,
        numbers.minute as i8,
        numbers.second as i8,
        (numbers.milli * 1_000_000) as i32,
    );
    match made {
        Ok(at) => Some(at),
        Err(_) => None,
    }
}

/// Milliseconds since the start of 1970.
fn millis_of(at: DateTime) -> i64
    requires year { pos 0 ≤ℤ at.date.year }
    requires whole { at.time.subsec_nanosecond % 1_000_000 ≡ 0 }
    ensures { result ≡ milliseconds (seen at) }
{
    at.duration_since(epoch()).as_millis() as i64
}

/// Reads the 17 digits of an expiry, YYYYMMDDHHMMSSfff in UTC (RFC 0027). The result is in milliseconds since
/// 1970-01-01 00:00 UTC.
///
/// Fails with `Expiry` if the text is not exactly 17 digits of an existing date with hour 00 to 23, minute and
/// second 00 to 59.
pub fn read_expiry(text: &[u8]) -> Result<i64, IlpError>
    ensures { Gives (λ millis. millis) result (expiry_at text.now) }
{
    let Ok(text) = <[u8; 17]>::try_from(text) else {
        return Err(IlpError::Expiry);
    };
    let Some(at) = named(numbers_of(&text)) else {
        return Err(IlpError::Expiry);
    };
    if datetime_text(at) != text {
        return Err(IlpError::Expiry);
    }
    Ok(millis_of(at))
}
