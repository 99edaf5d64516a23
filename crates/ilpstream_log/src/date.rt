//! Dates, as a line begins with them.

ghost use Rattle.std.specs.Prelude.{◌≡◌};
ghost use Rattle.st_ilp.specs.Calendar.{DateAndTime};
ghost use Rattle.st_ilp.specs.Expiry.{digits_of};
ghost use Rattle.ilpstream_log.specs.Lines as spec;

use st_ilp::{Moment, write_expiry};

/// The digits of a date with the separators between them, as `2026-01-02T03:04:05.006Z`.
fn separated(d: [u8; 17]) -> [u8; 24]
    ensures { (t : DateAndTime) → d ≡ digits_of t → result ≡ spec.written_date t }
{
    [
        d[0], d[1], d[2], d[3], b'-', d[4], d[5], b'-', d[6], d[7], b'T', d[8], d[9], b':', d[10],
        d[11], b':', d[12], d[13], b'.', d[14], d[15], d[16], b'Z',
    ]
}

/// The date and the time of day of a moment in UTC.
pub(crate) fn date_text(moment: Moment) -> [u8; 24]
    ensures { result ≡ spec.date_text moment }
{
    match write_expiry(moment.ms()) {
        Ok(digits) => separated(digits),
        Err(_) => unreachable!(),
    }
}
