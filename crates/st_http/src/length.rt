//! The length of a body, from the header fields (RFC 9112, section 6).

ghost use Rattle.std.specs.Prelude.{◌≡◌, ◌==◌, ℕ, List, map, codes, IsTrue};
ghost use Rattle.std.specs.List.{list_all};
ghost use Rattle.std.specs.Char.{is_ascii_digit};
ghost use Rattle.st_http.specs.Kept.{under};
ghost use Rattle.st_http.specs.Length as spec;

use http_header::{CONTENT_LENGTH, HeaderMap, HeaderValue, TRANSFER_ENCODING, ValueIter};

/// The most bytes of a body.
pub const MAX_BODY: usize = 65_535;

/// What the header fields say of the length of the body.
#[derive(Clone, Copy, Debug, PartialEq, Eq)]
pub enum Length {
    /// There is no Content-Length, or there is a Transfer-Encoding.
    Missing,
    /// A Content-Length is not a number, or two of them differ.
    Malformed,
    /// The length is more than `MAX_BODY`.
    TooLong,
    /// The length in bytes.
    Of(usize),
}

/// Whether the value is one digit or more, and nothing else.
#[tactic(auto, using(crate::proofs::Walks::and_more))]
fn is_number(value: &[u8]) -> bool
    ensures { result ≡ spec.is_number value.now }
{
    let mut digits = !value.is_empty();
    for byte in value {
        digits &= byte.is_ascii_digit();
    }
    digits
}

/// The digits without the zeros in front.
fn without_zeros(digits: &[u8]) -> &[u8]
    ensures { result.now ≡ spec.without_zeros digits.now }
{
    let mut rest = digits;
    while let [b'0', more @ ..] = rest {
        rest = more;
    }
    rest
}

/// Whether two texts of digits write one number, however long they are.
fn are_equal(first: &[u8], second: &[u8]) -> bool
    requires first { IsTrue (list_all is_ascii_digit first.now) }
    requires second { IsTrue (list_all is_ascii_digit second.now) }
    ensures { result ≡ (spec.number second.now == spec.number first.now) }
{
    without_zeros(second) == without_zeros(first)
}

/// Whether each value is a number, and the one that these digits write.
fn all_write(digits: &[u8], values: ValueIter<'_, HeaderValue>) -> bool
    requires { IsTrue (list_all is_ascii_digit digits.now) }
    ensures { result ≡ list_all (spec.is_number_of (spec.number digits.now)) (map (λ v. v.bytes) values.entry) }
{
    for value in values {
        let bytes = value.as_bytes();
        if !is_number(bytes) || !are_equal(digits, bytes) {
            return false;
        }
    }
    true
}

/// The length that digits write.
fn length_of(digits: &[u8]) -> Length
    ensures { result ≡ spec.length_up_to (spec.number digits.now) }
{
    let mut number = 0;
    for digit in digits {
        number = 10 * number + usize::from(digit.saturating_sub(b'0'));
        if number > MAX_BODY {
            return Length::TooLong;
        }
    }
    Length::Of(number)
}

/// What the values of Content-Length say.
fn length_said(values: ValueIter<'_, HeaderValue>) -> Length
    ensures { result ≡ spec.length_said (map (λ v. v.bytes) values.entry) }
{
    let mut others = values;
    let Some(first) = others.next() else {
        return Length::Missing;
    };
    let digits = first.as_bytes();
    if is_number(digits) && all_write(digits, others) {
        length_of(digits)
    } else {
        Length::Malformed
    }
}

/// What the header fields say of the length of the body (RFC 9112, section 6).
pub fn content_length(fields: &HeaderMap) -> Length
    ensures { result ≡ spec.length_beside (under fields.now (codes "transfer-encoding")) (under fields.now (codes "content-length")) }
{
    if fields.get(TRANSFER_ENCODING).is_some() {
        return Length::Missing;
    }
    length_said(fields.get_all(CONTENT_LENGTH).iter())
}
