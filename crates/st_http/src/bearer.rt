//! The account of a request, by its bearer token.

ghost use Rattle.std.specs.Prelude.{◌≡◌, ℕ, List, map, codes};
ghost use Rattle.st_http.specs.Bearer as spec;
ghost use Rattle.st_http.specs.Kept.{under};

use http_header::{AUTHORIZATION, HeaderMap};

/// The bytes from the first one that is not a space.
fn without_spaces(bytes: &[u8]) -> &[u8]
    ensures { result.now ≡ spec.without_spaces bytes.now }
{
    let mut rest = bytes;
    while let [b' ', more @ ..] = rest {
        rest = more;
    }
    rest
}

/// Whether a value of Authorization has the scheme Bearer, its letters in any case, followed by a space.
fn is_bearer(value: &[u8]) -> bool
    ensures { result ≡ spec.is_bearer value.now }
{
    value.len() > 6 && value[..6].eq_ignore_ascii_case(b"bearer") && value[6] == b' '
}

/// The first place of the value's token among the tokens.
fn place_of(tokens: &[&str], value: &[u8]) -> Option<usize>
    ensures { result ≡ spec.place_of (map (λ t. t.now) tokens.now) value.now }
{
    if !is_bearer(value) {
        return None;
    }
    let token = without_spaces(&value[6..]);
    let mut rest = tokens;
    let mut place = 0;
    while let [listed, more @ ..] = rest {
        if listed.as_bytes() == token {
            return Some(place);
        }
        place += 1;
        rest = more;
    }
    None
}

/// The account of a request: the first place in `tokens` of a bearer token in its Authorization fields (RFC 0035, RFC
/// 6750). The first field whose token is listed decides. `None` if none is.
pub fn account(tokens: &[&str], fields: &HeaderMap) -> Option<usize>
    ensures { result ≡ spec.account_said (map (λ t. t.now) tokens.now) (under fields.now (codes "authorization")) }
{
    for value in fields.get_all(AUTHORIZATION) {
        let place = place_of(tokens, value.as_bytes());
        if place.is_some() {
            return place;
        }
    }
    None
}
