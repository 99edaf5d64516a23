//! Whom requests are sent to.

ghost use Rattle.std.specs.Prelude.{◌≡◌, ◌↔◌, IsTrue, IsSome, IfSome};
ghost use Rattle.st_http.specs.Texts as texts;

use crate::texts::is_field_text;

/// A neighbour: its address, written HOST:PORT, and the bearer token by which it knows this side (RFC 0035). Both
/// texts may be written in a request.
#[derive(Clone, Copy, Debug)]
pub struct Neighbour<'a> {
    /// The neighbour's address, written HOST:PORT: 1 to 255 visible characters.
    pub host: &'a str,
    /// The bearer token by which the neighbour knows this side: 1 to 255 visible characters.
    pub token: &'a str,
    ghost host_is: { IsTrue (texts.is_field_text host.now) },
    ghost token_is: { IsTrue (texts.is_field_text token.now) },
}

impl<'a> Neighbour<'a> {
    /// Makes a neighbour. Returns `None` if one of the two texts may not be written in a request: each is to have 1 to
    /// 255 characters from 0x21 to 0x7e (`is_field_text`).
    pub fn new(host: &'a str, token: &'a str) -> Option<Neighbour<'a>>
        ensures taken { IsSome result ↔ (IsTrue (texts.is_field_text host.now) × IsTrue (texts.is_field_text token.now)) }
        ensures parts { IfSome result (λ n. (n.host.now ≡ host.now) × (n.token.now ≡ token.now)) }
    {
        if !is_field_text(host) {
            return None;
        }
        if !is_field_text(token) {
            return None;
        }
        Some(Neighbour { host, token })
    }
}
