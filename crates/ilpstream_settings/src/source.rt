//! The sources of the token and of the secret of an end: the command line, or a file that it names.

ghost use Rattle.std.specs.Prelude.{MatchOption};
ghost use Rattle.ilpstream_settings.specs.declared.source.Secret.{Secret};
ghost use Rattle.ilpstream_settings.specs.declared.source.Token.{Token};
ghost use Rattle.ilpstream_settings.specs.Settings.{said};
ghost use Rattle.ilpstream_settings.specs.Sources.{SaysSecret, SaysToken};

use crate::text::read_secret;
use st_http::is_field_text;

/// The source of a bearer token.
#[derive(Clone, Copy)]
pub enum Token<'a> {
    /// It is this text: 1 to 255 visible characters.
    Given(&'a str),
    /// It is the first line of the file of this name.
    InFile(&'a str),
}

/// The source of the shared secret of a connection.
#[derive(Clone, Copy)]
pub enum Secret<'a> {
    /// It is these 32 bytes.
    Given([u8; 32]),
    /// It is written as 64 hexadecimal digits in the first line of the file of this name.
    InFile(&'a str),
}

/// The source of the token, by the texts of two options: the token, or the name of its file. `None` if the token is
/// bad, and if both texts are given or neither.
pub(crate) fn token_of<'a>(text: Option<&'a str>, file: Option<&'a str>) -> Option<Token<'a>>
    ensures { MatchOption result ((t : Token) → ¬ (SaysToken (said text.entry) (said file.entry) t)) (SaysToken (said text.entry) (said file.entry)) }
{
    match (text, file) {
        (Some(text), None) if is_field_text(text) => Some(Token::Given(text)),
        (None, Some(file)) => Some(Token::InFile(file)),
        _ => None,
    }
}

/// The source of the secret, by the texts of two options: the secret, or the name of its file. `None` if the secret is
/// bad, and if both texts are given or neither.
pub(crate) fn secret_of<'a>(text: Option<&'a str>, file: Option<&'a str>) -> Option<Secret<'a>>
    ensures { MatchOption result ((s : Secret) → ¬ (SaysSecret (said text.entry) (said file.entry) s)) (SaysSecret (said text.entry) (said file.entry)) }
{
    match (text, file) {
        (Some(text), None) => match read_secret(text) {
            Some(secret) => Some(Secret::Given(secret)),
            None => None,
        },
        (None, Some(file)) => Some(Secret::InFile(file)),
        _ => None,
    }
}
