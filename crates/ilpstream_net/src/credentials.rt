//! The token and the secret of an end: given, or read from files.

ghost use Rattle.std.specs.Prelude.{◌≡◌, true, IfErr, IfOk, string_bytes};
ghost use Rattle.st_devices.specs.Tallies.{device_of, tally_of};
ghost use Rattle.st_http.specs.Texts as texts;
ghost use Rattle.ilpstream_output.specs.declared.error.Fault.TheVariants.{NoMemory};
ghost use Rattle.ilpstream_settings.specs.Sources.{IsSecret, IsToken};
ghost use Rattle.ilpstream_net.specs.Credentials.{AreOf, ComesOfLine, HasSecret, HasToken, IsLawfulToken, WhyNotOpened};
ghost use Rattle.ilpstream_net.specs.Credentials as spec;
ghost use Rattle.ilpstream_net.specs.declared.error.RunError.TheVariants.{Fault as IsFault};

use crate::error::RunError;
use crate::input::read_whole;
use crate::obstacle::{Obstacle, Step};
use ilpstream_output::Fault;
use ilpstream_settings::{Secret, Token, first_secret, first_token};
use st_devices::CountRead;
use std::alloc::Global;
use std::fs::{File, Files};
use std::io::Read;

/// The most bytes that are read of a file for its first line.
const MOST: u64 = 4096;

/// What an end shows and shares.
#[derive(Drop)]
pub struct Credentials {
    /// The bearer token: 1 to 255 visible characters.
    pub token: String,
    /// The shared secret of the connection.
    pub secret: [u8; 32],
}

/// Why a file that could not be read gives nothing: the option that names it is bad, or memory was refused.
fn unread(fault: Fault) -> RunError
    ensures { result ≡ spec.unread fault }
{
    match fault {
        Fault::NoMemory => RunError::Fault(Fault::NoMemory),
        _ => RunError::BadOption,
    }
}

/// The text, in memory of its own.
fn owned(alloc: Global, text: &str) -> Result<String, RunError>
    ensures same { IfOk result (λ s. string_bytes s ≡ text.now) }
    ensures refused { IfErr result (λ e. e ≡ IsFault NoMemory) }
{
    Ok(String::from_str(alloc, text)?)
}

/// The token in the first line of an input. Fails with `BadOption` if the line is not a valid token or the input cannot be
/// read, and with a fault if memory is refused.
fn token_from<R: Read>(alloc: Global, reader: &mut CountRead<R>) -> Result<String, RunError>
    ensures line { ComesOfLine (λ line token. IsToken line (string_bytes token))
        (R.remaining (device_of reader.old)) (tally_of reader.old) (tally_of reader.new) result }
    ensures visible { IfOk result (λ token. texts.is_field_text (string_bytes token) ≡ true) }
{
    let bytes = match read_whole(alloc, reader) {
        Ok(bytes) => bytes,
        Err(fault) => return Err(unread(fault)),
    };
    match first_token(&bytes) {
        Some(token) => owned(alloc, token),
        None => Err(RunError::BadOption),
    }
}

/// The secret in the first line of an input. Fails with `BadOption` if the line is not a valid secret or the input cannot
/// be read, and with a fault if memory is refused.
fn secret_from<R: Read>(alloc: Global, reader: &mut CountRead<R>) -> Result<[u8; 32], RunError>
    ensures { ComesOfLine IsSecret (R.remaining (device_of reader.old)) (tally_of reader.old) (tally_of reader.new) result }
{
    let bytes = match read_whole(alloc, reader) {
        Ok(bytes) => bytes,
        Err(fault) => return Err(unread(fault)),
    };
    match first_secret(&bytes) {
        Some(secret) => Ok(secret),
        None => Err(RunError::BadOption),
    }
}

/// The token that is given, or the one in the first line of its file. With a file, `obstacle` says what is wrong if this
/// fails. It is set on success too: the caller resets it.
fn token_of<'a, N: Files<File = File>>(
    rt: &N,
    alloc: Global,
    token: Token<'a>,
    obstacle: &mut Option<Obstacle<'a>>,
) -> Result<String, RunError>
    requires { IsLawfulToken token }
    ensures same { IfOk result (λ text. HasToken token.entry (string_bytes text)) }
    ensures visible { IfOk result (λ text. texts.is_field_text (string_bytes text) ≡ true) }
    ensures refused { IfErr result WhyNotOpened }
{
    let name = match token {
        Token::Given(token) => return owned(alloc, token),
        Token::InFile(name) => name,
    };
    match File::open(rt, name) {
        Ok(file) => {
            *obstacle = Some(Obstacle::of_bad_line(Step::TokenFile, name));
            let mut reader = CountRead::new(file.take(MOST));
            token_from(alloc, &mut reader)
        }
        Err(error) => {
            *obstacle = Some(Obstacle::of_file(Step::TokenFile, name, &error));
            Err(RunError::BadOption)
        }
    }
}

/// The secret that is given, or the one in the first line of its file. With a file, `obstacle` says what is wrong if this
/// fails. It is set on success too: the caller resets it.
fn secret_of<'a, N: Files<File = File>>(
    rt: &N,
    alloc: Global,
    secret: Secret<'a>,
    obstacle: &mut Option<Obstacle<'a>>,
) -> Result<[u8; 32], RunError>
    ensures same { IfOk result (HasSecret secret.entry) }
    ensures refused { IfErr result WhyNotOpened }
{
    let name = match secret {
        Secret::Given(secret) => return Ok(secret),
        Secret::InFile(name) => name,
    };
    match File::open(rt, name) {
        Ok(file) => {
            *obstacle = Some(Obstacle::of_bad_line(Step::SecretFile, name));
            let mut reader = CountRead::new(file.take(MOST));
            secret_from(alloc, &mut reader)
        }
        Err(error) => {
            *obstacle = Some(Obstacle::of_file(Step::SecretFile, name, &error));
            Err(RunError::BadOption)
        }
    }
}

/// The token and the secret of an end. Of a file that has one of them, the first 4,096 bytes are read.
///
/// Fails with `BadOption` if a file cannot be read or its first line is bad, and with a fault if memory is refused.
pub(crate) fn credentials_of<'a, N: Files<File = File>>(
    rt: &N,
    alloc: Global,
    token: Token<'a>,
    secret: Secret<'a>,
    obstacle: &mut Option<Obstacle<'a>>,
) -> Result<Credentials, RunError>
    requires { IsLawfulToken token }
    ensures same { IfOk result (AreOf token.entry secret.entry) }
    ensures refused { IfErr result WhyNotOpened }
{
    let secret = secret_of(rt, alloc, secret, obstacle)?;
    match token_of(rt, alloc, token, obstacle) {
        Ok(token) => {
            *obstacle = None;
            Ok(Credentials { token, secret })
        }
        Err(error) => Err(error),
    }
}
