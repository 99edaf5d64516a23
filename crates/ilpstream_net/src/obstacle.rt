//! What prevented a command from beginning its work, and why, as a text.

ghost use Rattle.std.specs.Prelude.{◌≡◌, IfOk, string_bytes};
ghost use Rattle.ilpstream_net.specs.Obstacles as spec;
ghost use Rattle.ilpstream_net.specs.declared.obstacle.Cause.TheVariants.{BadLine};
ghost use Rattle.ilpstream_net.specs.declared.obstacle.Step.TheVariants.{Listen};

use crate::error::RunError;
use std::alloc::{AllocError, Global};
use std::io;
use std::io::ErrorKind;

/// What a command could not do.
#[derive(Clone, Copy)]
pub enum Step {
    /// Listen at an address.
    Listen,
    /// Open the file of `--log`.
    Log,
    /// Open the file of `--totals`.
    Totals,
    /// Make a file next to that of `--totals`.
    Beside,
    /// Open the file of `--random`.
    Random,
    /// Read the token in a file.
    TokenFile,
    /// Read the secret in a file.
    SecretFile,
    /// Open the pipe of `--control`.
    Control,
    /// Read the file of `--table`.
    Table,
}

/// Why it could not, by the error that the system returned.
#[derive(Clone, Copy)]
pub(crate) enum Cause {
    NotFound,
    Denied,
    IsFolder,
    InUse,
    NotHere,
    NoName,
    ManyFiles,
    Taken,
    BadLine,
    NoPipe,
    Other,
}

/// What prevented a command from beginning its work: a file or an address that an option names.
#[derive(Clone, Copy)]
pub struct Obstacle<'a> {
    pub(crate) step: Step,
    /// The file or the address.
    pub(crate) name: &'a str,
    pub(crate) cause: Cause,
}

/// How the text of a step begins.
fn front(step: Step) -> &'static str
    ensures { result.now ≡ spec.front step }
{
    match step {
        Step::Listen => "cannot listen on ",
        Step::Log => "cannot open --log ",
        Step::Totals => "cannot open --totals ",
        Step::Beside => "cannot make a file next to --totals ",
        Step::Random => "cannot open --random ",
        Step::TokenFile => "cannot read --token-file ",
        Step::SecretFile => "cannot read --secret-file ",
        Step::Control => "cannot open --control ",
        Step::Table => "cannot read --table ",
    }
}

/// The text of a cause.
pub(crate) fn back(cause: Cause) -> &'static str
    ensures { result.now ≡ spec.back cause }
{
    match cause {
        Cause::NotFound => "not found",
        Cause::Denied => "permission denied",
        Cause::IsFolder => "is a directory",
        Cause::InUse => "address in use",
        Cause::NotHere => "no address of this host",
        Cause::NoName => "unknown name",
        Cause::ManyFiles => "too many open files",
        Cause::Taken => "all names are in use",
        Cause::BadLine => "bad first line",
        Cause::NoPipe => "not a pipe",
        Cause::Other => "failed",
    }
}

/// The cause, by the error that the system returned for a file or an address.
pub(crate) fn cause_of(error: &io::Error) -> Cause {
    match error.kind() {
        ErrorKind::NotFound => Cause::NotFound,
        ErrorKind::PermissionDenied => Cause::Denied,
        ErrorKind::IsADirectory => Cause::IsFolder,
        ErrorKind::AddrInUse => Cause::InUse,
        ErrorKind::AddrNotAvailable => Cause::NotHere,
        _ => match error.raw_os_error() {
            Some(libc::EMFILE) => Cause::ManyFiles,
            _ => Cause::Other,
        },
    }
}

impl<'a> Obstacle<'a> {
    /// A file that could not be opened.
    pub fn of_file(step: Step, name: &'a str, error: &io::Error) -> Obstacle<'a>
        ensures { (result.step ≡ step) × (result.name ≡ name.entry) }
    {
        let cause = cause_of(error);
        Obstacle { step, name, cause }
    }

    /// A file whose first line is bad.
    pub fn of_bad_line(step: Step, name: &'a str) -> Obstacle<'a>
        ensures { (result.step ≡ step) × (result.name ≡ name.entry) × (result.cause ≡ BadLine) }
    {
        let cause = Cause::BadLine;
        Obstacle { step, name, cause }
    }

    /// An address at which the command could not listen. An error without a number of the system means that a host's name
    /// is unknown.
    pub fn of_address(name: &'a str, error: &io::Error) -> Obstacle<'a>
        ensures { (result.step ≡ Listen) × (result.name ≡ name.entry) }
    {
        let cause = match cause_of(error) {
            Cause::Other if error.raw_os_error().is_none() => Cause::NoName,
            cause => cause,
        };
        Obstacle {
            step: Step::Listen,
            name,
            cause,
        }
    }
}

/// The text of an obstacle.
#[tactic(auto, using(crate::proofs::Pieces::pieces))]
fn obstacle_words(alloc: Global, obstacle: &Obstacle<'_>) -> Result<String, AllocError>
    ensures { IfOk result (λ text. string_bytes text ≡ spec.words obstacle.now.step obstacle.now.name.now obstacle.now.cause) }
{
    let (front, name, back) = (front(obstacle.step), obstacle.name, back(obstacle.cause));
    let text = format!(in alloc; "{front}{name}: {back}")?;
    Ok(text)
}

/// Why a command ended, as a text: the obstacle, if there is one and the error is of a kind that has one, or else the
/// error.
pub fn words_of(
    alloc: Global,
    error: RunError,
    obstacle: &Option<Obstacle<'_>>,
) -> Result<String, AllocError> {
    match (error, obstacle) {
        (RunError::BadOption | RunError::NoListener | RunError::NoRandom, Some(obstacle)) => {
            obstacle_words(alloc, obstacle)
        }
        _ => {
            let text = format!(in alloc; "{error}")?;
            Ok(text)
        }
    }
}
