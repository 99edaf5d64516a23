//! Why an exchange over a link by HTTP brought no answer.

ghost use Rattle.std.specs.Prelude.{◌≡◌};
ghost use Rattle.std.specs.IoError.{error_kind, raw_os_error};
ghost use Rattle.ilpstream_serving.specs.Links as links;

use st_http::HttpError;
use std::io;
use std::io::ErrorKind;

/// Linux: the process has no free file descriptor.
const EMFILE: i32 = 24;

/// Linux: the machine has no free file descriptor.
const ENFILE: i32 = 23;

/// Why no connection to a neighbour was made. If a host has several addresses, it concerns the last that was tried.
#[derive(Clone, Copy)]
pub enum Unreached {
    /// The link has no neighbour, or the connection failed in another way, for example because the host has no route.
    Other,
    /// No file descriptor is free.
    Descriptors,
    /// The name of the host does not resolve.
    Name,
    /// The host refused the connection: nothing listens there.
    Refused,
    /// No connection was made in time.
    Timeout,
}

impl Unreached {
    /// Why no connection was made, by the error of the attempt.
    pub(crate) fn by(error: &io::Error) -> Unreached
        ensures { result ≡ links.unreached_by (raw_os_error error.now) (error_kind error.now) }
    {
        if is_out_of_descriptors(error) {
            return Unreached::Descriptors;
        }
        match error.kind() {
            ErrorKind::ConnectionRefused => Unreached::Refused,
            ErrorKind::TimedOut => Unreached::Timeout,
            _ => Unreached::Other,
        }
    }
}

/// Whether an error says that no file descriptor is free.
pub(crate) fn is_out_of_descriptors(error: &io::Error) -> bool
    ensures { result ≡ links.is_out_of_descriptors (raw_os_error error.now) }
{
    match error.raw_os_error() {
        Some(code) => code == EMFILE || code == ENFILE,
        None => false,
    }
}

/// Why an exchange over a link by HTTP brought no answer.
#[derive(Clone, Copy)]
pub enum LinkCause {
    /// No connection to the neighbour was made.
    Unreached(Unreached),
    /// Memory for the exchange was refused.
    NoMemory,
    /// The exchange failed on its connection.
    Http(HttpError),
}

impl LinkCause {
    /// The status of the response, if it is not 200.
    pub fn status(&self) -> Option<u16>
        ensures { result ≡ links.status_of self.now }
    {
        match self {
            LinkCause::Http(HttpError::Status(status)) => Some(*status),
            _ => None,
        }
    }
}
