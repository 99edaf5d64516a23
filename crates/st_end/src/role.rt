//! The two sides of a connection.

ghost use Rattle.std.specs.Prelude.{◌≡◌};
ghost use Rattle.st_end.specs.State.{parity};

/// The side of a connection that an end is (RFC 0029, section 4.1). A client opens streams of odd numbers, a server of
/// even numbers.
#[derive(Clone, Copy, Debug, PartialEq, Eq)]
pub enum Role {
    /// The client: it opens the streams 1, 3, .. 63.
    Client,
    /// The server: it opens the streams 2, 4, .. 64.
    Server,
}

impl Role {
    /// Of its own stream numbers: 1 if they are odd.
    pub(crate) fn parity(self) -> u8
        ensures { result ≡ parity self }
    {
        match self {
            Role::Client => 1,
            Role::Server => 0,
        }
    }
}
