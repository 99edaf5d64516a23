//! The two ends of a chain, and the two directions between them.

ghost use Rattle.std.specs.Prelude.{◌≡◌};
ghost use Rattle.st_world_parts.specs.State.{account_from};
ghost use Rattle.st_world_parts.specs.Seen.{way_seen};

/// An end of the chain.
#[derive(Clone, Copy, Debug, PartialEq, Eq)]
pub enum Side {
    /// The client: it opens streams of odd numbers. It is at link 0.
    Client,
    /// The server: it opens streams of even numbers. It is at the last link.
    Server,
}

/// The direction of a Prepare along the chain. Its answer is sent in the other one.
#[derive(Clone, Copy, Debug, PartialEq, Eq)]
pub enum Way {
    /// From the client to the server.
    ToServer,
    /// From the server to the client.
    ToClient,
}

impl Way {
    /// A hop's account towards the end from which the way leads.
    pub(crate) fn account(self) -> usize
        ensures { result ≡ account_from (way_seen self) }
    {
        match self {
            Way::ToServer => 0,
            Way::ToClient => 1,
        }
    }
}
