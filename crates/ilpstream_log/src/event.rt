//! What is logged.

ghost use Rattle.std.specs.Prelude.{◌≡◌, ◌<◌};
ghost use Rattle.ilpstream_log.specs.Lines as spec;

use st_streams::{Blocked, EndTotals};

/// One event of a run. The neighbour that it is about is given separately: the number of an account at a connector, and 0 at
/// `send` and `receive`. No event has a secret, a token or a payload.
#[derive(Clone, Copy)]
pub enum Event<'a> {
    /// A command begins.
    Start(Start<'a>),
    /// The command listens.
    Listening {
        /// At which address, as IP:PORT.
        address: &'a str,
    },
    /// An exchange with the neighbour brought no Fulfill.
    Exchange(Cause<'a>),
    /// A packet from the neighbour was refused here.
    Refused {
        /// The code of the Reject.
        code: [u8; 3],
        /// The number of the reason, if an end refused it.
        reason: Option<u8>,
    },
    /// A connection brought no request that is answered.
    Connection {
        /// What became of it.
        lost: Lost,
        /// The address of its other side, as IP:PORT. Empty if it is not known.
        from: &'a str,
    },
    /// The neighbour found a packet too large (F08).
    Limit {
        /// The new packet limit, in units.
        most: u64,
    },
    /// An end waits at a limit of its peer.
    Waits(Blocked),
    /// The clock was set back, and is followed.
    Clock {
        /// By how many milliseconds.
        set_back: u64,
    },
    /// A line arrived by the pipe over which a command is asked things while it runs.
    Control {
        /// The line, without its newline.
        line: &'a [u8],
        /// What became of it.
        heard: Heard<'a>,
    },
    /// A connector begins with books that were made new, or that no start was counted in.
    NewBooks,
    /// A line of a connector's table is bad.
    Table {
        /// The number of the line, from 1.
        line: usize,
        /// The rule that it breaks, in words.
        words: &'a str,
    },
    /// A stream is at its end.
    Closed {
        /// The number of the stream.
        stream: u64,
        /// The code with which it was aborted. `None` if it was closed cleanly.
        code: Option<u64>,
    },
    /// The totals of an end so far.
    End(EndTotals),
    /// The totals of the neighbour's account so far.
    Account(AccountCounts),
    /// How many exchanges with the neighbour brought a Reject of one code so far.
    Rejects {
        /// The code of the Rejects.
        code: [u8; 3],
        /// Their number.
        count: u64,
    },
    /// Further events of one kind from the neighbour, of which no line was written.
    More {
        /// Their kind.
        kind: Kind,
        /// Their number.
        count: u64,
    },
    /// Further events of any kind, whose lines found no room in the log: what was written before it is not read, or cannot be
    /// written.
    NoRoom {
        /// Their number.
        count: u64,
    },
    /// The command ended, its work done.
    Done,
    /// The command ended early.
    Failed {
        /// The number of the fault.
        fault: u8,
        /// The fault in words.
        words: &'a str,
    },
}

/// The settings with which a command begins, except for secrets.
#[derive(Clone, Copy)]
pub enum Start<'a> {
    /// The command `send`.
    Send {
        /// Its neighbour, as HOST:PORT.
        to: &'a str,
        /// Its own ILP address.
        address: &'a str,
        /// The ILP address of its peer.
        peer: &'a str,
        /// The units that it offers.
        money: u64,
        /// The number of workers.
        workers: u8,
    },
    /// The command `receive`.
    Receive {
        /// Where it listens, as HOST:PORT.
        listen: &'a str,
        /// Its own ILP address.
        address: &'a str,
        /// The ILP address of its peer.
        peer: &'a str,
        /// The most units that it accepts.
        receive_max: u64,
    },
    /// The command `connector`.
    Connector {
        /// Where it listens, as HOST:PORT.
        listen: &'a str,
        /// Its own ILP address.
        own: &'a str,
        /// How many threads wait for a connection.
        workers: u8,
        /// How many requests it answers. `None` is any number.
        requests: Option<u64>,
    },
}

/// Why an exchange brought no Fulfill.
#[derive(Clone, Copy)]
pub enum Cause<'a> {
    /// The link to the neighbour failed.
    Link {
        /// The number of its fault.
        fault: u8,
        /// The status of the response, if it is not 200.
        status: Option<u16>,
    },
    /// No connection to the neighbour was made.
    Unreached(Unreached),
    /// The answer is a Reject.
    Reject {
        /// Its code.
        code: [u8; 3],
        /// The ILP address of the node that made it, or the empty text.
        by: &'a str,
        /// Its message for people.
        message: &'a str,
    },
    /// The answer is a Fulfill that is not passed back: it does not fit the condition, is too late or could not be stored.
    Unfit,
    /// The answer is neither a Fulfill nor a Reject.
    Unreadable,
    /// There was no memory for the exchange.
    NoMemory,
}

/// Why no connection to a neighbour was made.
#[derive(Clone, Copy)]
pub enum Unreached {
    /// There is no address at which the neighbour is reached, or the connection failed in another way.
    Other,
    /// The process has no free file descriptor.
    Descriptors,
    /// The name of the neighbour's host does not resolve.
    Name,
    /// The neighbour's host refused the connection: nothing listens there.
    Refused,
    /// No connection was made in time.
    Timeout,
}

/// What became of a line by which a command was asked something.
#[derive(Clone, Copy)]
pub enum Heard<'a> {
    /// What it asks for is done, or begun.
    Done,
    /// It asks for nothing that the command knows, and does nothing.
    Unknown,
    /// What it asks for cannot be done, for this reason, and nothing is changed.
    Failed(&'a str),
}

/// What became of a connection on which no request was answered.
#[derive(Clone, Copy)]
pub enum Lost {
    /// Its request was refused by this status.
    Status(u16),
    /// It ended, failed or was silent before its request was whole, or the response could not be written.
    Cut,
}

/// The totals of an account of a connector.
#[derive(Clone, Copy)]
pub struct AccountCounts {
    /// Units that the account owes the connector.
    pub claims: u64,
    /// Units that the connector owes the account.
    pub dues: u64,
    /// Units that are reserved against the account.
    pub held: u64,
    /// Its Prepares that were fulfilled.
    pub fulfilled: u64,
    /// Its Prepares that were rejected further on.
    pub rejected: u64,
    /// Its Prepares of which the answer was lost.
    pub lost: u64,
    /// Its packets that were refused here.
    pub refused: u64,
}

/// The kind of an event: what lines are counted by.
#[derive(Clone, Copy)]
pub enum Kind {
    /// `start`
    Start,
    /// `exchange`
    Exchange,
    /// `refused`
    Refused,
    /// `connection`
    Connection,
    /// `limit`
    Limit,
    /// `table`
    Table,
    /// `closed`
    Closed,
    /// `totals`
    Totals,
    /// `more`
    More,
    /// `end`
    End,
    /// `waits`
    Waits,
    /// `clock`
    Clock,
    /// `listening`
    Listening,
    /// `control`
    Control,
}

/// How many kinds there are.
pub(crate) const KINDS: usize = 14;

impl Event<'_> {
    /// The kind of the event: the word with which its line begins.
    pub fn kind(&self) -> Kind
        ensures { result ≡ spec.kind_of self.now }
    {
        match self {
            Event::Start(_) | Event::NewBooks => Kind::Start,
            Event::Listening { .. } => Kind::Listening,
            Event::Exchange(_) => Kind::Exchange,
            Event::Refused { .. } => Kind::Refused,
            Event::Connection { .. } => Kind::Connection,
            Event::Limit { .. } => Kind::Limit,
            Event::Waits(_) => Kind::Waits,
            Event::Clock { .. } => Kind::Clock,
            Event::Control { .. } => Kind::Control,
            Event::Table { .. } => Kind::Table,
            Event::Closed { .. } => Kind::Closed,
            Event::End(_) | Event::Account(_) | Event::Rejects { .. } => Kind::Totals,
            Event::More { .. } | Event::NoRoom { .. } => Kind::More,
            Event::Done | Event::Failed { .. } => Kind::End,
        }
    }
}

impl Unreached {
    /// The word that the log has for it.
    pub fn word(self) -> &'static str
        ensures { result.now ≡ spec.unreached_word self }
    {
        match self {
            Unreached::Other => "unreached",
            Unreached::Descriptors => "descriptors",
            Unreached::Name => "name",
            Unreached::Refused => "refused",
            Unreached::Timeout => "timeout",
        }
    }
}

impl Kind {
    /// All kinds, each at its place.
    pub(crate) const ALL: [Kind; KINDS] = [
        Kind::Start,
        Kind::Exchange,
        Kind::Refused,
        Kind::Connection,
        Kind::Limit,
        Kind::Table,
        Kind::Closed,
        Kind::Totals,
        Kind::More,
        Kind::End,
        Kind::Waits,
        Kind::Clock,
        Kind::Listening,
        Kind::Control,
    ];

    /// The place of the kind among all kinds.
    pub(crate) fn place(self) -> usize
        ensures place { result ≡ spec.place_of self }
        ensures few { result < 14 }
    {
        match self {
            Kind::Start => 0,
            Kind::Exchange => 1,
            Kind::Refused => 2,
            Kind::Connection => 3,
            Kind::Limit => 4,
            Kind::Table => 5,
            Kind::Closed => 6,
            Kind::Totals => 7,
            Kind::More => 8,
            Kind::End => 9,
            Kind::Waits => 10,
            Kind::Clock => 11,
            Kind::Listening => 12,
            Kind::Control => 13,
        }
    }

    /// Whether such an event is about a neighbour: a connection is not, since anybody may connect.
    pub(crate) fn is_of_neighbour(self) -> bool
        ensures { result ≡ spec.is_of_neighbour self }
    {
        matches!(
            self,
            Kind::Exchange | Kind::Refused | Kind::Limit | Kind::Totals
        )
    }

    /// The word with which the line of such an event begins.
    pub fn word(self) -> &'static str
        ensures { result.now ≡ spec.word_of self }
    {
        match self {
            Kind::Start => "start",
            Kind::Exchange => "exchange",
            Kind::Refused => "refused",
            Kind::Connection => "connection",
            Kind::Limit => "limit",
            Kind::Table => "table",
            Kind::Closed => "closed",
            Kind::Totals => "totals",
            Kind::More => "more",
            Kind::End => "end",
            Kind::Waits => "waits",
            Kind::Clock => "clock",
            Kind::Listening => "listening",
            Kind::Control => "control",
        }
    }
}
