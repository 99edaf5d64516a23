//! A message of ILP over HTTP (RFC 0035) that arrives in chunks, for a host.

ghost use Rattle.std.specs.Prelude.{◌≡◌, ◌⊎◌, ◌≤◌, ◌++◌, [], length, take, map, IfOk, MatchResult, string_bytes};
ghost use Rattle.st_http.specs.Message.{Says, unfinished};
ghost use Rattle.host_objects.specs.Messages.{expected_of, FindsIn, Feeds, FailsToFeed, IsNewMessage};

use st_http::{HttpError, Reading};
use std::alloc::Global;

/// The message that is read.
#[derive(Drop)]
pub enum HostSide {
    /// A request to the account of one of these bearer tokens.
    Request(Vec<String>),
    /// The response to a request.
    Response,
}

/// What bytes say as a message that they begin with.
#[derive(Drop)]
enum Found {
    /// Their first bytes are a whole message.
    Whole {
        /// How many bytes it has.
        taken: usize,
        /// The account of a request, by the place of its token; 0 for a response.
        account: usize,
        body: Vec<u8>,
    },
    /// They are not a whole message yet: at least this many bytes more are needed.
    Part(usize),
}

/// How far a message has come.
#[derive(Clone, Copy, Debug, PartialEq, Eq)]
pub enum Progress {
    /// It is whole, and its body is the output.
    Whole {
        /// How many of all bytes it has.
        taken: usize,
        /// The account of a request, by the place of its token; 0 for a response.
        account: usize,
    },
    /// At least this many bytes more are needed.
    Part(usize),
}

/// What a reading that has not begun makes of bytes.
fn read_with(
    alloc: Global,
    reading: &mut Reading<'_, Global>,
    given: &[u8],
) -> Result<Found, HttpError>
    requires { reading.old.taken ≡ [] }
    ensures { FindsIn reading.old.expected given.now result }
{
    let taken = reading.feed(given)?;
    let account = reading.account().unwrap_or(0);
    match reading.body() {
        None => Ok(Found::Part(reading.wants())),
        Some(body) => Ok(Found::Whole {
            taken,
            account,
            body: Vec::from_slice(alloc, body)?,
        }),
    }
}

/// The tokens as texts.
fn texts_of(alloc: Global, tokens: &[String]) -> Result<Vec<&str>, HttpError>
    ensures { MatchResult result (λ texts. map (λ t. t.now) texts.items ≡ map string_bytes tokens.now) (λ e. e ≡ HttpError.NoMemory) }
{
    let mut texts = Vec::new(alloc);
    for token in tokens {
        texts.push(token.as_str())?;
    }
    Ok(texts)
}

impl HostSide {
    /// What bytes are as this message.
    fn read(&self, alloc: Global, given: &[u8]) -> Result<Found, HttpError>
        ensures { FindsIn (expected_of self.now) given.now result }
    {
        match self {
            HostSide::Request(tokens) => {
                let texts = texts_of(alloc, tokens)?;
                read_with(alloc, &mut Reading::request(alloc, alloc, &texts), given)
            }
            HostSide::Response => read_with(alloc, &mut Reading::response(alloc, alloc), given),
        }
    }
}

/// A message that arrives in chunks: its bytes so far, and the body of a whole one.
#[derive(Drop)]
pub struct HostMessage {
    side: HostSide,
    given: Vec<u8>,
    /// The bytes that the last call returned.
    pub output: Vec<u8>,
}

impl HostMessage {
    /// Begins to read a message. Does not allocate.
    pub fn new(alloc: Global, side: HostSide) -> HostMessage
        ensures { IsNewMessage (expected_of side) result }
    {
        HostMessage {
            side,
            given: Vec::new(alloc),
            output: Vec::new(alloc),
        }
    }

    /// Adds the next bytes of the message, and says what all bytes so far are. The body of a whole message is the output.
    ///
    /// Fails as `Reading::feed` does; then no byte was added. Each call reads the message from its first byte.
    pub fn feed(&mut self, alloc: Global, bytes: &[u8]) -> Result<Progress, HttpError>
        ensures { MatchResult result (λ p. Feeds self.old self.new bytes.now p) (λ e. FailsToFeed self.old self.new bytes.now e) }
    {
        let before = self.given.len();
        self.given.extend_from_slice(bytes)?;
        match self.side.read(alloc, &self.given) {
            Ok(Found::Part(wants)) => Ok(Progress::Part(wants)),
            Ok(
                Found::Whole {
                    taken,
                    account,
                    body,
                },
            ) => {
                self.output = body;
                Ok(Progress::Whole { taken, account })
            }
            Err(error) => {
                self.given.truncate(before);
                Err(error)
            }
        }
    }
}
