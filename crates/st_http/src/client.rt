//! The client of ILP over HTTP.

ghost use Rattle.std.specs.Prelude.{◌≡◌, IsTrue, IfOk, IfErr};
ghost use Rattle.st_http.specs.Texts as texts;
ghost use Rattle.st_http.specs.Exchanges.{known, IsExchanged, ExplainsExchange};
ghost use Rattle.st_http.specs.Reads.{SpendsTurns, faults_reported};
ghost use Rattle.st_devices.specs.Tallies.{device_of, tally_of};

use crate::error::HttpError;
use crate::reading::Reading;
use crate::reads::{read_message, write_message};
use crate::texts::request_text;
use st_devices::Counting;
use std::alloc::{Allocator, Global};
use std::io::{Read, Write};

/// Sends one request with the packet `body` over a stream, and returns the body of the response (RFC 0035, the
/// synchronous mode). `host` and `token` are texts that `is_field_text` accepts. Each call of the stream uses up one of
/// `turns`. The fields of the response are stored by `global` while they are checked, and all else by `alloc`.
///
/// Fails with `ReadFault`, `WriteFault`, `BadHead`, `Status`, `TooLong`, `Cut`, `Turns` or `NoMemory`, as `HttpError`
/// says. After an error the stream is not to be used again.
pub fn exchange<S: Read + Write, A: Allocator + Copy>(
    alloc: A,
    global: Global,
    stream: &mut Counting<S>,
    host: &str,
    token: &str,
    body: &[u8],
    turns: u64,
) -> Result<Vec<u8, A>, HttpError>
    requires host { IsTrue (texts.is_field_text host.now) }
    requires token { IsTrue (texts.is_field_text token.now) }
    // The request was written to the stream, which then gave the response.
    ensures answer { IfOk result (λ answer. IsExchanged (known S.contents S.remaining) (device_of stream.old) (device_of stream.new)
        (texts.request_text host.now token.now body.now) answer.items) }
    ensures why { IfErr result (ExplainsExchange (known S.contents S.remaining) (device_of stream.old) (device_of stream.new)
        (texts.request_text host.now token.now body.now)) }
    ensures faults { (tally_of stream.new).faults ≡ faults_reported result (tally_of stream.old).faults }
    ensures turns { SpendsTurns result (tally_of stream.old) (tally_of stream.new) turns }
{
    let mut left = turns;
    let request = request_text(alloc, host, token, body)?;
    if let Err(error) = write_message(stream, &request, &mut left) {
        return Err(error);
    }
    let mut reading = Reading::response(alloc, global);
    if let Err(error) = read_message(stream, &mut reading, &mut left) {
        return Err(error);
    }
    Ok(reading.into_body().unwrap())
}
