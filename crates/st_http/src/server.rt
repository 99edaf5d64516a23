//! The server of ILP over HTTP.

ghost use Rattle.std.specs.Prelude.{◌≡◌, ℕ, List, map, OnOk, IfOk, IfErr, IsSome};
ghost use Rattle.st_http.specs.Exchanges.{known};
ghost use Rattle.st_http.specs.Progress.{account_of, body_of};
ghost use Rattle.st_http.specs.Reads.{SpendsTurns, faults_reported};
ghost use Rattle.st_http.specs.declared.error.HttpError.TheVariants.{Turns};
ghost use Rattle.st_devices.specs.Tallies.{TakesTurns, device_of, tally_of};
ghost use Rattle.st_http.specs.Serves.{IsCalled, IsDue, IsServed, ExplainsNoResponse, ExplainsServe, Responds};
ghost use Rattle.st_http.specs.Texts as spec;

use crate::answerer::Answerer;
use crate::error::HttpError;
use crate::reading::Reading;
use crate::reads::{read_message, write_message};
use crate::texts::{answer_text, refusal_text};
use st_devices::Counting;
use std::alloc::{AllocError, Allocator, Global};
use std::io::{Read, Write};

/// Has a request answered that has arrived intact, and returns the response: that of `answer_text`, or of `refusal_text`
/// with status 500 if there is no answer. Fails if memory for the response is refused. The answerer was asked once in
/// any case.
fn answered<T: Answerer, A: Allocator + Copy>(
    alloc: A,
    reading: &Reading<'_, A>,
    answerer: &mut T,
) -> Result<Vec<u8, A>, AllocError>
    requires account { IsSome (account_of reading.now.standing) }
    requires body { IsSome (body_of reading.now.standing) }
    // The answerer is called once, whether or not there is memory for the response.
    ensures called { (text : List ℕ) × IsCalled T.gives reading.now.standing answerer.old answerer.new text
        × IfOk result (λ made. made.items ≡ text) }
{
    let account = reading.account().unwrap();
    let body = reading.body().unwrap();
    match answerer.answer(account, body) {
        Some(answer) => answer_text(alloc, &answer),
        None => refusal_text(alloc, 500),
    }
}

/// Reads a request, and has it answered if it is lawful. It answers the response.
fn response_to_next<S: Read, T: Answerer, A: Allocator + Copy>(
    alloc: A,
    global: Global,
    stream: &mut Counting<S>,
    tokens: &[&str],
    answerer: &mut T,
    turns: &mut u64,
) -> Result<Vec<u8, A>, HttpError>
    ensures due { IfOk result (λ text. IsDue T.gives (map (λ t. t.now) tokens.now)
        (record { before = S.remaining (device_of stream.old); after = S.remaining (device_of stream.new) }) answerer.old answerer.new text.items) }
    ensures why { IfErr result (ExplainsNoResponse T.gives (map (λ t. t.now) tokens.now)
        (record { before = S.remaining (device_of stream.old); after = S.remaining (device_of stream.new) }) answerer.old answerer.new) }
    ensures faults { (tally_of stream.new).faults ≡ faults_reported result (tally_of stream.old).faults }
    ensures turns { TakesTurns (tally_of stream.old) (tally_of stream.new) turns.old turns.new }
    ensures out_of_turns { IfErr result (λ e. e ≡ Turns → turns.new ≡ 0) }
{
    let mut reading = Reading::request(alloc, global, tokens);
    match read_message(stream, &mut reading, turns) {
        Ok(()) => match answered(alloc, &reading, answerer) {
            Ok(text) => Ok(text),
            Err(_) => Err(HttpError::NoMemory),
        },
        Err(HttpError::Status(code)) => match refusal_text(alloc, code) {
            Ok(text) => Ok(text),
            Err(_) => Err(HttpError::NoMemory),
        },
        Err(error) => Err(error),
    }
}

/// Reads one request from a stream, has it answered if it is valid, and writes the response (RFC 0035, the
/// synchronous mode). A request that is refused is answered by its status: 400, 401, 404, 405, 411 or 413. `tokens` has
/// the bearer token of each account. Each call of the stream uses up one of `turns`. The header fields are stored by
/// `global` while they are checked, and all else by `alloc`.
///
/// Fails with `ReadFault`, `WriteFault`, `Cut`, `Turns` or `NoMemory`. After an error the stream is not to be used
/// again.
pub fn serve_one<S: Read + Write, T: Answerer, A: Allocator + Copy>(
    alloc: A,
    global: Global,
    stream: &mut Counting<S>,
    tokens: &[&str],
    answerer: &mut T,
    turns: u64,
) -> Result<(), HttpError>
    // The stream gave a message, and then the response that it asks for was written to it.
    ensures served { OnOk result (IsServed (known S.contents S.remaining) T.gives (map (λ t. t.now) tokens.now)
        (device_of stream.old) (device_of stream.new) answerer.old answerer.new) }
    ensures why { IfErr result (ExplainsServe (known S.contents S.remaining) T.gives (map (λ t. t.now) tokens.now)
        (device_of stream.old) (device_of stream.new) answerer.old answerer.new) }
    ensures faults { (tally_of stream.new).faults ≡ faults_reported result (tally_of stream.old).faults }
    ensures turns { SpendsTurns result (tally_of stream.old) (tally_of stream.new) turns }
{
    let mut left = turns;
    match response_to_next(alloc, global, stream, tokens, answerer, &mut left) {
        Ok(text) => write_message(stream, &text, &mut left),
        Err(error) => Err(error),
    }
}

/// Has a request answered that has arrived intact, and writes the response to a stream (RFC 0035, the synchronous mode). This
/// is the second half of `serve_one`, for a caller that reads several requests at once. The answerer is asked once. Each
/// call of the stream uses up one of `turns`. The response is stored by `alloc`.
///
/// Fails with `WriteFault`, `Turns` or `NoMemory`. After an error the stream is not to be used again.
pub fn respond<S: Write, T: Answerer, A: Allocator + Copy>(
    alloc: A,
    stream: &mut Counting<S>,
    reading: &Reading<'_, A>,
    answerer: &mut T,
    turns: &mut u64,
) -> Result<(), HttpError>
    requires account { IsSome (account_of reading.now.standing) }
    requires body { IsSome (body_of reading.now.standing) }
    ensures called { (text : List ℕ) × IsCalled T.gives reading.now.standing answerer.old answerer.new text
        × Responds (S.contents (device_of stream.old)) (S.contents (device_of stream.new)) text result }
    ensures faults { (tally_of stream.new).faults ≡ faults_reported result (tally_of stream.old).faults }
    ensures turns { TakesTurns (tally_of stream.old) (tally_of stream.new) turns.old turns.new }
    ensures out_of_turns { IfErr result (λ e. e ≡ Turns → turns.new ≡ 0) }
{
    match answered(alloc, reading, answerer) {
        Ok(text) => write_message(stream, &text, turns),
        Err(_) => Err(HttpError::NoMemory),
    }
}

/// Refuses a request by this status, which is not 200: writes a response with an empty body to a stream. Each call of the
/// stream uses up one of `turns`. The response is stored by `alloc`.
///
/// Fails with `WriteFault`, `Turns` or `NoMemory`. After an error the stream is not to be used again.
pub fn refuse<S: Write, A: Allocator + Copy>(
    alloc: A,
    stream: &mut Counting<S>,
    status: u16,
    turns: &mut u64,
) -> Result<(), HttpError>
    ensures written { Responds (S.contents (device_of stream.old)) (S.contents (device_of stream.new)) (spec.refusal_text status) result }
    ensures faults { (tally_of stream.new).faults ≡ faults_reported result (tally_of stream.old).faults }
    ensures turns { TakesTurns (tally_of stream.old) (tally_of stream.new) turns.old turns.new }
    ensures out_of_turns { IfErr result (λ e. e ≡ Turns → turns.new ≡ 0) }
{
    match refusal_text(alloc, status) {
        Ok(text) => write_message(stream, &text, turns),
        Err(_) => Err(HttpError::NoMemory),
    }
}
