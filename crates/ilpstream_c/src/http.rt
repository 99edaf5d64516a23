//! Calls on a message of ILP over HTTP (RFC 0035), and the texts that are sent.

ghost use Rattle.std.specs.Prelude.{◌≡◌, ◌⊎◌, ◌&&◌, true, false, map, MatchOption, MatchResult, string_bytes};
ghost use Rattle.st_http.specs.Texts as texts;
ghost use Rattle.host_objects.specs.Codes.{argument};
ghost use Rattle.ilpstream_c.specs.Http.{OnMessage, IsRequestMade, IsResponseMade, Takes, WritesText, IfText, tokens_of, are_tokens, is_field, is_refusal, status_of};

use crate::handle::{copy_out, is_empty, put_new};
use host_objects::{ARGUMENT, DONE, Handle, HostMessage, HostSide, IDLE, MISUSE, Object, Progress};
use st_http::{HttpError, answer_text, is_field_text, refusal_text, request_text};
use st_oer::utf8;
use std::alloc::Global;

/// What is done with the message of a handle. A handle of anything else is refused.
macro_rules! on_message {
    ($alloc:ident, $handle:ident, $message:ident => $body:expr) => {{
        let Some(mut object) = $handle.take($alloc) else {
            return MISUSE;
        };
        let code = match &mut *object {
            Object::Message($message) => $body,
            _ => MISUSE,
        };
        $handle.put(object);
        code
    }};
}

/// What the bytes of a message are so far. What a call does not say is 0.
#[repr(C)]
#[derive(Clone, Copy, Debug, Drop)]
pub struct HostReading {
    /// How many bytes more to ask for.
    pub wants: usize,
    /// How many of all bytes the message has.
    pub taken: usize,
    /// The account of a request, by the place of its token.
    pub account: usize,
    /// How many bytes of the body were output.
    pub body_len: usize,
    /// The status of a refusal.
    pub status: u32,
}

/// The bearer tokens, which follow each other in a text. Fails with `ARGUMENT` if the text is not that of the tokens, or one
/// of them is not UTF-8; and with 87 if memory is refused.
fn tokens_of(alloc: Global, text: &[u8], lengths: &[usize]) -> Result<Vec<String>, u32>
    ensures { MatchResult result (λ kept. (are_tokens text.now lengths.now ≡ true) × (map string_bytes kept.items ≡ tokens_of text.now lengths.now))
        (λ code. (code ≡ 87) ⊎ ((code ≡ argument) × (are_tokens text.now lengths.now ≡ false))) }
{
    let mut kept = Vec::new(alloc);
    let mut rest = text;
    let mut left = lengths;
    while let [len, more @ ..] = left {
        if rest.len() < *len {
            return Err(ARGUMENT);
        }
        let (token, behind) = rest.split_at(*len);
        let Some(token) = utf8(token) else {
            return Err(ARGUMENT);
        };
        let Ok(token) = String::from_str(alloc, token) else {
            return Err(u32::from(HttpError::NoMemory.number()));
        };
        if kept.push(token).is_err() {
            return Err(u32::from(HttpError::NoMemory.number()));
        }
        rest = behind;
        left = more;
    }
    if rest.is_empty() {
        Ok(kept)
    } else {
        Err(ARGUMENT)
    }
}

/// Begins to read a request in an empty handle. The bearer tokens of the accounts follow each other in `tokens`, and
/// `lengths` has the length of each.
///
/// `MISUSE` if the handle is not empty; `ARGUMENT` if the sum of the lengths is not that of the text, or a token is not
/// UTF-8; 87 if memory is refused.
#[unsafe(no_mangle)]
pub extern "C" fn ilp_request_new(
    alloc: Global,
    handle: &mut Handle,
    tokens: &[u8],
    lengths: &[usize],
) -> u32
    ensures { IsRequestMade tokens.now lengths.now handle.old.state handle.new.state result }
{
    if !is_empty(alloc, handle) {
        return MISUSE;
    }
    let no_memory = u32::from(HttpError::NoMemory.number());
    match tokens_of(alloc, tokens, lengths) {
        Ok(tokens) => {
            let message = HostMessage::new(alloc, HostSide::Request(tokens));
            put_new(alloc, handle, Object::Message(message), no_memory)
        }
        Err(code) => code,
    }
}

/// Begins to read a response in an empty handle. `MISUSE` if the handle is not empty; 87 if memory is refused.
#[unsafe(no_mangle)]
pub extern "C" fn ilp_response_new(alloc: Global, handle: &mut Handle) -> u32
    ensures { IsResponseMade handle.old.state handle.new.state result }
{
    if !is_empty(alloc, handle) {
        return MISUSE;
    }
    let no_memory = u32::from(HttpError::NoMemory.number());
    let message = HostMessage::new(alloc, HostSide::Response);
    put_new(alloc, handle, Object::Message(message), no_memory)
}

/// The status of a refusal, 0 if it has none.
fn status_of(error: HttpError) -> u32
    ensures { result ≡ status_of error }
{
    match error {
        HttpError::Status(status) => u32::from(status),
        _ => 0,
    }
}

/// Reads the next bytes of a message. 0 if it is whole: its body is output. `IDLE` if more bytes are wanted. Otherwise the
/// number of the refusal, which stays: 82 to 84. 87 if memory is refused: then no byte was read.
#[unsafe(no_mangle)]
pub extern "C" fn ilp_message_feed(
    alloc: Global,
    handle: &mut Handle,
    bytes: &[u8],
    reading: &mut HostReading,
) -> u32
    ensures { OnMessage handle.old.state handle.new.state result (λ old new. Takes old new bytes.now result reading.new) }
{
    *reading = HostReading {
        wants: 0,
        taken: 0,
        account: 0,
        body_len: 0,
        status: 0,
    };
    on_message!(alloc, handle, message => match message.feed(alloc, bytes) {
        Ok(Progress::Whole { taken, account }) => {
            reading.taken = taken;
            reading.account = account;
            reading.body_len = message.output.len();
            DONE
        }
        Ok(Progress::Part(wants)) => {
            reading.wants = wants;
            IDLE
        }
        Err(error) => {
            reading.status = status_of(error);
            u32::from(error.number())
        }
    })
}

/// A host or a token: 1 to 255 characters from 0x21 to 0x7e.
fn field(bytes: &[u8]) -> Option<&str>
    ensures { MatchOption result (is_field bytes.now ≡ false) (λ text. (is_field bytes.now ≡ true) × (text.now ≡ bytes.now)) }
{
    let text = utf8(bytes)?;
    if is_field_text(text) {
        Some(text)
    } else {
        None
    }
}

/// Writes a POST request to `/ilp` (RFC 0035) to the front of a buffer. 0; 103 if the buffer is too small; 102 if the host or the
/// token is not 1 to 255 characters from 0x21 to 0x7e; 87 if memory is refused. After 0 and 103 `len` is the length of the text.
#[unsafe(no_mangle)]
pub extern "C" fn ilp_request_text(
    alloc: Global,
    host: &[u8],
    token: &[u8],
    body: &[u8],
    out: &mut [u8],
    len: &mut usize,
) -> u32
    ensures { IfText (is_field host.now && is_field token.now) out.old out.new result
        (WritesText (texts.request_text host.now token.now body.now) out.old out.new result len.new) }
{
    let Some(host) = field(host) else {
        return ARGUMENT;
    };
    let Some(token) = field(token) else {
        return ARGUMENT;
    };
    match request_text(alloc, host, token, body) {
        Ok(text) => copy_out(&text, out, len),
        Err(_) => u32::from(HttpError::NoMemory.number()),
    }
}

/// Writes a response 200 with this body to the front of a buffer. 0; 103 if the buffer is too small; 87 if memory is
/// refused. After 0 and 103 `len` is the length of the text.
#[unsafe(no_mangle)]
pub extern "C" fn ilp_answer_text(
    alloc: Global,
    body: &[u8],
    out: &mut [u8],
    len: &mut usize,
) -> u32
    ensures { WritesText (texts.answer_text body.now) out.old out.new result len.new }
{
    match answer_text(alloc, body) {
        Ok(text) => copy_out(&text, out, len),
        Err(_) => u32::from(HttpError::NoMemory.number()),
    }
}

/// Writes a response with a status of 400 to 599 and no body to the front of a buffer. 0; 103 if the buffer is too small; 102 if
/// the status is outside this range; 87 if memory is refused. After 0 and 103 `len` is the length of the text.
#[unsafe(no_mangle)]
pub extern "C" fn ilp_refusal_text(
    alloc: Global,
    status: u32,
    out: &mut [u8],
    len: &mut usize,
) -> u32
    ensures { IfText (is_refusal status) out.old out.new result (WritesText (texts.refusal_text status) out.old out.new result len.new) }
{
    if status < 400 || status > 599 {
        return ARGUMENT;
    }
    match refusal_text(alloc, status as u16) {
        Ok(text) => copy_out(&text, out, len),
        Err(_) => u32::from(HttpError::NoMemory.number()),
    }
}
