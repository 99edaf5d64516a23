//! Whether the head of a message is accepted.

ghost use Rattle.std.specs.Prelude.{◌≡◌, ◌≤◌, ℕ, List, All, length, map, codes, IfOk};
ghost use Rattle.httparse.specs.Spans.{IsHeaderWithin, header_bytes};
ghost use Rattle.st_http.specs.Bearer.{account_said};
ghost use Rattle.st_http.specs.Head.{head_limit, field_limit};
ghost use Rattle.st_http.specs.Kept.{IsPair, under};
ghost use Rattle.st_http.specs.Length.{length_beside};
ghost use Rattle.st_http.specs.Phases.{IsVerdict};
ghost use Rattle.st_http.specs.Verdict as spec;

use crate::bearer::account;
use crate::error::HttpError;
use crate::fields::fields_of;
use crate::head::MAX_FIELDS;
use crate::length::{Length, content_length};
use http_header::HeaderMap;
use httparse::Status;
use httparse::spans::{EMPTY_HEADER_SPAN, HeaderSpan, parse_request, parse_response};
use std::alloc::{AllocError, Global};

/// What a message that is accepted says in its head.
#[derive(Clone, Copy, Debug, PartialEq, Eq)]
pub struct Lawful {
    /// For a request, the place of its token among the tokens; for a response, `None`.
    pub account: Option<usize>,
    /// The number of bytes of the body.
    pub size: usize,
}

/// The result of the check of a head: what it says, or why it is refused.
pub type Verdict = Result<Lawful, HttpError>;

/// What the server's rules say of the fields of a POST to `/ilp`.
fn post_verdict(tokens: &[&str], fields: &HeaderMap) -> Verdict
    ensures { result ≡ spec.request_of_account (account_said (map (λ t. t.now) tokens.now) (under fields.now (codes "authorization")))
        (length_beside (under fields.now (codes "transfer-encoding")) (under fields.now (codes "content-length"))) }
{
    let Some(account) = account(tokens, fields) else {
        return Err(HttpError::Status(401));
    };
    match content_length(fields) {
        Length::Missing => Err(HttpError::Status(411)),
        Length::Malformed => Err(HttpError::Status(400)),
        Length::TooLong => Err(HttpError::Status(413)),
        Length::Of(size) => Ok(Lawful {
            account: Some(account),
            size,
        }),
    }
}

/// What the server's rules say of a request's parts, the first that applies.
fn request_verdict(
    global: Global,
    tokens: &[&str],
    target: &[u8],
    method: &[u8],
    head: &[u8],
    fields: &[HeaderSpan],
) -> Result<Verdict, AllocError>
    requires within { All (IsHeaderWithin (length head.now)) fields.now }
    requires lawful { All IsPair (map (header_bytes head.now) fields.now) }
    requires short { length head.now ≤ head_limit }
    requires few { length fields.now ≤ field_limit }
    ensures { IfOk result (λ verdict.
        verdict ≡ spec.request_verdict (map (λ t. t.now) tokens.now) target.now method.now (map (header_bytes head.now) fields.now)) }
{
    if target != b"/ilp".as_slice() {
        return Ok(Err(HttpError::Status(404)));
    }
    if method != b"POST".as_slice() {
        return Ok(Err(HttpError::Status(405)));
    }
    let fields = fields_of(global, head, fields)?;
    Ok(post_verdict(tokens, &fields))
}

/// What the client's rules say of the fields of a response 200.
fn answer_verdict(fields: &HeaderMap) -> Verdict
    ensures { result ≡ spec.response_of_length (length_beside (under fields.now (codes "transfer-encoding")) (under fields.now (codes "content-length"))) }
{
    match content_length(fields) {
        Length::Missing | Length::Malformed => Err(HttpError::BadHead),
        Length::TooLong => Err(HttpError::TooLong),
        Length::Of(size) => Ok(Lawful {
            account: None,
            size,
        }),
    }
}

/// What the client's rules say of a response's parts.
fn response_verdict(
    global: Global,
    status: u16,
    head: &[u8],
    fields: &[HeaderSpan],
) -> Result<Verdict, AllocError>
    requires within { All (IsHeaderWithin (length head.now)) fields.now }
    requires lawful { All IsPair (map (header_bytes head.now) fields.now) }
    requires short { length head.now ≤ head_limit }
    requires few { length fields.now ≤ field_limit }
    ensures { IfOk result (λ verdict. verdict ≡ spec.response_verdict status (map (header_bytes head.now) fields.now)) }
{
    if status != 200 {
        return Ok(Err(HttpError::Status(status)));
    }
    let fields = fields_of(global, head, fields)?;
    Ok(answer_verdict(&fields))
}

/// Checks bytes up to an empty line as the head of a request (RFC 0035, RFC 9112). The inner error is `Status` with the
/// status that answers the request. The outer error is given if memory is refused.
pub fn judge_request(global: Global, tokens: &[&str], head: &[u8]) -> Result<Verdict, AllocError>
    requires { length head.now ≤ head_limit }
    ensures { IfOk result (IsVerdict (spec.request (map (λ t. t.now) tokens.now)) head.now) }
{
    let mut fields = [EMPTY_HEADER_SPAN; MAX_FIELDS];
    match parse_request(head, &mut fields) {
        Ok(Status::Complete(line)) => {
            if line.len < head.len() {
                return Ok(Err(HttpError::Status(400)));
            }
            request_verdict(
                global,
                tokens,
                line.path.of(head),
                line.method.of(head),
                head,
                &fields[..line.headers],
            )
        }
        Ok(Status::Partial) => Ok(Err(HttpError::Status(400))),
        Err(_) => Ok(Err(HttpError::Status(400))),
    }
}

/// Checks bytes up to an empty line as the head of a response (RFC 0035, RFC 9112). The inner error is `Status` for a
/// status other than 200, `BadHead` or `TooLong`. The outer error is given if memory is refused.
pub fn judge_response(global: Global, head: &[u8]) -> Result<Verdict, AllocError>
    requires { length head.now ≤ head_limit }
    ensures { IfOk result (IsVerdict spec.response head.now) }
{
    let mut fields = [EMPTY_HEADER_SPAN; MAX_FIELDS];
    match parse_response(head, &mut fields) {
        Ok(Status::Complete(line)) => {
            if line.len < head.len() {
                return Ok(Err(HttpError::BadHead));
            }
            response_verdict(global, line.code, head, &fields[..line.headers])
        }
        Ok(Status::Partial) => Ok(Err(HttpError::BadHead)),
        Err(_) => Ok(Err(HttpError::BadHead)),
    }
}
