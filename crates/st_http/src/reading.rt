//! A message that arrives in chunks.

ghost use Rattle.std.specs.Prelude.{◌≡◌, ◌≤◌, ◌<◌, ◌⊎◌, ◌++◌, [], length, take, map, IfOk, IfErr, OnErr, Err, option_copied};
ghost use Rattle.st_http.specs.Head.{head_limit, IsOpen};
ghost use Rattle.st_http.specs.Verdict as verdict;
ghost use Rattle.st_http.specs.Message.{Says, unfinished, refused, wants_of};
ghost use Rattle.st_http.specs.Phases.{meant, IsEnded, IsVerdict, IsInside, IsDone};
ghost use Rattle.st_http.specs.Progress.{Takes, Refuses, account_of, body_of};
ghost use Rattle.st_http.specs.Serves.{bytes_of};
ghost use Rattle.st_http.specs.declared.error.HttpError.TheVariants.{NoMemory};

use crate::error::HttpError;
use crate::head::{Head, MAX_HEAD};
use crate::verdict::{Lawful, Verdict, judge_request, judge_response};
use std::alloc::{AllocError, Allocator, Global};
use std::marker::Model;

/// The side of an exchange whose message is read.
#[derive(Clone, Copy)]
enum Side<'t> {
    /// A request to the account of one of these tokens.
    Request(&'t [&'t str]),
    /// The response to a request.
    Response,
}

/// How far the message has been read.
#[derive(Clone, Copy)]
enum Phase {
    /// Its head has not ended.
    Head,
    /// Its head is lawful.
    Body(Lawful),
    /// It is refused.
    Refused(HttpError),
}

/// The error for bytes that should be a head and are not.
fn no_head(side: Side<'_>) -> HttpError
    ensures { result ≡ verdict.no_head (meant side.entry) }
{
    match side {
        Side::Request(_) => HttpError::Status(400),
        Side::Response => HttpError::BadHead,
    }
}

/// What the rules say of bytes up to an empty line.
fn judge(global: Global, side: Side<'_>, head: &[u8]) -> Result<Verdict, AllocError>
    requires { length head.now ≤ head_limit }
    ensures { IfOk result (IsVerdict (meant side.entry) head.now) }
{
    match side {
        Side::Request(tokens) => judge_request(global, tokens, head),
        Side::Response => judge_response(global, head),
    }
}

/// Appends what the body still needs from the front of the chunk, and returns how many bytes that was.
fn take_body<A: Allocator>(
    body: &mut Vec<u8, A>,
    size: usize,
    piece: &[u8],
) -> Result<usize, AllocError>
    requires { length body.old.items ≤ size }
    ensures taken { IfOk result (λ n. (n ≤ length piece.now) × (body.new.items ≡ body.old.items ++ take n piece.now)) }
    ensures within { length body.new.items ≤ size }
    ensures all { IfOk result (λ n. (n ≡ length piece.now) ⊎ (length body.new.items ≡ size)) }
    ensures unchanged { OnErr result (body.new.items ≡ body.old.items) }
{
    let wanted = (size - body.len()).min(piece.len());
    body.extend_from_slice(&piece[..wanted])?;
    Ok(wanted)
}

/// Judges a head that has ended, and appends to the body what it needs from the front of the bytes after it. It returns
/// how many bytes that was, and how far the message has been read.
fn take_behind<A: Allocator>(
    global: Global,
    side: Side<'_>,
    head: &[u8],
    body: &mut Vec<u8, A>,
    rest: &[u8],
) -> Result<(usize, Phase), AllocError>
    requires ended { IsEnded head.now }
    requires short { length head.now ≤ head_limit }
    requires empty { body.old.items ≡ [] }
    ensures taken { IfOk result (λ r. (r.0 ≤ length rest.now) × (body.new.items ≡ take r.0 rest.now)) }
    ensures inside { IfOk result (λ r. IsInside (meant side.entry) r.1 head.now body.new.items) }
    ensures all { IfOk result (λ r. (r.0 ≡ length rest.now) ⊎ IsDone r.1 body.new.items) }
    ensures unchanged { OnErr result (body.new.items ≡ body.old.items) }
{
    match judge(global, side, head)? {
        Err(error) => Ok((0, Phase::Refused(error))),
        Ok(lawful) => {
            let taken = take_body(body, lawful.size, rest)?;
            Ok((taken, Phase::Body(lawful)))
        }
    }
}

/// Reads bytes of the chunk while the head has not ended, and what the body needs after it. It returns how many
/// bytes that was, and how far the message has been read.
fn take_front<A: Allocator>(
    global: Global,
    side: Side<'_>,
    head: &mut Head<A>,
    body: &mut Vec<u8, A>,
    piece: &[u8],
) -> Result<(usize, Phase), AllocError>
    requires open { IsOpen head.old }
    requires short { length head.old < head_limit }
    requires empty { body.old.items ≡ [] }
    ensures taken { IfOk result (λ r. (r.0 ≤ length piece.now) × (head.new ++ body.new.items ≡ (head.old ++ body.old.items) ++ take r.0 piece.now)) }
    ensures some { IfOk result (λ r. 0 < length piece.now → 0 < r.0) }
    ensures inside { IfOk result (λ r. IsInside (meant side.entry) r.1 head.new body.new.items) }
    ensures all { IfOk result (λ r. (r.0 ≡ length piece.now) ⊎ IsDone r.1 body.new.items) }
    ensures unchanged { OnErr result ((head.new ≡ head.old) × (body.new.items ≡ body.old.items)) }
{
    let before = head.bytes().len();
    let (taken, ended) = head.take(piece)?;
    if !ended {
        if head.bytes().len() < MAX_HEAD {
            return Ok((taken, Phase::Head));
        }
        return Ok((taken, Phase::Refused(no_head(side))));
    }
    let (_, rest) = piece.split_at(taken);
    match take_behind(global, side, head.bytes(), body, rest) {
        Ok((more, phase)) => Ok((taken + more, phase)),
        Err(error) => {
            head.truncate(before);
            Err(error)
        }
    }
}

/// A request or a response of ILP over HTTP that arrives in chunks of any size (RFC 0035).
#[derive(Drop)]
pub struct Reading<'t, A: Allocator + Copy> {
    global: Global,
    side: Side<'t>,
    phase: Phase,
    /// The bytes up to the head's end: at most `MAX_HEAD`.
    head: Head<A>,
    /// The bytes after it: at most the length that a lawful head gives.
    body: Vec<u8, A>,
}

impl<'t, A: Allocator + Copy> Model for Reading<'t, A> {
    ghost use Rattle.std.specs.Prelude.{◌++◌};
    ghost use Rattle.st_http.specs.Progress.{Progress};

    ghost Value = { Progress };

    ghost use Rattle.st_http.specs.Phases.{meant, standing_of, IsInside};

    ghost view = { λ s. record { expected = meant s.side; taken = s.head ++ s.body.items; standing = standing_of s.phase s.body.items } };

    ghost invariant = { λ s. IsInside (meant s.side) s.phase s.head s.body.items };
}

impl<'t, A: Allocator + Copy> Reading<'t, A> {
    /// Starts to read a request; `tokens` has the bearer token of each account. What arrives is stored by `alloc`; the
    /// header fields are stored by `global` while they are checked. Does not allocate yet.
    pub fn request(alloc: A, global: Global, tokens: &'t [&'t str]) -> Reading<'t, A>
        ensures { result ≡ record { expected = verdict.request (map (λ t. t.now) tokens.now); taken = []; standing = unfinished 1 } }
    {
        Reading {
            global,
            side: Side::Request(tokens),
            phase: Phase::Head,
            head: Head::new(alloc),
            body: Vec::new(alloc),
        }
    }

    /// Starts to read a response. What arrives is stored by `alloc`; the header fields are stored by `global` while
    /// they are checked. Does not allocate yet.
    pub fn response(alloc: A, global: Global) -> Reading<'t, A>
        ensures { result ≡ record { expected = verdict.response; taken = []; standing = unfinished 1 } }
    {
        Reading {
            global,
            side: Side::Response,
            phase: Phase::Head,
            head: Head::new(alloc),
            body: Vec::new(alloc),
        }
    }

    /// Reads bytes from the front of a chunk, and returns how many: all of them, but none past the end of the message.
    ///
    /// Fails with `Status` if a request is refused, by the status that answers it, and if a response has a status
    /// other than 200; with `BadHead` or `TooLong` if a response is refused; with `NoMemory` if memory is
    /// refused. After `NoMemory` the reading is as it was. Each other error is returned again by each later call.
    pub fn feed(&mut self, piece: &[u8]) -> Result<usize, HttpError>
        ensures expected { self.new.expected ≡ self.old.expected }
        ensures says { Says self.new.expected self.new.taken self.new.standing }
        ensures ok { IfOk result (Takes self.old self.new piece.now) }
        ensures asked { IfOk result (λ n. length piece.now ≤ wants_of self.old.standing → n ≡ length piece.now) }
        ensures err { IfErr result (λ e. ((e ≡ NoMemory) × (self.new ≡ self.old)) ⊎ Refuses self.old self.new piece.now e) }
        ensures again { (e : HttpError) → self.old.standing ≡ refused e → (result ≡ Err e) × (self.new ≡ self.old) }
    {
        match self.phase {
            Phase::Head => {
                let (taken, phase) = take_front(
                    self.global,
                    self.side,
                    &mut self.head,
                    &mut self.body,
                    piece,
                )?;
                self.phase = phase;
                match phase {
                    Phase::Refused(error) => Err(error),
                    _ => Ok(taken),
                }
            }
            Phase::Body(lawful) => Ok(take_body(&mut self.body, lawful.size, piece)?),
            Phase::Refused(error) => Err(error),
        }
    }

    /// How many bytes to ask for next. It is at least 1 until the message is complete or refused, never more than the
    /// message must still have, and 0 after that. Does not allocate.
    pub fn wants(&self) -> usize
        ensures value { result ≡ wants_of self.now.standing }
    {
        match self.phase {
            Phase::Head => 1,
            Phase::Body(lawful) => lawful.size - self.body.len(),
            Phase::Refused(_) => 0,
        }
    }

    /// The body, once the message is complete; `None` before. Does not allocate.
    pub fn body(&self) -> Option<&[u8]>
        ensures { option_copied result ≡ body_of self.now.standing }
    {
        match self.phase {
            Phase::Body(lawful) if self.body.len() == lawful.size => Some(&self.body),
            _ => None,
        }
    }

    /// The body as a value, once the message is complete; `None` before. Does not allocate.
    pub fn into_body(self) -> Option<Vec<u8, A>>
        ensures { bytes_of (λ v. v.items) result ≡ body_of self.entry.standing }
    {
        match self.phase {
            Phase::Body(lawful) if self.body.len() == lawful.size => Some(self.body),
            _ => None,
        }
    }

    /// The account of a request, by its place in `tokens`, once the request is complete; `None` before. Does not
    /// allocate.
    pub fn account(&self) -> Option<usize>
        ensures { result ≡ account_of self.now.standing }
    {
        match self.phase {
            Phase::Body(lawful) if self.body.len() == lawful.size => lawful.account,
            _ => None,
        }
    }
}
