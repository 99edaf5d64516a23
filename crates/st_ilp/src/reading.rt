//! Reading ILP packets. No reader allocates: texts and data are slices of the input.

ghost use Rattle.std.specs.Prelude.{◌≡◌, ◌≢◌, length, MatchResult};
ghost use Rattle.st_oer.specs.Seen.{Gives};
ghost use Rattle.st_ilp.specs.Reading.{expires_at, hash_at, code_at, destination_at, sender_at, message_at, data_at, packet_at, prepare_within, fulfill_within, reject_within, prepare_at, answer_at};
ghost use Rattle.st_ilp.specs.Seen.{prepare_seen, answer_seen};

use crate::code::ErrorCode;
use crate::error::IlpError;
use crate::expiry::read_expiry;
use crate::packet::{Answer, FULFILL, MAX_DATA, PREPARE, Prepare, REJECT, is_sender};
use st_oer::{Cut, OerError, is_address, utf8};

#[tactic(auto, unfolding(crate::specs::Reading::expires_at))]
fn expires(cut: &mut Cut<'_>) -> Result<i64, IlpError>
    ensures { Gives (λ x. (x, cut.new)) result (expires_at cut.old) }
{
    read_expiry(cut.fixed(17)?)
}

/// A condition or a fulfillment.
#[tactic(auto, unfolding(crate::specs::Reading::hash_at))]
fn hash(cut: &mut Cut<'_>) -> Result<[u8; 32], IlpError>
    ensures { Gives (λ x. (x, cut.new)) result (hash_at cut.old) }
{
    let Ok(hash) = <[u8; 32]>::try_from(cut.fixed(32)?) else {
        return Err(IlpError::Oer(OerError::Short));
    };
    Ok(hash)
}

#[tactic(auto, unfolding(crate::specs::Reading::code_at))]
fn code(cut: &mut Cut<'_>) -> Result<ErrorCode, IlpError>
    ensures { Gives (λ x. (x, cut.new)) result (code_at cut.old) }
{
    let Ok(characters) = <[u8; 3]>::try_from(cut.fixed(3)?) else {
        return Err(IlpError::Oer(OerError::Short));
    };
    ErrorCode::new(characters).ok_or(IlpError::Code)
}

#[tactic(auto, unfolding(crate::specs::Reading::octets_with), using(crate::proofs::AddressTexts::texts))]
fn destination<'a>(cut: &mut Cut<'a>) -> Result<&'a str, IlpError>
    ensures { Gives (λ x. (x.now, cut.new)) result (destination_at cut.old) }
{
    let Some(text) = utf8(cut.octets()?) else {
        return Err(IlpError::Address);
    };
    if is_address(text) {
        Ok(text)
    } else {
        Err(IlpError::Address)
    }
}

/// The triggeredBy of a Reject.
#[tactic(auto, unfolding(crate::specs::Reading::octets_with), using(crate::proofs::AddressTexts::texts))]
fn sender<'a>(cut: &mut Cut<'a>) -> Result<&'a str, IlpError>
    ensures { Gives (λ x. (x.now, cut.new)) result (sender_at cut.old) }
{
    let Some(text) = utf8(cut.octets()?) else {
        return Err(IlpError::Address);
    };
    if is_sender(text) {
        Ok(text)
    } else {
        Err(IlpError::Address)
    }
}

#[tactic(auto, unfolding(crate::specs::Reading::octets_with))]
fn message<'a>(cut: &mut Cut<'a>) -> Result<&'a str, IlpError>
    ensures { Gives (λ x. (x.now, cut.new)) result (message_at cut.old) }
{
    match utf8(cut.octets()?) {
        Some(text) => Ok(text),
        None => Err(IlpError::NotUtf8),
    }
}

#[tactic(auto, unfolding(crate::specs::Reading::octets_with))]
fn data<'a>(cut: &mut Cut<'a>) -> Result<&'a [u8], IlpError>
    ensures { Gives (λ x. (x.now, cut.new)) result (data_at cut.old) }
{
    let bytes = cut.octets()?;
    if bytes.len() <= MAX_DATA {
        Ok(bytes)
    } else {
        Err(IlpError::DataTooLong)
    }
}

/// The kind of a packet, if it lies between two, and its contents.
#[tactic(auto, unfolding(crate::specs::Reading::packet_at))]
fn packet(bytes: &[u8], first: u8, last: u8) -> Result<(u8, &[u8]), IlpError>
    ensures { Gives (λ x. (x.0, x.1.now)) result (packet_at first last bytes.now) }
{
    let mut cut = Cut::new(bytes);
    let kind = cut.get_u8()?;
    if kind < first || last < kind {
        return Err(IlpError::Kind);
    }
    let contents = cut.octets()?;
    ended(&cut)?;
    Ok((kind, contents))
}

/// Refuses bytes that are left.
fn ended(cut: &Cut<'_>) -> Result<(), IlpError>
    ensures { MatchResult result (λ _. length cut.now ≡ 0) (λ e. (e ≡ IlpError.Trailing) × (length cut.now ≢ 0)) }
{
    if cut.rest().is_empty() {
        Ok(())
    } else {
        Err(IlpError::Trailing)
    }
}

#[tactic(auto, unfolding(crate::specs::Reading::prepare_within))]
fn prepare(contents: &[u8]) -> Result<Prepare<'_>, IlpError>
    ensures { Gives prepare_seen result (prepare_within contents.now) }
{
    let mut cut = Cut::new(contents);
    let amount = cut.get_u64()?;
    let expiry = expires(&mut cut)?;
    let condition = hash(&mut cut)?;
    let destination = destination(&mut cut)?;
    let payload = data(&mut cut)?;
    ended(&cut)?;
    Ok(Prepare {
        amount,
        expiry,
        condition,
        destination,
        payload,
    })
}

#[tactic(auto, unfolding(crate::specs::Reading::fulfill_within))]
fn fulfill(contents: &[u8]) -> Result<Answer<'_>, IlpError>
    ensures { Gives answer_seen result (fulfill_within contents.now) }
{
    let mut cut = Cut::new(contents);
    let fulfillment = hash(&mut cut)?;
    let payload = data(&mut cut)?;
    ended(&cut)?;
    Ok(Answer::Fulfill {
        fulfillment,
        payload,
    })
}

#[tactic(auto, unfolding(crate::specs::Reading::reject_within))]
fn reject(contents: &[u8]) -> Result<Answer<'_>, IlpError>
    ensures { Gives answer_seen result (reject_within contents.now) }
{
    let mut cut = Cut::new(contents);
    let code = code(&mut cut)?;
    let by = sender(&mut cut)?;
    let message = message(&mut cut)?;
    let payload = data(&mut cut)?;
    ended(&cut)?;
    Ok(Answer::Reject {
        code,
        by,
        message,
        payload,
    })
}

/// Reads the whole of `bytes` as a Prepare (RFC 0027). Does not allocate.
///
/// Fails with the first fault: `Oer(Short)` if the input is empty, `Kind` for another kind of packet, `Oer(..)` for
/// a malformed outer octet string, and `Trailing` for bytes after the packet. Then each field in its order: `Oer(..)`
/// for its encoding, and `Expiry`, `Address` or `DataTooLong` for its value. Last, `Trailing` for bytes after the last
/// field.
#[tactic(auto, unfolding(crate::specs::Reading::prepare_at))]
pub fn read_prepare(bytes: &[u8]) -> Result<Prepare<'_>, IlpError>
    ensures { Gives prepare_seen result (prepare_at bytes.now) }
{
    let (_, contents) = packet(bytes, PREPARE, PREPARE)?;
    prepare(contents)
}

/// Reads the whole of `bytes` as a Fulfill or a Reject (RFC 0027). Does not allocate.
///
/// Fails with the first fault: `Oer(Short)` if the input is empty, `Kind` for another kind of packet, `Oer(..)` for
/// a malformed outer octet string, and `Trailing` for bytes after the packet. Then each field in its order: `Oer(..)`
/// for its encoding, and `Code`, `Address`, `NotUtf8` or `DataTooLong` for its value. Last, `Trailing` for bytes after
/// the last field.
#[tactic(auto, unfolding(crate::specs::Reading::answer_at))]
pub fn read_answer(bytes: &[u8]) -> Result<Answer<'_>, IlpError>
    ensures { Gives answer_seen result (answer_at bytes.now) }
{
    let (kind, contents) = packet(bytes, FULFILL, REJECT)?;
    if kind == FULFILL {
        fulfill(contents)
    } else {
        reject(contents)
    }
}
