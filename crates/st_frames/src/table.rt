//! The table of the known frames (RFC 0029, section 5.3): the number of each type, and its fields in their order, as they
//! are read and as they are written. Readers, lengths and writers go by it, and no other module knows a frame's layout.

ghost use Rattle.std.specs.Prelude.{◌≡◌, false, option_map};
ghost use Rattle.st_oer.specs.Seen.{Gives};
ghost use Rattle.st_frames.specs.Table as specs;
ghost use Rattle.st_frames.specs.Contents.{contents_at, refusing};
ghost use Rattle.st_frames.specs.Seen.{seen};
ghost use Rattle.st_frames.specs.Inside.{fields_text};
ghost use Rattle.st_frames.specs.Written.{contents_text, is_unwritable, KnownFits};

use crate::field::{Field, Malformed, read_address, read_text, text};
use crate::frame::Frame;
use st_oer::Cut;

const CONNECTION_CLOSE: u8 = 0x01;

const CONNECTION_NEW_ADDRESS: u8 = 0x02;

const CONNECTION_MAX_DATA: u8 = 0x03;

const CONNECTION_DATA_BLOCKED: u8 = 0x04;

const STREAM_CLOSE: u8 = 0x10;

const STREAM_MONEY: u8 = 0x11;

const STREAM_MAX_MONEY: u8 = 0x12;

const STREAM_MONEY_BLOCKED: u8 = 0x13;

const STREAM_DATA: u8 = 0x14;

const STREAM_MAX_DATA: u8 = 0x15;

const STREAM_DATA_BLOCKED: u8 = 0x16;

/// The contents of ConnectionClose. Bytes left are ignored.
#[tactic(auto, unfolding(crate::specs::Contents::contents_at, crate::specs::Table::row_of))]
fn connection_close(contents: &[u8]) -> Result<Option<Frame<'_>>, Malformed>
    ensures { Gives (option_map seen) (refusing tt result) (contents_at 1 contents.now) }
{
    let mut cut = Cut::new(contents);
    Ok(Some(Frame::ConnectionClose {
        code: cut.get_u8()?,
        message: read_text(&mut cut)?,
    }))
}

/// The contents of ConnectionNewAddress. Bytes left are ignored.
#[tactic(auto, unfolding(crate::specs::Contents::contents_at, crate::specs::Table::row_of))]
fn connection_new_address(contents: &[u8]) -> Result<Option<Frame<'_>>, Malformed>
    ensures { Gives (option_map seen) (refusing tt result) (contents_at 2 contents.now) }
{
    let mut cut = Cut::new(contents);
    Ok(Some(Frame::ConnectionNewAddress {
        address: read_address(&mut cut)?,
    }))
}

/// The contents of ConnectionMaxData. Bytes left are ignored.
#[tactic(auto, unfolding(crate::specs::Contents::contents_at, crate::specs::Table::row_of))]
fn connection_max_data(contents: &[u8]) -> Result<Option<Frame<'_>>, Malformed>
    ensures { Gives (option_map seen) (refusing tt result) (contents_at 3 contents.now) }
{
    let mut cut = Cut::new(contents);
    Ok(Some(Frame::ConnectionMaxData {
        max_offset: cut.limit()?,
    }))
}

/// The contents of ConnectionDataBlocked. Bytes left are ignored.
#[tactic(auto, unfolding(crate::specs::Contents::contents_at, crate::specs::Table::row_of))]
fn connection_data_blocked(contents: &[u8]) -> Result<Option<Frame<'_>>, Malformed>
    ensures { Gives (option_map seen) (refusing tt result) (contents_at 4 contents.now) }
{
    let mut cut = Cut::new(contents);
    Ok(Some(Frame::ConnectionDataBlocked {
        max_offset: cut.limit()?,
    }))
}

/// The contents of StreamClose. Bytes left are ignored.
#[tactic(auto, unfolding(crate::specs::Contents::contents_at, crate::specs::Table::row_of))]
fn stream_close(contents: &[u8]) -> Result<Option<Frame<'_>>, Malformed>
    ensures { Gives (option_map seen) (refusing tt result) (contents_at 16 contents.now) }
{
    let mut cut = Cut::new(contents);
    Ok(Some(Frame::StreamClose {
        stream: cut.var_uint()?,
        code: cut.get_u8()?,
        message: read_text(&mut cut)?,
    }))
}

/// The contents of StreamMoney. Bytes left are ignored.
#[tactic(auto, unfolding(crate::specs::Contents::contents_at, crate::specs::Table::row_of))]
fn stream_money(contents: &[u8]) -> Result<Option<Frame<'_>>, Malformed>
    ensures { Gives (option_map seen) (refusing tt result) (contents_at 17 contents.now) }
{
    let mut cut = Cut::new(contents);
    Ok(Some(Frame::StreamMoney {
        stream: cut.var_uint()?,
        shares: cut.var_uint()?,
    }))
}

/// The contents of StreamMaxMoney. Bytes left are ignored.
#[tactic(auto, unfolding(crate::specs::Contents::contents_at, crate::specs::Table::row_of))]
fn stream_max_money(contents: &[u8]) -> Result<Option<Frame<'_>>, Malformed>
    ensures { Gives (option_map seen) (refusing tt result) (contents_at 18 contents.now) }
{
    let mut cut = Cut::new(contents);
    Ok(Some(Frame::StreamMaxMoney {
        stream: cut.var_uint()?,
        receive_max: cut.limit()?,
        total_received: cut.limit()?,
    }))
}

/// The contents of StreamMoneyBlocked. Bytes left are ignored.
#[tactic(auto, unfolding(crate::specs::Contents::contents_at, crate::specs::Table::row_of))]
fn stream_money_blocked(contents: &[u8]) -> Result<Option<Frame<'_>>, Malformed>
    ensures { Gives (option_map seen) (refusing tt result) (contents_at 19 contents.now) }
{
    let mut cut = Cut::new(contents);
    Ok(Some(Frame::StreamMoneyBlocked {
        stream: cut.var_uint()?,
        send_max: cut.limit()?,
        total_sent: cut.limit()?,
    }))
}

/// The contents of StreamData. Bytes left are ignored.
#[tactic(auto, unfolding(crate::specs::Contents::contents_at, crate::specs::Table::row_of))]
fn stream_data(contents: &[u8]) -> Result<Option<Frame<'_>>, Malformed>
    ensures { Gives (option_map seen) (refusing tt result) (contents_at 20 contents.now) }
{
    let mut cut = Cut::new(contents);
    Ok(Some(Frame::StreamData {
        stream: cut.var_uint()?,
        offset: cut.var_uint()?,
        bytes: cut.octets()?,
    }))
}

/// The contents of StreamMaxData. Bytes left are ignored.
#[tactic(auto, unfolding(crate::specs::Contents::contents_at, crate::specs::Table::row_of))]
fn stream_max_data(contents: &[u8]) -> Result<Option<Frame<'_>>, Malformed>
    ensures { Gives (option_map seen) (refusing tt result) (contents_at 21 contents.now) }
{
    let mut cut = Cut::new(contents);
    Ok(Some(Frame::StreamMaxData {
        stream: cut.var_uint()?,
        max_offset: cut.limit()?,
    }))
}

/// The contents of StreamDataBlocked. Bytes left are ignored.
#[tactic(auto, unfolding(crate::specs::Contents::contents_at, crate::specs::Table::row_of))]
fn stream_data_blocked(contents: &[u8]) -> Result<Option<Frame<'_>>, Malformed>
    ensures { Gives (option_map seen) (refusing tt result) (contents_at 22 contents.now) }
{
    let mut cut = Cut::new(contents);
    Ok(Some(Frame::StreamDataBlocked {
        stream: cut.var_uint()?,
        max_offset: cut.limit()?,
    }))
}

/// The frame of this type whose contents these are, or None for a type that is not known. Bytes left are ignored.
#[tactic(auto, unfolding(crate::specs::Contents::contents_at, crate::specs::Table::row_of))]
pub(crate) fn known_frame(kind: u8, contents: &[u8]) -> Result<Option<Frame<'_>>, Malformed>
    ensures { Gives (option_map seen) (refusing tt result) (contents_at kind contents.now) }
{
    match kind {
        CONNECTION_CLOSE => connection_close(contents),
        CONNECTION_NEW_ADDRESS => connection_new_address(contents),
        CONNECTION_MAX_DATA => connection_max_data(contents),
        CONNECTION_DATA_BLOCKED => connection_data_blocked(contents),
        STREAM_CLOSE => stream_close(contents),
        STREAM_MONEY => stream_money(contents),
        STREAM_MAX_MONEY => stream_max_money(contents),
        STREAM_MONEY_BLOCKED => stream_money_blocked(contents),
        STREAM_DATA => stream_data(contents),
        STREAM_MAX_DATA => stream_max_data(contents),
        STREAM_DATA_BLOCKED => stream_data_blocked(contents),
        _ => Ok(None),
    }
}

/// The type of a frame, and its fields in their order.
#[tactic(auto, unfolding(crate::specs::Written::contents_text, crate::specs::Written::KnownFits, crate::specs::Table::row_of))]
pub(crate) fn layout(frame: Frame<'_>) -> (u8, [Field<'_>; 3])
    ensures kind { result.0 ≡ (specs.layout (seen frame.entry)).0 }
    ensures text { fields_text result.1 ≡ contents_text (seen frame.entry) }
    ensures fits { is_unwritable (seen frame.entry) ≡ false → KnownFits (seen frame.entry) }
{
    use Field::{Byte, Nothing, Number, Octets};
    match frame {
        Frame::ConnectionClose { code, message } => {
            (CONNECTION_CLOSE, [Byte(code), text(message), Nothing])
        }
        Frame::ConnectionNewAddress { address } => {
            (CONNECTION_NEW_ADDRESS, [text(address), Nothing, Nothing])
        }
        Frame::ConnectionMaxData { max_offset } => {
            (CONNECTION_MAX_DATA, [Number(max_offset), Nothing, Nothing])
        }
        Frame::ConnectionDataBlocked { max_offset } => {
            (
                CONNECTION_DATA_BLOCKED,
                [Number(max_offset), Nothing, Nothing],
            )
        }
        Frame::StreamClose {
            stream,
            code,
            message,
        } => (STREAM_CLOSE, [Number(stream), Byte(code), text(message)]),
        Frame::StreamMoney { stream, shares } => {
            (STREAM_MONEY, [Number(stream), Number(shares), Nothing])
        }
        Frame::StreamMaxMoney {
            stream,
            receive_max,
            total_received,
        } => (
            STREAM_MAX_MONEY,
            [Number(stream), Number(receive_max), Number(total_received)],
        ),
        Frame::StreamMoneyBlocked {
            stream,
            send_max,
            total_sent,
        } => (
            STREAM_MONEY_BLOCKED,
            [Number(stream), Number(send_max), Number(total_sent)],
        ),
        Frame::StreamData {
            stream,
            offset,
            bytes,
        } => (STREAM_DATA, [Number(stream), Number(offset), Octets(bytes)]),
        Frame::StreamMaxData { stream, max_offset } => {
            (
                STREAM_MAX_DATA,
                [Number(stream), Number(max_offset), Nothing],
            )
        }
        Frame::StreamDataBlocked { stream, max_offset } => {
            (
                STREAM_DATA_BLOCKED,
                [Number(stream), Number(max_offset), Nothing],
            )
        }
    }
}
