//! The table of a connector: from its bytes, and from a file.

ghost use Rattle.std.specs.Prelude.{◌≡◌, Err, IfErr, IfOk};
ghost use Rattle.ilpstream_net.specs.Table.{HasTable, LacksTable, SaysTable, WhyNoTable};
ghost use Rattle.ilpstream_net.specs.declared.error.RunError.TheVariants.{BadTable};

use crate::error::RunError;
use crate::hop::hop_of;
use crate::input::read_whole;
use crate::obstacle::{Cause, cause_of};
use ilpstream_output::Fault;
use ilpstream_settings::{Table, TableError, read_table};
use st_devices::CountRead;
use st_oer::utf8;
use std::alloc::Global;
use std::fs;
use std::fs::{File, Files};

/// The table that bytes spell.
pub(crate) fn table_in<'a>(alloc: Global, bytes: &'a [u8]) -> Result<Table<'a, Global>, RunError>
    ensures said { IfOk result (λ table. SaysTable bytes.now table.accounts.items table.routes.items) }
    ensures refused { IfErr result (WhyNoTable bytes.now) }
{
    let Some(text) = utf8(bytes) else {
        return Err(RunError::BadTable);
    };
    match read_table(alloc, text) {
        Ok(table) => Ok(table),
        Err(TableError::BadLine) => Err(RunError::BadTable),
        Err(TableError::SameName) => Err(RunError::BadTable),
        Err(TableError::NoMemory) => Err(RunError::Fault(Fault::NoMemory)),
    }
}

/// Whether bytes spell a table for a hop of this address.
pub(crate) fn look_at(alloc: Global, own: &str, bytes: &[u8]) -> Result<(), RunError>
    ensures well { IfOk result (λ _. HasTable own.now bytes.now) }
    ensures bad { result ≡ Err BadTable → LacksTable own.now bytes.now }
{
    let table = match table_in(alloc, bytes) {
        Ok(table) => table,
        Err(error) => return Err(error),
    };
    match hop_of(alloc, own, &table) {
        Ok(_) => Ok(()),
        Err(error) => Err(error),
    }
}

/// Why a file of a table was not read.
#[derive(Clone, Copy)]
pub(crate) enum Unread {
    Refused(Cause),
    NoMemory,
}

/// The bytes of the file of this name.
pub(crate) fn bytes_of<N: Files<File = File>>(
    rt: &N,
    alloc: Global,
    name: &str,
) -> Result<Vec<u8>, Unread> {
    match File::open(rt, name) {
        Ok(file) => match read_whole(alloc, &mut CountRead::new(file)) {
            Ok(bytes) => Ok(bytes),
            Err(Fault::NoMemory) => Err(Unread::NoMemory),
            Err(_) => Err(Unread::Refused(Cause::Other)),
        },
        Err(error) => Err(Unread::Refused(cause_of(&error))),
    }
}

/// The same while the connector runs, which is not to wait: only of a regular file.
pub(crate) fn bytes_again<N: Files<File = File>>(
    rt: &N,
    alloc: Global,
    name: &str,
) -> Result<Vec<u8>, Unread> {
    match fs::metadata(rt, name) {
        Ok(found) if found.is_file() => bytes_of(rt, alloc, name),
        Ok(_) => Err(Unread::Refused(Cause::Other)),
        Err(error) => Err(Unread::Refused(cause_of(&error))),
    }
}
