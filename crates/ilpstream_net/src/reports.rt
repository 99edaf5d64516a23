//! What a connector reports, and to which files.

use crate::carried::Carried;
use crate::control::{Asked, Control};
use crate::error::RunError;
use crate::log::{Log, tell_accounts, tell_table};
use crate::obstacle::{Obstacle, back};
use crate::table_file::{Unread, bytes_again, look_at};
use crate::totals::{ConnectorTotals, Telling};
use ilpstream_connector::{AccountTotals, Counts, Minutes, Order};
use ilpstream_log::Heard;
use std::alloc::Global;
use std::fs::{File, Files};
use std::net::TcpListener;
use std::time::Clock;

/// What a connector reports: its totals after its end, its reports while it runs, and its log.
#[derive(Drop)]
pub(crate) struct Reports<'r, 'a, M> {
    pub(crate) totals: ConnectorTotals,
    pub(crate) minutes: M,
    pub(crate) log: Log<'r>,
    /// The file or address that prevented the connector from running, if one did.
    pub(crate) obstacle: Option<Obstacle<'a>>,
    /// Its listener, from one table to the next.
    pub(crate) listener: Option<TcpListener>,
    /// How many requests are left to it. `None` is any number.
    pub(crate) requests: Option<u64>,
    /// What the accounts of its last table owed and were owed when that ended, if it has no books.
    pub(crate) carried: Carried,
}

/// What may give a connector another table while it runs.
pub(crate) trait Renews: Minutes {
    /// The table with which the connector continues, after it ended. `None` if it is to end.
    fn next_table(&mut self) -> Option<Vec<u8>>;

    /// It cannot continue with that table, for this reason, and continues with the last one.
    fn keeps_table(&mut self, why: &str);
}

/// Writes a connector's totals each minute, to the file that was asked for and to its log, and reads what it
/// is asked.
#[derive(Drop)]
pub(crate) struct EachMinute<'a, N> {
    pub(crate) rt: &'a N,
    pub(crate) alloc: Global,
    pub(crate) telling: Telling<'a, N>,
    pub(crate) log: Log<'a>,
    /// The pipe by which the connector is asked things, if there is one.
    pub(crate) control: Option<Control<'a, N>>,
    /// The file of its table, if it has one.
    pub(crate) table: Option<TableFile<'a>>,
    /// The table with which it is to continue.
    pub(crate) next: Option<Vec<u8>>,
    /// Whether it was asked to stop.
    pub(crate) is_stopped: bool,
}

/// The file of a connector's table, and the connector's own ILP address.
#[derive(Clone, Copy)]
pub(crate) struct TableFile<'a> {
    pub(crate) name: &'a str,
    pub(crate) own: &'a str,
}

/// A table that was read anew, or why there is none.
#[derive(Drop)]
enum Read {
    Table(Vec<u8>),
    Bad(Vec<u8>),
    Not(&'static str),
}

/// What is reported if memory is refused.
const NO_MEMORY: &str = "out of memory";

/// Reads a table anew.
fn read_anew<N: Files<File = File>>(rt: &N, alloc: Global, table: TableFile<'_>) -> Read {
    let bytes = match bytes_again(rt, alloc, table.name) {
        Ok(bytes) => bytes,
        Err(Unread::Refused(cause)) => return Read::Not(back(cause)),
        Err(Unread::NoMemory) => return Read::Not(NO_MEMORY),
    };
    match look_at(alloc, table.own, &bytes) {
        Ok(()) => Read::Table(bytes),
        Err(RunError::BadTable) => Read::Bad(bytes),
        Err(_) => Read::Not(NO_MEMORY),
    }
}

impl<N: Files<File = File> + Clock> EachMinute<'_, N> {
    /// Reports what became of the last line, if the connector has a pipe.
    fn tell(&self, heard: Heard<'_>) {
        if let Some(control) = &self.control {
            control.tell(heard);
        }
    }

    /// Reads the table anew. If it is good, the connector pauses, to continue with it. Otherwise nothing is
    /// changed.
    fn renew(&mut self) -> Order {
        let Some(table) = self.table else {
            return Order::Done;
        };
        if self.is_stopped {
            self.tell(Heard::Failed("it is stopped"));
            return Order::Done;
        }
        match read_anew(self.rt, self.alloc, table) {
            Read::Table(bytes) => {
                self.next = Some(bytes);
                self.tell(Heard::Done);
                Order::Pause
            }
            Read::Bad(bytes) => {
                tell_table(self.rt, self.alloc, self.log, &bytes);
                self.tell(Heard::Failed("the table is bad"));
                Order::Done
            }
            Read::Not(why) => {
                self.tell(Heard::Failed(why));
                Order::Done
            }
        }
    }
}

impl<N: Files<File = File> + Clock> Renews for EachMinute<'_, N> {
    fn next_table(&mut self) -> Option<Vec<u8>> {
        self.next.take()
    }

    fn keeps_table(&mut self, why: &str) {
        if let Some(control) = &self.control {
            control.tell_of("table".as_bytes(), Heard::Failed(why));
        }
    }
}

impl<N: Files<File = File> + Clock> Minutes for EachMinute<'_, N> {
    fn is_asked(&self) -> bool {
        self.control.is_some()
    }

    fn next_order(&mut self) -> Order {
        let Some(control) = &mut self.control else {
            return Order::Nothing;
        };
        match control.next() {
            None => Order::Nothing,
            Some(Some(Asked::Stop)) => {
                self.is_stopped = true;
                self.next = None;
                Order::Stop
            }
            Some(Some(Asked::Totals)) => Order::Report,
            Some(Some(Asked::Table)) => self.renew(),
            Some(Some(Asked::Log) | None) => Order::Done,
        }
    }

    fn minute(&mut self, totals: &[AccountTotals], counts: &Counts, overloaded: u64) {
        self.telling.minute(totals, counts, overloaded);
        tell_accounts(self.rt, self.log, totals, counts);
    }
}
