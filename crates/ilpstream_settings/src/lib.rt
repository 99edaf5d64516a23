//! The settings of the commands `local`, `send`, `receive`, `connector` and `ledger`, from their arguments; and the
//! connector's table.
//!
//! The texts of the options are given, and the settings are returned, or `None` if a text is bad. What each text has to
//! be is in specs/: numbers, HOST:PORT and rates (Numbers), where tokens and secrets come from (Sources), the settings of
//! each command (Settings, Ledger), the lines of a table with the names of its accounts (Table), and which rules a bad
//! table breaks (Faults, Whole). This crate uses no file, no socket and no clock.
#![tactic(auto)]

mod error;
mod fault;
mod first_line;
mod laws;
mod ledger;
mod line;
mod names;
mod number;
mod options;
mod settings;
mod source;
mod table;
mod text;
mod whole;

pub use error::TableError;
pub use fault::{LineFault, TableFault, table_fault};
pub use first_line::{first_secret, first_token};
pub use laws::{a_bad_text_says_no_table, lines_say_one_table};
pub use ledger::{Kind, LedgerSettings, Payment, is_reference};
pub use line::AccountLine;
pub use number::read_number;
pub use options::{ConnectorOptions, LedgerOptions, LocalOptions, ReceiveOptions, SendOptions};
pub use settings::{
    ConnectorSettings, LEAST_SEND_PATIENCE, LocalRequest, LocalSettings, MAX_HOPS, MAX_LOSE,
    MAX_MONEY, MAX_PATIENCE, MAX_REQUESTS, MAX_STREAMS, MAX_WORKERS, ReceiveSettings, SendSettings,
};
pub use source::{Secret, Token};
pub use st_http::Neighbour;
pub use st_links::BalanceSide;
pub use table::{Table, read_table};
pub use text::{read_rate, read_secret};
pub use whole::{WholeFault, WholeRule, whole_fault};
