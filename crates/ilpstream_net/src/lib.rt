//! The commands `connector` and `ledger`, and what all commands of a network share: their errors, log, pipe of control and terminal.
//! `connector` opens the files and sockets that its settings name, runs, and reports in its log and in its file of totals what its
//! accounts owe. `ledger` prints books, or enters a payment. How `send` and `receive` begin and end is here too: their token and
//! secret, their totals, and what they report while they run.
//!
//! What arguments mean is read before: a command is given its settings. Which table that is, and how the command may end, is in
//! specs/. `RunError` has the numbers of its faults.
#![tactic(auto)]

mod beside;
mod carried;
mod connector;
mod control;
mod counts;
mod credentials;
mod directed;
mod end_totals;
mod ends;
mod error;
mod hop;
mod input;
mod ledger;
mod listening;
mod log;
mod obstacle;
mod progress;
mod renewal;
mod reports;
mod serve;
mod table_file;
mod terminal;
mod totals;

pub use connector::run_connector;
pub use control::{Asked, Control, pipe_of};
pub use credentials::Credentials;
pub use directed::Directed;
pub use ends::{Begun, EndRequest, begin_command, end_command};
pub use error::RunError;
pub use ledger::run_ledger;
pub use listening::tell_listening;
pub use log::{Log, tell_run};
pub use obstacle::{Obstacle, Step, words_of};
pub use progress::{Side, Teller, input_length};
pub use terminal::{has_terminal, put_terminal};
pub use totals::{Telling, place_for, tell_text};
