//! The program `ilpstream`: it reads the arguments of the command line, and runs the command that they name.
//!
//! `run` is given the arguments, a reader, a writer and a writer for errors, the runtime that gives files, sockets, threads
//! and the time, and what opens books. What the arguments mean is in specs/Words.antt of ilpstream_words; what the program answers
//! is in specs/. `ilpstream` calls it with the arguments and the standard streams of a process. The commands
//! `connector` and `ledger` are in ilpstream_net; `send`, `receive` and the file for the totals of `local` are here.
//!
//! `send` and `receive` open the files and sockets that their settings name, transfer, and report in their log, in their line on a
//! terminal and in their file of totals how far they are. Which end that is, on which terms, and how the command may end, is in
//! specs/Transfers.antt. `RunError` of ilpstream_net has the numbers of their faults.
#![tactic(auto)]

mod error;
mod laws;
mod local;
mod process;
mod program;
mod receive;
mod send;
mod stdin;
mod streams;
mod system_books;
mod tell;

pub use error::LocalError;
pub use ilpstream_net::{Obstacle, RunError};
pub use laws::{a_bad_table_is_told_exactly, frames_needs_no_word};
pub use process::{ilpstream, start};
pub use program::run;
pub use receive::run_receive;
pub use send::run_send;
pub use streams::Streams;
