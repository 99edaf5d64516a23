//! How a command writes, reports a fault and ends; and the command `explain`, which prints what the number of a fault means.
//!
//! `put` writes a text whole, over a writer that counts its calls; `say` and `tell_fault` write to the writer for errors. How a run
//! may end, and what was written by then, is in specs/Endings.antt.
#![tactic(auto)]

mod error;
mod explanations;
mod numbers;
mod output;
mod texts;

pub use error::Fault;
pub use numbers::{explain, explanation};
pub use output::{TURNS, put, say, tell_fault};
pub use st_devices::CountWrite;
