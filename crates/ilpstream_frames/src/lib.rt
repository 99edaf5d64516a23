//! The command `frames` of the program `ilpstream`, over a reader, a writer and a writer for errors.
//!
//! `frames` reads plain STREAM packets, one on each line, and prints the longest run of each stream. Its output is
//! specified by the lines of its input (specs/Answers.antt): which lines are refused and by which number, and what the
//! run of each stream is. How a run may end, and what was written by then, is in specs/Endings.antt.
#![tactic(auto)]

mod digits;
mod error;
mod frames;
mod line;
mod streams;
mod texts;

pub use error::LineError;
pub use frames::{Lines, answer_frames, run_frames};
pub use ilpstream_output::Fault;
pub use st_devices::{CountRead, CountWrite};
