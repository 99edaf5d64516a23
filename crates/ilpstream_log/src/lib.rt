//! The log of `send`, `receive` and `connector`: one line for each event.
//!
//! `Event` has what can happen, and `line` the text of one. A `Journal` is a writer that many threads share. It writes at
//! most ten lines a second of one kind from one neighbour, counts the others, and reports their number in a line of its own.
//! Lines that its writer does not accept wait in a queue, and what finds no room is counted, too. specs/Lines.antt has the
//! text of each line, specs/Pacing.antt says which are written, and specs/Queue.antt which wait.
#![tactic(auto)]

mod date;
mod event;
mod journal;
mod laws;
mod outlet;
mod pace;
mod progress;
mod queue;
mod quote;
mod starts;
mod text;
mod waiting;

pub use event::{AccountCounts, Cause, Event, Heard, Kind, Lost, Start, Unreached};
pub use journal::Journal;
pub use laws::{events_are_counted, line_has_one_newline, ten_a_second, texts_of_peers_are_short};
pub use pace::{LINES_A_SECOND, Left, Pace, Verdict};
pub use progress::{Brief, Progress, shown};
pub use st_streams::{Blocked, EndTotals};
pub use text::line;
