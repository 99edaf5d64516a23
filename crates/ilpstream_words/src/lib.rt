//! The arguments of the command line, as clap reads them.
//!
//! `read_words` reads the arguments and returns the command with its settings, or clap's refusal, or that the text of
//! an option is bad. The program and its commands, as clap reads arguments for them, are in specs/Program.antt. What
//! the arguments ask for is in specs/Words.antt, over the values that clap gives the options and ilpstream_settings'
//! definitions of what they mean.
#![tactic(auto)]

mod draft;
mod error;
mod laws;
mod options;
mod pairs;
mod program;
mod request;
mod rules;
mod texts;

pub use error::WordsError;
pub use laws::plain_words_say_their_texts;
pub use request::{Request, read_words};
pub use rules::broken_rule;
