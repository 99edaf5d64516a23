//! Why the arguments ask for no command.

use clap::Error;

/// Why the arguments ask for no command.
#[derive(Drop)]
pub enum WordsError {
    /// clap refuses the arguments, or they ask for help or the version. The error has the text to print. Memory that
    /// was refused is one of its kinds.
    Refused(Error),
    /// The text of an option is not what the option asks for: fault 98.
    BadOption,
}
