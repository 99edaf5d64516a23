//! A command that is being put together.

ghost use Rattle.std.specs.Prelude.{◌≡◌, false, IfOk, IsOk};
ghost use Rattle.clap.specs.Words.{App, Rule, Shape, app_of, rule_of, with_subcommand};
ghost use Rattle.ilpstream_words.specs.Program.{Adds, HasShape, IsApp, with_rule};

use clap::{Arg, Command};
use std::alloc::AllocError;

/// A command of clap's that is being put together. Once an allocation is refused it stays refused, and `finish` reports it: so what
/// puts a command together has one way to its end.
#[derive(Drop)]
pub(crate) struct Draft<'a> {
    command: Result<Command<'a>, AllocError>,
}

impl<'a> Draft<'a> {
    /// A draft that begins with a command of clap's.
    pub(crate) fn of(command: Command<'a>) -> Draft<'a>
        ensures made { IsOk result.command }
        ensures same { IfOk result.command (λ c. c ≡ command.entry) }
    {
        Draft {
            command: Ok(command),
        }
    }

    /// The command with this text as its usage.
    pub(crate) fn with_usage(self, usage: &'a str) -> Draft<'a>
        ensures made { IsOk self.entry.command → IsOk result.command }
        ensures shape { Adds (λ s. s) self.entry result }
    {
        match self.command {
            Ok(command) => Draft {
                command: Ok(command.override_usage(usage)),
            },
            Err(refused) => Draft {
                command: Err(refused),
            },
        }
    }

    /// The command with one further option.
    pub(crate) fn with(self, option: Arg<'a>) -> Draft<'a>
        requires { option.global ≡ false }
        ensures { (r : Rule) → rule_of option.entry ≡ r → Adds (λ s. with_rule s r) self.entry result }
    {
        match self.command {
            Ok(command) => Draft {
                command: command.arg(option),
            },
            Err(refused) => Draft {
                command: Err(refused),
            },
        }
    }

    /// The program of this command with one further command.
    fn joined(command: Command<'a>, further: Draft<'a>) -> Draft<'a>
        ensures { (a : App) (s : Shape) → app_of command.entry ≡ a → HasShape s further.entry → IsApp (with_subcommand a s) result }
    {
        match further.command {
            Ok(further) => Draft {
                command: command.subcommand(further),
            },
            Err(refused) => Draft {
                command: Err(refused),
            },
        }
    }

    /// The program with one further command.
    pub(crate) fn with_command(self, further: Draft<'a>) -> Draft<'a>
        ensures { (a : App) (s : Shape) → IsApp a self.entry → HasShape s further.entry → IsApp (with_subcommand a s) result }
    {
        match self.command {
            Ok(command) => Draft::joined(command, further),
            Err(refused) => Draft {
                command: Err(refused),
            },
        }
    }

    /// The command as clap has it.
    ///
    /// Fails if an allocation was refused.
    pub(crate) fn finish(self) -> Result<Command<'a>, AllocError>
        ensures { result ≡ self.entry.command }
    {
        self.command
    }
}
