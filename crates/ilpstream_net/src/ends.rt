//! How the commands `send` and `receive` begin and end.

ghost use Rattle.std.specs.Prelude.{◌≡◌, ◌≢◌, Err, IfErr, IfOk, IsNone, IsSome};
ghost use Rattle.ilpstream_net.specs.Credentials.{AreOf, IsLawfulToken, WhyNotOpened};
ghost use Rattle.ilpstream_net.specs.EndTotals.{EndsTold};
ghost use Rattle.ilpstream_net.specs.declared.error.RunError.TheVariants.{BadOption};

use crate::credentials::{Credentials, credentials_of};
use crate::end_totals::{tell_totals, totals_file};
use crate::error::RunError;
use crate::log::{journal, tell, tell_end, tell_run};
use crate::obstacle::Obstacle;
use crate::totals::ended_with;
use ilpstream_log::{Event, Start};
use ilpstream_serving::LogFile;
use ilpstream_settings::{Secret, Token};
use st_devices::CountWrite;
use st_streams::EndTotals;
use std::alloc::Global;
use std::fs::{File, Files};
use std::io::Write;
use std::time::Clock;

/// What a command of one end was asked for, apart from its transfer.
#[derive(Clone, Copy)]
pub struct EndRequest<'a> {
    pub token: Token<'a>,
    pub secret: Secret<'a>,
    /// The name of the file for its totals, if there is one.
    pub totals: Option<&'a str>,
    /// The name of the file for its log, if there is one.
    pub log: Option<&'a str>,
    /// The settings that the log begins with.
    pub start: Start<'a>,
}

/// What such a command has before its transfer. Its totals are written to a `W`, if they are asked for.
#[derive(Drop)]
pub struct Begun<W> {
    pub credentials: Credentials,
    pub journal: Option<LogFile>,
    pub totals: Option<CountWrite<W>>,
}

/// Begins a command of one end: reads the files of its token and its secret, and opens those for events and totals. If one
/// of them cannot be read or opened, `obstacle` names it, and nothing else is to be done.
pub fn begin_command<'a, N: Files<File = File> + Clock>(
    rt: &N,
    alloc: Global,
    asked: EndRequest<'a>,
    obstacle: &mut Option<Obstacle<'a>>,
) -> Result<Begun<File>, RunError>
    requires { IsLawfulToken asked.token }
    ensures credentials { IfOk result (λ begun. AreOf asked.entry.token asked.entry.secret begun.credentials) }
    ensures no_totals { IsNone asked.entry.totals → IfOk result (λ begun. IsNone begun.totals) }
    ensures totals { IsSome asked.entry.totals → IfOk result (λ begun. IsSome begun.totals) }
    ensures no_log { IsNone asked.entry.log → IfOk result (λ begun. IsNone begun.journal) }
    ensures log { IsSome asked.entry.log → IfOk result (λ begun. IsSome begun.journal) }
    ensures refused { IfErr result WhyNotOpened }
{
    let credentials = match credentials_of(rt, alloc, asked.token, asked.secret, obstacle) {
        Ok(credentials) => credentials,
        Err(error) => return Err(error),
    };
    let journal = match journal(rt, alloc, asked.log, obstacle) {
        Ok(journal) => journal,
        Err(error) => return Err(error),
    };
    let log = journal.as_ref();
    tell(rt, log, &Event::Start(asked.start));
    match totals_file(rt, asked.totals, obstacle) {
        Ok(totals) => Ok(Begun {
            credentials,
            journal,
            totals,
        }),
        Err(error) => {
            let _ = tell_run(rt, alloc, log, obstacle, Err(error));
            Err(error)
        }
    }
}

/// Ends such a command: writes its totals, if they are asked for, and how it ended to its log, if it has one. Returns the
/// result of the command.
pub fn end_command<N: Clock, W: Write>(
    rt: &N,
    alloc: Global,
    begun: &mut Begun<W>,
    totals: &EndTotals,
    obstacle: &Option<Obstacle<'_>>,
    ended: Result<(), RunError>,
) -> Result<(), RunError>
    ensures bad { ended ≢ Err BadOption → result ≢ Err BadOption }
    ensures told { EndsTold W.contents begun.old.totals begun.new.totals totals.now ended result }
{
    let log = begun.journal.as_ref();
    tell_end(rt, log, totals);
    let told = tell_totals(alloc, &mut begun.totals, totals);
    tell_run(rt, alloc, log, obstacle, ended_with(ended, told))
}
