//! The command `local`, and the file to which it writes how many Prepares it sent.

ghost use Rattle.std.specs.Prelude.{◌≡◌, ◌≤◌, IfOk, IfSome, MatchOption, OnOk, Result, string_bytes};
ghost use Rattle.std.specs.Io.KnownBytes.{Appends};
ghost use Rattle.st_devices.specs.Tallies.{device_of, tally_of};
ghost use Rattle.ilpstream_output.specs.declared.error.Fault.{Fault};
ghost use Rattle.ilpstream_local.specs.Endings as ends;
ghost use Rattle.ilpstream_main.specs.Endings.{EndsLocalOver, TellsLocal};
ghost use Rattle.ilpstream_main.specs.Local as spec;
ghost use Rattle.ilpstream_main.specs.Settings.{IsChain};
ghost use Rattle.ilpstream_main.specs.declared.error.LocalError.{LocalError};

use crate::error::LocalError;
use crate::tell::{tell_end, tell_number, tell_terminal};
use ilpstream_local::{LocalSends, play_local, run_local};
use ilpstream_net::{Obstacle, RunError, Telling, place_for, tell_text};
use ilpstream_output::{Fault, TURNS};
use ilpstream_settings::{LocalRequest, LocalSettings};
use st_devices::{CountRead, CountWrite};
use std::alloc::{AllocError, Global};
use std::fs::{File, Files};
use std::io::{Read, Write};

/// The line that reports the bound of a run. Empty if it has none.
#[tactic(auto, using(crate::proofs::Pieces::pieces))]
fn bound_text(alloc: Global, bound: Option<u64>) -> Result<String, AllocError>
    ensures { IfOk result (λ text. string_bytes text ≡ spec.bound_text bound) }
{
    let Some(most) = bound else {
        return Ok(String::new(alloc));
    };
    let text = format!(in alloc; "bound {most}\n")?;
    Ok(text)
}

/// The lines that report how many Prepares were sent and lost.
#[tactic(auto, using(crate::proofs::Pieces::pieces))]
fn sends_text(alloc: Global, sends: LocalSends) -> Result<String, AllocError>
    ensures { IfOk result (λ text. string_bytes text ≡ spec.sends_text sends) }
{
    let LocalSends { sent, lost, bound } = sends;
    let mut text = format!(in alloc; "sends {sent}\nlost {lost}\n")?;
    let last = bound_text(alloc, bound)?;
    text.push_str(last.as_str())?;
    Ok(text)
}

/// Writes these lines to the file for the totals.
fn tell_sends<N: Files<File = File>>(
    alloc: Global,
    telling: Telling<'_, N>,
    sends: LocalSends,
) -> Result<(), Fault> {
    match sends_text(alloc, sends) {
        Ok(text) => tell_text(telling, text.as_bytes()),
        Err(_) => Err(Fault::NoMemory),
    }
}

/// The result of a run that transferred all of its input: that of writing its numbers, unless they are past the bound.
fn ended_within(sends: LocalSends, told: Result<(), Fault>) -> Result<(), LocalError>
    ensures { result ≡ spec.ended_within sends told }
{
    if sends.is_past() {
        return Err(LocalError::PastBound);
    }
    match told {
        Ok(()) => Ok(()),
        Err(fault) => Err(LocalError::Run(RunError::Fault(fault))),
    }
}

/// Runs `local`, and writes its numbers to the place that was found for its totals.
fn told<R: Read, W: Write, N: Files<File = File>>(
    alloc: Global,
    telling: Telling<'_, N>,
    settings: &LocalSettings,
    reader: &mut CountRead<R>,
    writer: &mut CountWrite<W>,
) -> Result<(), LocalError>
    requires { IsChain settings.now }
    ensures { EndsLocalOver settings.now R.remaining W.contents reader.old reader.new writer.old writer.new result }
{
    let mut sends = LocalSends::none();
    let mut turns = TURNS;
    match play_local(alloc, settings, reader, writer, &mut turns, &mut sends) {
        Ok(()) => ended_within(sends, tell_sends(alloc, telling, sends)),
        Err(fault) => Err(LocalError::Local(fault)),
    }
}

/// Runs `local`, and writes how many Prepares it sent, if a file for that was asked for. If that file cannot be made,
/// nothing is read and written. If the run fails, nothing is written to that file.
fn placed<'n, R: Read, W: Write, N: Files<File = File>>(
    rt: &N,
    alloc: Global,
    request: &LocalRequest<'n>,
    reader: &mut CountRead<R>,
    writer: &mut CountWrite<W>,
    obstacle: &mut Option<Obstacle<'n>>,
) -> Result<(), LocalError>
    requires { IsChain request.now.settings }
    ensures { EndsLocalOver request.now.settings R.remaining W.contents reader.old reader.new writer.old writer.new result }
{
    match place_for(rt, alloc, request.totals, obstacle) {
        Ok(telling) => told(alloc, telling, &request.settings, reader, writer),
        Err(error) => Err(LocalError::Run(error)),
    }
}

/// Reports how `local` ended, and on a terminal why.
fn tell_local<E: Write>(
    alloc: Global,
    errors: &mut CountWrite<E>,
    obstacle: &Option<Obstacle<'_>>,
    ended: Result<(), LocalError>,
) -> u8
    ensures told { TellsLocal ended E.contents errors.old errors.new result }
    ensures status { result ≤ 1 }
{
    match ended {
        Ok(()) => 0,
        Err(LocalError::Run(error)) => tell_end(alloc, errors, obstacle, Err(error)),
        Err(error) => {
            let status = tell_number(alloc, errors, error.number());
            if let Ok(words) = format!(in alloc; "{error}") {
                tell_terminal(alloc, words.as_str());
            }
            status
        }
    }
}

/// The command `local`: `run_local` of ilpstream_local, and with a file for its totals the same run whose numbers are written
/// there. A run that has more Sends than its bound ends with fault 126, after all was written.
pub(crate) fn local<R: Read, W: Write, E: Write, N: Files<File = File>>(
    rt: &N,
    alloc: Global,
    request: &LocalRequest<'_>,
    reader: &mut CountRead<R>,
    writer: &mut CountWrite<W>,
    errors: &mut CountWrite<E>,
) -> u8
    requires { IsChain request.now.settings }
    ensures does { MatchOption request.now.totals
        (ends.RunsLocal request.now.settings (R.remaining (device_of reader.old)) (W.contents (device_of writer.old)) (W.contents (device_of writer.new))
        (ends.HasEnded (tally_of reader.old) (tally_of reader.new) (tally_of writer.old) (tally_of writer.new)) E.contents errors.old errors.new result)
        (λ name. (end : Result (Unit {0}) LocalError)
        × EndsLocalOver request.now.settings R.remaining W.contents reader.old reader.new writer.old writer.new end
        × TellsLocal end E.contents errors.old errors.new result) }
    ensures status { result ≤ 1 }
{
    if request.totals.is_none() {
        return run_local(alloc, &request.settings, reader, writer, errors);
    }
    let mut obstacle = None;
    let ended = placed(rt, alloc, request, reader, writer, &mut obstacle);
    tell_local(alloc, errors, &obstacle, ended)
}
