//! The file to which `send` and `receive` write their totals.

ghost use Rattle.std.specs.Prelude.{◌≡◌, IfErr, IfOk, IsNone, IsSome, OnOk, string_bytes};
ghost use Rattle.std.specs.Io.KnownBytes.{Appends};
ghost use Rattle.st_devices.specs.Tallies.{device_of};
ghost use Rattle.ilpstream_net.specs.declared.error.RunError.TheVariants.{BadOption};
ghost use Rattle.ilpstream_net.specs.EndTotals as spec;
ghost use Rattle.ilpstream_net.specs.EndTotals.{IsToldIn};

use crate::error::RunError;
use crate::obstacle::{Obstacle, Step};
use ilpstream_output::{Fault, TURNS, put};
use st_devices::CountWrite;
use st_streams::EndTotals;
use std::alloc::{AllocError, Global};
use std::fs;
use std::fs::{File, Files};
use std::io::Write;

/// Creates or empties the file of this name, if one was asked for. Fails with `BadOption` if it cannot be opened.
pub(crate) fn totals_file<'a, N: Files<File = File>>(
    rt: &N,
    name: Option<&'a str>,
    obstacle: &mut Option<Obstacle<'a>>,
) -> Result<Option<CountWrite<File>>, RunError>
    ensures none { IsNone name.entry → IfOk result (λ file. IsNone file) }
    ensures some { IsSome name.entry → IfOk result (λ file. IsSome file) }
    ensures refused { IfErr result (λ e. e ≡ BadOption) }
{
    let Some(name) = name else {
        return Ok(None);
    };
    match File::create(rt, name) {
        Ok(file) => Ok(Some(CountWrite::new(file))),
        Err(error) => {
            *obstacle = Some(Obstacle::of_file(Step::Totals, name, &error));
            Err(RunError::BadOption)
        }
    }
}

/// The lines that report the totals of an end.
#[tactic(auto, using(crate::proofs::Pieces::pieces))]
fn totals_text(alloc: Global, totals: &EndTotals) -> Result<String, AllocError>
    ensures { IfOk result (λ text. string_bytes text ≡ spec.totals_text totals.now) }
{
    let EndTotals {
        accepted,
        delivered,
        credited,
        paid,
    } = *totals;
    let text = format!(in alloc;
        "accepted {accepted}\ndelivered {delivered}\ncredited {credited}\npaid {paid}\n"
    )?;
    Ok(text)
}

/// Writes the totals of an end.
fn put_totals<W: Write>(
    alloc: Global,
    file: &mut CountWrite<W>,
    totals: &EndTotals,
) -> Result<(), Fault>
    ensures { OnOk result (Appends (W.contents (device_of file.old)) (W.contents (device_of file.new)) (spec.totals_text totals.now)) }
{
    let text = totals_text(alloc, totals)?;
    let mut turns = TURNS;
    put(file, text.as_bytes(), &mut turns)
}

/// Writes the totals of an end, if a file was asked for.
pub(crate) fn tell_totals<W: Write>(
    alloc: Global,
    file: &mut Option<CountWrite<W>>,
    totals: &EndTotals,
) -> Result<(), Fault>
    ensures { IsToldIn W.contents file.old file.new totals.now result }
{
    match file {
        Some(file) => put_totals(alloc, file, totals),
        None => Ok(()),
    }
}

/// Writes the totals of an end so far to its file, if that is a regular one. The totals at its end overwrite them. Their
/// text is at least as long, since no total falls.
pub(crate) fn put_totals_now<N: Files<File = File>>(
    rt: &N,
    alloc: Global,
    name: Option<&str>,
    totals: &EndTotals,
) {
    let Some(name) = name else {
        return;
    };
    match fs::metadata(rt, name) {
        Ok(found) if found.is_file() => {}
        _ => return,
    }
    if let Ok(file) = File::create(rt, name) {
        // (what cannot be written now may be at the end)
        let _ = put_totals(alloc, &mut CountWrite::new(file), totals);
    }
}
