//! The command `receive`.

ghost use Rattle.std.specs.Prelude.{◌≡◌, ◌≢◌, Err, IfOk, IsNone, IsOkUnless, IsSome};
ghost use Rattle.st_devices.specs.Tallies.{device_of};
ghost use Rattle.st_streams.specs.declared.end_error.EndError.TheVariants as refusals;
ghost use Rattle.ilpstream_serving.specs.declared.error.TransferError.TheVariants as transfer;
ghost use Rattle.ilpstream_net.specs.Credentials.{AreOf};
ghost use Rattle.ilpstream_main.specs.Settings.{IsReceiver};
ghost use Rattle.ilpstream_main.specs.Transfers.{AreTermsIn, EndsReceive, ReceivesBy, TransfersIn, receiver_end, receiver_result};
ghost use Rattle.ilpstream_net.specs.declared.error.RunError.TheVariants.{BadOption, NoListener, Transfer};

use crate::send::{nothing_yet, widest};
use ilpstream_ends::{ReceivingEnd, receive_on, server_end};
use ilpstream_log::Start;
use ilpstream_net::{
    Begun, Control, Credentials, Directed, EndRequest, Log, Obstacle, RunError, Side, Teller,
    begin_command, end_command, pipe_of, tell_listening, tell_run,
};
use ilpstream_output::TURNS;
use ilpstream_serving::{ReceiveTerms, RuntimeClock, TransferError, Watch};
use ilpstream_settings::ReceiveSettings;
use st_devices::CountWrite;
use st_end::Totals;
use std::alloc::Global;
use std::fs::{File, Files};
use std::io::Write;
use std::net::{Net, TcpListener, TcpStream};
use std::sync::Wait;
use std::thread::Threads;

/// The end of a receiver by these settings, with this secret. Fails if memory is refused.
fn end_of(
    alloc: Global,
    settings: &ReceiveSettings<'_>,
    secret: [u8; 32],
) -> Result<ReceivingEnd, RunError>
    requires { IsReceiver settings.now }
    ensures made { IfOk result (λ e. e ≡ receiver_end settings.now secret) }
    ensures refused { IsOkUnless result (Transfer (transfer.End refusals.NoMemory)) }
{
    match server_end(alloc, secret, settings.address, settings.peer, widest()) {
        Ok(end) => Ok(end),
        Err(error) => Err(RunError::Transfer(TransferError::End(error))),
    }
}

/// What a receiver is to do by these settings.
fn terms_of<'a>(
    settings: &ReceiveSettings<'_>,
    credentials: &'a Credentials,
    log: Log<'a>,
) -> ReceiveTerms<'a>
    ensures terms { AreTermsIn settings.now credentials.now result }
    ensures log { result.log ≡ log.entry }
{
    ReceiveTerms {
        token: credentials.token.as_str(),
        receive_max: settings.receive_max,
        patience: settings.patience,
        workers: settings.workers,
        turns: TURNS,
        log,
    }
}

/// The listener at the address of the settings. Sets `obstacle` if it fails.
fn listener_of<'a, N: Net<Listener = TcpListener, Stream = TcpStream> + std::time::Clock>(
    rt: &N,
    alloc: Global,
    settings: &ReceiveSettings<'a>,
    log: Log<'_>,
    obstacle: &mut Option<Obstacle<'a>>,
) -> Result<TcpListener, RunError>
    ensures { IsOkUnless result NoListener }
{
    match TcpListener::bind(rt, settings.listen) {
        Ok(listener) => {
            tell_listening(rt, alloc, log, settings.verbose, &listener);
            Ok(listener)
        }
        Err(error) => {
            *obstacle = Some(Obstacle::of_address(settings.listen, &error));
            Err(RunError::NoListener)
        }
    }
}

/// Receives from one sender, writes the bytes to the output, and sets the totals of its end, if there was one.
#[tactic(auto, using(crate::proofs::Transfers::received, crate::proofs::Transfers::unreceived))]
fn transfer<
    'a,
    W: Write,
    N: Net<Listener = TcpListener, Stream = TcpStream>
        + Files<File = File>
        + Threads
        + Wait
        + std::time::Clock
        + Sync,
>(
    rt: &N,
    alloc: Global,
    settings: &ReceiveSettings<'a>,
    credentials: &Credentials,
    pipe: Option<File>,
    writer: &mut CountWrite<W>,
    log: Log<'_>,
    totals: &mut Totals,
    obstacle: &mut Option<Obstacle<'a>>,
) -> Result<(), RunError>
    requires settings { IsReceiver settings.now }
    requires control { IsSome settings.now.control → IsSome pipe }
    ensures bad { result ≢ Err BadOption }
    ensures made { TransfersIn settings.now credentials.now.secret (W.contents (device_of writer.old)) (W.contents (device_of writer.new))
        totals.old totals.new result }
{
    let listener = listener_of(rt, alloc, settings, log, obstacle)?;
    let end = end_of(alloc, settings, credentials.secret)?;
    let terms = terms_of(settings, credentials, log);
    let clock = RuntimeClock::with_log(rt, log);
    let mut watch = directed(rt, alloc, settings, pipe, log);
    let ended = receive_on(rt, alloc, listener, end, writer, clock, terms, &mut watch);
    *totals = ended.totals;
    result_of(ended.result, watch.is_stopped())
}

/// Reports the progress of the receiver, and reads what it is asked by this pipe, if there is one.
fn directed<'r, N: Files<File = File> + std::time::Clock>(
    rt: &'r N,
    alloc: Global,
    settings: &ReceiveSettings<'r>,
    pipe: Option<File>,
    log: Log<'r>,
) -> Directed<'r, N>
    requires { IsSome settings.now.control → IsSome pipe }
    ensures { IsSome settings.now.control → IsSome result.control }
{
    let control = match pipe {
        Some(pipe) => Some(Control::new(rt, alloc, pipe, log, settings.log, false)),
        None => None,
    };
    let teller = Teller::new(rt, alloc, log, Side::Receives);
    Directed::new(teller, control, settings.totals)
}

/// The result of a receiver. One that was asked to stop, and has no further request since, ended well.
fn result_of(ended: Result<u64, TransferError>, is_stopped: bool) -> Result<(), RunError>
    ensures stopped { result ≡ receiver_result ended is_stopped }
{
    match ended {
        Ok(_) => Ok(()),
        Err(TransferError::Turns | TransferError::Silent) if is_stopped => Ok(()),
        Err(error) => Err(RunError::Transfer(error)),
    }
}

/// What was asked for, apart from the transfer.
fn asked_of<'a>(settings: &ReceiveSettings<'a>) -> EndRequest<'a>
    ensures credentials { (result.token ≡ settings.now.token) × (result.secret ≡ settings.now.secret) }
    ensures files { (result.totals ≡ settings.now.totals) × (result.log ≡ settings.now.log) }
{
    EndRequest {
        token: settings.token,
        secret: settings.secret,
        totals: settings.totals,
        log: settings.log,
        start: Start::Receive {
            listen: settings.listen,
            address: settings.address,
            peer: settings.peer,
            receive_max: settings.receive_max,
        },
    }
}

/// Opens the pipe by which the command is asked things, if there is one. If it cannot be opened, the log says how the
/// command ended.
fn pipe_for<'a, N: Files<File = File> + std::time::Clock>(
    rt: &N,
    alloc: Global,
    settings: &ReceiveSettings<'a>,
    log: Log<'_>,
    obstacle: &mut Option<Obstacle<'a>>,
) -> Result<Option<File>, RunError>
    ensures none { IsNone settings.now.control → IfOk result (λ pipe. IsNone pipe) }
    ensures some { IsSome settings.now.control → IfOk result (λ pipe. IsSome pipe) }
    ensures refused { IsOkUnless result BadOption }
{
    match pipe_of(rt, settings.control, obstacle) {
        Ok(pipe) => Ok(pipe),
        Err(error) => {
            let _ = tell_run(rt, alloc, log, obstacle, Err(error));
            Err(error)
        }
    }
}

/// Receives, once the command has begun, and ends the command.
#[tactic(auto, using(crate::proofs::Transfers::receives_by))]
fn receive_begun<
    'a,
    W: Write,
    T: Write,
    N: Net<Listener = TcpListener, Stream = TcpStream>
        + Files<File = File>
        + Threads
        + Wait
        + std::time::Clock
        + Sync,
>(
    rt: &N,
    alloc: Global,
    settings: &ReceiveSettings<'a>,
    begun: &mut Begun<T>,
    pipe: Option<File>,
    writer: &mut CountWrite<W>,
    obstacle: &mut Option<Obstacle<'a>>,
) -> Result<(), RunError>
    requires settings { IsReceiver settings.now }
    requires asked { IsSome settings.now.totals → IsSome begun.old.totals }
    requires control { IsSome settings.now.control → IsSome pipe }
    ensures bad { result ≢ Err BadOption }
    ensures receives { ReceivesBy T.contents settings.now begun.old.credentials.secret
        (W.contents (device_of writer.old)) (W.contents (device_of writer.new)) begun.old.totals begun.new.totals result }
{
    let mut totals = nothing_yet();
    let ended = transfer(
        rt,
        alloc,
        settings,
        &begun.credentials,
        pipe,
        writer,
        begun.journal.as_ref(),
        &mut totals,
        obstacle,
    );
    end_command(rt, alloc, begun, &totals, obstacle, ended)
}

/// Receives from one sender and writes the bytes to the output, as the settings say. If a file of the token or the secret,
/// one for events or totals, or the pipe by which it is asked things cannot be opened, nothing else is done. Sets
/// `obstacle` if a file or an address prevents the transfer.
#[tactic(auto, using(crate::proofs::Transfers::ends_receive, crate::proofs::Transfers::begins_no_receive))]
pub fn run_receive<
    'a,
    W: Write,
    N: Net<Listener = TcpListener, Stream = TcpStream>
        + Files<File = File>
        + Threads
        + Wait
        + std::time::Clock
        + Sync,
>(
    rt: &N,
    alloc: Global,
    settings: &ReceiveSettings<'a>,
    writer: &mut CountWrite<W>,
    obstacle: &mut Option<Obstacle<'a>>,
) -> Result<(), RunError>
    requires { IsReceiver settings.now }
    ensures untouched { result ≡ Err BadOption → writer.new ≡ writer.old }
    ensures ends { EndsReceive settings.now (W.contents (device_of writer.old)) (W.contents (device_of writer.new)) result }
{
    let mut begun = match begin_command(rt, alloc, asked_of(settings), obstacle) {
        Ok(begun) => begun,
        Err(error) => return Err(error),
    };
    match pipe_for(rt, alloc, settings, begun.journal.as_ref(), obstacle) {
        Ok(pipe) => receive_begun(rt, alloc, settings, &mut begun, pipe, writer, obstacle),
        Err(error) => Err(error),
    }
}
