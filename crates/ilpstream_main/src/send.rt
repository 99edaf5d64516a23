//! The command `send`.

ghost use Rattle.std.specs.Prelude.{◌≡◌, ◌≢◌, ◌⊎◌, Err, IfErr, IfOk, IsOkUnless, IsSome};
ghost use Rattle.st_hub.specs.Hub.{IsNew};
ghost use Rattle.st_streams.specs.declared.end_error.EndError.TheVariants as refusals;
ghost use Rattle.ilpstream_ends.specs.Outcomes.{no_totals};
ghost use Rattle.ilpstream_serving.specs.declared.error.TransferError.TheVariants as transfer;
ghost use Rattle.ilpstream_output.specs.declared.error.Fault.TheVariants.{NoMemory};
ghost use Rattle.ilpstream_net.specs.Credentials.{AreOf};
ghost use Rattle.ilpstream_main.specs.Settings.{IsSender};
ghost use Rattle.ilpstream_main.specs.Transfers.{AreTermsOut, EndsSend, IsNeighbourOf, SendsBy, TransfersOut, sender_end, sender_result, widest as widest_config};
ghost use Rattle.ilpstream_net.specs.declared.error.RunError.TheVariants.{BadOption, Fault as IsFault, NoRandom, Transfer};

use ilpstream_ends::{client_end, send_on};
use ilpstream_log::Start;
use ilpstream_net::{
    Begun, Credentials, EndRequest, Log, Obstacle, RunError, Side, Step, Teller, begin_command,
    end_command, has_terminal, input_length,
};
use ilpstream_output::{Fault, TURNS};
use ilpstream_serving::{Neighbour, SendTerms, TransferError};
use ilpstream_settings::SendSettings;
use st_devices::CountRead;
use st_end::{EndState, Totals};
use st_sender::{EndConfig, MAX_IN_FLIGHT, MAX_PACKET_LIMIT, MAX_PACKETS};
use std::alloc::Global;
use std::fs::{File, Files};
use std::io::{BufReader, Read, Write};
use std::net::{Net, TcpListener, TcpStream};
use std::sync::Wait;
use std::thread::Threads;

/// The most bytes of one read of the input: four of the longest chunks that a ring accepts.
const INPUT: usize = 16_384;

/// The most bytes of one read of the random bytes: those of 341 IVs.
const RANDOM: usize = 4_092;

/// The reader, with a buffer of `capacity` bytes.
fn buffered<R: Read + Drop>(
    alloc: Global,
    capacity: usize,
    reader: R,
) -> Result<BufReader<R>, RunError>
    ensures { IsOkUnless result (IsFault NoMemory) }
{
    match BufReader::with_capacity(alloc, capacity, reader) {
        Ok(buffered) => Ok(buffered),
        Err(_) => Err(RunError::Fault(Fault::NoMemory)),
    }
}

/// The totals of an end that has done nothing.
pub(crate) fn nothing_yet() -> Totals
    ensures { result ≡ no_totals }
{
    Totals {
        accepted: 0,
        delivered: 0,
        credited: 0,
        paid: 0,
    }
}

/// The configuration of an end that may have the most bytes and packets in flight.
pub(crate) fn widest() -> EndConfig
    ensures { result ≡ widest_config }
{
    let Some(config) = EndConfig::new(MAX_IN_FLIGHT, MAX_PACKETS, MAX_PACKET_LIMIT) else {
        unreachable!();
    };
    config
}

/// Reports the progress of the command. The length of its input is read only for a terminal.
fn teller<'a, N: Files<File = File> + std::time::Clock>(
    rt: &'a N,
    alloc: Global,
    log: Log<'a>,
) -> Teller<'a, N> {
    let length = if has_terminal() {
        input_length(rt)
    } else {
        None
    };
    Teller::new(rt, alloc, log, Side::Sends(length))
}

/// The end of a sender by these settings, with this secret. Fails if memory is refused.
fn end_of(
    alloc: Global,
    settings: &SendSettings<'_>,
    secret: [u8; 32],
) -> Result<EndState<Global>, RunError>
    requires { IsSender settings.now }
    ensures made { IfOk result (λ e. e ≡ sender_end settings.now secret) }
    ensures new { IfOk result IsNew }
    ensures refused { IsOkUnless result (Transfer (transfer.End refusals.NoMemory)) }
{
    let config = widest().with_least(settings.least);
    match client_end(alloc, secret, settings.address, settings.peer, config) {
        Ok(end) => Ok(end),
        Err(error) => Err(RunError::Transfer(TransferError::End(error))),
    }
}

/// The neighbour of a sender by these settings, and the token by which that knows it.
fn neighbour_of<'a>(settings: &SendSettings<'a>, credentials: &'a Credentials) -> Neighbour<'a>
    requires settings { IsSender settings.now }
    requires credentials { AreOf settings.now.token settings.now.secret credentials.now }
    ensures { IsNeighbourOf settings.now credentials.now result }
{
    match Neighbour::new(settings.to, credentials.token.as_str()) {
        Some(neighbour) => neighbour,
        None => unreachable!(),
    }
}

/// What a sender is to do by these settings.
fn terms_of<'a>(
    settings: &SendSettings<'a>,
    credentials: &'a Credentials,
    log: Log<'a>,
) -> SendTerms<'a>
    requires settings { IsSender settings.now }
    requires credentials { AreOf settings.now.token settings.now.secret credentials.now }
    ensures terms { AreTermsOut settings.now credentials.now result }
    ensures log { result.log ≡ log.entry }
{
    let SendSettings { money, workers, .. } = *settings;
    SendTerms {
        neighbour: neighbour_of(settings, credentials),
        money,
        workers,
        patience: settings.patience,
        turns: TURNS,
        log,
    }
}

/// The file of random bytes. Fails with `NoRandom` if it cannot be opened, and with a fault if memory is refused.
fn random_of<'a, N: Files<File = File>>(
    rt: &N,
    alloc: Global,
    settings: &SendSettings<'a>,
    obstacle: &mut Option<Obstacle<'a>>,
) -> Result<BufReader<File>, RunError>
    ensures { IfErr result (λ e. (e ≡ NoRandom) ⊎ (e ≡ IsFault NoMemory)) }
{
    match File::open(rt, settings.random) {
        Ok(random) => buffered(alloc, RANDOM, random),
        Err(error) => {
            *obstacle = Some(Obstacle::of_file(Step::Random, settings.random, &error));
            Err(RunError::NoRandom)
        }
    }
}

/// The result of a command, by the result of its transfer.
fn result_of(ended: Result<u64, TransferError>) -> Result<(), RunError>
    ensures { result ≡ sender_result ended }
{
    match ended {
        Ok(_) => Ok(()),
        Err(error) => Err(RunError::Transfer(error)),
    }
}

/// Sends the input and money to a receiver, and sets the totals of its end, if there was one.
#[tactic(auto, using(crate::proofs::Transfers::sent, crate::proofs::Transfers::unsent))]
fn transfer<
    'a,
    R: Read,
    N: Net<Listener = TcpListener, Stream = TcpStream>
        + Files<File = File>
        + Threads
        + Wait
        + std::time::Clock
        + Sync,
>(
    rt: &N,
    alloc: Global,
    settings: &SendSettings<'a>,
    credentials: &Credentials,
    reader: &mut CountRead<R>,
    log: Log<'_>,
    totals: &mut Totals,
    obstacle: &mut Option<Obstacle<'a>>,
) -> Result<(), RunError>
    requires settings { IsSender settings.now }
    requires credentials { AreOf settings.now.token settings.now.secret credentials.now }
    ensures bad { result ≢ Err BadOption }
    ensures made { TransfersOut settings.now credentials.now.secret totals.old totals.new result }
{
    let random = random_of(rt, alloc, settings, obstacle)?;
    let input = buffered(alloc, INPUT, reader)?;
    let end = end_of(alloc, settings, credentials.secret)?;
    let terms = terms_of(settings, credentials, log);
    let watch = teller(rt, alloc, log);
    let ended = send_on(rt, alloc, end, input, random, terms, watch);
    *totals = ended.totals;
    result_of(ended.result)
}

/// What was asked for, apart from the transfer.
fn asked_of<'a>(settings: &SendSettings<'a>) -> EndRequest<'a>
    ensures credentials { (result.token ≡ settings.now.token) × (result.secret ≡ settings.now.secret) }
    ensures files { (result.totals ≡ settings.now.totals) × (result.log ≡ settings.now.log) }
{
    EndRequest {
        token: settings.token,
        secret: settings.secret,
        totals: settings.totals,
        log: settings.log,
        start: Start::Send {
            to: settings.to,
            address: settings.address,
            peer: settings.peer,
            money: settings.money,
            workers: settings.workers,
        },
    }
}

/// Sends the input and the money to a receiver, once the command has begun, and ends the command.
#[tactic(auto, using(crate::proofs::Transfers::sends_by))]
fn send_begun<
    'a,
    R: Read,
    W: Write + Drop,
    N: Net<Listener = TcpListener, Stream = TcpStream>
        + Files<File = File>
        + Threads
        + Wait
        + std::time::Clock
        + Sync,
>(
    rt: &N,
    alloc: Global,
    settings: &SendSettings<'a>,
    begun: &mut Begun<W>,
    reader: &mut CountRead<R>,
    obstacle: &mut Option<Obstacle<'a>>,
) -> Result<(), RunError>
    requires settings { IsSender settings.now }
    requires begun { AreOf settings.now.token settings.now.secret begun.old.credentials }
    requires asked { IsSome settings.now.totals → IsSome begun.old.totals }
    ensures bad { result ≢ Err BadOption }
    ensures sends { SendsBy W.contents settings.now begun.old.credentials.secret begun.old.totals begun.new.totals result }
{
    let mut totals = nothing_yet();
    let ended = transfer(
        rt,
        alloc,
        settings,
        &begun.credentials,
        reader,
        begun.journal.as_ref(),
        &mut totals,
        obstacle,
    );
    end_command(rt, alloc, begun, &totals, obstacle, ended)
}

/// Sends the input and the money to a receiver, as the settings say. If a file of the token or the secret, or one for
/// events or totals, cannot be opened, nothing else is done. Sets `obstacle` if a file prevents the transfer.
#[tactic(auto, using(crate::proofs::Transfers::ends_send, crate::proofs::Transfers::begins_no_send))]
pub fn run_send<
    'a,
    R: Read,
    N: Net<Listener = TcpListener, Stream = TcpStream>
        + Files<File = File>
        + Threads
        + Wait
        + std::time::Clock
        + Sync,
>(
    rt: &N,
    alloc: Global,
    settings: &SendSettings<'a>,
    reader: &mut CountRead<R>,
    obstacle: &mut Option<Obstacle<'a>>,
) -> Result<(), RunError>
    requires { IsSender settings.now }
    ensures untouched { result ≡ Err BadOption → reader.new ≡ reader.old }
    ensures ends { EndsSend settings.now result }
{
    match begin_command(rt, alloc, asked_of(settings), obstacle) {
        Ok(mut begun) => send_begun(rt, alloc, settings, &mut begun, reader, obstacle),
        Err(error) => Err(error),
    }
}
