//! The commands and their options.

ghost use Rattle.std.specs.Prelude.{IsOk};
ghost use Rattle.clap.specs.Words.{App};
ghost use Rattle.clap.specs.Simple.{new_shape};
ghost use Rattle.ilpstream_words.specs.Program as spec;
ghost use Rattle.ilpstream_words.specs.Program.{Adds, HasShape, IsApp, control_rule, keep_rule, ledger_rule, log_rule, patience_rule, table_rule, totals_rule, verbose_rule, with_rule};

use crate::draft::Draft;
use crate::options::{
    flag, last, number, option, placed, placed_number, ranged, required, with_default,
    with_optional, with_required,
};
use crate::texts::{
    ACCOUNTS_HELP, AFTER_CONNECTOR_HELP, AFTER_EXPLAIN_HELP, AFTER_FRAMES_HELP, AFTER_HELP,
    AFTER_LEDGER_HELP, AFTER_LOCAL_HELP, AFTER_RECEIVE_HELP, AFTER_SEND_HELP, BOOKS_HELP,
    CONNECTOR_USAGE, CONTROL_HELP, ENDLESS_HELP, KEEP_HELP, LEAST_HELP, LEDGER_HELP, LEDGER_USAGE,
    LOG_HELP, NUMBER_HELP, PATIENCE_HELP, PAYMENT_HELP, RECEIVE_USAGE, SECRET_FILE_HELP,
    SECRET_HELP, SEND_USAGE, SENDS_HELP, SPREAD_HELP, TABLE_HELP, TOKEN_FILE_HELP, TOKEN_HELP,
    TOTALS_HELP, VERBOSE_HELP,
};
use clap::Command;
use ilpstream_settings::{
    LEAST_SEND_PATIENCE, MAX_HOPS, MAX_LOSE, MAX_MONEY, MAX_PATIENCE, MAX_REQUESTS, MAX_STREAMS,
    MAX_WORKERS,
};
use std::alloc::Global;

/// The program's version.
const VERSION: &str = "0.1.0";

/// A command with no option yet.
fn named<'a>(alloc: Global, name: &'a str, about: &'a str, after: &'a str) -> Draft<'a>
    ensures made { IsOk result.command }
    ensures shape { HasShape (new_shape name.now) result }
{
    Draft::of(Command::new(alloc, name).about(about).after_help(after))
}

fn frames<'a>(alloc: Global) -> Draft<'a>
    ensures made { IsOk result.command }
    ensures shape { HasShape spec.frames result }
{
    named(
        alloc,
        "frames",
        "Reads STREAM packets in hexadecimal, one on each line, and prints each stream's longest run",
        AFTER_FRAMES_HELP,
    )
}

fn local<'a>(alloc: Global) -> Draft<'a>
    ensures { HasShape spec.local result }
{
    let command = named(
        alloc,
        "local",
        "Sends standard input through a connection in memory to standard output",
        AFTER_LOCAL_HELP,
    );
    let hops = "Number of connectors between the two ends, 0 to 8";
    let hops = number(alloc, "hops", hops, 0, MAX_HOPS);
    let command = with_default(command, hops, "1");
    let lose = "Drop each N-th Prepare that the client sends, N from 0 to 1000000; 0 drops none";
    let lose = number(alloc, "lose", lose, 0, MAX_LOSE);
    let command = with_default(command, lose, "0");
    let streams = "Number of streams that the input is divided among, 1 to 32";
    let streams = number(alloc, "streams", streams, 1, MAX_STREAMS);
    let command = with_default(command, streams, "1");
    with_totals(alloc, command, SENDS_HELP)
}

/// The command with the options for the token and the secret, each given or in a file.
fn with_keys<'a>(alloc: Global, command: Draft<'a>) -> Draft<'a>
    ensures { Adds spec.with_keys command.entry result }
{
    let command = with_optional(alloc, command, "token", "TOKEN", TOKEN_HELP);
    let command = with_optional(alloc, command, "token-file", "FILE", TOKEN_FILE_HELP);
    let command = with_optional(alloc, command, "secret", "HEX", SECRET_HELP);
    with_optional(alloc, command, "secret-file", "FILE", SECRET_FILE_HELP)
}

/// The command with the options that both ends of a transfer need: the token, the secret and the two addresses.
fn with_ends<'a>(alloc: Global, command: Draft<'a>, peer_help: &'a str) -> Draft<'a>
    ensures { Adds spec.with_ends command.entry result }
{
    let command = with_keys(alloc, command);
    let address = "ILP address of this end, at most 1023 characters";
    let command = with_required(alloc, command, "address", "ADDRESS", address);
    with_required(alloc, command, "peer", "ADDRESS", peer_help)
}

/// The command with the option for the address at which requests are accepted.
fn with_listen<'a>(alloc: Global, command: Draft<'a>) -> Draft<'a>
    ensures { Adds spec.with_listen command.entry result }
{
    let help = "Host and port at which requests are accepted, the port at most 65535";
    with_required(alloc, command, "listen", "HOST:PORT", help)
}

/// The command with an option for an amount of money, by default 0.
fn with_money<'a>(alloc: Global, command: Draft<'a>, name: &'a str, help: &'a str) -> Draft<'a>
    ensures { Adds (spec.with_money name.now) command.entry result }
{
    with_default(command, number(alloc, name, help, 0, MAX_MONEY), "0")
}

/// The command with the option for how long it waits for a request.
fn with_patience<'a>(alloc: Global, command: Draft<'a>) -> Draft<'a>
    ensures { Adds (λ s. with_rule s patience_rule) command.entry result }
{
    let help = PATIENCE_HELP;
    let patience = ranged(alloc, "patience", "SECONDS", help, 1, MAX_PATIENCE);
    command.with(patience)
}

/// The command with the option for how long it tries on.
fn with_spread<'a>(alloc: Global, command: Draft<'a>) -> Draft<'a>
    ensures { Adds spec.with_spread command.entry result }
{
    let (help, least) = (SPREAD_HELP, LEAST_SEND_PATIENCE);
    let patience = ranged(alloc, "patience", "SECONDS", help, least, MAX_PATIENCE);
    with_default(command, patience, "10")
}

/// The command with the option for the number of its threads.
fn with_workers<'a>(alloc: Global, command: Draft<'a>, help: &'a str) -> Draft<'a>
    ensures { Adds spec.with_workers command.entry result }
{
    with_default(command, number(alloc, "workers", help, 1, MAX_WORKERS), "4")
}

/// The command with the options for the number of a sender's threads, and for how long it tries on.
fn with_tries<'a>(alloc: Global, command: Draft<'a>) -> Draft<'a>
    ensures { Adds spec.with_tries command.entry result }
{
    let command = with_workers(alloc, command, "Number of threads that send, 1 to 16");
    with_spread(alloc, command)
}

/// The command with the options for the number of a receiver's threads, and for how long it waits for a request.
fn with_waiting<'a>(alloc: Global, command: Draft<'a>) -> Draft<'a>
    ensures { Adds spec.with_waiting command.entry result }
{
    let help = "Number of threads that read requests, 1 to 16";
    let command = with_workers(alloc, command, help);
    with_patience(alloc, command)
}

/// The command with the option for the file of totals.
fn with_totals<'a>(alloc: Global, command: Draft<'a>, help: &'a str) -> Draft<'a>
    ensures { Adds (λ s. with_rule s totals_rule) command.entry result }
{
    command.with(option(alloc, "totals", "FILE", help))
}

/// The command with the option for the file of events.
fn with_log<'a>(alloc: Global, command: Draft<'a>) -> Draft<'a>
    ensures { Adds (λ s. with_rule s log_rule) command.entry result }
{
    command.with(option(alloc, "log", "FILE", LOG_HELP))
}

/// The command with the option for what it reports on standard error.
fn with_verbose<'a>(alloc: Global, command: Draft<'a>) -> Draft<'a>
    ensures { Adds (λ s. with_rule s verbose_rule) command.entry result }
{
    command.with(flag(alloc, "verbose", VERBOSE_HELP))
}

/// The command with the option for the pipe by which it is asked things while it runs.
fn with_control<'a>(alloc: Global, command: Draft<'a>) -> Draft<'a>
    ensures { Adds (λ s. with_rule s control_rule) command.entry result }
{
    command.with(option(alloc, "control", "FIFO", CONTROL_HELP))
}

/// The command with the option for the file of its table.
fn with_table<'a>(alloc: Global, command: Draft<'a>) -> Draft<'a>
    ensures { Adds (λ s. with_rule s table_rule) command.entry result }
{
    command.with(option(alloc, "table", "FILE", TABLE_HELP))
}

/// The command with the option for the file of books.
fn with_ledger<'a>(alloc: Global, command: Draft<'a>) -> Draft<'a>
    ensures { Adds (λ s. with_rule s ledger_rule) command.entry result }
{
    command.with(option(alloc, "ledger", "FILE", LEDGER_HELP))
}

/// The command with the option that has its books keep fulfillments.
fn with_keeping<'a>(alloc: Global, command: Draft<'a>) -> Draft<'a>
    ensures { Adds (λ s. with_rule s keep_rule) command.entry result }
{
    command.with(flag(alloc, "keep-fulfillments", KEEP_HELP))
}

/// The command with the options for the files of totals and of events.
fn with_reports<'a>(alloc: Global, command: Draft<'a>, help: &'a str) -> Draft<'a>
    ensures { Adds spec.with_reports command.entry result }
{
    let command = with_totals(alloc, command, help);
    with_log(alloc, command)
}

/// The command with the options for what it reports on standard error, and by what it is asked things.
fn with_running<'a>(alloc: Global, command: Draft<'a>) -> Draft<'a>
    ensures { Adds spec.with_running command.entry result }
{
    let command = with_verbose(alloc, command);
    with_control(alloc, command)
}

/// The command with the options for the two addresses of a connector.
fn with_place<'a>(alloc: Global, command: Draft<'a>) -> Draft<'a>
    ensures { Adds spec.with_place command.entry result }
{
    let command = with_listen(alloc, command);
    let own = "ILP address of the connector, at most 1023 characters";
    with_required(alloc, command, "own", "ADDRESS", own)
}

/// The command with the options for the files of a connector, and with those of a command that listens.
fn with_files<'a>(alloc: Global, command: Draft<'a>) -> Draft<'a>
    ensures { Adds spec.with_files command.entry result }
{
    let command = with_ledger(alloc, command);
    let command = with_keeping(alloc, command);
    let command = with_running(alloc, command);
    with_table(alloc, command)
}

/// The command with the options for the destination of a sender.
fn with_peers<'a>(alloc: Global, command: Draft<'a>) -> Draft<'a>
    ensures { Adds spec.with_peers command.entry result }
{
    let to = "Host and port of the neighbour to which requests are sent, the port at most 65535";
    let command = with_required(alloc, command, "to", "HOST:PORT", to);
    let peer = "ILP address of the receiver, at most 1023 characters";
    with_ends(alloc, command, peer)
}

/// The command with the options for a sender's random bytes and its lowest rate.
fn with_sources<'a>(alloc: Global, command: Draft<'a>) -> Draft<'a>
    ensures { Adds spec.with_sources command.entry result }
{
    let random = "File from which random bytes are read, 12 for each packet";
    let random = option(alloc, "random", "FILE", random);
    let command = with_default(command, random, "/dev/urandom");
    let least = option(alloc, "least", "NUM:DEN", LEAST_HELP);
    with_default(command, least, "1:1")
}

fn send<'a>(alloc: Global) -> Draft<'a>
    ensures { HasShape spec.send result }
{
    let about = "Sends standard input and money to a receiver";
    let command = named(alloc, "send", about, AFTER_SEND_HELP).with_usage(SEND_USAGE);
    let command = with_peers(alloc, command);
    let money = "Money to offer on the stream, in units, 0 to 2^63 - 1";
    let command = with_money(alloc, command, "money", money);
    let command = with_tries(alloc, command);
    let command = with_sources(alloc, command);
    let command = with_totals(alloc, command, TOTALS_HELP);
    with_log(alloc, command)
}

fn receive<'a>(alloc: Global) -> Draft<'a>
    ensures { HasShape spec.receive result }
{
    let about = "Receives data and money from one sender, and writes the data to standard output";
    let command = named(alloc, "receive", about, AFTER_RECEIVE_HELP).with_usage(RECEIVE_USAGE);
    let command = with_listen(alloc, command);
    let peer = "ILP address of the sender, at most 1023 characters";
    let command = with_ends(alloc, command, peer);
    let most = "The most money to accept on the stream, in units, 0 to 2^63 - 1";
    let command = with_money(alloc, command, "receive-max", most);
    let command = with_waiting(alloc, command);
    let command = with_reports(alloc, command, TOTALS_HELP);
    with_running(alloc, command)
}

/// The command with the options for the number of requests that a connector accepts, or that it accepts any number.
fn with_requests<'a>(alloc: Global, command: Draft<'a>) -> Draft<'a>
    ensures { Adds spec.with_requests command.entry result }
{
    let help = "Number of requests to accept before it ends, 1 to 2147483647";
    let command = command.with(number(alloc, "requests", help, 1, MAX_REQUESTS));
    command.with(flag(alloc, "endless", ENDLESS_HELP))
}

fn connector<'a>(alloc: Global) -> Draft<'a>
    ensures { HasShape spec.connector result }
{
    let about =
        "Accepts packets from neighbours and forwards them, by a table of accounts and routes";
    let command = named(alloc, "connector", about, AFTER_CONNECTOR_HELP);
    let command = command.with_usage(CONNECTOR_USAGE);
    let command = with_place(alloc, command);
    let command = with_requests(alloc, command);
    let command = with_workers(
        alloc,
        command,
        "Number of threads that wait for a connection at any time, 1 to 16",
    );
    let command = with_reports(alloc, command, ACCOUNTS_HELP);
    with_files(alloc, command)
}

/// What help calls the words of a payment.
static PAYMENT: [&str; 3] = ["settle", "NAME", "AMOUNT"];

fn ledger<'a>(alloc: Global) -> Draft<'a>
    ensures { HasShape spec.ledger result }
{
    let about = "Prints the books of a connector, or books a payment or an adjustment";
    let command = named(alloc, "ledger", about, AFTER_LEDGER_HELP).with_usage(LEDGER_USAGE);
    let file = required(placed(alloc, "file", "FILE", BOOKS_HELP));
    let command = command.with(file);
    let payment = last(alloc, "payment", PAYMENT.as_slice(), PAYMENT_HELP);
    command.with(payment)
}

fn explain<'a>(alloc: Global) -> Draft<'a>
    ensures { HasShape spec.explain result }
{
    let about = "Prints what the number of a fault or a refusal means, and what to do";
    let command = named(alloc, "explain", about, AFTER_EXPLAIN_HELP);
    let most = u64::from(u8::MAX);
    let number = required(placed_number(alloc, "number", NUMBER_HELP, most));
    command.with(number)
}

/// The program with the commands that work between machines.
fn with_transfers<'a>(alloc: Global, program: Draft<'a>) -> Draft<'a>
    ensures { (a : App) → IsApp a program.entry → IsApp (spec.with_transfers a) result }
{
    let program = program.with_command(send(alloc));
    let program = program.with_command(receive(alloc));
    program.with_command(connector(alloc))
}

/// The program without its commands.
fn alone<'a>(alloc: Global) -> Draft<'a>
    ensures made { IsOk result.command }
    ensures app { IsApp spec.alone result }
{
    Draft::of(
        Command::new(alloc, "ilpstream")
            .version(VERSION)
            .about("STREAM over Interledger")
            .after_help(AFTER_HELP),
    )
}

/// The program, as clap reads arguments for it.
pub(crate) fn program<'a>(alloc: Global) -> Draft<'a>
    ensures { IsApp spec.program result }
{
    let program = alone(alloc).with_command(frames(alloc));
    let program = program.with_command(local(alloc));
    let program = with_transfers(alloc, program);
    let program = program.with_command(ledger(alloc));
    program.with_command(explain(alloc))
}
