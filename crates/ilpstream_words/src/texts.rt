//! The texts that help prints with the options.

/// The end of the program's help.
pub const AFTER_HELP: &str =
    "Without a command it runs `frames`, which reads standard input until its end.

Exit status:
  0  the command did its work, or help or the version was printed
  1  a line was refused, or a fault ended the run
  2  the arguments ask for no command

A fault prints `fault N` to standard error. `frames` prints `line L refused N` where line L is
refused. `ilpstream explain N` says what each number N means, and so does docs/ERRORS.md.

Example:
  ./ilpstream frames < examples/frames.txt";

/// The end of the help of `frames`.
pub const AFTER_FRAMES_HELP: &str =
    "It reads standard input until its end. Each line is one plain STREAM packet of an ILP Prepare; an
empty line is skipped. Where line L is refused, it prints `line L refused N` at once, and the exit
status is 1. At the end it prints each stream that a StreamData frame of an accepted packet names:
its number, the length of its longest run in bytes, and the run in hexadecimal.

Example:
  ./ilpstream frames < examples/frames.txt

Faults: 90, 91, 93, 99.
Lines are refused with 20, 21, 22, 23, 24, 40, 41, 42, 63, 95.
`ilpstream explain N` says what each number means.";

/// The end of the help of `local`.
pub const AFTER_LOCAL_HELP: &str =
    "It reads standard input until its end, at most 1048576 bytes, and divides it into as many parts as
there are streams. Each part is sent on a stream of its own, which is then closed. The parts are
written to standard output in the order of the streams. No socket is opened.

With --totals it writes how many Prepares the client sent, how many of them were lost, and the bound:
one for each 16000 bytes of a part, one for each stream, and one for each that was lost. A run that
has more ends with fault 126. Where the bound does not hold, its line is left out: where the server
sent a Prepare, and where a part has more than 262144 bytes.

Example:
  ./ilpstream local --hops 2 --lose 3 --streams 4 --totals t < README.md

Faults: 58, 84, 90, 91, 93, 97, 98, 99, 126.
`ilpstream explain N` says what each number means.";

/// The end of the help of `send`.
pub const AFTER_SEND_HELP: &str =
    "It sends standard input on stream 1 of a new connection, closes the stream at the end of the input,
and offers the money on the same stream. Each packet is one request of ILP over HTTP, without TLS.
The exit status is 0 once the receiver acknowledged the close and all that was sent before it.

Example:
  ./ilpstream send --to 127.0.0.1:7770 --token alice --address example.alice --peer example.bob \\
    --secret 000102030405060708090a0b0c0d0e0f101112131415161718191a1b1c1d1e1f --money 500 < file

Faults: 54, 58, 59, 69, 86, 89, 90, 91, 93, 94, 98, 99.
`ilpstream explain N` says what each number means.";

/// The end of the help of `receive`.
pub const AFTER_RECEIVE_HELP: &str =
    "It answers requests of ILP over HTTP, without TLS; each carries one packet. They are judged one
after another, and the data that arrive on stream 1 are written to standard output before the next
one is judged. It ends with exit status 0 once the sender's close was answered, with fault 92 where
the sender aborted the stream, and with fault 88 where no valid request arrived for as long as
--patience allows.

Example:
  ./ilpstream receive --listen 127.0.0.1:7771 --token hub --address example.bob --peer example.alice \\
    --secret 000102030405060708090a0b0c0d0e0f101112131415161718191a1b1c1d1e1f --receive-max 500 > file

Faults: 54, 80, 86, 88, 91, 92, 93, 98, 99.
`ilpstream explain N` says what each number means.";

/// The end of the help of `connector`.
pub const AFTER_CONNECTOR_HELP: &str =
    "It reads the table from standard input, or from the file of --table, until its end, and then
accepts requests. Each line of the table is an account or a route; its parts are separated by
spaces. Empty lines are skipped.

  account [NAME=TEXT] LIMIT MAX TOKEN HOST:PORT TOKEN
      an account; accounts are numbered from 0 in the order of their lines
      NAME=TEXT: its name in the books, 1 to 255 visible characters; no two accounts have one name;
      the name of an account without this part is its number
      LIMIT: the most that the account may owe, in units, 0 to 2^63 - 1
      MAX: the most that one packet from it may carry, in units, 0 to 2^63 - 1
      TOKEN: the token that its requests show here, 1 to 255 visible characters
      HOST:PORT TOKEN: where packets for it are sent, and the token that is shown there; `- -` for an
      account to which no packet is sent
  route PREFIX ACCOUNT [NUM DEN]
      packets for the addresses within PREFIX are sent to this account; an amount of DEN units is sent
      on as NUM units, rounded down; NUM and DEN are each from 1 to 4294967295, by default 1 and 1

Example:
  ./ilpstream connector --listen 127.0.0.1:7770 --own example.hub --endless < table

Faults: 35, 80, 90, 91, 93, 96, 98, 99, 110, 111, 112, 113, 114, 115, 117, 119, 120, 122, 123.
`ilpstream explain N` says what each number means.";

/// The end of the help of `ledger`.
pub const AFTER_LEDGER_HELP: &str =
    "FILE is the file of `connector --ledger FILE`. No connector may run with it meanwhile.

Without further words it prints what each account owes and is owed, and how often a connector was
started with the books. With them it books a payment that was made outside Interledger, or adds what
both sides agreed on:

  settle NAME AMOUNT [--reference TEXT]
      NAME: the name of the account, 1 to 255 visible characters
      AMOUNT: the units that NAME paid of what it owes, 1 to 2^63 - 1; or with a minus in front the
      units that were paid to NAME of what it is owed
  adjust NAME claims|dues N --reference TEXT
      N: the units that are added to what NAME owes (claims) or is owed (dues), 1 to 2^63 - 1

With --reference it is booked once for this account and side, however often it is given.
TEXT: 1 to 128 printable ASCII characters.

Examples:
  ./ilpstream ledger books.db
  ./ilpstream ledger books.db settle alice 500
  ./ilpstream ledger books.db settle alice -500 --reference 'invoice 17'
  ./ilpstream ledger books.db adjust alice claims 20 --reference 'backup of May 3'

Faults: 91, 93, 98, 99, 110, 111, 112, 113, 114, 115, 116, 117, 119, 120, 121, 125.
`ilpstream explain N` says what each number means.";

/// The end of the help of `explain`.
pub const AFTER_EXPLAIN_HELP: &str =
    "N is the number of a line `fault N` or `line L refused N`. For each error with this number it prints
the crate and the name of the error, which commands report it, its cause, and what to do. If no error
has the number, the exit status is 2.

Example:
  ./ilpstream explain 58

Faults: 91, 93, 98, 99.
`ilpstream explain N` says what each number means.";

/// The usage of `send`.
pub const SEND_USAGE: &str =
    "ilpstream send [OPTIONS] --to <HOST:PORT> <--token <TOKEN>|--token-file <FILE>>
           <--secret <HEX>|--secret-file <FILE>> --address <ADDRESS> --peer <ADDRESS>";

/// The usage of `receive`.
pub const RECEIVE_USAGE: &str =
    "ilpstream receive [OPTIONS] --listen <HOST:PORT> <--token <TOKEN>|--token-file <FILE>>
           <--secret <HEX>|--secret-file <FILE>> --address <ADDRESS> --peer <ADDRESS>";

/// The usage of `connector`.
pub const CONNECTOR_USAGE: &str =
    "ilpstream connector [OPTIONS] --listen <HOST:PORT> --own <ADDRESS> <--requests <N>|--endless>";

/// The usage of `ledger`.
pub const LEDGER_USAGE: &str =
    "ilpstream ledger <FILE> [settle <NAME> <AMOUNT> [--reference <TEXT>]]
       ilpstream ledger <FILE> adjust <NAME> <claims|dues> <N> --reference <TEXT>";

/// The help of FILE of `ledger`.
pub const BOOKS_HELP: &str = "File of the books";

/// The help of the words of a payment or an adjustment.
pub const PAYMENT_HELP: &str = "Book a payment outside Interledger, or an adjustment";

/// The help of N of `explain`.
pub const NUMBER_HELP: &str = "Number of a fault or a refusal, 0 to 255";

/// The help of `--verbose`.
pub const VERBOSE_HELP: &str =
    "Print `listening address=IP:PORT` to standard error once it listens";

/// The help of `--control`.
pub const CONTROL_HELP: &str =
    "Pipe of orders: stop, totals, log; for connector also table, to read --table again";

/// The help of `--table`.
pub const TABLE_HELP: &str = "File of the table, in place of standard input";

/// The help of `--endless`.
pub const ENDLESS_HELP: &str = "Accept any number of requests, in place of --requests";

/// The help of `--ledger`.
pub const LEDGER_HELP: &str =
    "File for the books, which a kill does not lose; without it they are in memory alone";

/// The help of `--keep-fulfillments`.
pub const KEEP_HELP: &str =
    "Keep the fulfillment of each claim in the books, to prove it to the neighbour; with --ledger";

/// The help of `--token`.
pub const TOKEN_HELP: &str = "Bearer token of the requests, 1 to 255 visible characters";

/// The help of `--secret`.
pub const SECRET_HELP: &str =
    "Secret that both ends share, 32 bytes written as 64 hexadecimal digits";

/// The help of `--token-file`.
pub const TOKEN_FILE_HELP: &str = "File whose first line is the token, in place of --token";

/// The help of `--secret-file`.
pub const SECRET_FILE_HELP: &str = "File whose first line is the secret, in place of --secret";

/// The help of `--log`.
pub const LOG_HELP: &str = "File to which one line for each event is appended";

/// The help of `--patience` of `receive`.
pub const PATIENCE_HELP: &str =
    "Seconds to wait for a valid request, 1 to 86400; without it the wait has no end";

/// The help of `--patience` of `send`.
pub const SPREAD_HELP: &str =
    "Seconds over which the 200 tries are spread that may fail in a row, 10 to 86400";

/// The help of `--least`.
pub const LEAST_HELP: &str =
    "Lowest rate: NUM units have to arrive for DEN sent, rounded down, each from 1 to 4294967295";

/// The help of `--totals` for the totals of one end.
pub const TOTALS_HELP: &str =
    "File for the totals of this end, in bytes and units; without it no totals are written";

/// The help of `--totals` for the Prepares of a run in memory.
pub const SENDS_HELP: &str =
    "File for how many Prepares were sent and lost, and how many the law allows; by default none";

/// The help of `--totals` for the totals of each account.
pub const ACCOUNTS_HELP: &str =
    "File for each account's claims, dues and counts of answers, each minute and at the end";
