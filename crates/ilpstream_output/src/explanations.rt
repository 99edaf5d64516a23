//! What `explain` prints: docs/errors.toml, as tools/errors.py writes it.

ghost use Rattle.std.specs.Prelude.{◌≡◌, ◌<◌, ◌*◌, map, option_map, MatchOption};
ghost use Rattle.std.specs.List.{range_with_len};
ghost use Rattle.ilpstream_output.specs.Explaining.{explanation};
ghost use Rattle.ilpstream_output.specs.Rows.{last_ten};

const FAULT_1: &str = "Numbers of the library:
1  st_oer OerError::Short
    A field reaches past the end of the bytes.
    What to do: Read all bytes of the message before decoding. Bytes of a peer: reject them.
";

const FAULT_2: &str = "Numbers of the library:
2  st_oer OerError::LongLength
    A length is not written in the fewest bytes.
    What to do: Write the shortest form. Bytes of a peer: reject them.
";

const FAULT_3: &str = "Numbers of the library:
3  st_oer OerError::LongNumber
    A number has no bytes, or is not written in the fewest.
    What to do: Write the shortest form. Bytes of a peer: reject them.
";

const FAULT_4: &str = "Numbers of the library:
4  st_oer OerError::TooBig
    A length, or a number that is not a limit, has more than eight bytes.
    What to do: Write the shortest form. Bytes of a peer: reject them.
";

const FAULT_5: &str = "Numbers of the library:
5  st_oer OerError::NoMemory
    Out of memory for what was to be appended. The vector is unchanged.
    What to do: Free memory and repeat the call.
";

const FAULT_10: &str = "Numbers of the library:
10  st_ilp IlpError::Oer
    A field, or the packet around the fields, has a bad encoding.
    What to do: See the number in brackets.
";

const FAULT_11: &str = "Numbers of the library:
11  st_ilp IlpError::Kind
    The first byte is not that of the packet asked for: 12 Prepare, 13 Fulfill, 14 Reject.
    What to do: Call the reader of the other packet, or reject the bytes.
";

const FAULT_12: &str = "Numbers of the library:
12  st_ilp IlpError::Expiry
    An expiry is not 17 digits of an existing date and time of the years 0000 to 9999.
    What to do: Correct the expiry.
";

const FAULT_13: &str = "Numbers of the library:
13  st_ilp IlpError::Address
    A destination is not an ILP address, or a `triggeredBy` is neither empty nor an address.
    What to do: Correct the address: 1 to 1,023 letters, digits, `_`, `~`, `-` and dots, no empty
    segment.
";

const FAULT_14: &str = "Numbers of the library:
14  st_ilp IlpError::DataTooLong
    Data has more than 32,767 bytes, or a message to be written more than 8,191.
    What to do: Send less in one packet.
";

const FAULT_15: &str = "Numbers of the library:
15  st_ilp IlpError::NotUtf8
    The message of a Reject is not UTF-8.
    What to do: Reject the bytes.
";

const FAULT_16: &str = "Numbers of the library:
16  st_ilp IlpError::Code
    The code of a Reject has a character outside `!` to `~`.
    What to do: Correct the code.
";

const FAULT_17: &str = "Numbers of the library:
17  st_ilp IlpError::Trailing
    Bytes follow the last field or the packet.
    What to do: Cut the bytes at the packet's end, or reject them.
";

const FAULT_18: &str = "Numbers of the library:
18  st_ilp IlpError::NoMemory
    Out of memory for the packet to be written. Reading never gives it.
    What to do: Free memory and repeat the call.
";

const FAULT_20: &str = "20  st_frames FrameError::Version, in a line of frames
    The first byte of a STREAM packet is another version than 1.
    What to do: The peer speaks another version of STREAM.
";

const FAULT_21: &str = "21  st_frames FrameError::Kind, in a line of frames
    The second byte is not the kind of the ILP packet that carried it. `frames` wants 12, a
    Prepare's.
    What to do: Read the packet as the kind of its ILP packet.
";

const FAULT_22: &str = "22  st_frames FrameError::Oer, in a line of frames
    The kind is missing, or a number, a frame's type or a frame's length is malformed.
    What to do: See the number in brackets.
";

const FAULT_23: &str = "23  st_frames FrameError::FrameFormat, in a line of frames
    The contents of a frame of known type are malformed. When writing: an address of a frame is not
    one.
    What to do: See the index in brackets.
";

const FAULT_24: &str = "24  st_frames FrameError::TooLong, in a line of frames
    The packet has more than 32,739 bytes.
    What to do: Send less in one packet.
";

const FAULT_25: &str = "Numbers of the library:
25  st_frames FrameError::NoMemory
    Out of memory for the packet to be written. Reading never gives it.
    What to do: Free memory and repeat the call.
";

const FAULT_30: &str = "Numbers of the library:
30  st_keys KeyError::Short
    A payload has fewer than the 28 bytes of an IV and a tag.
    What to do: The payload was cut, or is not STREAM's.
";

const FAULT_31: &str = "Numbers of the library:
31  st_keys KeyError::Tag
    The tag is not that of the ciphertext. The bytes are unchanged.
    What to do: Both ends need the same secret. If they have it, the payload was changed on the way.
";

const FAULT_32: &str = "Numbers of the library:
32  st_keys KeyError::Packet
    The decrypted packet cannot be read, or the packet to be sealed cannot be written.
    What to do: See the number in brackets.
";

const FAULT_33: &str = "Numbers of the library:
33  st_keys KeyError::NoMemory
    Out of memory for the payload to be sealed. Opening never gives it.
    What to do: Free memory and repeat the call.
";

const FAULT_34: &str = "Numbers of the library:
34  st_hop HopError::BadTable
    The connector's own address or a prefix is not an ILP address, a route names an account that
    does not exist, a prefix is there twice, or a limit is above 2^63 - 1.
    What to do: Correct the table.
";

const FAULT_35: &str = "35  ilpstream_net RunError::NoHop, in connector
    In `connector`: out of memory for the accounts and the routes of its table. Nothing was listened
    to.
    What to do: Give the process more memory.
Numbers of the library:
35  st_hop HopError::NoMemory
    Out of memory. The hop is as before the call.
    What to do: Answer the Prepare with the Reject that `t00` lends; the sender retries.
";

const FAULT_36: &str = "Numbers of the library:
36  st_hop HopError::NoAccount
    There is no account of this number.
    What to do: Pass the number of an account of the table, from 0.
";

const FAULT_37: &str = "Numbers of the library:
37  st_hop HopError::BadBooks
    In `restored` and `ilp_hop_restored`: not each account has a claim and a due, an account owes
    more than its limit plus its due, or a sum is above 2^63 - 1.
    What to do: Pass the books that a hop with these accounts left. A limit may not be lowered below
    what the account owes.
";

const FAULT_40: &str = "40  st_reassembly InboxError::PastWindow, in a line of frames
    A chunk ends more than 65,536 bytes past what was read of the stream. In `frames`: offset plus
    length is above 65,536.
    What to do: Read the stream first, or send the chunk later.
";

const FAULT_41: &str = "41  st_reassembly InboxError::Overflow, in a line of frames
    A chunk ends past the greatest offset, 2^64 - 1.
    What to do: The offset or the length is wrong.
";

const FAULT_42: &str = "42  st_reassembly InboxError::NoMemory, in a line of frames
    Out of memory for a stream's bytes. In `frames` it refuses the line.
    What to do: Give the process more memory.
";

const FAULT_50: &str = "Numbers of the library:
50  st_hub HubError::NoStream
    The stream is not open.
    What to do: Use a number that `open_stream` returned or that the peer opened.
50  st_sender OutboxError::NoStream
    The stream is not open.
    What to do: Use a number that `open_stream` returned or that the peer opened.
50  st_streams EndError::NoStream
    The stream is not open, or all stream numbers of this end are used: 32 each.
    What to do: Use a number that `open_stream` returned or that the peer opened.
";

const FAULT_51: &str = "Numbers of the library:
51  st_sender OutboxError::Closed
    The stream was closed or aborted at this end.
    What to do: Write nothing more.
51  st_streams EndError::Closed
    The stream was closed or aborted at this end, or the peer closed the connection.
    What to do: Write nothing more. What was received can still be read.
";

const FAULT_52: &str = "Numbers of the library:
52  st_sender OutboxError::Full
    In the sending side: more than 262,144 bytes of the stream would wait for an acknowledgement, or
    all streams together would have accepted 2^63 bytes.
    What to do: Write again once the peer acknowledged some, or write less.
52  st_streams EndError::Full
    More than 262,144 bytes of the stream would wait for an acknowledgement, or all streams together
    would have accepted 2^63 bytes.
    What to do: Write again once the peer acknowledged some, or write less.
";

const FAULT_53: &str = "Numbers of the library:
53  st_sender OutboxError::AmountTooLarge
    In the sending side: all offers together would be 2^63 units or more.
    What to do: Offer less.
53  st_streams EndError::AmountTooLarge
    All offers together would be 2^63 units or more.
    What to do: Offer less.
";

const FAULT_54: &str = "54  st_streams EndError::NoMemory, in send, receive
    Out of memory in an end of a connection. The end is as before the call.
    What to do: Program: give the process more memory and begin again. Call: free memory and repeat
    it; a Prepare is answered with the Reject that `t00` lends.
Numbers of the library:
54  st_sender OutboxError::NoMemory
    Out of memory in the sending side. It is as before the call.
    What to do: Free memory and repeat the call.
";

const FAULT_58: &str = "58  ilpstream_local LocalFault::Failed, in local
    In `local`: 200 Prepares in a row were lost.
    What to do: Lose fewer with `--lose`.
58  ilpstream_serving TransferError::Failed, in send
    In `send`: the connection failed. At once, if a packet was refused for good: no route leads to
    `--peer`, or the receiver has another secret or another address. Otherwise after 200 exchanges
    in a row without success: nobody listens at `--to`, a wrong token, no way on from a connector, a
    LIMIT that is used up, too little that arrives for `--least`, or clocks that differ. While no
    answer arrives, or a Reject with a code of letter T, the 200 are spread over the seconds of
    `--patience`, ten if it is left out.
    What to do: Look at `--to` and the tokens, then at the table's routes, then at LIMIT, rates and
    clocks. Then begin again with a new secret.
Numbers of the library:
58  st_streams EndError::ConnectionFailed
    The connection failed: 200 Prepares in a row without a Fulfill, or a final Reject code.
    What to do: Open a new connection with a new secret.
";

const FAULT_59: &str = "59  ilpstream_serving TransferError::Stalled, in send
    In `send`: nothing more can be sent. The limits that the receiver advertised let nothing of the
    rest be sent, most often of the money, and no packet waits for an answer that could raise them.
    What to do: Compare `--money` with `receive --receive-max`, and both totals. Stop the receiver
    too, unless it has `--patience`.
";

const FAULT_60: &str = "Numbers of the library:
60  st_receiver Reason::Repeated
    A Prepare with this sequence was fulfilled before.
    What to do: Nothing: the sender sends its contents again under another sequence if it needs to.
";

const FAULT_61: &str = "Numbers of the library:
61  st_receiver Reason::AmountTooSmall
    The amount that arrived is below the prepare amount of the packet.
    What to do: Compare the rates of the connectors with `send --least`.
";

const FAULT_62: &str = "Numbers of the library:
62  st_receiver Reason::FlowControl
    Data ends past the window of its stream or of the connection, or past 2^64 - 1.
    What to do: The sender ignores the limits that this end advertised.
";

const FAULT_63: &str = "63  ilpstream_frames LineError::StreamId, in a line of frames
    In `frames`: a StreamData frame names stream 0 or a stream above 64.
    What to do: Use 1 to 64.
Numbers of the library:
63  st_receiver Reason::StreamId
    A frame names stream 0, a stream above 64, or a stream of this end's own numbers that is not
    open.
    What to do: The sender uses numbers of the other side, or more than 64 streams.
";

const FAULT_64: &str = "Numbers of the library:
64  st_receiver Reason::NoShares
    The packet carries money and no shares for any stream, or the shares add up to 2^64 or more.
    What to do: The sender has to add a StreamMoney frame.
";

const FAULT_65: &str = "Numbers of the library:
65  st_receiver Reason::OverReceiveMax
    A stream's credit would pass its receive max, or the connection's credit 2^63 - 1.
    What to do: Raise the receive max (`receive --receive-max`), or offer less.
";

const FAULT_66: &str = "Numbers of the library:
66  st_receiver Reason::ConnectionClosed
    The peer closed the connection before.
    What to do: Open a new connection with a new secret.
";

const FAULT_67: &str = "Numbers of the library:
67  st_receiver Reason::NoMemory
    Out of memory for the packet. The Reject has code T00.
    What to do: The sender retries. Give the process more memory.
";

const FAULT_68: &str = "Numbers of the library:
68  st_hop_desk DeskError::NoShareLeft
    63 threads have shares of this desk.
    What to do: Use at most 63 threads.
68  st_hub HubError::NoShareLeft
    63 threads have shares of this hub.
    What to do: Use at most 63 threads.
";

const FAULT_69: &str = "69  ilpstream_serving TransferError::Rings, in send
    In `send`: out of memory for the rings of its streams. Nothing was sent.
    What to do: Give the process more memory: a transfer needs some megabytes.
Numbers of the library:
69  st_queues QueueError::NoMemory
    Out of memory for the rings.
    What to do: Free memory and repeat the call.
";

const FAULT_70: &str = "Numbers of the library:
70  st_queues QueueError::Full
    The ring has no room. The chunk is returned.
    What to do: Write again after the hub has pumped.
";

const FAULT_71: &str = "Numbers of the library:
71  st_queues QueueError::BadLength
    The chunk is empty or has more than 4,096 bytes. The chunk is returned.
    What to do: Write 1 to 4,096 bytes.
";

const FAULT_72: &str = "Numbers of the library:
72  st_queues QueueError::Ended
    The writer has ended. The chunk is returned.
    What to do: Write nothing more with this writer.
";

const FAULT_73: &str = "Numbers of the library:
73  st_hop_desk DeskError::Stranger
    The ticket is not open at this desk. Nothing changes.
    What to do: Settle each ticket once, at the desk that gave it.
73  st_hub HubError::Stranger
    The `Turn` is not open at this hub. Nothing changes.
    What to do: Finish each `Turn` once, at the hub that gave it.
";

const FAULT_74: &str = "Numbers of the library:
74  st_hop_desk DeskError::MissingShare
    Not every share of the desk that is out was given back. The shares are returned.
    What to do: Give back the shares of every thread.
74  st_hub HubError::MissingShare
    Not every share of the hub that is out was given back. The shares are returned.
    What to do: Give back the shares of every thread.
";

const FAULT_75: &str = "Numbers of the library:
75  st_hop_desk DeskError::NoMemory
    Out of memory. A connector answers the request with HTTP status 500.
    What to do: Give the process more memory; the sender retries.
75  st_hub HubError::NoMemory
    Out of memory. What was moved before stays moved.
    What to do: Free memory and repeat the call.
";

const FAULT_76: &str = "Numbers of the library:
76  st_hub HubError::EightWriters
    The stream has eight writers already.
    What to do: Use at most eight writers on a stream.
";

const FAULT_77: &str = "Numbers of the library:
77  st_world Fault::NoMemory
    Out of memory for the record of a world. The world is as before the event.
    What to do: Free memory and repeat the event.
77  st_world_quiet Fault::NoMemory
    Out of memory for the record of a lossless run.
    What to do: Free memory and play it again. The returned trace has the events before.
";

const FAULT_78: &str = "Numbers of the library:
78  st_world Fault::BadChain
    There are more than eight hops, or a hop has a limit above 2^63 - 1.
    What to do: Pass at most eight hops with lawful limits.
78  st_world_quiet Fault::BadInput
    There is no stream, more than 32, or not one amount for each.
    What to do: Pass 1 to 32 streams, each with an amount.
";

const FAULT_79: &str = "Numbers of the library:
79  st_hub HubError::WriterTooLate
    The stream was closed or aborted.
    What to do: Add writers before the stream's last writer ends.
";

const FAULT_80: &str = "80  ilpstream_net RunError::NoListener, in receive, connector
    Nothing can listen at `--listen`.
    What to do: Another program has the port, the address is not one of this host, or a port below
    1,024 needs a right.
80  ilpstream_serving TransferError::Accept, in receive, connector
    No connection could be accepted in 100 tries in a row, 10 ms apart, or `receive` could make no
    thread. Both commands end so only once none of their threads has a connection.
    What to do: The process may have too many open files: see `ulimit -n`.
Numbers of the library:
80  st_http HttpError::ReadFault
    The stream returned an error to a read.
    What to do: The connection broke. Repeat the exchange on a new one.
";

const FAULT_81: &str = "Numbers of the library:
81  st_http HttpError::WriteFault
    The stream returned an error to a write.
    What to do: The connection broke. Repeat the exchange on a new one.
";

const FAULT_82: &str = "Numbers of the library:
82  st_http HttpError::BadHead
    A response has no head within the limits, or a response 200 has no lawful length.
    What to do: The neighbour does not speak ILP over HTTP, or uses chunked bodies.
";

const FAULT_83: &str = "Numbers of the library:
83  st_http HttpError::Status
    A response has another status than 200, or a request is answered with this status.
    What to do: See Statuses of HTTP in docs/ERRORS.md.
";

const FAULT_84: &str = "84  ilpstream_local LocalFault::TooLong, in local
    In `local`: the input has more than 1,048,576 bytes.
    What to do: Give it less.
Numbers of the library:
84  st_http HttpError::TooLong
    The body of a response has more than 65,535 bytes.
    What to do: The neighbour sends more than an ILP packet.
";

const FAULT_85: &str = "Numbers of the library:
85  st_http HttpError::Cut
    The input ended before the message was complete.
    What to do: The connection broke. Repeat the exchange on a new one.
";

const FAULT_86: &str = "86  ilpstream_serving TransferError::Turns, in send, receive
    In `receive`: 2,147,483,647 connections were accepted. In `send`: a worker looked 2,147,483,647
    times for something to send.
    What to do: Begin again, with a new secret.
Numbers of the library:
86  st_http HttpError::Turns
    The given number of I/O calls was used up before the message was complete.
    What to do: Allow more calls; a peer may be sending byte by byte.
";

const FAULT_87: &str = "Numbers of the library:
87  st_http HttpError::NoMemory
    Out of memory for the message.
    What to do: Free memory and repeat the exchange on a new connection.
";

const FAULT_88: &str = "88  ilpstream_serving TransferError::Silent, in receive
    In `receive`: no valid request arrived for as many seconds as `--patience` says. What arrived
    before is written.
    What to do: Look why the sender stopped. What is written is a beginning of the file, or all of
    it if only the close or money is missing.
";

const FAULT_89: &str = "89  st_file FileError::Closed, in send
    The sink accepts nothing any more. In `send`: the workers ended, and there was no memory to note
    why.
    What to do: Give the process more memory, and begin again.
";

const FAULT_90: &str = "90  ilpstream_local LocalFault::Input, in local
    In `local`: standard input cannot be read.
    What to do: Look at the file after `<`.
90  ilpstream_net RunError::NoRandom, in send
    In `send`: the file of random bytes cannot be opened.
    What to do: Look at `--random`.
90  ilpstream_output Fault::Input, in frames, local, send, connector
    In `frames` and `connector`: standard input cannot be read. In `send`, `connector` and `local
    --totals`: it is closed; nothing was opened or sent.
    What to do: Look at the file after `<`.
90  ilpstream_serving TransferError::IvFault, in send
    In `send`: the file of random bytes cannot be read, or has no twelve bytes left.
    What to do: Use a file that does not end, such as `/dev/urandom`.
90  st_file FileError::ReadFault, in send
    In `send`: standard input cannot be read.
    What to do: Look at the file after `<`.
";

const FAULT_91: &str = "91  ilpstream_local LocalFault::Output, in local
    In `local`: the output cannot be written.
    What to do: Make room.
91  ilpstream_output Fault::Output, in frames, local, send, receive, connector, ledger, explain
    In `frames`, `ledger` and `explain`: the output cannot be written. In `receive`, `ledger` and
    `local --totals`: standard output is closed; nothing else was done. In `send`, `receive`,
    `connector` and `local`: the totals cannot be written to the file of `--totals`, or lines wait
    at the end that could not be written to that of `--log`, and there was no other fault.
    What to do: Make room. Totals and lines that were not written are lost; all else was done.
91  st_file FileError::WriteFault, in receive
    In `receive`: the output cannot be written, for example on a full disk or to a closed pipe.
    What to do: Make room. What is written is a beginning of the file. Begin again.
";

const FAULT_92: &str = "92  st_file FileError::Aborted, in receive
    In `receive`: the sender aborted the stream.
    What to do: Ask the sender. What is written is a beginning of the file.
";

const FAULT_93: &str = "93  ilpstream_local LocalFault::Turns, in local
    In `local`: 2,147,483,647 reads, writes and flushes were used up.
    What to do: Use an input that gives more bytes in a call.
93  ilpstream_output Fault::Turns, in frames, local, connector, ledger, explain
    2,147,483,647 reads, writes and flushes were used up.
    What to do: Give the input in smaller parts.
93  st_file FileError::Turns, in send, receive
    In `send` and `receive`: 2,147,483,647 calls of the input or the output were used up.
    What to do: Begin again, in smaller parts.
";

const FAULT_94: &str = "94  st_file FileError::NoMemory, in send
    In `send`: out of memory for a chunk of the input.
    What to do: Give the process more memory: a transfer needs some megabytes.
";

const FAULT_95: &str = "95  ilpstream_frames LineError::NotHex, in a line of frames
    In `frames`: a character is not a hexadecimal digit, or the number of digits is odd.
    What to do: Remove byte order marks, `0x`, spaces and tabs.
";

const FAULT_96: &str = "96  ilpstream_net RunError::BadTable, in connector
    In `connector`, the table is bad. It is not UTF-8, or a line is neither an account nor a route.
    Or a number is out of its range, or no request may have a host or a token of it. Or a route
    names an account that does not exist, a prefix is there twice, or a prefix is not an ILP
    address. Or two accounts have one name.
    What to do: Look at each line of the table. A HOST:PORT has a port up to 65,535; a rate is two
    numbers with a space between.
Numbers of the library:
96  ilpstream_settings TableError::BadLine
    A line of the table has words and is neither an account nor a route.
    What to do: Look at that line: a number, a rate, a token or a HOST:PORT in it may be bad.
96  ilpstream_settings TableError::SameName
    Two accounts of the table have one name: `NAME=` with one text, or with the number of an account
    without a name.
    What to do: Give each account another name.
";

const FAULT_97: &str = "97  ilpstream_local LocalFault::Events, in local
    In `local`: 1,000,000 events were not enough.
    What to do: Use fewer hops, or lose fewer Prepares.
";

const FAULT_98: &str =
    "98  ilpstream_net RunError::BadOption, in local, send, receive, connector, ledger, explain
    The text of an option or an argument is bad. A number has no plus in front, a secret has 64
    hexadecimal digits, an address is an ILP address, and `--least` is NUM:DEN. A token and a
    HOST:PORT are such as a request may have, and `ledger --help` says what a payment is. Or the
    file of `--totals` or `--log` cannot be opened; in `connector` and `local`, no file can be made
    next to that of `--totals`. Or that of `--token-file` or `--secret-file` cannot be read, or its
    first line is not a token or a secret. Or that of `--control` is not a pipe, or cannot be
    opened; or that of `--table` cannot be read.
    What to do: Correct the option or the file. Nothing else was opened, and nothing was sent.
";

const FAULT_99: &str = "99  ilpstream_ledger LedgerError::NoMemory, in connector, ledger
    In `connector --ledger` and `ledger`: out of memory for what the books have. After `settle` or
    `adjust` the entry may be booked.
    What to do: Give the process more memory. After `settle` or `adjust` look with `ledger FILE`
    first, or give it again with the same reference.
99  ilpstream_local LocalFault::NoMemory, in local
    In `local`: out of memory. Nothing was written.
    What to do: Give the process more memory.
99  ilpstream_output Fault::NoMemory, in frames, local, send, receive, connector, explain
    Out of memory for a line, a text, a table or the arguments.
    What to do: Give the process more memory.
99  ilpstream_serving TransferError::NoMemory, in send, connector
    In `send` and `connector`: out of memory for links, for threads or for the totals of accounts,
    or not one thread could be made.
    What to do: Give the process more memory (a transfer needs some megabytes), or let it have more
    threads: see `ulimit -u`.
Numbers of the library:
99  ilpstream_settings TableError::NoMemory
    In `connector`: out of memory for the table.
    What to do: Give the process more memory.
";

const FAULT_110: &str = "110  st_hop_books BooksError::NoBooks, in connector, ledger
    The file has no books: it is not a database, has other tables, a row that is no line of its
    table, or a name twice. Or it lacks the view `books`, or has another version in it, or, in
    `connector --ledger`, another address than `--own`. Or its log is damaged, does not continue the
    file, or is there without the file. Both are left as they are. If books have to be there
    already: no file, or an empty one. None is made.
    What to do: Name the right file. If the log is damaged or of another time than the file, or the
    file is gone, put the last copy of both files back, and compare the sums with each neighbour. A
    table, an index or a trigger that was added manually has to be dropped. Books of another
    version, or from before they had the view `books`, cannot be read: make new ones.
";

const FAULT_111: &str = "111  st_hop_books BooksError::Taken, in connector, ledger
    Another process has the file, or it cannot be opened.
    What to do: Stop the other process, and look at the rights of the file and of its folder.
";

const FAULT_112: &str = "112  st_hop_books BooksError::Device, in connector, ledger
    The disk failed. The books in memory are as before the call; open the file again to see what it
    has. Or, in `connector --ledger`, the file or its log is not at its name as the last booking
    left it.
    What to do: Look at the disk, put the files back where they were moved, then start again.
";

const FAULT_113: &str = "113  st_hop_books BooksError::Full, in connector, ledger
    The disk is full, or SQLite's format is. The books in memory are as before the call.
    What to do: Make room, then start again.
";

const FAULT_114: &str = "114  st_hop_books BooksError::Damaged, in connector, ledger
    A read of the file failed a test.
    What to do: Take the last copy of both files, and compare the sums with each neighbour.
";

const FAULT_115: &str = "115  st_hop_books BooksError::Shut, in connector, ledger
    An earlier call met a failure of the disk, and the books are shut.
    What to do: Open the file again.
";

const FAULT_116: &str = "116  st_hop_books BooksError::NoAccount, in ledger
    A booking or a payment names an account that the books do not have. Nothing is booked.
    What to do: Add the account first.
";

const FAULT_117: &str = "117  st_hop_books BooksError::TooMuch, in connector, ledger
    A sum of an account would be above 2^63 - 1, or the starts above 2^32 - 1; or an entry of
    `ledger` or its time is above 2^63 - 1. Nothing changes.
    What to do: Settle with the neighbour, and take what was paid off the sums.
";

const FAULT_118: &str = "Numbers of the library:
118  st_hop_books BooksError::NameTaken
    An account of this name is in the books already. Nothing changes.
    What to do: Use the account that is there, or another name.
";

const FAULT_119: &str = "119  st_hop_books BooksError::BadName, in connector, ledger
    SQLite cannot store a line with this name: it has about a billion bytes. Nothing changes.
    What to do: Use a shorter name.
";

const FAULT_120: &str = "120  st_hop_books BooksError::NoMemory, in connector, ledger
    Out of memory. The books are as before the call.
    What to do: Give the process more memory.
";

const FAULT_121: &str = "121  st_hop_books BooksError::TooLittle, in ledger
    A payment is above what the account owes, or is owed. Nothing changes.
    What to do: Look at the sums, and book what they cover.
";

const FAULT_122: &str = "122  ilpstream_ledger LedgerError::Unlisted, in connector
    In `connector --ledger`: the books have an account that the table lacks, and something is owed
    there. Nothing was written, and nothing was listened to.
    What to do: Give the table a line with this name. `ledger FILE` prints the names. Or settle with
    the neighbour first.
";

const FAULT_123: &str = "123  ilpstream_ledger LedgerError::BelowOwed, in connector
    In `connector --ledger`: an account owes more than its LIMIT in the table and what it is owed.
    Nothing was written, and nothing was listened to.
    What to do: Raise LIMIT, or settle with the neighbour first.
";

const FAULT_125: &str = "125  ilpstream_ledger LedgerError::Reused, in ledger
    In `ledger`: the books have an entry of this account and side with this reference, and another
    amount; or one was to be added and the other to be taken off. Nothing changes.
    What to do: Look at the table `payment`, and give what is new a reference of its own.
";

const FAULT_126: &str = "126  ilpstream_main LocalError::PastBound, in local
    In `local --totals`: more Prepares were sent than the bound of the file. The output and the file
    were written whole.
    What to do: Report it with the input and the options: no such run is known.
";

static TENS_0: [Option<&str>; 10] = [
    None,
    Some(FAULT_1),
    Some(FAULT_2),
    Some(FAULT_3),
    Some(FAULT_4),
    Some(FAULT_5),
    None,
    None,
    None,
    None,
];

/// What `explain` prints for 0 to 9.
fn tens_0() -> &'static [Option<&'static str>; 10]
    ensures { map (option_map (λ t. t.now)) result.now ≡ map explanation (range_with_len 0 10) }
{
    &TENS_0
}

static TENS_1: [Option<&str>; 10] = [
    Some(FAULT_10),
    Some(FAULT_11),
    Some(FAULT_12),
    Some(FAULT_13),
    Some(FAULT_14),
    Some(FAULT_15),
    Some(FAULT_16),
    Some(FAULT_17),
    Some(FAULT_18),
    None,
];

/// What `explain` prints for 10 to 19.
fn tens_1() -> &'static [Option<&'static str>; 10]
    ensures { map (option_map (λ t. t.now)) result.now ≡ map explanation (range_with_len 10 10) }
{
    &TENS_1
}

static TENS_2: [Option<&str>; 10] = [
    Some(FAULT_20),
    Some(FAULT_21),
    Some(FAULT_22),
    Some(FAULT_23),
    Some(FAULT_24),
    Some(FAULT_25),
    None,
    None,
    None,
    None,
];

/// What `explain` prints for 20 to 29.
fn tens_2() -> &'static [Option<&'static str>; 10]
    ensures { map (option_map (λ t. t.now)) result.now ≡ map explanation (range_with_len 20 10) }
{
    &TENS_2
}

static TENS_3: [Option<&str>; 10] = [
    Some(FAULT_30),
    Some(FAULT_31),
    Some(FAULT_32),
    Some(FAULT_33),
    Some(FAULT_34),
    Some(FAULT_35),
    Some(FAULT_36),
    Some(FAULT_37),
    None,
    None,
];

/// What `explain` prints for 30 to 39.
fn tens_3() -> &'static [Option<&'static str>; 10]
    ensures { map (option_map (λ t. t.now)) result.now ≡ map explanation (range_with_len 30 10) }
{
    &TENS_3
}

static TENS_4: [Option<&str>; 10] = [
    Some(FAULT_40),
    Some(FAULT_41),
    Some(FAULT_42),
    None,
    None,
    None,
    None,
    None,
    None,
    None,
];

/// What `explain` prints for 40 to 49.
fn tens_4() -> &'static [Option<&'static str>; 10]
    ensures { map (option_map (λ t. t.now)) result.now ≡ map explanation (range_with_len 40 10) }
{
    &TENS_4
}

static TENS_5: [Option<&str>; 10] = [
    Some(FAULT_50),
    Some(FAULT_51),
    Some(FAULT_52),
    Some(FAULT_53),
    Some(FAULT_54),
    None,
    None,
    None,
    Some(FAULT_58),
    Some(FAULT_59),
];

/// What `explain` prints for 50 to 59.
fn tens_5() -> &'static [Option<&'static str>; 10]
    ensures { map (option_map (λ t. t.now)) result.now ≡ map explanation (range_with_len 50 10) }
{
    &TENS_5
}

static TENS_6: [Option<&str>; 10] = [
    Some(FAULT_60),
    Some(FAULT_61),
    Some(FAULT_62),
    Some(FAULT_63),
    Some(FAULT_64),
    Some(FAULT_65),
    Some(FAULT_66),
    Some(FAULT_67),
    Some(FAULT_68),
    Some(FAULT_69),
];

/// What `explain` prints for 60 to 69.
fn tens_6() -> &'static [Option<&'static str>; 10]
    ensures { map (option_map (λ t. t.now)) result.now ≡ map explanation (range_with_len 60 10) }
{
    &TENS_6
}

static TENS_7: [Option<&str>; 10] = [
    Some(FAULT_70),
    Some(FAULT_71),
    Some(FAULT_72),
    Some(FAULT_73),
    Some(FAULT_74),
    Some(FAULT_75),
    Some(FAULT_76),
    Some(FAULT_77),
    Some(FAULT_78),
    Some(FAULT_79),
];

/// What `explain` prints for 70 to 79.
fn tens_7() -> &'static [Option<&'static str>; 10]
    ensures { map (option_map (λ t. t.now)) result.now ≡ map explanation (range_with_len 70 10) }
{
    &TENS_7
}

static TENS_8: [Option<&str>; 10] = [
    Some(FAULT_80),
    Some(FAULT_81),
    Some(FAULT_82),
    Some(FAULT_83),
    Some(FAULT_84),
    Some(FAULT_85),
    Some(FAULT_86),
    Some(FAULT_87),
    Some(FAULT_88),
    Some(FAULT_89),
];

/// What `explain` prints for 80 to 89.
fn tens_8() -> &'static [Option<&'static str>; 10]
    ensures { map (option_map (λ t. t.now)) result.now ≡ map explanation (range_with_len 80 10) }
{
    &TENS_8
}

static TENS_9: [Option<&str>; 10] = [
    Some(FAULT_90),
    Some(FAULT_91),
    Some(FAULT_92),
    Some(FAULT_93),
    Some(FAULT_94),
    Some(FAULT_95),
    Some(FAULT_96),
    Some(FAULT_97),
    Some(FAULT_98),
    Some(FAULT_99),
];

/// What `explain` prints for 90 to 99.
fn tens_9() -> &'static [Option<&'static str>; 10]
    ensures { map (option_map (λ t. t.now)) result.now ≡ map explanation (range_with_len 90 10) }
{
    &TENS_9
}

static TENS_10: [Option<&str>; 10] = [None; 10];

/// What `explain` prints for 100 to 109.
fn tens_10() -> &'static [Option<&'static str>; 10]
    ensures { map (option_map (λ t. t.now)) result.now ≡ map explanation (range_with_len 100 10) }
{
    &TENS_10
}

static TENS_11: [Option<&str>; 10] = [
    Some(FAULT_110),
    Some(FAULT_111),
    Some(FAULT_112),
    Some(FAULT_113),
    Some(FAULT_114),
    Some(FAULT_115),
    Some(FAULT_116),
    Some(FAULT_117),
    Some(FAULT_118),
    Some(FAULT_119),
];

/// What `explain` prints for 110 to 119.
fn tens_11() -> &'static [Option<&'static str>; 10]
    ensures { map (option_map (λ t. t.now)) result.now ≡ map explanation (range_with_len 110 10) }
{
    &TENS_11
}

static TENS_12: [Option<&str>; 10] = [
    Some(FAULT_120),
    Some(FAULT_121),
    Some(FAULT_122),
    Some(FAULT_123),
    None,
    Some(FAULT_125),
    Some(FAULT_126),
    None,
    None,
    None,
];

/// What `explain` prints for 120 to 129.
fn tens_12() -> &'static [Option<&'static str>; 10]
    ensures { map (option_map (λ t. t.now)) result.now ≡ map explanation (range_with_len 120 10) }
{
    &TENS_12
}

/// What `explain` prints for the 10 numbers from `10 * tens` on. `None` if no number there has a text.
pub(crate) fn texts(tens: u8) -> Option<&'static [Option<&'static str>; 10]>
    ensures { MatchOption result (last_ten < tens) (λ r. map (option_map (λ t. t.now)) r.now ≡ map explanation (range_with_len (10 * tens) 10)) }
{
    match tens {
        0 => Some(tens_0()),
        1 => Some(tens_1()),
        2 => Some(tens_2()),
        3 => Some(tens_3()),
        4 => Some(tens_4()),
        5 => Some(tens_5()),
        6 => Some(tens_6()),
        7 => Some(tens_7()),
        8 => Some(tens_8()),
        9 => Some(tens_9()),
        10 => Some(tens_10()),
        11 => Some(tens_11()),
        12 => Some(tens_12()),
        _ => None,
    }
}
