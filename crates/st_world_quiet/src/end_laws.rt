//! Laws of every lossless run, over the definitions alone. These functions do nothing: the contract is the law. A Send
//! is a call of `send` at the sending end.

ghost use Rattle.std.specs.Prelude.{◌≡◌, ℕ, ◌+◌, ◌<◌, List, length, sum, Contains};
ghost use Rattle.std.specs.declared.option.Option.TheVariants.{Some};
ghost use Rattle.st_frames.specs.Frames.{LimitFrame, ConnectionMaxData, Known, max_packet};
ghost use Rattle.st_reassembly.specs.Run.{run};
ghost use Rattle.st_sender.specs.Sending.{Outgoing, Sending, outgoing_at};
ghost use Rattle.st_sender.specs.Loads.{IsIdle};
ghost use Rattle.st_sender.specs.Accepting.{after_clean, after_write};
ghost use Rattle.st_receiver.specs.Streams.{Receiving};
ghost use Rattle.st_receiver.specs.Limits.{connection_limit, reply_frames};
ghost use Rattle.st_receiver.specs.Money.{parts};
ghost use Rattle.st_world_quiet.specs.Quiet.{IsQuiet};
ghost use Rattle.st_world_quiet.specs.Left.{work_left};
ghost use Rattle.st_world_quiet.specs.Rounds.{IsRefilled, IsDone};
ghost use Rattle.st_world_quiet.specs.Losses.{AreFew, Fate, losses};
ghost use Rattle.st_world_quiet.specs.EndLaws.{ACloseIsSent, AbreastDelivers, ArrivedIsHeld, CallsOpen, CallsOpenAbreast, CallsOpenJoined, CallsWriteOn, ExchangesAreBounded, ExchangesAreWorkDone, ExchangesKeepAbreast, FulfillTellsEnough, LoadHasNoFault, LoadIsFulfilled, LoadIsRead, LoadIsShort, LoadReadsNothing, NothingLeftSendsNothing, OpeningIsAbreast, ReadsTakeAll, ReplyIsAPeers, ReplyTellsEnough, ReplyTellsWindow, RoundKeepsAbreast, RoundsStayQuiet, RunDelivers, RunIsBounded, RunIsRead, SendsAreBounded, SendsAreWorkDone, SharedMoneyHasNoFault, TripIsExchange, TripsAreBounded, TripsAreExchanges, TripsDeliver, WriteFits, WriteIsFull, WrittenOn};
ghost use Rattle.st_world_quiet.specs.LossyEndLaws.{APrepareMayBeLost, AnAnswerMayBeLost, AttemptsAreBounded, AttemptsAreWorkDone, AttemptsStayQuiet, FewLossesFailNothing, LossyTripsAreBounded, LossyTripsAreWorkDone, LossyTripsDeliver, LossyTripsFailNothing, LossyTurnsAreBounded, LossyTurnsDeliver, LossyTurnsEnd, LossyTurnsGoOn, LostAnswersCarryLittle, TriesAreBounded, TriesAreWorkDone, TriesDeliver, TriesEnd, TriesFailNothing, TriesKeepOffers, TriesStayQuiet};

/// From its start a lossless run has fewer Sends than the bound, so the bound also counts the last Send, which gives no
/// Prepare.
pub fn sends_are_bounded()
    ensures bounded { SendsAreBounded }
    ensures sharper { SendsAreWorkDone }
    ensures quiet { RoundsStayQuiet }
{}

/// While bytes, money or a close are left, a Send gives a Prepare. If nothing is left it gives none, and each stream is
/// done.
pub fn a_send_stops_at_the_end()
    ensures goes { (n : ℕ → ℕ) (s : Sending) (limits : List Known) → IsQuiet n s → 0 < work_left n s → ¬ IsIdle s limits max_packet }
    ensures stops { NothingLeftSendsNothing }
    ensures closes { ACloseIsSent }
    ensures done { (n : ℕ → ℕ) (s : Sending) (k : ℕ) (x : Outgoing) → IsQuiet n s → work_left n s ≡ 0 → outgoing_at s k ≡ Some x → IsDone (n k) x }
{}

/// The limits in the reply of a receiver that had read everything before suffice for the next Send. Its windows of
/// 65,536 and 1,048,576 bytes leave 16,000 beyond the longest packet, and its receive max leaves room for all money
/// that was offered.
pub fn a_reply_tells_enough()
    ensures { ReplyTellsEnough }
{}

/// No frame of a lossless run's packet breaks a rule of a receiver that is level with the sender. Its money is split as its
/// shares say, and the packet does not change what was read.
pub fn a_load_breaks_no_rule()
    ensures fine { LoadHasNoFault }
    ensures reads { LoadReadsNothing }
    ensures money { SharedMoneyHasNoFault }
    ensures split { (ms : List ℕ) → 0 < sum ms → parts (sum ms) ms ≡ ms }
{}

/// A reply has the connection's limit, and the window of each stream that a frame of the request names.
pub fn a_reply_tells_each_window()
    ensures connection { (r : Receiving) (fs : List Known) → Contains (reply_frames r fs) (LimitFrame (ConnectionMaxData (connection_limit r))) }
    ensures window { ReplyTellsWindow }
{}

/// A receiver that is level with the sender (`IsAbreast`) fulfills each Prepare of a lossless run.
pub fn a_load_is_fulfilled()
    ensures { LoadIsFulfilled }
{}

/// The reply of a receiver that is level with the sender (`IsAbreast`) has what it read and credited, and so suffices
/// for the next Send.
pub fn a_fulfill_tells_enough()
    ensures tells { ReplyIsAPeers }
    ensures enough { FulfillTellsEnough }
{}

/// Once a packet of a lossless run took effect, a read can take everything that the sender then has acknowledged.
pub fn a_load_is_read()
    ensures { LoadIsRead }
{}

/// Once a packet of a lossless run took effect, no stream has more unread bytes in a row than one packet has room for.
pub fn a_load_is_short()
    ensures { LoadIsShort }
{}

/// A receiver whose reader takes all it can is level with the sender again after each round.
pub fn a_round_keeps_abreast()
    ensures { RoundKeepsAbreast }
{}

/// A run of both sides has no more Sends than the bound, whatever was read and written meanwhile. It begins at a start
/// of the sender and at a receiver that is level with it. Nothing is assumed of the receiver's answers. If nothing is
/// left, all bytes of each stream were read and all its money was credited.
pub fn exchanges_are_bounded()
    ensures bounded { ExchangesAreBounded }
    ensures sharper { ExchangesAreWorkDone }
    ensures abreast { ExchangesKeepAbreast }
    ensures delivered { AbreastDelivers }
{}

/// Reads of each open stream, each of as many bytes as are there in a row, take everything that can be read.
pub fn reads_take_all()
    ensures { ReadsTakeAll }
{}

/// A write on an open stream that was not closed is accepted if then at most 262,144 bytes are unacknowledged, and
/// fewer than 2^63 bytes are accepted in all. With more unacknowledged bytes it is refused with `Full`.
pub fn a_write_is_taken_where_it_fits()
    ensures fits { WriteFits }
    ensures full { WriteIsFull }
{}

/// A stream whose input was written as far as it fits, and closed if the input ended, is a continuation of its writes.
pub fn a_stream_is_written_on()
    ensures more { WrittenOn }
    ensures closed { (n : ℕ) (x : Outgoing) (more : List ℕ) → x.accepted + length more ≡ n → IsRefilled n x (after_clean (after_write more x)) }
{}

/// Calls that write what fits of each stream's input, and close the stream at the input's end, continue the writes and
/// change nothing else.
pub fn calls_write_on()
    ensures { CallsWriteOn }
{}

/// Calls that open streams, with money and input for each, are a start. A peer that raised its receive max to that
/// money is level with it, and can advertise it.
pub fn calls_open()
    ensures opening { CallsOpen }
    ensures abreast { CallsOpenAbreast }
    ensures joined { CallsOpenJoined }
{}

/// A receiver at which nothing arrived is level with a start, if its receive max lets all the offered money arrive.
pub fn an_opening_is_abreast()
    ensures { OpeningIsAbreast }
{}

/// What arrived is buffered, and a read of what is there in a row takes all of it.
pub fn a_read_takes_all()
    ensures held { ArrivedIsHeld }
    ensures run { RunIsRead }
{}

/// Between two ends without hops, a trip of bytes is an exchange: the packet took effect at the receiver before the
/// reads, and was acknowledged at the sender before the writes.
pub fn a_trip_is_an_exchange()
    ensures { TripIsExchange }
{}

/// A run of trips has no more Sends than the bound. If nothing is left, everything was delivered.
pub fn trips_are_bounded()
    ensures bounded { TripsAreBounded }
    ensures exchanges { TripsAreExchanges }
    ensures delivered { TripsDeliver }
{}

/// A run of two ends by their calls alone, from their start, has no more Sends than the bound. If nothing is left, each
/// stream's input was read whole, and its money was credited.
pub fn a_run_is_bounded()
    ensures bounded { RunIsBounded }
    ensures delivered { RunDelivers }
{}

/// A sender has one Send more for each that is lost, whatever is lost of it: a lost Send leaves as much to do as there
/// was. The connection fails only if 200 in a row are lost.
pub fn a_lost_send_costs_itself()
    ensures bounded { AttemptsAreBounded }
    ensures sharper { AttemptsAreWorkDone }
    ensures quiet { AttemptsStayQuiet }
    ensures alive { FewLossesFailNothing }
    ensures few { (fates : List Fate) → losses fates < 200 → AreFew 0 fates }
{}

/// A run of both sides in which some Sends are lost, each with its Prepare or with its answer, has no more Sends than
/// the bound and one for each that is lost. Its receive maxes have room for what is offered, and for what the lost
/// answers may carry in addition. If then nothing is left, all bytes of each stream were read, its end is known, and it
/// was credited what was offered and exactly what the lost answers carried.
pub fn a_lossy_run_is_bounded()
    ensures bounded { TriesAreBounded }
    ensures sharper { TriesAreWorkDone }
    ensures quiet { TriesStayQuiet }
    ensures alive { TriesFailNothing }
    ensures delivered { TriesDeliver }
    ensures ended { TriesEnd }
    ensures carried { LostAnswersCarryLittle }
    ensures offers { TriesKeepOffers }
{}

/// Between two ends without hops, from bytes to bytes and from the calls of their opening: a run in which some Prepares,
/// or their answers, never come has no more Sends than the bound and one for each that is lost. If then nothing is left,
/// each stream's input was read whole, and its money was credited, with no more in addition than the lost answers may
/// have carried.
pub fn a_lossy_run_of_ends_is_bounded()
    ensures bounded { LossyTripsAreBounded }
    ensures sharper { LossyTripsAreWorkDone }
    ensures alive { LossyTripsFailNothing }
    ensures delivered { LossyTripsDeliver }
{}

/// The same of a run by calls alone: a read of each stream there, and a write on each here, after each Send, lost or not.
/// No 200 Sends in a row are lost.
pub fn a_lossy_run_by_calls_is_bounded()
    ensures bounded { LossyTurnsAreBounded }
    ensures goes_on { LossyTurnsGoOn }
    ensures delivered { LossyTurnsDeliver }
    ensures ended { LossyTurnsEnd }
{}

/// There are such runs: if only closes are left, a Prepare may be lost, and so may an answer.
pub fn a_send_may_be_lost()
    ensures prepare { APrepareMayBeLost }
    ensures answer { AnAnswerMayBeLost }
{}
