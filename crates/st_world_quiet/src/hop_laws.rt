//! Laws of every lossless run over hops, over the definitions alone. These functions do nothing: the contract is the
//! law. A Send is a call of `send`. A calm hop (`IsCalm`) has no open tickets and has room for the money that is left.

ghost use Rattle.st_world_quiet.specs.HopLaws.{APrepareMayCross, CalmHopForwards, CalmHopSendsBack, CalmHopStaysCalm, CrossingIsTurn, CrossingKeepsStanding, CrossingLeavesCalm, CrossingsAreBounded, CrossingsAreWorkDone, CrossingsDeliver, NewHopIsCalm, PlayedRunCredits, PlayedRunDelivers, PlayedRunIsBounded, PlayedRunIsNeeded, PlayedRunOpens, PlayedRunSends, PrepareCrossesWorld, QuietRunDelivers, QuietRunEnds, QuietRunIsBounded, QuietRunIsWorkDone, QuietRunOpens, QuietRunReadsWhole, QuietRunSends};
ghost use Rattle.st_world_quiet.specs.LossyHopLaws.{LossyCrossesAreBounded, LossyCrossesDeliver, LossyCrossesEnd, LossyCrossesGoOn, LossyCrossingsAreBounded, LossyCrossingsAreWorkDone, LossyCrossingsDeliver, LossyCrossingsFailNothing, LossyRunCredits, LossyRunDelivers, LossyRunEnds, LossyRunIsBounded, LossyRunIsWorkDone, LossyRunOpens, LossyRunReadsWhole, LossyRunSends};

/// A calm hop forwards a Prepare that arrives in time unchanged, except that it expires a second earlier. It sends the
/// fitting Fulfill back with the same bytes, and is calm again.
pub fn a_calm_hop_passes_on()
    ensures goes { CalmHopForwards }
    ensures back { CalmHopSendsBack }
    ensures calm { CalmHopStaysCalm }
{}

/// A new hop with an account towards each end is calm if its route leads to the destination and its terms towards the
/// client have room.
pub fn a_new_hop_is_calm()
    ensures { NewHopIsCalm }
{}

/// To both ends a Prepare and its answer over calm hops are the same as without hops, and the hops are calm again.
pub fn a_crossing_is_a_turn()
    ensures turn { CrossingIsTurn }
    ensures stands { CrossingKeepsStanding }
    ensures calm { CrossingLeavesCalm }
{}

/// A run over hops has no more Sends than one without hops. Nothing is assumed of the hops' answers. From the start
/// each hop has room for all money that was offered, and each read takes as much as one packet has. If nothing is left,
/// each stream's input was read whole, and its money was credited.
pub fn a_run_over_hops_is_bounded()
    ensures bounded { CrossingsAreBounded }
    ensures sharper { CrossingsAreWorkDone }
    ensures delivered { CrossingsDeliver }
{}

/// In a world at rest (`IsAtRest`), take a Send whose Prepare each hop forwards, its arrivals over all links, and those
/// of its answer. Together they are a crossing, and leave the world at rest.
pub fn a_prepare_crosses_a_world()
    ensures { PrepareCrossesWorld }
{}

/// Runs exist in which a Prepare crosses a chain. Take a lawful chain with room for it (`MayPlay`) whose server has an
/// ILP address. The client may open its first stream and close it. Its Prepare, which carries the StreamClose, arrives
/// over all hops, and its answer is sent back. This is a lossless run of one round. Each link has one Prepare towards the
/// server and one answer, and nothing is left to send: the Prepare was fulfilled. So the laws of lossless runs speak of
/// runs that there are.
pub fn a_prepare_may_cross()
    ensures { APrepareMayCross }
{}

/// A lossless run of a world, by its events from a world in which nothing has happened, has no more Sends than the
/// bound. If then nothing is left to send, all of each stream's input was written and read, a read of it gives the end,
/// and its money was credited.
pub fn a_quiet_run_of_a_world_is_bounded()
    ensures bounded { QuietRunIsBounded }
    ensures sharper { QuietRunIsWorkDone }
    ensures sends { QuietRunSends }
    ensures opens { QuietRunOpens }
    ensures delivered { QuietRunDelivers }
    ensures whole { QuietRunReadsWhole }
    ensures ends { QuietRunEnds }
{}

/// A lossless run with a list of inputs and one of amounts, for the client's streams 1, 3, 5 and on. Each of these
/// streams opens, and there are no more Sends than these lists give. If then nothing is left to send and each stream is
/// read once more, each input was written and read to its end, and each amount was credited. The server's credit is the
/// sum of the amounts, and the first link has as many Prepares as there were Sends.
pub fn a_played_run_delivers()
    ensures bounded { PlayedRunIsBounded }
    ensures sharper { PlayedRunIsNeeded }
    ensures delivered { PlayedRunDelivers }
    ensures credit { PlayedRunCredits }
    ensures sends { PlayedRunSends }
    ensures opens { PlayedRunOpens }
{}

/// A run over hops in which some Sends are lost, anywhere on their way there or back, has no more Sends than the bound
/// and one for each that is lost. Each hop that waits for a lost answer meets a fault, and has room for all money and for
/// what the lost answers may carry. If then nothing is left, each stream's input was read whole, and its money was
/// credited, with no more in addition than the lost answers may have carried.
pub fn a_lossy_run_over_hops_is_bounded()
    ensures bounded { LossyCrossingsAreBounded }
    ensures sharper { LossyCrossingsAreWorkDone }
    ensures alive { LossyCrossingsFailNothing }
    ensures delivered { LossyCrossingsDeliver }
{}

/// The same of a run by calls: a read of each stream there, and a write on each here, after each Send, lost or not. No
/// 200 Sends in a row are lost.
pub fn a_lossy_run_by_calls_over_hops_is_bounded()
    ensures bounded { LossyCrossesAreBounded }
    ensures goes_on { LossyCrossesGoOn }
    ensures delivered { LossyCrossesDeliver }
    ensures ended { LossyCrossesEnd }
{}

/// A run of a world by its events, from a world in which nothing has happened, in which some Sends are lost, each on one
/// link on its way there or back. All is written before the first Send (`MayRunLossy`). It has no more Sends than the
/// bound and one for each that is lost. If then nothing is left to send, all of each stream's input was written and
/// read, a read of it gives the end, and its money was credited. The server's credit is all money, and exactly what the
/// lost answers carried.
pub fn a_lossy_run_of_a_world_is_bounded()
    ensures bounded { LossyRunIsBounded }
    ensures sharper { LossyRunIsWorkDone }
    ensures sends { LossyRunSends }
    ensures opens { LossyRunOpens }
    ensures delivered { LossyRunDelivers }
    ensures whole { LossyRunReadsWhole }
    ensures ends { LossyRunEnds }
    ensures credit { LossyRunCredits }
{}
