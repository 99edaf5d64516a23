//! Laws of the chains of st_world, over the definitions alone. These functions do nothing: the contract is the law.

ghost use Rattle.st_world_quiet.specs.ChainLaws.{ChainWithRoomMayLose, ChainWithRoomMayPlay};

/// The conditions under which a chain that forwards amounts unchanged may play a lossless run. It has at most eight
/// hops, and the least rate is 1 to 1. Each hop's account accepts a Prepare of the packet limit, and its limit is at
/// least the sum of all amounts. All inputs together are below 2^63 bytes, and all amounts together below 2^63. The
/// connection's number of Prepares suffices.
pub fn a_chain_with_room_may_play()
    ensures { ChainWithRoomMayPlay }
{}

/// The same with losses: each hop's account has room for all amounts and for what the lost answers may carry, and each
/// receive max has such room too. The connection's number of Prepares suffices for the losses, and no 200 Sends in a
/// row are lost.
pub fn a_chain_with_room_may_lose()
    ensures { ChainWithRoomMayLose }
{}
