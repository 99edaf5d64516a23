//! Laws of the definitions. Each is the contract of a function that does nothing.

ghost use Rattle.st_frames.specs.Laws.{KeepsFrames, NoneBegins, PacketReads, PacketWrites, ReadsWithoutMemory};

/// Bytes are read as a packet exactly if they are an encoding of it.
pub fn packet_law()
    ensures { PacketReads }
{}

/// The written encoding of a packet has nothing after its last frame, and is read as that packet.
pub fn written_law()
    ensures { PacketWrites }
{}

/// No packet with nothing after its last frame is a proper prefix of another such packet.
pub fn prefix_law()
    ensures { NoneBegins }
{}

/// A packet made of given frames is read with exactly these frames, in their order.
pub fn frames_law()
    ensures { KeepsFrames }
{}

/// Reading a packet never fails with `NoMemory`.
pub fn reading_wants_no_memory()
    ensures { ReadsWithoutMemory }
{}
