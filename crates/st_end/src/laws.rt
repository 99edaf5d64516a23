//! Laws of the definitions. These functions do nothing: the contract is the law.

ghost use Rattle.std.specs.Prelude.{◌≤◌, ℕ, ℤ, List, length};
ghost use Rattle.st_ilp.specs.Packets.{PreparePacket};
ghost use Rattle.st_frames.specs.Frames.{Known, Packet};
ghost use Rattle.st_frames.specs.Written.{frames_text};
ghost use Rattle.st_keys.specs.Keys.{DerivedKeys};
ghost use Rattle.st_receiver.specs.Streams.{Receiving};
ghost use Rattle.st_receiver.specs.Limits.{reply_frames};
ghost use Rattle.st_end.specs.State as state;
ghost use Rattle.st_end.specs.Receiving.{prepare_in, verdict};
ghost use Rattle.st_end.specs.Laws.{IsSealed, HasReply};

/// The frames of a reply take at most 3,147 bytes, so sealing never refuses it: its data are always its sealed packet
/// (RFC 0029, section 5.2). So each Prepare whose payload opened is answered with a packet, whatever the end, the bytes
/// and the moment.
pub fn replies_are_sealed()
    ensures short { (receiving : Receiving) (frames : List Known) → length (frames_text (reply_frames receiving frames)) ≤ 3147 }
    ensures each { (keys : DerivedKeys) (kind : ℕ) (prepare : PreparePacket) (packet : Packet) (receiving : Receiving)
        → IsSealed keys kind prepare packet receiving }
    ensures answers { (e : state.EndState) (bytes : List ℕ) (now : ℤ) → HasReply e (prepare_in bytes) (verdict e bytes now) }
{}
