//! The kind of the ILP packet that carries a STREAM packet.

ghost use Rattle.std.specs.Prelude.{◌≡◌, true, false, MatchOption};
ghost use Rattle.st_frames.specs.Kinds.{kind_number, is_kind};

/// The kind of an ILP packet (RFC 0027). A STREAM packet has the kind of the ILP packet that carries it (RFC 0029,
/// section 5.2).
#[derive(Clone, Copy, Debug, PartialEq, Eq)]
pub enum PacketKind {
    /// Number 12.
    Prepare,
    /// Number 13.
    Fulfill,
    /// Number 14.
    Reject,
}

impl PacketKind {
    /// The kind of this number: 12, 13 or 14. `None` for every other number.
    pub fn of(number: u8) -> Option<PacketKind>
        ensures { MatchOption result (is_kind number ≡ false) (λ kind. (is_kind number ≡ true) × (kind_number kind ≡ number)) }
    {
        match number {
            12 => Some(PacketKind::Prepare),
            13 => Some(PacketKind::Fulfill),
            14 => Some(PacketKind::Reject),
            _ => None,
        }
    }

    /// Its number: 12, 13 or 14.
    pub fn number(self) -> u8
        ensures { result ≡ kind_number self }
    {
        match self {
            PacketKind::Prepare => 12,
            PacketKind::Fulfill => 13,
            PacketKind::Reject => 14,
        }
    }
}
