//! The bounds on one packet.

ghost use Rattle.std.specs.Prelude.{◌≡◌, ◌≤◌, ◌+◌, ◌-◌};
ghost use Rattle.st_sender.specs.Allowed.{less, left_by};

use crate::sizes::DATA_SIZE;

/// The bounds on one packet. `spare`: by how many bytes the sum of the streams' ends may still rise. `sequence`: the
/// packet's sequence. `room`: how many bytes the packet may have.
#[derive(Clone, Copy)]
pub struct Bounds {
    pub spare: u128,
    pub sequence: u64,
    pub room: usize,
}

/// Bytes of a stream that may go: `count` of them from `offset` on. Those that went before end at `end`.
#[derive(Clone, Copy)]
pub struct Row {
    pub offset: u64,
    pub count: u64,
    pub end: u128,
}

impl Bounds {
    /// The bounds with `size` bytes of the room less, at least 0.
    pub fn less(self, size: usize) -> Bounds
        ensures { result ≡ less self size }
    {
        Bounds {
            spare: self.spare,
            sequence: self.sequence,
            room: self.room.saturating_sub(size),
        }
    }

    /// What a data frame with these bytes leaves of the bounds.
    pub fn beside(self, row: Row) -> Bounds
        requires { row.count ≤ 16000 }
        ensures { result ≡ left_by self (row.count + 32) (row.offset + row.count - row.end) }
    {
        let end = u128::from(row.offset) + u128::from(row.count);
        Bounds {
            spare: self.spare.saturating_sub(end.saturating_sub(row.end)),
            sequence: self.sequence,
            room: self.room.saturating_sub(row.count as usize + DATA_SIZE),
        }
    }
}
