//! Laws over the definitions alone. These functions do nothing: the contract is the law.

ghost use Rattle.std.specs.Prelude.{◌≡◌, ◌<◌, ℕ, List, None, Some, sum, false};
ghost use Rattle.st_frames.specs.Frames.{Packet};
ghost use Rattle.st_reassembly.specs.Held.{is_over};
ghost use Rattle.st_receiver.specs.Streams.{Incoming, Receiving, new_receiving, opened_stream, with_receive_max};
ghost use Rattle.st_receiver.specs.Money.{parts};
ghost use Rattle.st_receiver.specs.Closes.{with_close};
ghost use Rattle.st_receiver.specs.Judged.{fault_of, effect};
ghost use Rattle.st_receiver.specs.Reading.{after_got};
ghost use Rattle.st_receiver.specs.Lawful.{EndsAtHighest, IsLawful};

/// The parts of an amount that is split by shares add up to it, if any share is above 0.
pub fn parts_add_up()
    ensures { (amount : ℕ) (shares : List ℕ) → 0 < sum shares → sum (parts amount shares) ≡ amount }
{}

/// A clean close fixes the end of a stream at the highest end of data that arrived.
pub fn clean_close_ends_at_highest()
    ensures { (x : Incoming) → EndsAtHighest x → is_over x.held ≡ false → (with_close 1 x).held.end ≡ Some x.highest }
{}

/// In every state that is reached the streams' credits add up to the connection's credit, and a clean close of each
/// open direction would end it at the highest end of its data.
pub fn every_step_is_lawful()
    ensures new { (parity : ℕ) → IsLawful (new_receiving parity) }
    ensures packets { (r : Receiving) (p : Packet) (amount : ℕ) → IsLawful r → fault_of r p amount ≡ None → IsLawful (effect r p amount) }
    ensures reads { (r : Receiving) (stream limit : ℕ) → IsLawful r → IsLawful (after_got r stream limit) }
    ensures opens { (r : Receiving) (stream : ℕ) → IsLawful r → IsLawful (opened_stream r stream) }
    ensures limits { (r : Receiving) (stream amount : ℕ) → IsLawful r → IsLawful (with_receive_max r stream amount) }
{}
