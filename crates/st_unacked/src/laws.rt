//! Laws of the definitions: what an answer leaves at each offset, and that a claim can be undone.

ghost use Rattle.st_unacked.specs.Laws.{AClaimIsTakenBack, AcknowledgedIsPointwise, FailedIsPointwise};

/// An acknowledgement leaves every offset as it was, except that the bytes carried by the sequence number are removed.
pub fn acknowledged_is_pointwise()
    ensures { AcknowledgedIsPointwise }
{}

/// A failure keeps every byte. Those carried by the sequence number are no longer in flight.
pub fn failed_is_pointwise()
    ensures { FailedIsPointwise }
{}

/// A claim of bytes that are not in flight, by a sequence number that carries nothing else, leaves no trace once it
/// fails.
pub fn a_claim_is_taken_back()
    ensures { AClaimIsTakenBack }
{}
