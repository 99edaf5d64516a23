//! What a Fulfill books.

/// What proves a claim to the neighbour that owes it: it was paid for this fulfillment, which only the receiver of its Prepare
/// could give.
#[derive(Clone, Copy, Debug, PartialEq, Eq)]
pub struct Proof {
    /// The condition of its Prepare: the SHA-256 digest of the fulfillment (RFC 0027).
    pub condition: [u8; 32],
    /// The fulfillment.
    pub fulfillment: [u8; 32],
    /// When the fulfillment arrived, in milliseconds since 1970-01-01 00:00 UTC.
    pub moment: i64,
}

/// What a fulfilled Prepare books.
#[derive(Clone, Copy, Debug, PartialEq, Eq)]
pub struct Booking {
    /// The account from which the Prepare arrived. It owes `claim` more.
    pub payer: usize,
    pub claim: u64,
    /// The account to which the Prepare was forwarded. It is owed `due` more.
    pub payee: usize,
    pub due: u64,
    /// What proves the claim, if it is to be kept.
    pub proof: Option<Proof>,
}
