//! The two amounts of an account.

/// Which of an account's two amounts a booking changes.
#[derive(Clone, Copy, Debug, PartialEq, Eq)]
pub enum BalanceSide {
    /// What the account owes. A payment that is booked here was made by the account.
    Claims,
    /// What is owed to the account. A payment that is booked here was made to it.
    Dues,
}
