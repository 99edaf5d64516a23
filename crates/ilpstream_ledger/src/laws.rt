//! Laws of the books of a connector.

ghost use Rattle.ilpstream_ledger.specs.Laws.{AddedNamesClaimNothing, AddedNamesOweNothing, BookingsAreByName, ClaimsAreEarnedOrAdjusted, DuesAreEarnedOrAdjusted, EntriesAreByName};

/// States a law; it does nothing. Names that are added to books, at which nothing is owed, change nothing of what the accounts of
/// a table owe and are owed by them.
pub fn added_names_owe_nothing()
    ensures claims { AddedNamesClaimNothing }
    ensures dues { AddedNamesOweNothing }
{}

/// States a law; it does nothing. Over all lives of a connector with books, whatever its tables, and whatever was paid or adjusted
/// in between: what an account owes, and what was paid of it, are the amounts of the fulfilled Prepares that arrived from it, and what
/// was added by adjustments. What it is owed, and what was paid of that, are those of the Prepares that were forwarded to it.
pub fn every_history_balances()
    ensures claims { ClaimsAreEarnedOrAdjusted }
    ensures dues { DuesAreEarnedOrAdjusted }
{}

/// States a law; it does nothing. A payment or an adjustment in the books, at the place of a name, is one of this name.
pub fn entries_are_by_name()
    ensures { EntriesAreByName }
{}

/// States a law; it does nothing. Books that booked fulfilled Prepares of a table's accounts, at the places of these, have at each
/// name what the hop has there: what was owed before, and the amounts of those that arrived from it or were forwarded to it.
pub fn bookings_are_by_name()
    ensures { BookingsAreByName }
{}
