//! Laws of messages: what a byte list means as a request or as a response, where a head ends, when two lengths are
//! equal.

ghost use Rattle.st_http.specs.Laws.{RefusalsStay, MessagesEnd, WantsWhatIsLeft, HeadsEndAtTheirFirstEmptyLine, EqualNumbersHaveEqualDigits};

/// States a law; it does nothing. Once a message is refused, it stays refused with the same error, whatever bytes
/// follow.
pub fn refusals_stay()
    ensures { RefusalsStay }
{}

/// States a law; it does nothing. A complete message is the beginning of no other message, and has one meaning.
pub fn messages_end()
    ensures { MessagesEnd }
{}

/// States a law; it does nothing. An unfinished message wants at least one more byte, and never more than it must still
/// have.
pub fn wants_what_is_left()
    ensures { WantsWhatIsLeft }
{}

/// States a law; it does nothing. A head that the grammar accepts ends at its first empty line, and nowhere before.
pub fn heads_end_at_their_first_empty_line()
    ensures { HeadsEndAtTheirFirstEmptyLine }
{}

/// States a law; it does nothing. Two texts of digits write the same number if and only if they are equal without
/// leading zeros, however long they are.
pub fn equal_numbers_have_equal_digits()
    ensures { EqualNumbersHaveEqualDigits }
{}
