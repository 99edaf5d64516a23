//! Laws of the log: where a line ends, and that nothing is left out without being counted.

ghost use Rattle.ilpstream_log.specs.Laws.{EventsAreCounted, LineHasOneNewline, TenASecond, TextsOfPeersAreShort};

/// States a law; it does nothing. A line ends with a newline and has no other, whatever the texts of its event are.
pub fn line_has_one_newline()
    ensures { LineHasOneNewline }
{}

/// States a law; it does nothing. A text of a peer has at most 260 characters in a line, with its quotes and with two dots
/// where it is cut.
pub fn texts_of_peers_are_short()
    ensures { TextsOfPeersAreShort }
{}

/// States a law; it does nothing. Each event of a kind from a neighbour has a line, or is in the number that a later line
/// reports, or is counted for one.
pub fn events_are_counted()
    ensures { EventsAreCounted }
{}

/// States a law; it does nothing. Events of a kind from a neighbour have at most ten lines a second.
pub fn ten_a_second()
    ensures { TenASecond }
{}
