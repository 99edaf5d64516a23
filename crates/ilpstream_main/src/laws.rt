//! Laws of the arguments that ask for `frames`, and of a connector's table.

ghost use Rattle.std.specs.Prelude.{List};
ghost use Rattle.clap.specs.Words.{Text};
ghost use Rattle.ilpstream_net.specs.Table.{ABadTableIsToldExactly};
ghost use Rattle.ilpstream_main.specs.Words.{AsksFrames, NamesFrames, after_name};

use ilpstream_settings::{a_bad_text_says_no_table, lines_say_one_table};

/// States a law; it does nothing. The program's name alone asks for `frames`, and so does the name with the one argument
/// `frames`, each also with a final `--`.
pub fn frames_needs_no_word()
    ensures { (words : List Text) → NamesFrames (after_name words) → AsksFrames words }
{}

/// States a law; it does nothing. What is proved of a connector that reads its table from its input fixes when it reports a
/// bad table (96): only if the input is not a table for a hop of its address. It always does so then, unless memory was
/// refused or the input could not be read whole.
pub fn a_bad_table_is_told_exactly()
    ensures { ABadTableIsToldExactly }
{
    a_bad_text_says_no_table();
    lines_say_one_table();
}
