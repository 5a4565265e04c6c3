//! What is claimed of what a session prints and leaves, and of the reason why it is refused: each function's contract is the theorem.

ghost use Rattle.session_text.specs.Claims.{NeverSilent, EmptyIsQuiet, OnlyEmptyIsQuiet, LineWithoutBoard, BoardAsItIs, NoBoardIsTheLine, NineBytesEach, PrintedAsPerformed, ReasonWhereRefused, NamesTheBadLine, ShownIsBad};
ghost use Rattle.session_text.specs.Worked.{ReasonsWorked};

/// Something is printed for every input; it is `transmissions=0` alone for the empty input and for no other.
pub fn only_the_empty_input_is_quiet()
    ensures never_silent { NeverSilent }
    ensures empty { EmptyIsQuiet }
    ensures no_other { OnlyEmptyIsQuiet }
{}

/// After the answers comes the board as it is, or where it has no bytes that line; and no board is that line.
pub fn the_board_or_the_line_comes_after_the_answers()
    ensures without_board { LineWithoutBoard }
    ensures board_as_it_is { BoardAsItIs }
    ensures no_board_is_the_line { NoBoardIsTheLine }
{}

/// Each answer of a session that is performed has nine bytes; and what the program prints is what performing the session on a fresh register
/// writes, and then the board of that register, or the line in its place.
pub fn what_is_printed_is_performed()
    ensures nine_bytes { NineBytesEach }
    ensures printed { PrintedAsPerformed }
{}

/// There is a reason exactly where a session is refused, and it says which line is the first bad one and what is due there.
pub fn a_reason_names_the_line_that_is_bad()
    ensures where_refused { ReasonWhereRefused }
    ensures names_it { NamesTheBadLine }
{}

/// What is shown begins where the line is due that the reason names, and no such line stands there.
pub fn what_is_shown_is_the_bad_line()
    ensures { ShownIsBad }
{}

/// The reasons of some sessions, to the letter.
pub fn reasons_worked()
    ensures { ReasonsWorked }
{}
