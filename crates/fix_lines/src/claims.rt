//! What is claimed of the lines of a board.

ghost use Rattle.fix_lines.specs.Claims.{NoneExactlyWhen};
ghost use Rattle.fix_lines.specs.CrewFromFull.{CrewFromFull};
ghost use Rattle.fix_lines.specs.Worked.{LinesAsWritten};

/// A line says `none` of a chi-square exactly where there is no number.
pub fn none_exactly_when()
    ensures { NoneExactlyWhen }
{}

/// The lines of the worked session are as they are written in docs/REFERENCE.md, and so is a line with the greatest longitude and otherwise everything at its widest.
pub fn lines_are_as_written()
    ensures { LinesAsWritten }
{}

/// What a crew sees follows from the text of the full board alone.
pub fn crew_from_full()
    ensures { CrewFromFull }
{}
