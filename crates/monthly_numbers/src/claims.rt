//! What is claimed of the monthly numbers: each function's contract is the theorem.

ghost use Rattle.monthly_numbers.specs.Claims.{EndsExactlyWhere, EndsOnce, RepresentedOnce, AddUp, EachSignedEnds, LinesAreShort};
ghost use Rattle.monthly_numbers.specs.Worked.{NumbersWorked};

/// What became of a held record is what the words say, in each of the five cases; and it ends in just one of these ways.
pub fn records_end_as_the_words_say()
    ensures exactly_where { EndsExactlyWhere }
    ensures once { EndsOnce }
{}

/// Each fix is represented by one held record, and by no other.
pub fn fixes_are_represented_once()
    ensures { RepresentedOnce }
{}

/// The five numbers of an engine add up to the first, and so to the number of places with its bit.
pub fn numbers_add_up()
    ensures sum { AddUp }
    ensures signed { EachSignedEnds }
{}

/// No line is longer than 74 bytes.
pub fn lines_are_short()
    ensures { LinesAreShort }
{}

/// What is printed of a small register, to the letter.
pub fn numbers_worked()
    ensures { NumbersWorked }
{}
