//! What is claimed of the cases: each function's contract is the theorem.

ghost use Rattle.pictures_text.specs.Claims.{InOrder, InNumber, NoneBad};
ghost use Rattle.pictures_text.specs.Worked.{LinesWorked};

/// The list of cases is in order, and holds every case and nothing else.
pub fn they_are_in_order()
    ensures { InOrder }
{}

/// There are 2,744 cases, and each stands where its number says and nowhere else.
pub fn they_are_numbered()
    ensures { InNumber }
{}

/// No case's items are bad, so something is decided of each.
pub fn no_items_are_bad()
    ensures { NoneBad }
{}

/// Three lines that were worked out by hand, to the letter.
pub fn lines_worked()
    ensures { LinesWorked }
{}
