//! What is claimed of what is said of a session: each function's contract is the theorem.

ghost use Rattle.session_notices.specs.Claims.{NothingSaid, LinesCounted, DoneExactlyWhen, ToldByRefusal};

/// Nothing is said exactly where each call is answered 0.
pub fn nothing_is_said_where_all_is_done()
    ensures nothing { NothingSaid }
    ensures done { DoneExactlyWhen }
{}

/// An operation that is read takes as many lines as are counted for it.
pub fn operations_have_their_lines()
    ensures { LinesCounted }
{}

/// What is said of a session follows from whether it is refused, and why.
pub fn a_refusal_says_what_is_told()
    ensures { ToldByRefusal }
{}
