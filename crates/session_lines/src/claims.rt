//! What is claimed of reading: each function's contract is the theorem.

ghost use Rattle.session_lines.specs.Claims.{SessionsRead, NoOtherReading, OthersHaveCalls, OnlyEmptyMoved, FirstLine, LinesAfter, DueHere, DueLater, DueIsBad, ReadAsItself, OneText, SignedReadAsItself};

/// A session is its first operation and the session of what is left, and nothing else reads sessions so.
pub fn sessions_are_read_operation_by_operation()
    ensures read { SessionsRead }
    ensures no_other { NoOtherReading }
{}

/// Only the empty file has neither a call nor a bad line.
pub fn only_the_empty_session_has_no_calls()
    ensures others_have_calls { OthersHaveCalls }
    ensures only_empty_moved { OnlyEmptyMoved }
{}

/// What is due is what the grammar reads, key by key and value by value; the first bad line is where a line that was due is not.
pub fn what_is_due_is_what_is_bad()
    ensures first_line { FirstLine }
    ensures lines_after { LinesAfter }
    ensures here { DueHere }
    ensures later { DueLater }
    ensures is_bad { DueIsBad }
{}

/// Every number is read as itself from its decimal text, and from no other text.
pub fn decimals_are_read_as_themselves()
    ensures unsigned { ReadAsItself }
    ensures one_text { OneText }
    ensures signed { SignedReadAsItself }
{}
