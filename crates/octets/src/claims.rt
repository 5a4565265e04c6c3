//! What is claimed of bytes. Each function's contract is the claim; there is nothing to run.

ghost use Rattle.octets.specs.Claims.{OrderIsStrict, LesserOfTwo, WordsGoBothWays};

/// Byte order is strict, and of two different strings one comes first.
pub fn order_is_strict()
    ensures { OrderIsStrict }
{}

/// The lesser of two strings is one that neither comes before, whichever is lent first.
pub fn lesser_of_two()
    ensures { LesserOfTwo }
{}

/// A number that is written is read back, and one that is read is written back.
pub fn words_go_both_ways()
    ensures { WordsGoBothWays }
{}
