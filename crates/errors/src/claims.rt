//! What is claimed of the numbers of what is refused. The contract is the claim; there is nothing to run.

ghost use Rattle.errors.specs.Errors.{NoneGreater};

/// No refusal has a number above the greatest.
pub fn none_greater()
    ensures { NoneGreater }
{}
