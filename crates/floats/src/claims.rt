//! What is claimed of the root. Each function's contract is the claim; there is nothing to run.

ghost use Rattle.floats.specs.Claims.{RootIsIeee754};
ghost use Rattle.floats.specs.Worked.{RootsWorked};

/// The root is the one that IEEE 754 asks for, and no other value is.
pub fn root_is_ieee754()
    ensures { RootIsIeee754 }
{}

/// The roots of twelve numbers, of each kind and at the edges.
pub fn roots_worked()
    ensures { RootsWorked }
{}
