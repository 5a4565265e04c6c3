//! What is claimed of sine and cosine. Each function's contract is the claim; there is nothing to run.

ghost use Rattle.geometry.specs.Claims.{CoveredOnce, QuadrantAndRest, RangesAreTheFormula, Edges, Position4, NearestPi, ConstantBits};

/// Each angle lies in exactly one of the five ranges that choose sine and cosine.
pub fn angles_lie_in_one_range()
    ensures { CoveredOnce }
{}

/// The ranges give the quadrant, the rest and so the sine and cosine that the formula gives, for every angle of 32 bits.
pub fn ranges_are_the_formula()
    ensures formula { QuadrantAndRest }
    ensures ranges { RangesAreTheFormula }
{}

/// Both sides of each edge, and the ends of an i32.
pub fn edges_of_the_ranges()
    ensures edges { Edges }
    ensures halves { Position4 }
{}

/// Pi's first 35 decimals decide the value of a degree; and the constants' bits.
pub fn constants_worked()
    ensures nearest { NearestPi }
    ensures bits { ConstantBits }
{}
