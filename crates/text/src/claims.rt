//! What is claimed of the texts of numbers and heights: each function's contract is the theorem.

ghost use Rattle.text.specs.Claims.{DecimalReadsBack, NoLeadingZero, NoMinusZero, DecimalWidth, HexReadsBack, MetresAreNearest, OnlyHalvesMoved, HeightNotMinusZero, HeightTexts, DecimalsReadBack, MinusOnlyBelowZero, LeadingZeroAlone, JustSoMany, DecimalTexts};

/// The decimal digits of a number stand for it, without a leading zero, and there are 1 to 20 of them; no negative number is written '-0'.
pub fn decimals_stand_for_their_numbers()
    ensures reads_back { DecimalReadsBack }
    ensures no_leading_zero { NoLeadingZero }
    ensures no_minus_zero { NoMinusZero }
    ensures width { DecimalWidth }
{}

/// So many hex digits as a number needs stand for it.
pub fn hex_digits_stand_for_their_numbers()
    ensures { HexReadsBack }
{}

/// A height is written as the nearest whole metre, of two equally near the even one, and never as '-0'.
pub fn heights_are_the_nearest_metres()
    ensures nearest { MetresAreNearest }
    ensures only_halves_moved { OnlyHalvesMoved }
    ensures not_minus_zero { HeightNotMinusZero }
    ensures texts { HeightTexts }
{}

/// A number with decimals is read back as itself. It has just so many decimals, a minus only below zero, and no leading zeros.
pub fn decimals_are_exact()
    ensures read_back { DecimalsReadBack }
    ensures minus { MinusOnlyBelowZero }
    ensures leading_zero { LeadingZeroAlone }
    ensures just_so_many { JustSoMany }
    ensures texts { DecimalTexts }
{}
