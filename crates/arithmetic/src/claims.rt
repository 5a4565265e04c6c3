//! What is claimed of agreement. Each function's contract is the claim; there is nothing to run.

ghost use Rattle.arithmetic.specs.Claims.{AgreesAsBefore, BitsAsBefore, ElseTheSum, FiniteNumbers, InsideExactlyWhen, NumbersAsBefore, OutsideExactlyWhen, PlacedByFormula, Position1, Position2, SigmaOfNan, SigmaOfNoVariance, StoredReadBack, UnmeasurableExactlyWhen, UnmeasurableWasInfinite};

/// An agreement is unmeasurable exactly where there is no Cholesky factor or the sum is not finite; else it has the sum, which is
/// a finite number, and is inside exactly where that is at most the limit.
pub fn agreement_is_by_its_sum()
    ensures unmeasurable { UnmeasurableExactlyWhen }
    ensures sum { ElseTheSum }
    ensures finite { FiniteNumbers }
    ensures inside { InsideExactlyWhen }
    ensures outside { OutsideExactlyWhen }
{}

/// Against agreement as the Rust has it, with an infinity where nothing was measured: what agrees, the numbers and the bits that are
/// stored are the same.
pub fn agreement_is_as_before()
    ensures infinite { UnmeasurableWasInfinite }
    ensures numbers { NumbersAsBefore }
    ensures agrees { AgreesAsBefore }
    ensures bits { BitsAsBefore }
    ensures stored { StoredReadBack }
{}

/// A fix is placed by the sine and cosine of the formula.
pub fn fixes_are_placed_by_the_formula()
    ensures { PlacedByFormula }
{}

/// A chi-square equal to its limit agrees, and the next f64 does not; a zero covariance agrees with nothing.
pub fn limits_of_agreement()
    ensures limit { Position1 }
    ensures zero_covariance { Position2 }
{}

/// A horizontal sigma is 0 where the mean variance is not above zero or a NaN.
pub fn sigma_of_no_variance_is_zero()
    ensures none { SigmaOfNoVariance }
    ensures nan { SigmaOfNan }
{}
