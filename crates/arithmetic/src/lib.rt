//! Whether two fixes of one transmission agree: geodesy, the Cholesky factor of a covariance and a solve with it, in f64, each
//! operation in one fixed order.
#![tactic(auto)]

ghost use Rattle.std.specs.Prelude.{◌≡◌};
ghost use Rattle.arithmetic.specs.Agree.{agreement_of, agrees_of, chi_square_in};
ghost use Rattle.arithmetic.specs.Answers.{sigma_of};
ghost use Rattle.arithmetic.specs.Bits.{stored_bits, stored_chi_square};
ghost use Rattle.arithmetic.specs.declared.standing.Claimed.{Claimed as Claim};
ghost use Rattle.arithmetic.specs.Stages.{placed_of, compared_of};
ghost use Rattle.geometry.specs.Factors.{factor_of};

pub mod claims;
mod stages;
pub mod standing;

use geometry::linalg::{Covariance, Factor};
use standing::{Agreement, ChiSquare, Claimed, Placed};

/// How a larger fix stands to a smaller one.
pub fn agreement(smaller: Claimed, larger: Claimed) -> Agreement
    ensures { result ≡ agreement_of smaller larger }
{
    // The larger fix's place waits for nothing of the smaller's factor, whose roots wait for one another: it is worked out first.
    let to = geometry::geodesy::to_ecef(stages::geodetic(larger));
    let from = place(smaller);
    let factor = geometry::linalg::cholesky(smaller.covariance);
    stages::judged(&from, &factor, to, larger.height.is_some())
}

/// Whether that is agreement: what is unmeasurable disagrees.
pub fn agrees(a: Agreement) -> bool
    ensures { result ≡ agrees_of a }
{
    match a {
        Agreement::Inside(_) => true,
        Agreement::Outside(_) => false,
        Agreement::Unmeasurable => false,
    }
}

/// The chi-square of an agreement, where there is one.
pub fn chi_square(a: Agreement) -> ChiSquare
    ensures { result ≡ chi_square_in a }
{
    match a {
        Agreement::Inside(m) => ChiSquare::Measured(m.chi2),
        Agreement::Outside(m) => ChiSquare::Measured(m.chi2),
        Agreement::Unmeasurable => ChiSquare::Unmeasured,
    }
}

/// A chi-square in 64 bits: the infinity stands where there is no number.
pub fn stored_bits(c: ChiSquare) -> u64
    ensures { result ≡ stored_bits c }
{
    match c {
        ChiSquare::Measured(x) => floats::to_bits(x),
        ChiSquare::Unmeasured => floats::INFINITY,
    }
}

/// What any stored bits say.
pub fn stored_chi_square(bits: u64) -> ChiSquare
    ensures { result ≡ stored_chi_square bits }
{
    if bits == floats::INFINITY {
        return ChiSquare::Unmeasured;
    }
    ChiSquare::Measured(floats::of_bits(bits))
}

/// The horizontal deviation of a covariance, in metres: the root of the mean of its variances east and north, 0 where that is a NaN or below 0.
pub fn horizontal_sigma_m(c: Covariance) -> f64
    ensures { result ≡ sigma_of c }
{
    let mean = 0.5 * (c.xx + c.yy);
    if mean > 0.0 {
        return floats::root(mean);
    }
    floats::root(0.0)
}

/// What a fix's agreement with any other needs of it alone, but for the factor of the smaller one's covariance.
#[inline(always)]
pub fn place(claim: Claimed) -> Placed
    ensures { result ≡ placed_of claim }
{
    let position = stages::geodetic(claim);
    Placed {
        ecef: geometry::geodesy::to_ecef(position),
        basis: geometry::geodesy::enu_basis(position),
        has_height: claim.height.is_some(),
    }
}

/// The agreement of two placed fixes, of which the smaller one's covariance has this factor or none, with no root and no sine or cosine: that
/// of the claims that they were placed by.
pub fn compare(smaller: &Placed, factor: &Option<Factor>, larger: &Placed) -> Agreement
    ensures compared { result ≡ compared_of smaller.now factor.now larger.now }
    ensures agreement { (a b : Claim) → smaller.now ≡ placed_of a → factor.now ≡ factor_of a.covariance → larger.now ≡ placed_of b → result ≡ agreement_of a b }
{
    stages::judged(smaller, factor, larger.ecef, larger.has_height)
}
