//! What a fix claims, and how another stands to it.

use geometry::geodesy::{Basis, Vec3};
use geometry::linalg::Covariance;

/// What a fix claims: 1e-7 degree, millimetres above the ellipsoid where it states a height, and how sure.
#[derive(Clone, Copy)]
pub struct Claimed {
    pub lat: i32,
    pub lon: i32,
    pub height: Option<i32>,
    pub covariance: Covariance,
}

/// What depends on one fix alone, whether it is the smaller of two or the larger: its position, its directions, and whether it has a height.
/// What only a smaller one is compared by, the factor of its covariance, stands apart.
#[derive(Clone, Copy)]
pub struct Placed {
    pub ecef: Vec3,
    pub basis: Basis,
    pub has_height: bool,
}

/// The squared length of a difference under the smaller fix's covariance, and the most that agrees.
#[derive(Clone, Copy)]
pub struct Measure {
    pub chi2: f64,
    pub limit: f64,
}

/// How a larger fix stands to a smaller one: inside the limit or outside it, or there is no number, since the smaller one's
/// covariance has no Cholesky factor or the sum is not finite.
#[derive(Clone, Copy)]
pub enum Agreement {
    Inside(Measure),
    Outside(Measure),
    Unmeasurable,
}

/// The chi-square of two fixes, where there is one.
#[derive(Clone, Copy)]
pub enum ChiSquare {
    Measured(f64),
    Unmeasured,
}

/// The most that a chi-square may be and agree: three degrees of freedom at 0.999, and two where either fix has no height.
pub const AGREE_CHI2: f64 = 16.266;

pub const AGREE_CHI2_2D: f64 = 13.81551;
