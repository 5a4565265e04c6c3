//! Positions and covariances in f64, each operation in one fixed order: the sine and the cosine of an angle, places on the ellipsoid, and
//! the Cholesky factor of a covariance with the squared length under it. Nothing here asks anything of its caller.
#![tactic(auto)]

pub mod angles;
pub mod claims;
pub mod geodesy;
pub mod linalg;
