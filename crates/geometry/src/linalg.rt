//! The Cholesky factor of a covariance, for two rows and for three, and the squared length of a difference under it.

ghost use Rattle.std.specs.Prelude.{◌≡◌};
ghost use Rattle.geometry.specs.Factors.{factor_of, flat_length, full_length};

use crate::geodesy::Vec3;

/// A fix's covariance, square metres, in east (x), north (y) and up (z).
#[derive(Clone, Copy)]
pub struct Covariance {
    pub xx: f64,
    pub xy: f64,
    pub xz: f64,
    pub yy: f64,
    pub yz: f64,
    pub zz: f64,
}

/// The factor for two rows, and the row that the factor for three has below them: the lower triangle.
#[derive(Clone, Copy)]
pub struct TwoRows {
    pub l00: f64,
    pub l10: f64,
    pub l11: f64,
}

/// The row of the factor for three that the factor for two has not.
#[derive(Clone, Copy)]
pub struct ThirdRow {
    pub l20: f64,
    pub l21: f64,
    pub l22: f64,
}

/// A covariance's factor: one for two rows alone, or one for three, whose first two rows are that for two.
#[derive(Clone, Copy)]
pub enum Factor {
    Flat(TwoRows),
    Full(TwoRows, ThirdRow),
}

/// The factor of a covariance, where it has one. A diagonal that is a NaN is not above zero either.
pub fn cholesky(c: Covariance) -> Option<Factor>
    ensures { result ≡ factor_of c }
{
    if !(c.xx > 0.0) {
        return None;
    }
    let l00 = floats::root(c.xx);
    let l10 = c.xy / l00;
    let l20 = c.xz / l00;
    let d1 = c.yy - l10 * l10;
    if !(d1 > 0.0) {
        return None;
    }
    let l11 = floats::root(d1);
    let l21 = (c.yz - l20 * l10) / l11;
    let d2 = c.zz - l20 * l20 - l21 * l21;
    if !(d2 > 0.0) {
        return Some(Factor::Flat(TwoRows { l00, l10, l11 }));
    }
    let l22 = floats::root(d2);
    Some(Factor::Full(TwoRows { l00, l10, l11 }, ThirdRow { l20, l21, l22 }))
}

/// Forward, backward and the sum of products, in east and north.
pub fn flat_length(f: TwoRows, v: Vec3) -> f64
    ensures { result ≡ flat_length f v }
{
    let y0 = v.x / f.l00;
    let y1 = (v.y - f.l10 * y0) / f.l11;
    let x1 = y1 / f.l11;
    let x0 = (y0 - f.l10 * x1) / f.l00;
    v.x * x0 + v.y * x1
}

/// The same in east, north and up.
pub fn full_length(f: TwoRows, g: ThirdRow, v: Vec3) -> f64
    ensures { result ≡ full_length f g v }
{
    let y0 = v.x / f.l00;
    let y1 = (v.y - f.l10 * y0) / f.l11;
    let y2 = (v.z - g.l20 * y0 - g.l21 * y1) / g.l22;
    let x2 = y2 / g.l22;
    let x1 = (y1 - g.l21 * x2) / f.l11;
    let x0 = (y0 - f.l10 * x1 - g.l20 * x2) / f.l00;
    v.x * x0 + v.y * x1 + v.z * x2
}
