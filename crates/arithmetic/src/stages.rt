//! What depends on one fix alone, and the comparison of two placed fixes.

ghost use Rattle.std.specs.Prelude.{◌≡◌, true, false, Some};
ghost use Rattle.std.specs.Float.Ieee.Scale.{finite};
ghost use Rattle.arithmetic.specs.Agree.{metres_of, geodetic_of, finitely, agreement_under};
ghost use Rattle.geometry.specs.declared.linalg.Factor.TheVariants.{Flat, Full};
ghost use Rattle.arithmetic.specs.Stages.{enu_of, with_limit, measured_of, judged_of};

use crate::standing::{Agreement, Claimed, Measure, Placed};
use geometry::geodesy::{Basis, Geodetic, Vec3};
use geometry::linalg::{Factor, ThirdRow, TwoRows};

// A height that is absent counts as 0.
fn metres(height: Option<i32>) -> f64
    ensures { result ≡ metres_of height }
{
    height.unwrap_or(0) as f64 / 1000.0
}

/// Where a fix claims to be.
pub fn geodetic(claim: Claimed) -> Geodetic
    ensures { result ≡ geodetic_of claim }
{
    let lat = geometry::angles::sincos(claim.lat);
    let lon = geometry::angles::sincos(claim.lon);
    let height_m = metres(claim.height);
    Geodetic { lat, lon, height_m }
}

// The difference d in east, north and up.
fn enu(basis: Basis, d: Vec3) -> Vec3
    ensures { result ≡ enu_of basis d }
{
    let x = geometry::geodesy::dot(basis.east, d);
    let y = geometry::geodesy::dot(basis.north, d);
    let z = geometry::geodesy::dot(basis.up, d);
    Vec3 { x, y, z }
}

fn is_finite(x: f64) -> bool
    ensures { result ≡ finite x }
{
    if !(x < 1.0 / 0.0) {
        return false;
    }
    x > -(1.0 / 0.0)
}

// The outcome of a sum under a limit. A sum that is not finite measures nothing.
fn outcome(chi2: f64, limit: f64) -> Agreement
    ensures { result ≡ agreement_under limit (finitely chi2) }
{
    if !is_finite(chi2) {
        return Agreement::Unmeasurable;
    }
    let m = Measure { chi2, limit };
    if chi2 <= limit {
        return Agreement::Inside(m);
    }
    Agreement::Outside(m)
}

// With both heights, and without.
fn of_three(chi2: f64) -> Agreement
    ensures { result ≡ with_limit true chi2 }
{
    outcome(chi2, crate::standing::AGREE_CHI2)
}

fn of_two(chi2: f64) -> Agreement
    ensures { result ≡ with_limit false chi2 }
{
    outcome(chi2, crate::standing::AGREE_CHI2_2D)
}

// By the factor for three rows where both fixes have a height, else by that for two; without it nothing is measured.
fn measured_flat(three: bool, rows: TwoRows, v: Vec3) -> Agreement
    ensures { result ≡ measured_of three (Some (Flat rows)) v }
{
    if three {
        return Agreement::Unmeasurable;
    }
    of_two(geometry::linalg::flat_length(rows, v))
}

fn measured_full(three: bool, rows: TwoRows, third: ThirdRow, v: Vec3) -> Agreement
    ensures { result ≡ measured_of three (Some (Full rows third)) v }
{
    if three {
        return of_three(geometry::linalg::full_length(rows, third, v));
    }
    of_two(geometry::linalg::flat_length(rows, v))
}

fn measured(three: bool, f: Factor, v: Vec3) -> Agreement
    ensures { result ≡ measured_of three (Some f) v }
{
    match f {
        Factor::Flat(rows) => measured_flat(three, rows, v),
        Factor::Full(rows, third) => measured_full(three, rows, third, v),
    }
}

/// How a larger fix at `to`, with a height or without, stands to a smaller one with this factor.
pub fn judged(from: &Placed, factor: &Option<Factor>, to: Vec3, high: bool) -> Agreement
    ensures { result ≡ judged_of from.now factor.now to high }
{
    let Some(factor) = *factor else {
        return Agreement::Unmeasurable;
    };
    let d = geometry::geodesy::sub(to, from.ecef);
    let v = enu(from.basis, d);
    measured(from.has_height & high, factor, v)
}
