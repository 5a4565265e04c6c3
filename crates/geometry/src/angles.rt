//! The sine and the cosine of an angle in 1e-7 degree.

ghost use Rattle.std.specs.Prelude.{◌≡◌};
ghost use Rattle.geometry.specs.Angles.{quadrant_of, right_angles, rest_of, radians_of, sine_series, cosine_series, turn_of, sincos_of};

/// The number q of right angles that an angle is nearest to.
#[derive(Clone, Copy)]
pub enum Quadrant {
    MinusTwo = -2,
    MinusOne = -1,
    Zero = 0,
    One = 1,
    Two = 2,
}

/// The sine and the cosine of one angle.
#[derive(Clone, Copy)]
pub struct Turn {
    pub sin: f64,
    pub cos: f64,
}

/// The unit of an angle, in degrees, and a degree in radians.
pub const E7: f64 = 1e-7;

pub const DEGREE: f64 = 0.017453292519943295;

// The right angle nearest to v: five ranges, one for each number q of right angles from -2 to 2.
fn quadrant_of(v: i32) -> Quadrant
    ensures { result ≡ quadrant_of v }
{
    match v {
        ..-1_350_000_000 => Quadrant::MinusTwo,
        -1_350_000_000..-450_000_000 => Quadrant::MinusOne,
        -450_000_000..450_000_000 => Quadrant::Zero,
        450_000_000..1_350_000_000 => Quadrant::One,
        1_350_000_000.. => Quadrant::Two,
    }
}

fn right_angles(q: Quadrant) -> i32
    ensures { result ≡ right_angles q }
{
    q as i32
}

// What v has past that right angle.
fn rest(q: Quadrant, v: i32) -> i32
    requires { q ≡ quadrant_of v }
    ensures { result ≡ rest_of (right_angles q) v }
{
    v - 900_000_000 * right_angles(q)
}

fn radians(r: i32) -> f64
    ensures { result ≡ radians_of r }
{
    r as f64 * E7 * DEGREE
}

/// The sine of an angle in radians, by its series.
pub fn sine_series(u: f64) -> f64
    ensures { result ≡ sine_series u }
{
    let a = 1.0 / 355687428096000.0 * u + -(1.0 / 1307674368000.0);
    let b = a * u + 1.0 / 6227020800.0;
    let c = b * u + -(1.0 / 39916800.0);
    let d = c * u + 1.0 / 362880.0;
    let e = d * u + -(1.0 / 5040.0);
    let f = e * u + 1.0 / 120.0;
    let g = f * u + -(1.0 / 6.0);
    g * u + 1.0
}

/// The cosine of an angle in radians, by its series.
pub fn cosine_series(u: f64) -> f64
    ensures { result ≡ cosine_series u }
{
    let a = 1.0 / 20922789888000.0 * u + -(1.0 / 87178291200.0);
    let b = a * u + 1.0 / 479001600.0;
    let c = b * u + -(1.0 / 3628800.0);
    let d = c * u + 1.0 / 40320.0;
    let e = d * u + -(1.0 / 720.0);
    let f = e * u + 1.0 / 24.0;
    let g = f * u + -(1.0 / 2.0);
    g * u + 1.0
}

// The quadrant chooses which of the two is which, and its sign.
fn turned(q: Quadrant, s: f64, c: f64) -> Turn
    ensures { result ≡ turn_of q s c }
{
    match q {
        Quadrant::MinusTwo => Turn { sin: -s, cos: -c },
        Quadrant::MinusOne => Turn { sin: -c, cos: s },
        Quadrant::Zero => Turn { sin: s, cos: c },
        Quadrant::One => Turn { sin: c, cos: -s },
        Quadrant::Two => Turn { sin: -s, cos: -c },
    }
}

/// The sine and the cosine of an angle in 1e-7 degree.
pub fn sincos(v: i32) -> Turn
    ensures { result ≡ sincos_of v }
{
    let q = quadrant_of(v);
    let t = radians(rest(q, v));
    let u = t * t;
    turned(q, sine_series(u) * t, cosine_series(u))
}
