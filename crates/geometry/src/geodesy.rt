//! Positions on the WGS84 ellipsoid, in Earth-centred Earth-fixed metres, and the local east, north and up.

ghost use Rattle.std.specs.Prelude.{◌≡◌};
ghost use Rattle.geometry.specs.Geodesy.{to_ecef, enu_basis, sub_of, dot_of};

use crate::angles::Turn;

/// A vector of the earth's frame, or of east, north and up, in metres.
#[derive(Clone, Copy)]
pub struct Vec3 {
    pub x: f64,
    pub y: f64,
    pub z: f64,
}

/// Unit vectors.
#[derive(Clone, Copy)]
pub struct Basis {
    pub east: Vec3,
    pub north: Vec3,
    pub up: Vec3,
}

/// A place: latitude and longitude by their sines and cosines, and metres above the ellipsoid.
#[derive(Clone, Copy)]
pub struct Geodetic {
    pub lat: Turn,
    pub lon: Turn,
    pub height_m: f64,
}

/// The semi-major axis, the flattening, and the first eccentricity squared.
pub const A: f64 = 6378137.0;

pub const F: f64 = 1.0 / 298.257223563;

pub const E2: f64 = F * (2.0 - F);

/// A place in the earth's frame.
pub fn to_ecef(position: Geodetic) -> Vec3
    ensures { result ≡ to_ecef position }
{
    let lat = position.lat;
    let lon = position.lon;
    let n = A / floats::root(1.0 - E2 * lat.sin * lat.sin);
    Vec3 {
        x: (n + position.height_m) * lat.cos * lon.cos,
        y: (n + position.height_m) * lat.cos * lon.sin,
        z: (n * (1.0 - E2) + position.height_m) * lat.sin,
    }
}

/// East, north and up at a place.
pub fn enu_basis(position: Geodetic) -> Basis
    ensures { result ≡ enu_basis position }
{
    let lat = position.lat;
    let lon = position.lon;
    let east = Vec3 {
        x: -lon.sin,
        y: lon.cos,
        z: 0.0,
    };
    let north = Vec3 {
        x: -lat.sin * lon.cos,
        y: -lat.sin * lon.sin,
        z: lat.cos,
    };
    let up = Vec3 {
        x: lat.cos * lon.cos,
        y: lat.cos * lon.sin,
        z: lat.sin,
    };
    Basis { east, north, up }
}

/// The difference of two vectors.
pub fn sub(a: Vec3, b: Vec3) -> Vec3
    ensures { result ≡ sub_of a b }
{
    Vec3 {
        x: a.x - b.x,
        y: a.y - b.y,
        z: a.z - b.z,
    }
}

/// The product of two vectors.
pub fn dot(a: Vec3, b: Vec3) -> f64
    ensures { result ≡ dot_of a b }
{
    a.x * b.x + a.y * b.y + a.z * b.z
}
