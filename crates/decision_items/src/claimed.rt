//! What a record claims.

ghost use Rattle.std.specs.Prelude.{◌≡◌, ◌<◌};
ghost use Rattle.decision_items.specs.Claimed as C;

use arithmetic::standing::Claimed;
use geometry::linalg::Covariance;
use record::Record;

// The k-th number of the covariance.
fn number(r: Record, k: usize) -> f64
    requires { k < 6 }
    ensures { result ≡ C.covariance_value r.entry.bytes.now k }
{
    floats::of_bits(r.covariance_bits(k))
}

/// How sure a record is.
pub fn covariance(r: Record) -> Covariance
    ensures { result ≡ C.covariance_of r.entry.bytes.now }
{
    Covariance {
        xx: number(r, 0),
        xy: number(r, 1),
        xz: number(r, 2),
        yy: number(r, 3),
        yz: number(r, 4),
        zz: number(r, 5),
    }
}

/// What a record claims.
pub fn claimed(r: Record) -> Claimed
    ensures { result ≡ C.claim_of r.entry.bytes.now }
{
    Claimed {
        lat: r.latitude(),
        lon: r.longitude(),
        height: r.height(),
        covariance: covariance(r),
    }
}
