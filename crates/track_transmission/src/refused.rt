//! A refused fix of a track, as it lies in the track's bytes, and with its identity.

ghost use Rattle.std.specs.Prelude.{◌≡◌, true, ◌+◌, ◌≤◌, length};
ghost use Rattle.octets.specs.Put.{Put};
ghost use Rattle.record.specs.Formed.{well_formed};
ghost use Rattle.track_transmission.specs.Layout.{refused_size};
ghost use Rattle.track_transmission.specs.Bytes.{record_in, refused_in, refused_bytes};
ghost use Rattle.track_transmission.specs.Values.{signed_refused};

use crate::fix::{HeldFix, hash_at, put_fix};
use crate::layout::{AGAINST_AT, CHI2_AT, REFUSED_SIZE};
use engines::Signers;
use fixes::Fix;
use models::hashes::Identity;
use std::marker::Model;

/// A refused fix as a track holds it, and what it disagrees with.
#[derive(Drop)]
pub struct HeldRefusal<'a> {
    pub fix: HeldFix<'a>,
    /// The identity that it is refused against.
    pub against: Identity,
    /// The bits of the chi-square between the two.
    pub chi2: u64,
}

impl<'a> Model for HeldRefusal<'a> {
    ghost use Rattle.track_transmission.specs.Held as H;

    ghost Value = { H.RefusedFix };

    ghost view = { λ x. record { fix = x.fix; against = x.against; chi2 = x.chi2 } };
}

impl<'a> HeldRefusal<'a> {
    /// The refused fix of these bytes.
    pub fn read(bytes: &'a [u8; REFUSED_SIZE]) -> HeldRefusal<'a>
        requires { well_formed (record_in bytes.now) ≡ true }
        ensures { result ≡ refused_in bytes.now }
    {
        HeldRefusal {
            fix: HeldFix::read(bytes),
            against: Identity(hash_at(bytes, AGAINST_AT)),
            chi2: octets::words::u64_at(bytes, CHI2_AT),
        }
    }

    /// The same refused fix, with its identity.
    pub fn identified(&self) -> RefusedFix<'a>
        ensures { result ≡ self.now }
    {
        let fix = &self.fix;
        RefusedFix {
            fix: fix.identified(),
            against: self.against,
            chi2: self.chi2,
        }
    }
}

/// A refused fix with its identity, and what it disagrees with.
#[derive(Default, Drop)]
pub struct RefusedFix<'a> {
    pub fix: Fix<'a>,
    /// The identity that it is refused against.
    pub against: Identity,
    /// The bits of the chi-square between the two.
    pub chi2: u64,
}

impl<'a> Model for RefusedFix<'a> {
    ghost use Rattle.track_transmission.specs.Held as H;

    ghost Value = { H.RefusedFix };

    ghost view = { λ x. record { fix = x.fix; against = x.against; chi2 = x.chi2 } };
}

impl<'a> RefusedFix<'a> {
    /// Adds engines to its signers.
    pub fn sign(&mut self, engines: Signers)
        ensures { self.new ≡ signed_refused engines self.old }
    {
        self.fix.sign(engines);
    }

    /// Writes its bytes, and answers where they end.
    pub fn put(&self, out: &mut [u8], at: usize) -> usize
        requires { at + refused_size ≤ length out.old }
        ensures { (result ≡ at + refused_size) × Put out.old at (refused_bytes self.now) result out.new }
    {
        let a = put_fix(out, at, &self.fix);
        let b = octets::runs::put_bytes(out, a, self.against.bytes());
        octets::words::put_u64(out, b, self.chi2);
        b + 8
    }
}
