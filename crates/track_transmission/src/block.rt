//! A transmission of a track where it lies: bytes that are known to hold one.

ghost use Rattle.std.specs.Prelude.{◌≡◌, true, Some, map, ◌<◌, ◌≤◌, ◌+◌, length, slice_get};
ghost use Rattle.std.specs.List.{list_all, list_any};
ghost use Rattle.record.specs.Relations.{tied};
ghost use Rattle.fixes.specs.Items.{fix_at};
ghost use Rattle.track_transmission.specs.Layout as L;
ghost use Rattle.track_transmission.specs.Held.{held_in};
ghost use Rattle.track_transmission.specs.Bytes as B;
ghost use Rattle.track_transmission.specs.Parts.{Sound, record_formed};

use crate::fix::HeldFix;
use crate::layout::{FIX_SIZE, FIXES_AT, REFUSED_AT, REFUSED_SIZE, TRANSMISSION_SIZE};
use crate::refused::HeldRefusal;
use record::Record;
use std::marker::Model;

/// The lent bytes of a transmission. Whoever has them asks for nothing more: the counts are in range and the records are formed.
#[derive(Drop)]
pub struct Block<'a> {
    bytes: &'a [u8; TRANSMISSION_SIZE],
}

impl<'a> Model for Block<'a> {
    ghost use Rattle.track_transmission.specs.Held.{HeldTransmission};
    ghost use Rattle.track_transmission.specs.Bytes.{transmission_in};
    ghost use Rattle.track_transmission.specs.Parts.{Sound};

    ghost Value = { HeldTransmission };

    ghost view = { λ b. transmission_in b.bytes.now };

    ghost invariant = { λ b. Sound b.bytes.now };
}

// The bytes of a transmission without fixes.
static BLANK: [u8; TRANSMISSION_SIZE] = [0; TRANSMISSION_SIZE];

impl Default for Block<'_> {
    /// What an unused place of a list holds.
    fn default() -> Self {
        Block::of(&BLANK)
    }
}

impl<'a> Block<'a> {
    /// The transmission that these bytes are known to hold.
    pub fn of(bytes: &'a [u8; TRANSMISSION_SIZE]) -> Block<'a>
        requires { Sound bytes.now }
        ensures { result ≡ B.transmission_in bytes.now }
    {
        Block { bytes }
    }

    /// The bytes of each fix that stands.
    pub fn fix_places(&self) -> &'a [[u8; FIX_SIZE]]
        ensures values { map B.fix_in result.now ≡ self.now.fixes }
        ensures few { length result.now ≤ L.max_standing }
        ensures formed { list_all record_formed result.now ≡ true }
    {
        let bytes = self.bytes;
        let count = crate::fix_count(bytes) as usize;
        tables::table::places_of::<FIX_SIZE>(&bytes[FIXES_AT..REFUSED_AT], count)
    }

    /// The bytes of each refused fix.
    pub fn refused_places(&self) -> &'a [[u8; REFUSED_SIZE]]
        ensures values { map B.refused_in result.now ≡ self.now.refused }
        ensures few { length result.now ≤ L.max_refused }
        ensures formed { list_all record_formed result.now ≡ true }
    {
        let bytes = self.bytes;
        let count = crate::refused_count(bytes) as usize;
        tables::table::places_of::<REFUSED_SIZE>(bytes.split_at(REFUSED_AT).1, count)
    }

    /// How many fixes stand.
    pub fn fix_count(&self) -> u8
        ensures { result ≡ length self.now.fixes }
    {
        crate::fix_count(self.bytes)
    }

    /// How many are refused.
    pub fn refused_count(&self) -> u8
        ensures { result ≡ length self.now.refused }
    {
        crate::refused_count(self.bytes)
    }

    /// The fix k of those that stand.
    pub fn fix(&self, k: u8) -> HeldFix<'a>
        requires { k < length self.now.fixes }
        ensures { slice_get self.now.fixes k ≡ Some result }
    {
        HeldFix::read(&self.fix_places()[k as usize])
    }

    /// The refused fix k.
    pub fn refusal(&self, k: u8) -> HeldRefusal<'a>
        requires { k < length self.now.refused }
        ensures { slice_get self.now.refused k ≡ Some result }
    {
        HeldRefusal::read(&self.refused_places()[k as usize])
    }

    /// How many fixes are held: those that stand, and the refused.
    pub fn held_count(&self) -> u8
        ensures count { result ≡ length (held_in self.now) }
        ensures few { result ≤ L.max_standing + L.max_refused }
    {
        crate::fix_count(self.bytes) + crate::refused_count(self.bytes)
    }

    /// The held fix k: those that stand come first, then the refused.
    pub fn held_fix(&self, k: u8) -> HeldFix<'a>
        requires { k < length (held_in self.now) }
        ensures { result ≡ fix_at (held_in self.now) k }
    {
        let standing = self.fix_places();
        let k = k as usize;
        if k < standing.len() {
            return HeldFix::read(&standing[k]);
        }
        HeldFix::read(&self.refused_places()[k - standing.len()])
    }

    /// The fix that is kept, where one stands.
    pub fn kept(&self) -> Option<HeldFix<'a>>
        ensures { result ≡ slice_get self.now.fixes 0 }
    {
        match self.fix_places() {
            [first, ..] => Some(HeldFix::read(first)),
            [] => None,
        }
    }

    /// Whether some fix that is held is tied to a record.
    pub fn ties(&self, r: Record) -> bool
        ensures { result ≡ list_any (λ f. tied f.record_bytes r.entry.bytes.now) (held_in self.now) }
    {
        let n = self.held_count();
        for k in 0..n {
            if self.held_fix(k).report.is_tied_to(r) {
                return true;
            }
        }
        false
    }
}
