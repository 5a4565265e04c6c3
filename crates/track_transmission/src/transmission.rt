//! A transmission of a track as a value, read from its bytes and written back.

ghost use Rattle.std.specs.Prelude.{◌≡◌, map, ◌≤◌, length};
ghost use Rattle.tables.specs.Places.{table_of};
ghost use Rattle.track_transmission.specs.Layout as L;
ghost use Rattle.track_transmission.specs.Bytes as B;
ghost use Rattle.track_transmission.specs.Values.{nothing_held};

use crate::block::Block;
use crate::fix::{HeldFix, put_fix};
use crate::layout::{FIXES_AT, MAX_REFUSED, MAX_STANDING, REFUSED_AT, TRANSMISSION_SIZE};
use crate::refused::{HeldRefusal, RefusedFix};
use arrayvec::ArrayVec;
use fixes::Fix;
use std::marker::Model;

/// The fixes that a track holds of one transmission.
#[derive(Drop)]
pub struct Transmission<'a> {
    /// Those that stand, the best first.
    pub fixes: ArrayVec<Fix<'a>, MAX_STANDING>,
    /// The refused.
    pub refused: ArrayVec<RefusedFix<'a>, MAX_REFUSED>,
}

impl<'a> Model for Transmission<'a> {
    ghost use Rattle.track_transmission.specs.Held.{HeldTransmission};

    ghost Value = { HeldTransmission };

    ghost view = { λ t. record { fixes = t.fixes.items; refused = t.refused.items } };
}

// Writes a table of fixes.
fn write_fixes(out: &mut [u8], fixes: &ArrayVec<Fix<'_>, MAX_STANDING>)
    requires { length out.old ≡ L.fixes_size }
    ensures { out.new ≡ table_of L.fix_size L.max_standing (map B.fix_bytes fixes.now.items) }
{
    octets::runs::clear(out);
    let mut at = 0;
    let all = fixes.as_slice();
    for fix in all {
        at = put_fix(out, at, fix);
    }
}

// Writes a table of refused fixes.
fn write_refused(out: &mut [u8], refused: &ArrayVec<RefusedFix<'_>, MAX_REFUSED>)
    requires { length out.old ≡ L.refused_table_size }
    ensures { out.new ≡ table_of L.refused_size L.max_refused (map B.refused_bytes refused.now.items) }
{
    octets::runs::clear(out);
    let mut at = 0;
    let all = refused.as_slice();
    for refusal in all {
        at = refusal.put(out, at);
    }
}

impl<'a> Transmission<'a> {
    /// One that holds nothing.
    pub fn new() -> Transmission<'a>
        ensures { result ≡ nothing_held }
    {
        Transmission {
            fixes: ArrayVec::new(),
            refused: ArrayVec::new(),
        }
    }

    /// Lets all that it holds go.
    pub fn clear(&mut self)
        ensures { self.new ≡ nothing_held }
    {
        self.fixes.clear();
        self.refused.clear();
    }

    /// The transmission that bytes hold, each fix with its identity.
    pub fn read(block: &Block<'a>) -> Transmission<'a>
        ensures { result ≡ block.now }
    {
        let mut held = Transmission::new();
        let standing = block.fix_places();
        for fix in standing {
            held.fixes.push(HeldFix::read(fix).identified());
        }
        let refused = block.refused_places();
        for refusal in refused {
            held.refused.push(HeldRefusal::read(refusal).identified());
        }
        held
    }

    /// Writes its bytes.
    pub fn write(&self, b: &mut [u8; TRANSMISSION_SIZE])
        ensures { b.new ≡ B.transmission_bytes self.now }
    {
        let (counts, tables) = b.split_at_mut(FIXES_AT);
        let (fixes, refused) = tables.split_at_mut(REFUSED_AT - FIXES_AT);
        counts[0] = self.fixes.len() as u8;
        counts[1] = self.refused.len() as u8;
        write_fixes(fixes, &self.fixes);
        write_refused(refused, &self.refused);
    }
}
