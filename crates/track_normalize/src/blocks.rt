//! What becomes of the bytes of a transmission that is decided again, or that a further fix is tied to: its fixes are decided as values, and
//! written once.

ghost use Rattle.std.specs.Prelude.{◌≡◌, ◌+◌, IsTrue, length};
ghost use Rattle.track_transmission.specs.Bytes.{transmission_in, transmission_bytes};
ghost use Rattle.track_transmission.specs.Parts.{Sound};
ghost use Rattle.track_normalize.specs.Deciding.{normalized_distinct};
ghost use Rattle.track_normalize.specs.Joining.{with_fix};
ghost use Rattle.track_normalize.specs.Did.{joined_as};
ghost use Rattle.track_normalize.specs.Taking.{taken_in, told_of};

use crate::deciding::decide;
use crate::gathering::Gathered;
use crate::{Joined, joining};
use fixes::Fix;
use track_transmission::block::Block;
use track_transmission::layout::TRANSMISSION_SIZE;
use track_transmission::transmission::Transmission;

/// Decides the fixes of a transmission that are left, which were gathered, and writes what is kept. Tells whether none was forgotten.
pub fn write_left(left: &Gathered<'_>, b: &mut [u8; TRANSMISSION_SIZE]) -> bool
    ensures left { b.new ≡ transmission_bytes (normalized_distinct left.now.items) }
    ensures all { IsTrue result → let t = normalized_distinct left.now.items in length t.fixes + length t.refused ≡ length left.now.items }
{
    let mut kept = Transmission::new();
    decide(left, &mut kept);
    kept.write(b);
    kept.fixes.len() + kept.refused.len() == left.len()
}

// Decides the fixes of a transmission and a further one, writes what is kept, and tells what the fix did.
fn write_joined<'a>(
    held: &Transmission<'a>,
    fix: &Fix<'a>,
    b: &mut [u8; TRANSMISSION_SIZE],
) -> Joined
    ensures left { b.new ≡ transmission_bytes (with_fix fix.now held.now) }
    ensures told { result ≡ joined_as fix.now held.now (with_fix fix.now held.now) }
{
    let mut kept = Transmission::new();
    let told = joining::join(held, fix, &mut kept);
    kept.write(b);
    told
}

/// Takes a further fix into a transmission, in its bytes: where its identity is held, the first fix that has it gains the signers, and
/// nothing is told; otherwise all are decided again.
pub fn take_in(b: &mut [u8; TRANSMISSION_SIZE], fix: &Fix<'_>) -> Option<Joined>
    requires { Sound b.old }
    ensures left { b.new ≡ transmission_bytes (taken_in fix.now (transmission_in b.old)) }
    ensures told { result ≡ told_of fix.now (transmission_in b.old) }
{
    let was = *b;
    let mut held = Transmission::read(&Block::of(&was));
    if joining::sign(&mut held, fix) {
        held.write(b);
        return None;
    }
    Some(write_joined(&held, fix, b))
}
