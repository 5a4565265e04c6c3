//! One transmission of a track, in 3,078 lent bytes: the fixes that stand, the best first, and the refused. It is read as a value and written
//! back; what is asked of all transmissions of a track is read where it lies.
#![tactic(auto)]

ghost use Rattle.std.specs.Prelude.{◌≡◌, ◌+◌, ◌<◌};
ghost use Rattle.std.specs.Int.Bits.{bit_or};
ghost use Rattle.octets.specs.Words.{word_at};
ghost use Rattle.octets.specs.Writes.{put_word};
ghost use Rattle.track_transmission.specs.Layout as L;
ghost use Rattle.track_transmission.specs.Bytes as B;
ghost use Rattle.track_transmission.specs.Parts as P;

use engines::Signers;
use layout::TRANSMISSION_SIZE;

pub mod block;
pub mod fix;
pub mod layout;
pub mod refused;
pub mod transmission;

/// How many fixes stand.
pub fn fix_count(b: &[u8; TRANSMISSION_SIZE]) -> u8
    ensures { result ≡ B.fix_count b.now }
{
    b[layout::FIX_COUNT_AT]
}

/// How many are refused.
pub fn refused_count(b: &[u8; TRANSMISSION_SIZE]) -> u8
    ensures { result ≡ B.refused_count b.now }
{
    b[layout::REFUSED_COUNT_AT]
}

// Where the held fix k lies: those that stand come first, then the refused.
fn place_of(b: &[u8; TRANSMISSION_SIZE], k: u8) -> usize
    ensures { result ≡ P.held_place b.now k }
{
    let n = fix_count(b);
    if k < n {
        return layout::FIXES_AT + k as usize * layout::FIX_SIZE;
    }
    layout::REFUSED_AT + (k - n) as usize * layout::REFUSED_SIZE
}

/// Adds signers to the held fix k.
pub fn sign(b: &mut [u8; TRANSMISSION_SIZE], k: u8, engines: Signers)
    requires sound { P.Sound b.old }
    requires k_bound { k < P.held_count b.old }
    ensures { b.new ≡ put_word 4 (P.held_place b.old k + L.signers_at) (bit_or (word_at 4 (P.held_place b.old k + L.signers_at) b.old) engines) b.old }
{
    let at = place_of(b, k) + layout::SIGNERS_AT;
    let signers = Signers::from_mask(octets::words::u32_at(b, at));
    octets::words::put_u32(b, at, signers.union(engines).mask());
}
