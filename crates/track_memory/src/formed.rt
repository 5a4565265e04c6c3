//! Which bytes are a track.

ghost use Rattle.std.specs.Prelude.{◌≡◌, ◌*◌, ◌≤◌, length};
ghost use Rattle.std.specs.List.{list_all};
ghost use Rattle.signed_records.specs.Signed.{place_size};
ghost use Rattle.signed_records.specs.Begins.{begin_formed};
ghost use Rattle.track_transmission.specs.Layout.{transmission_size};
ghost use Rattle.track_transmission.specs.Bytes.{filled_by, transmission_formed};
ghost use Rattle.track_memory.specs.Memory.{well_formed};

use crate::layout;
use engines::Signers;
use models::layout::MAX_SUMMARIES;
use models::summaries::Summaries;
use tables::table::places_of;
use track_arrange::MAX_TRANSMISSIONS;
use track_transmission::layout::{
    FIX_SIZE, FIXES_AT, MAX_REFUSED, MAX_STANDING, REFUSED_AT, REFUSED_SIZE, TRANSMISSION_SIZE,
};

// Whether t has n places of w bytes each that begin with a record and signers, none of them
// convicted, and zeros behind them.
fn filled(t: &[u8], n: usize, w: usize, convicted: Signers) -> bool
    requires w_in_bounds { n * w ≤ length t.now }
    requires place_size_le_w { place_size ≤ w }
    ensures { result ≡ filled_by (begin_formed convicted) w n t.now }
{
    if !signed_records::formed::places_formed(t, n, w, convicted) {
        return false;
    }
    let used = n * w;
    octets::runs::is_zero(&t[used..])
}

// Whether the bytes hold a transmission.
#[tactic(auto, unfolding(track_transmission::specs::Bytes::transmission_formed))]
fn transmission_formed(b: &[u8; TRANSMISSION_SIZE], convicted: Signers) -> bool
    ensures { result ≡ transmission_formed (begin_formed convicted) b.now }
{
    let n = track_transmission::fix_count(b) as usize;
    let k = track_transmission::refused_count(b) as usize;
    1 <= n
        && n <= MAX_STANDING
        && k <= MAX_REFUSED
        && filled(&b[FIXES_AT..REFUSED_AT], n, FIX_SIZE, convicted)
        && filled(b.split_at(REFUSED_AT).1, k, REFUSED_SIZE, convicted)
}

// Whether each of these holds one.
fn transmissions_formed(blocks: &[[u8; TRANSMISSION_SIZE]], convicted: Signers) -> bool
    ensures { result ≡ list_all (transmission_formed (begin_formed convicted)) blocks.now }
{
    blocks.iter().all(|b| transmission_formed(b, convicted))
}

// Whether a table holds n transmissions, and zeros behind them.
fn transmission_table_formed(t: &[u8], n: usize, convicted: Signers) -> bool
    requires { n * transmission_size ≤ length t.now }
    ensures { result ≡ filled_by (transmission_formed (begin_formed convicted)) transmission_size n t.now }
{
    transmissions_formed(places_of::<TRANSMISSION_SIZE>(t, n), convicted)
        && octets::runs::is_zero(t.split_at(n * TRANSMISSION_SIZE).1)
}

// Whether bytes are a track.
pub(crate) fn well_formed(m: &[u8; layout::TRACK_SIZE]) -> bool
    ensures { result ≡ well_formed m.now }
{
    let convicted = Signers::from_mask(octets::words::u32_at(m, layout::CONVICTED_AT));
    let n = octets::words::u16_at(m, layout::SUMMARY_COUNT_AT) as usize;
    if MAX_SUMMARIES < n {
        return false;
    }
    let k = m[layout::TRANSMISSION_COUNT_AT] as usize;
    if MAX_TRANSMISSIONS < k {
        return false;
    }
    if m[layout::ZERO_AT] != 0 {
        return false;
    }
    let summaries = Summaries {
        table: &m[layout::SUMMARIES_AT..layout::TRANSMISSIONS_AT],
        count: n,
    };
    if !models::formed::summary_table_formed::<{ layout::PAIR_SIZE }>(summaries, convicted) {
        return false;
    }
    transmission_table_formed(m.split_at(layout::TRANSMISSIONS_AT).1, k, convicted)
}
