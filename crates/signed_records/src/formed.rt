//! Which bytes are records with signers.

ghost use Rattle.std.specs.Prelude.{◌≡◌, ◌&&◌, ◌*◌, ◌≤◌, true, not, nat_eq, bit_and, length, take};
ghost use Rattle.std.specs.List.{list_all};
ghost use Rattle.octets.specs.Order.{is_before};
ghost use Rattle.record.specs.Layout.{record_size};
ghost use Rattle.record.specs.Formed.{well_formed};
ghost use Rattle.tables.specs.Places.{places, ascending, is_table};
ghost use Rattle.signed_records.specs.Signed.{place_size, signers_in, place_formed};
ghost use Rattle.signed_records.specs.Begins.{begin_formed};

use crate::PLACE_SIZE;
use engines::Signers;
use octets::runs::is_zero;
use record::layout::{RECORD_SIZE, SPEC_AT};
use tables::table::places_of;

// Whether a place has signers, none of them convicted.
fn is_signed(p: &[u8], convicted: Signers) -> bool
    requires { length p.now ≡ place_size }
    ensures { result ≡ (not (nat_eq (signers_in p.now) 0) && nat_eq (bit_and (signers_in p.now) convicted) 0) }
{
    let signers = Signers::from_mask(octets::words::u32_at(p, RECORD_SIZE));
    !signers.is_empty() & signers.is_disjoint(convicted)
}

// Whether a place holds a record with signers, none of them convicted.
fn place_formed(p: &[u8], convicted: Signers) -> bool
    requires { length p.now ≡ place_size }
    ensures { result ≡ place_formed convicted p.now }
{
    record::formed::well_formed(&p[..RECORD_SIZE]) && is_signed(p, convicted)
}

// Whether bytes are a record that comes after another. Where those up to the spec are alike they are one too, since what follows may be
// anything, and are not tested.
#[inline(always)]
fn follows(last: &[u8], key: &[u8]) -> bool
    requires formed { well_formed last.now ≡ true }
    requires sizes { length last.now ≡ length key.now }
    ensures { result ≡ (is_before last.now key.now && well_formed key.now) }
{
    let alike = octets::order::alike(last, key);
    octets::order::precedes_behind(last, key, alike)
        && (SPEC_AT <= alike || record::formed::well_formed(key))
}

// Whether a place holds a record with signers, none of them convicted, that comes after the record of another.
fn place_follows(last: &[u8; PLACE_SIZE], place: &[u8; PLACE_SIZE], convicted: Signers) -> bool
    requires { well_formed (take record_size last.now) ≡ true }
    ensures { result ≡ (is_before (take record_size last.now) (take record_size place.now) && place_formed convicted place.now) }
{
    follows(&last[..RECORD_SIZE], &place[..RECORD_SIZE]) & is_signed(place, convicted)
}

// Whether the records of these places ascend strictly, and each place holds a record with signers, none of them convicted.
fn ascending_formed(places: &[[u8; PLACE_SIZE]], convicted: Signers) -> bool
    ensures { result ≡ (ascending record_size places.now && list_all (place_formed convicted) places.now) }
{
    let Some((first, rest)) = places.split_first() else {
        return true;
    };
    if !place_formed(first, convicted) {
        return false;
    }
    let mut last = first;
    for place in rest {
        if !place_follows(last, place, convicted) {
            return false;
        }
        last = place;
    }
    true
}

/// Whether t holds a table of n records with signers, none of them convicted.
pub fn signed_table_formed(t: &[u8], n: usize, convicted: Signers) -> bool
    requires { n * place_size ≤ length t.now }
    ensures { result ≡ (is_table record_size place_size n t.now && list_all (place_formed convicted) (places place_size n t.now)) }
{
    ascending_formed(places_of::<PLACE_SIZE>(t, n), convicted) && is_zero(&t[n * PLACE_SIZE..])
}

/// Whether each of the first n places, of w bytes each, begins with such a record.
pub fn places_formed(t: &[u8], n: usize, w: usize, convicted: Signers) -> bool
    requires w_in_bounds { n * w ≤ length t.now }
    requires place_size_le_w { place_size ≤ w }
    ensures { result ≡ list_all (begin_formed convicted) (places w n t.now) }
{
    for i in 0..n {
        let at = i * w;
        if !place_formed(&t[at..at + PLACE_SIZE], convicted) {
            return false;
        }
    }
    true
}
