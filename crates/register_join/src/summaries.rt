//! The summaries of a register, as places that are united.

ghost use Rattle.std.specs.Prelude.{◌≡◌, ◌≤◌, ◌+◌, ◌*◌, ◌++◌, length, take, drop};
ghost use Rattle.models.specs.Summary.{summary_size};
ghost use Rattle.register_join.specs.Join.{is_of_free};

use crate::walk::Kind;
use engines::{MAX_ENGINE, Signers};
use models::layout::{ENGINE_AT, SUMMARY_SIZE};
use octets::masks::has_u32;

/// The kind of place that is a summary, which is all key. What is left of one is 1 where its engine is not convicted.
pub struct Summaries;

/// Whether a summary's engine is not of a set.
pub fn is_of_free(place: &[u8; SUMMARY_SIZE], convicted: Signers) -> bool
    ensures { result ≡ is_of_free convicted place.now }
{
    let engine = place[ENGINE_AT] as u32;
    let convicted = convicted.mask();
    if MAX_ENGINE < engine {
        return true;
    }
    !has_u32(convicted, engine)
}

/// Writes a summary as place n of a table.
pub fn put_summary(t: &mut [u8], n: usize, place: &[u8; SUMMARY_SIZE])
    requires { n * summary_size + summary_size ≤ length t.old }
    ensures size { length place.now ≡ summary_size }
    ensures bytes { t.new ≡ take (n * summary_size) t.old ++ (place.now ++ drop (n * summary_size + summary_size) t.old) }
{
    let at = n * SUMMARY_SIZE;
    t[at..at + SUMMARY_SIZE].copy_from_slice(place);
}

impl Kind<SUMMARY_SIZE, SUMMARY_SIZE> for Summaries {
    ghost use Rattle.register_join.specs.Join.{is_of_free};
    ghost use Rattle.register_join.specs.Merged.{nothing_more, no_values, stays_as_bit, placed_alone};

    ghost merge = { nothing_more };

    ghost test = { is_of_free };

    ghost change = { no_values };

    ghost left_of = { stays_as_bit };

    ghost placed = { placed_alone };

    fn left(place: &[u8; SUMMARY_SIZE], convicted: Signers) -> u32 {
        is_of_free(place, convicted) as u32
    }

    fn put(t: &mut [u8], n: usize, place: &[u8; SUMMARY_SIZE], _: u32) {
        put_summary(t, n, place);
    }
}
