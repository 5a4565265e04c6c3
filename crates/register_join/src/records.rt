//! The records of a register, as places that are united.

ghost use Rattle.std.specs.Prelude.{◌≡◌, ◌≤◌, ◌<◌, ◌+◌, ◌*◌, ◌++◌, ◌^◌, length, take, drop};
ghost use Rattle.octets.specs.Words.{word_bytes};
ghost use Rattle.record.specs.Layout.{record_size};
ghost use Rattle.signed_records.specs.Signed.{place_size, signers_in};
ghost use Rattle.register_join.specs.Join.{without_bits};

use crate::parts::without;
use crate::walk::Kind;
use engines::Signers;
use octets::words::{put_u32, u32_at};
use record::layout::RECORD_SIZE;
use signed_records::PLACE_SIZE;

/// The kind of place that has a record and its signers. What is left of one are the signers that are not convicted.
pub struct Records;

/// The signers of a record that are not of a set.
pub fn free_signers(place: &[u8; PLACE_SIZE], convicted: Signers) -> Signers
    ensures set { result ≡ without_bits (signers_in place.now) convicted }
    ensures small { result < 2 ^ 32 }
{
    without(Signers::from_mask(u32_at(place, RECORD_SIZE)), convicted)
}

/// Writes the record of a place, with these signers, as place n of a table.
pub fn put_record(t: &mut [u8], n: usize, place: &[u8; PLACE_SIZE], signers: Signers)
    requires { n * place_size + place_size ≤ length t.old }
    ensures size { length place.now ≡ place_size }
    ensures bytes { t.new ≡ take (n * place_size) t.old ++ ((take record_size place.now ++ word_bytes 4 signers) ++ drop (n * place_size + place_size) t.old) }
{
    let at = n * PLACE_SIZE;
    t[at..at + PLACE_SIZE].copy_from_slice(place);
    put_u32(t, at + RECORD_SIZE, signers.mask());
}

impl Kind<PLACE_SIZE, RECORD_SIZE> for Records {
    ghost use Rattle.register_join.specs.Join.{both_signers, drop_signers, has_free_signer};
    ghost use Rattle.register_join.specs.Merged.{left_signers, placed_signers};

    ghost merge = { both_signers };

    ghost test = { has_free_signer };

    ghost change = { drop_signers };

    ghost left_of = { left_signers };

    ghost placed = { placed_signers };

    fn left(place: &[u8; PLACE_SIZE], convicted: Signers) -> u32 {
        free_signers(place, convicted).mask()
    }

    fn put(t: &mut [u8], n: usize, place: &[u8; PLACE_SIZE], left: u32) {
        put_record(t, n, place, Signers::from_mask(left));
    }
}
