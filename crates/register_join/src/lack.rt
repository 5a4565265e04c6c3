//! What a register lacks of another.

ghost use Rattle.std.specs.Prelude.{◌≡◌, ◌≤◌, true, length, replicate};
ghost use Rattle.octets.specs.Words.{word};
ghost use Rattle.record.specs.Layout.{record_size};
ghost use Rattle.models.specs.Limits.{max_summaries, summaries_size};
ghost use Rattle.models.specs.Summary.{summary_size};
ghost use Rattle.models.specs.Summaries.{no_value};
ghost use Rattle.tables.specs.Places.{ascending, lookup, keep_places, table_of};
ghost use Rattle.signed_records.specs.Signed.{place_size};
ghost use Rattle.register.specs.Layout.{max_records, records_size, register_size};
ghost use Rattle.register.specs.Memory.{well_formed, decode, encode};
ghost use Rattle.register_join.specs.Lacks.{lacking_records, is_lacking, lacking};

use crate::parts;
use crate::records::{free_signers, put_record};
use crate::summaries::{is_of_free, put_summary};
use engines::Signers;
use models::layout::{SUMMARIES_SIZE, SUMMARY_SIZE};
use octets::runs::clear;
use octets::words::u32_at;
use record::layout::RECORD_SIZE;
use register::layout::SUMMARIES_AT;
use signed_records::PLACE_SIZE;
use tables::table::search;

// The signers of a record in a table: none where it is not held.
fn signers_of(mine: &[[u8; PLACE_SIZE]], key: &[u8]) -> Signers
    requires sorted { ascending record_size mine.now ≡ true }
    requires few { length mine.now ≤ max_records }
    ensures { result ≡ word (lookup record_size key.now mine.now) }
{
    match search::<PLACE_SIZE, RECORD_SIZE>(mine, key) {
        Ok(i) => {
            let place = &mine[i];
            Signers::from_mask(u32_at(place, RECORD_SIZE))
        }
        Err(_) => Signers::from_mask(0),
    }
}

// Writes the records with signers that a register has neither convicted nor as signers of that record into a table that is all zero, and
// returns how many they are.
fn write_records(
    theirs: &[[u8; PLACE_SIZE]],
    convicted: Signers,
    mine: &[[u8; PLACE_SIZE]],
    out: &mut [u8],
) -> usize
    requires mine { ascending record_size mine.now ≡ true }
    requires mine_few { length mine.now ≤ max_records }
    requires few { length theirs.now ≤ max_records }
    requires zero { out.old ≡ replicate records_size 0 }
    ensures count { result ≡ length (lacking_records convicted mine.now theirs.now) }
    ensures bytes { out.new ≡ table_of place_size max_records (lacking_records convicted mine.now theirs.now) }
{
    let mut count = 0;
    for place in theirs {
        let left = free_signers(place, convicted);
        let signers = parts::without(left, signers_of(mine, &place[..RECORD_SIZE]));
        if signers.is_empty() {
            continue;
        }
        put_record(out, count, place, signers);
        count += 1;
    }
    count
}

// Whether a register neither holds a summary nor has convicted its engine.
fn is_lacking(place: &[u8; SUMMARY_SIZE], convicted: Signers, mine: &[[u8; SUMMARY_SIZE]]) -> bool
    requires { ascending summary_size mine.now ≡ true }
    ensures { result ≡ is_lacking convicted mine.now place.now }
{
    search::<SUMMARY_SIZE, SUMMARY_SIZE>(mine, place).is_err() && is_of_free(place, convicted)
}

// Writes the summaries that a register neither holds nor has convicted the engine of into a table that is all zero, and returns how many
// they are.
fn write_summaries(
    theirs: &[[u8; SUMMARY_SIZE]],
    convicted: Signers,
    mine: &[[u8; SUMMARY_SIZE]],
    out: &mut [u8],
) -> usize
    requires mine { ascending summary_size mine.now ≡ true }
    requires few { length theirs.now ≤ max_summaries }
    requires zero { out.old ≡ replicate summaries_size 0 }
    ensures count { result ≡ length (keep_places summary_size (is_lacking convicted mine.now) no_value theirs.now) }
    ensures bytes { out.new ≡ table_of summary_size max_summaries (keep_places summary_size (is_lacking convicted mine.now) no_value theirs.now) }
{
    let mut count = 0;
    for place in theirs {
        let lacking = is_lacking(place, convicted, mine);
        if !lacking {
            continue;
        }
        put_summary(out, count, place);
        count += 1;
    }
    count
}

/// Writes what a register lacks of another.
pub fn write(mine: &[u8], theirs: &[u8], out: &mut [u8])
    requires mine { well_formed mine.now ≡ true }
    requires theirs { well_formed theirs.now ≡ true }
    requires size { length out.old ≡ register_size }
    ensures { out.new ≡ encode (lacking (decode theirs.now) (decode mine.now)) }
{
    let convicted = parts::convicted(mine);
    clear(out);
    let (header, tables) = out.split_at_mut(SUMMARIES_AT);
    let (places, more) = tables.split_at_mut(SUMMARIES_SIZE);
    let n = write_summaries(
        parts::summaries(theirs),
        convicted,
        parts::summaries(mine),
        places,
    );
    let k = write_records(
        parts::records(theirs),
        convicted,
        parts::records(mine),
        more,
    );
    parts::put_header(
        header,
        parts::without(parts::convicted(theirs), convicted),
        n,
        k,
    );
}
