//! What two registers hold together.

ghost use Rattle.std.specs.Prelude.{◌≡◌, true, false, cond};
ghost use Rattle.errors.specs.Errors.{answer_number};
ghost use Rattle.register.specs.Memory.{well_formed, decode, encode, fresh};
ghost use Rattle.register_join.specs.Join.{joined, overfull};

use crate::parts;
use crate::records::Records;
use crate::summaries::Summaries;
use crate::walk::unite;
use errors::Error;
use models::layout::{MAX_SUMMARIES, SUMMARIES_SIZE, SUMMARY_SIZE};
use record::layout::RECORD_SIZE;
use register::layout::{MAX_RECORDS, SUMMARIES_AT};
use signed_records::PLACE_SIZE;

/// Writes what two registers hold together into bytes that are all zero. `Full` where that is more than there is room for.
pub fn write(mine: &[u8], theirs: &[u8], out: &mut [u8]) -> Result<(), Error>
    requires mine { well_formed mine.now ≡ true }
    requires theirs { well_formed theirs.now ≡ true }
    requires zero { out.old ≡ fresh }
    ensures answer { answer_number result ≡ cond (overfull (joined (decode theirs.now) (decode mine.now))) 5 0 }
    ensures written { overfull (joined (decode theirs.now) (decode mine.now)) ≡ false → out.new ≡ encode (joined (decode theirs.now) (decode mine.now)) }
{
    let my_convicted = parts::convicted(mine);
    let their_convicted = parts::convicted(theirs);
    let (header, tables) = out.split_at_mut(SUMMARIES_AT);
    let (places, more) = tables.split_at_mut(SUMMARIES_SIZE);
    let n = unite::<Summaries, SUMMARY_SIZE, SUMMARY_SIZE, MAX_SUMMARIES>(
        parts::summaries(mine),
        their_convicted,
        parts::summaries(theirs),
        my_convicted,
        places,
    )?;
    let k = unite::<Records, PLACE_SIZE, RECORD_SIZE, MAX_RECORDS>(
        parts::records(mine),
        their_convicted,
        parts::records(theirs),
        my_convicted,
        more,
    )?;
    parts::put_header(header, their_convicted.union(my_convicted), n, k);
    Ok(())
}
