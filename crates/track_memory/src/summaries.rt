//! A summary by its engine and model into a track.

ghost use Rattle.std.specs.Prelude.{◌≡◌, true};
ghost use Rattle.errors.specs.After.{after};
ghost use Rattle.errors.specs.Errors.{answer_number};
ghost use Rattle.track_memory.specs.Memory.{well_formed, decode, commit};
ghost use Rattle.track_memory.specs.Steps.{put_pair};

use crate::layout::{PAIR_SIZE, SUMMARIES_AT, SUMMARY_COUNT_AT};
use errors::Error;
use models::layout::{MAX_SUMMARIES, SUMMARIES_SIZE, SUMMARY_SIZE};
use octets::words::{put_u16, u16_at};
use tables::table::Table;

// The summaries held, one for each engine and model.
type Pairs<'a> = Table<'a, SUMMARY_SIZE, PAIR_SIZE, MAX_SUMMARIES>;

/// Puts a summary in by its engine and model, in the place of the one that is held of them.
pub fn put_pair(memory: &mut [u8], p: &[u8; SUMMARY_SIZE]) -> Result<(), Error>
    requires { well_formed memory.old ≡ true }
    ensures { after (answer_number result) memory.new ≡ commit memory.old (put_pair p.now (decode memory.old)) }
{
    let (head, rest) = memory.split_at_mut(SUMMARIES_AT);
    let (places, transmissions) = rest.split_at_mut(SUMMARIES_SIZE);
    let mut pairs = Pairs::of(places, u16_at(head, SUMMARY_COUNT_AT) as usize);
    let found = pairs.search(&p[..PAIR_SIZE]);
    if pairs.is_full(found) {
        return Err(Error::Full);
    }
    pairs.put(found, p);
    put_u16(head, SUMMARY_COUNT_AT, pairs.count() as u16);
    Ok(())
}
