//! A conviction in a track and on its shelf.

ghost use Rattle.std.specs.Prelude.{◌≡◌, not};
ghost use Rattle.std.specs.List.{filter};
ghost use Rattle.errors.specs.After.{after};
ghost use Rattle.errors.specs.Errors.{answer_number};
ghost use Rattle.track_shelf.specs.Waiting.{is_reported_by};
ghost use Rattle.track_shelf.specs.Memory.{decode_shelf, encode_shelf};
ghost use Rattle.track_shelf.specs.Steps.{Sound};
ghost use Rattle.track_shelf.specs.Both.{on_both};
ghost use Rattle.track.specs.Track.{track_conviction};

use engines::Engine;
use errors::Error;
use track_recheck::strikes;
use track_shelf::both::Both;
use track_shelf::parts;
use track_shelf::view::Shelf;

// Leaves those of the fixes that wait that other engines reported. Its tables are no part of a call with an empty shelf.
#[inline(never)]
fn leave_others(shelf: &mut [u8], engine: Engine)
    requires { Sound shelf.old }
    ensures { shelf.new ≡ encode_shelf (filter (λ w. not (is_reported_by engine w)) (decode_shelf shelf.old)) }
{
    let copy = track_shelf::copy_of(shelf);
    let left = parts::of_others(&Shelf::of(&copy).fixes(), engine);
    track_shelf::write(shelf, left.as_slice());
}

// Throws out the fixes that an engine reported and that wait.
fn throw_out(shelf: &mut [u8], engine: Engine)
    requires { Sound shelf.old }
    ensures { shelf.new ≡ encode_shelf (filter (λ w. not (is_reported_by engine w)) (decode_shelf shelf.old)) }
{
    if Shelf::of(shelf).len() == 0 {
        return;
    }
    leave_others(shelf, engine);
}

/// Convicts an engine. A repeated conviction checks the fixes again too.
#[tactic(auto, unfolding(track_shelf::specs::Both::on_both))]
pub fn conviction(memory: &mut [u8], shelf: &mut [u8], engine: u32) -> Result<(), Error>
    ensures { after (answer_number result) (memory.new, shelf.new) ≡ on_both (track_conviction engine) memory.old shelf.old }
{
    Both::parse(memory, shelf)?;
    let Some(engine) = Engine::new(engine) else {
        return Err(Error::NoEngine);
    };
    throw_out(shelf, engine);
    strikes::convict(memory, engine);
    Ok(())
}
