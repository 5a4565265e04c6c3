//! Which bytes are a shelf beside a track.

ghost use Rattle.std.specs.Prelude.{◌≡◌};
ghost use Rattle.std.specs.List.{list_all};
ghost use Rattle.models.specs.Answers.{summary_places};
ghost use Rattle.track_shelf.specs.Memory.{waiting_in, shelf_formed};
ghost use Rattle.track_shelf.specs.Waiting.{may_wait};

use crate::layout::{
    COUNT_AT, ENGINE_AT, MAX_WAITING, MODEL_AT, PLACE_SIZE, PLACES_AT, RECORD_AT, SHELF_SIZE,
};
use crate::stated::Stated;
use engines::{Engine, Signers};
use models::summaries::Summaries;
use record::Record;
use tables::table::places_of;

// Whether a place holds what may wait where these engines are convicted and these summaries held.
#[tactic(auto, unfolding(record::specs::Relations::member))]
fn may_wait(place: &[u8; PLACE_SIZE], convicted: Signers, stated: &Stated) -> bool
    ensures { result ≡ may_wait convicted stated.now (waiting_in place.now) }
{
    let Some(record) = Record::parse(place.split_at(RECORD_AT).1) else {
        return false;
    };
    let Some(engine) = Engine::new(place[ENGINE_AT] as u32) else {
        return false;
    };
    if convicted.contains(engine) {
        return false;
    }
    let model = place[MODEL_AT];
    record.models().contains(&model) && stated.lacks(model)
}

// Whether each place does. The summaries are gone through only where there is a place.
fn all_may_wait(places: &[[u8; PLACE_SIZE]], convicted: Signers, all: Summaries) -> bool
    ensures { result ≡ list_all (λ p. may_wait convicted (summary_places all.entry) (waiting_in p)) places.now }
{
    if places.is_empty() {
        return true;
    }
    let stated = Stated::of(all);
    places
        .iter()
        .all(|place| may_wait(place, convicted, &stated))
}

// Whether bytes are a shelf beside a track with these engines convicted and these summaries.
pub(crate) fn well_formed(m: &[u8; SHELF_SIZE], convicted: Signers, all: Summaries) -> bool
    ensures { result ≡ shelf_formed convicted (summary_places all.entry) m.now }
{
    let count = m[COUNT_AT] as usize;
    if MAX_WAITING < count {
        return false;
    }
    let places = m.split_at(PLACES_AT).1;
    all_may_wait(places_of::<PLACE_SIZE>(places, count), convicted, all)
        && octets::runs::is_zero(places.split_at(count * PLACE_SIZE).1)
}
