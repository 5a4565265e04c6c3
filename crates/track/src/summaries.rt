//! A summary into a track, and the fixes that waited for its model.

ghost use Rattle.std.specs.Prelude.{◌≡◌, true};
ghost use Rattle.models.specs.Answers.{summary_places};
ghost use Rattle.models.specs.Models.{state_of};
ghost use Rattle.errors.specs.After.{after};
ghost use Rattle.errors.specs.Errors.{answer_number};
ghost use Rattle.models.specs.Summaries.{summary_formed};
ghost use Rattle.track_memory.specs.Memory.{well_formed, decode, commit};
ghost use Rattle.models.specs.Summary.{model_of};
ghost use Rattle.track_shelf.specs.Memory.{decode_shelf};
ghost use Rattle.track_shelf.specs.Both.{both_formed, decode_both, encode_both, commit_both, on_both};
ghost use Rattle.track.specs.Track.{is_disputed, hold_pair, arrival, arrives, track_summary};
ghost use Rattle.track.specs.Steps.{Arriving};

use crate::reports::take;
use engines::Engine;
use errors::Error;
use models::layout::{INPUTS_SIZE, SUMMARY_SIZE};
use models::states::{ModelState, state};
use models::summaries::Summaries;
use track_memory::view::View;
use track_recheck::rechecks;
use track_shelf::both::Both;
use track_shelf::parts;
use track_shelf::view::Shelf;

// Whether a model's summaries are disputed.
fn is_disputed(all: Summaries, model: u8) -> bool
    ensures { result ≡ is_disputed (state_of model (summary_places all.entry)) }
{
    matches!(state(all, model), ModelState::Disputed)
}

// Puts a summary in, and checks the fixes again if its model is disputed now and was not.
fn hold(memory: &mut [u8], model: u8, p: &[u8; SUMMARY_SIZE]) -> Result<(), Error>
    requires track { well_formed memory.old ≡ true }
    requires formed { summary_formed (decode memory.old).convicted p.now ≡ true }
    ensures { after (answer_number result) memory.new ≡ commit memory.old (hold_pair model p.now (decode memory.old)) }
{
    let was = is_disputed(View::of(memory).summaries(), model);
    track_memory::summaries::put_pair(memory, p)?;
    if !was && is_disputed(View::of(memory).summaries(), model) {
        rechecks::recheck(memory);
    }
    Ok(())
}

// Tries the fixes that wait for a model, in their order, as if they were reported now. Its tables are no part of a call with an empty shelf.
#[inline(never)]
fn arrive(memory: &mut [u8], shelf: &mut [u8], model: u8)
    requires { Arriving model memory.old shelf.old }
    ensures { (memory.new, shelf.new) ≡ encode_both (arrival model (decode_both memory.old shelf.old)) }
{
    let copy = track_shelf::copy_of(shelf);
    let waiting = Shelf::of(&copy).fixes();
    let tried = parts::for_model(&waiting, model);
    if tried.is_empty() {
        return;
    }
    track_shelf::write(shelf, parts::for_others(&waiting, model).as_slice());
    let all = tried.as_slice();
    for fix in all {
        let _answer = take(memory, shelf, fix.engine, fix.report);
    }
}

// Puts a summary in, and tries the fixes that wait for its model.
fn store(
    memory: &mut [u8],
    shelf: &mut [u8],
    model: u8,
    p: &[u8; SUMMARY_SIZE],
) -> Result<(), Error>
    requires both { both_formed memory.old shelf.old ≡ true }
    requires formed { summary_formed (decode memory.old).convicted p.now ≡ true }
    requires model { model_of p.now ≡ model }
    ensures { after (answer_number result) (memory.new, shelf.new) ≡ commit_both memory.old shelf.old (arrives model (decode_shelf shelf.old) (hold_pair model p.now (decode memory.old))) }
{
    hold(memory, model, p)?;
    if Shelf::of(shelf).len() == 0 {
        return Ok(());
    }
    arrive(memory, shelf, model);
    Ok(())
}

/// Takes a summary of a model from an engine.
#[tactic(auto, unfolding(track_shelf::specs::Both::on_both))]
pub fn summary(
    memory: &mut [u8],
    shelf: &mut [u8],
    engine: u32,
    model: u32,
    spec: u16,
    inputs: &[u8],
) -> Result<(), Error>
    ensures { after (answer_number result) (memory.new, shelf.new) ≡ on_both (track_summary engine model spec inputs.now) memory.old shelf.old }
{
    let both = Both::parse(memory, shelf)?;
    let Some(engine) = Engine::new(engine) else {
        return Err(Error::NoEngine);
    };
    if (record::layout::MAX_MODEL as u32) < model {
        return Err(Error::NoSummary);
    }
    let Ok(inputs) = <&[u8; INPUTS_SIZE]>::try_from(inputs) else {
        return Err(Error::NoSummary);
    };
    if both.track.convicted().contains(engine) {
        return Err(Error::Convicted);
    }
    let model = model as u8;
    store(
        memory,
        shelf,
        model,
        &models::summaries::new_summary(engine, model, spec, inputs),
    )
}
