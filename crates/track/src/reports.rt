//! A report into a track, or onto the shelf beside it.

ghost use Rattle.std.specs.Prelude.{◌≡◌, ◌+◌, ◌%◌, ◌^◌, ◌≤◌, ◌++◌, ◌∷◌, [], true, cond, Ok, Err, length, nat_le, slice_set};
ghost use Rattle.octets.specs.Words.{word_at};
ghost use Rattle.octets.specs.Writes.{put_word};
ghost use Rattle.models.specs.Models.{counts};
ghost use Rattle.models.specs.Identity.{cited_inputs};
ghost use Rattle.errors.specs.After.{after};
ghost use Rattle.track_merge.specs.Merged.{merged_number};
ghost use Rattle.track_memory.specs.Layout as L;
ghost use Rattle.track_memory.specs.Memory.{well_formed, decode, commit};
ghost use Rattle.track_shelf.specs.Both.{both_formed, decode_both, commit_both, on_both};
ghost use Rattle.errors.specs.declared.Error.TheVariants.{ShelfFull};
ghost use Rattle.track_shelf.specs.Layout.{max_waiting};
ghost use Rattle.track_shelf.specs.Memory.{decode_shelf, encode_shelf};
ghost use Rattle.track_shelf.specs.Steps.{Sound};
ghost use Rattle.track.specs.declared.reports.Reported.TheVariants as V;
ghost use Rattle.track.specs.Answers.{taken_number, reported_number};
ghost use Rattle.track.specs.Track.{take_cited, take_record, track_report};

use engines::{Engine, Signers};
use errors::Error;
use models::citations::{cited_inputs, first_missing};
use models::hashes::Inputs;
use record::Record;
use track_memory::layout;
use track_memory::view::View;
use track_merge::Merged;
use track_shelf::both::Both;
use track_shelf::layout::MAX_WAITING;
use track_shelf::view::Shelf;
use track_shelf::waiting::Waiting;
use track_transmission::fix::HeldFix;

/// What becomes of a record that is not refused.
#[derive(Clone, Copy)]
pub enum Reported {
    /// It is merged into the track.
    Merged(Merged),
    /// It waits on the shelf for the summary of a model.
    Waiting,
}

impl Reported {
    /// Its number.
    pub fn number(self) -> u32
        ensures { result ≡ taken_number self }
    {
        match self {
            Reported::Merged(merged) => merged.number(),
            Reported::Waiting => 24,
        }
    }
}

/// The number of what a report is answered.
pub fn reported_number(answer: Result<Reported, Error>) -> u32
    ensures { result ≡ reported_number answer }
{
    match answer {
        Ok(reported) => reported.number(),
        Err(error) => error.number(),
    }
}

// Writes how many transmissions there are, and counts the fixes that entered a list of refused.
fn put_step(memory: &mut [u8], count: u8, entered: u8)
    requires { L.summaries_at ≤ length memory.old }
    ensures { memory.new ≡ put_word 8 L.contested_at ((word_at 8 L.contested_at memory.old + entered) % 2 ^ 64) (slice_set memory.old L.transmission_count_at count) }
{
    let contested = octets::words::u64_at(memory, layout::CONTESTED_AT);
    memory[layout::TRANSMISSION_COUNT_AT] = count;
    octets::words::put_u64(
        memory,
        layout::CONTESTED_AT,
        std::num::wrapping_add_u64(contested, entered as u64),
    );
}

// Merges a record that counts, of these model inputs, into the transmissions.
fn merge_record(memory: &mut [u8], engine: Engine, r: Record, inputs: Inputs) -> Merged
    requires track { well_formed memory.old ≡ true }
    requires counts { counts (decode memory.old).summaries r.bytes.now ≡ true }
    requires inputs { inputs ≡ cited_inputs (decode memory.old).summaries r.bytes.now }
    ensures { after (merged_number result) memory.new ≡ commit memory.old (take_cited engine r.entry.bytes.now (decode memory.old)) }
{
    let fix = HeldFix {
        report: r,
        inputs,
        signers: Signers::from_mask(0).with(engine),
    };
    let count = memory[layout::TRANSMISSION_COUNT_AT] as usize;
    let x = track_merge::merge(&mut memory[layout::TRANSMISSIONS_AT..], count, &fix);
    let left = x.count;
    let answer = x.answer;
    put_step(memory, left as u8, x.entered);
    answer
}

// Puts a fix at the end of the shelf, if there is room.
fn wait(shelf: &mut [u8], fix: &Waiting<'_>) -> Result<Reported, Error>
    requires { Sound shelf.old }
    ensures answer { result ≡ cond (nat_le max_waiting (length (decode_shelf shelf.old))) (Err ShelfFull) (Ok V.Waiting) }
    ensures left { shelf.new ≡ cond (nat_le max_waiting (length (decode_shelf shelf.old))) shelf.old (encode_shelf (decode_shelf shelf.old ++ (fix.now ∷ []))) }
{
    if MAX_WAITING <= Shelf::of(shelf).len() {
        return Err(Error::ShelfFull);
    }
    track_shelf::push(shelf, fix);
    Ok(Reported::Waiting)
}

// Takes a record of an engine that may report it: it is merged, or it waits.
pub(crate) fn take(
    memory: &mut [u8],
    shelf: &mut [u8],
    engine: Engine,
    r: Record,
) -> Result<Reported, Error>
    requires { both_formed memory.old shelf.old ≡ true }
    ensures { after (reported_number result) (memory.new, shelf.new) ≡ commit_both memory.old shelf.old (take_record engine r.entry.bytes.now (decode_both memory.old shelf.old)) }
{
    let all = View::of(memory).summaries();
    match cited_inputs(all, r) {
        Some(inputs) => Ok(Reported::Merged(merge_record(memory, engine, r, inputs))),
        None => match first_missing(all, r) {
            Some(model) => wait(
                shelf,
                &Waiting {
                    model,
                    engine,
                    report: r,
                },
            ),
            None => Err(Error::ModelDisputed),
        },
    }
}

/// Reports a record for an engine.
#[tactic(auto, unfolding(track_shelf::specs::Both::on_both))]
pub fn report(memory: &mut [u8], shelf: &mut [u8], engine: u32, r: &[u8]) -> Result<Reported, Error>
    ensures { after (reported_number result) (memory.new, shelf.new) ≡ on_both (track_report engine r.now) memory.old shelf.old }
{
    let both = Both::parse(memory, shelf)?;
    let Some(engine) = Engine::new(engine) else {
        return Err(Error::NoEngine);
    };
    let Some(r) = Record::parse(r) else {
        return Err(Error::NoRecord);
    };
    if both.track.convicted().contains(engine) {
        return Err(Error::Convicted);
    }
    take(memory, shelf, engine, r)
}
