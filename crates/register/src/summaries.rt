//! A summary into a register.

ghost use Rattle.std.specs.Prelude.{◌≡◌, true};
ghost use Rattle.errors.specs.After.{after};
ghost use Rattle.models.specs.Summaries.{summary_formed};
ghost use Rattle.errors.specs.Errors.{answer_number};
ghost use Rattle.register.specs.Register.{hold_summary, take_summary};
ghost use Rattle.register.specs.Memory.{well_formed, decode};
ghost use Rattle.register.specs.Calls as C;
ghost use Rattle.register.specs.Calls.{called};

use crate::Register;
use crate::formed::well_formed;
use crate::layout::{SUMMARIES_AT, SUMMARY_COUNT_AT};
use engines::Engine;
use errors::Error;
use models::layout::{INPUTS_SIZE, MAX_SUMMARIES, SUMMARIES_SIZE, SUMMARY_SIZE};
use models::summaries::new_summary;
use octets::words::{put_u16, u16_at};
use record::layout::MAX_MODEL;
use tables::table::Table;

// The summaries held.
type Summaries<'a> = Table<'a, SUMMARY_SIZE, SUMMARY_SIZE, MAX_SUMMARIES>;

// Puts a summary in, unless it is held.
#[tactic(auto, using(crate::proofs::Opened::sized))]
fn hold(memory: &mut [u8], summary: &[u8; SUMMARY_SIZE]) -> Result<(), Error>
    requires register { well_formed memory.old ≡ true }
    requires summary { summary_formed (decode memory.old).convicted summary.now ≡ true }
    ensures held { after (answer_number result) (decode memory.new) ≡ hold_summary summary.now (decode memory.old) }
    ensures formed { well_formed memory.new ≡ true }
{
    let (header, tables) = memory.split_at_mut(SUMMARIES_AT);
    let (places, records) = tables.split_at_mut(SUMMARIES_SIZE);
    let mut summaries = Summaries::of(places, u16_at(header, SUMMARY_COUNT_AT) as usize);
    let found = summaries.search(summary);
    if summaries.is_full(found) {
        return Err(Error::Full);
    }
    summaries.put(found, summary);
    put_u16(header, SUMMARY_COUNT_AT, summaries.count() as u16);
    Ok(())
}

impl<'a> Register<'a> {
    /// Takes a summary of a model from an engine.
    pub fn summary(
        &mut self,
        engine: u32,
        model: u32,
        spec: u16,
        inputs: &[u8],
    ) -> Result<(), Error>
        ensures same_reference { self.new.memory.ghost_name ≡ self.old.memory.ghost_name }
        ensures summarized { after (answer_number result) (decode self.new.memory.now) ≡ take_summary engine model spec inputs.now (decode self.old.memory.now) }
    {
        let Some(engine) = Engine::new(engine) else {
            return Err(Error::NoEngine);
        };
        if (MAX_MODEL as u32) < model {
            return Err(Error::NoSummary);
        }
        let Ok(inputs) = <&[u8; INPUTS_SIZE]>::try_from(inputs) else {
            return Err(Error::NoSummary);
        };
        if self.is_convicted(engine) {
            return Err(Error::Convicted);
        }
        hold(self.memory, &new_summary(engine, model as u8, spec, inputs))
    }
}

/// Takes a summary of a model from an engine.
#[tactic(auto, unfolding(crate::specs::Memory::on_memory))]
pub fn summary(
    memory: &mut [u8],
    engine: u32,
    model: u32,
    spec: u16,
    inputs: &[u8],
) -> Result<(), Error>
    ensures { after (answer_number result) memory.new ≡ called (C.summary engine model spec inputs.now) memory.old }
{
    if !well_formed(memory) {
        return Err(Error::Malformed);
    }
    Register::of(memory).summary(engine, model, spec, inputs)
}
