//! A conviction in a register.

ghost use Rattle.std.specs.Prelude.{◌≡◌, true, ◌+◌, ◌*◌, ◌≤◌, length};
ghost use Rattle.tables.specs.Places.{places, keep_places};
ghost use Rattle.record.specs.Layout.{record_size};
ghost use Rattle.errors.specs.After.{after};
ghost use Rattle.desks.specs.Desks.{number_of};
ghost use Rattle.signed_records.specs.Signed.{place_size, drop_signer, has_another_signer};
ghost use Rattle.tables.specs.Strikes.{Struck};
ghost use Rattle.errors.specs.Errors.{answer_number};
ghost use Rattle.register.specs.Register.{strike_engine, take_conviction};
ghost use Rattle.register.specs.Memory.{well_formed, decode};
ghost use Rattle.register.specs.Calls as C;
ghost use Rattle.register.specs.Calls.{called};
ghost use Rattle.register.specs.Strikes.{kept_at};

use crate::Register;
use crate::formed::well_formed;
use crate::layout::{CONVICTED_AT, RECORD_COUNT_AT, SUMMARIES_AT, SUMMARY_COUNT_AT};
use desks::Desk;
use engines::{Engine, Signers};
use errors::Error;
use models::layout::SUMMARIES_SIZE;
use models::strikes::strike_summaries;
use octets::words::{put_u16, put_u32, u16_at, u32_at};
use record::layout::RECORD_SIZE;
use signed_records::PLACE_SIZE;
use tables::strikes::{clear_rest, move_down};

// Copies the record at one byte down to another, with these signers.
fn keep_place(t: &mut [u8], from: usize, to: usize, signers: Signers)
    requires to_le_from { to ≤ from }
    requires place_size_in_bounds { from + place_size ≤ length t.old }
    ensures { t.new ≡ kept_at from to signers t.old }
{
    move_down(t, from, to, PLACE_SIZE);
    put_u32(t, to + RECORD_SIZE, signers.mask());
}

// Takes an engine's signature off the first n records of a table, and those left without one out, and
// returns how many are left.
fn strike_records(t: &mut [u8], n: usize, engine: Engine) -> usize
    requires { n * place_size ≤ length t.old }
    ensures { Struck place_size (keep_places record_size (has_another_signer engine) (drop_signer engine) (places place_size n t.old)) t.old result t.new }
{
    let mut j = 0;
    for i in 0..n {
        let at = i * PLACE_SIZE;
        let signers = Signers::from_mask(u32_at(t, at + RECORD_SIZE)).without(engine);
        if signers.is_empty() {
            continue;
        }
        keep_place(t, at, j * PLACE_SIZE, signers);
        j += 1;
    }
    clear_rest(t, j, PLACE_SIZE);
    j
}

// Strikes an engine from a register.
#[tactic(auto, using(crate::proofs::Opened::sized))]
fn strike(memory: &mut [u8], engine: Engine)
    requires { well_formed memory.old ≡ true }
    ensures struck { decode memory.new ≡ strike_engine engine (decode memory.old) }
    ensures formed { well_formed memory.new ≡ true }
{
    let (header, tables) = memory.split_at_mut(SUMMARIES_AT);
    let (summaries, records) = tables.split_at_mut(SUMMARIES_SIZE);
    let first = strike_summaries(summaries, u16_at(header, SUMMARY_COUNT_AT) as usize, engine);
    let second = strike_records(records, u16_at(header, RECORD_COUNT_AT) as usize, engine);
    let struck = Signers::from_mask(u32_at(header, CONVICTED_AT)).with(engine);
    put_u32(header, CONVICTED_AT, struck.mask());
    put_u16(header, SUMMARY_COUNT_AT, first as u16);
    put_u16(header, RECORD_COUNT_AT, second as u16);
}

impl<'a> Register<'a> {
    /// Convicts an engine.
    pub fn conviction(&mut self, engine: u32) -> Result<(), Error>
        ensures same_reference { self.new.memory.ghost_name ≡ self.old.memory.ghost_name }
        ensures convicted { after (answer_number result) (decode self.new.memory.now) ≡ take_conviction engine (decode self.old.memory.now) }
    {
        let Some(engine) = Engine::new(engine) else {
            return Err(Error::NoEngine);
        };
        strike(self.memory, engine);
        Ok(())
    }
}

/// Convicts an engine, if the desk may convict: that is asked before anything else.
#[tactic(auto, unfolding(crate::specs::Memory::on_memory))]
pub fn conviction(desk: Desk, memory: &mut [u8], engine: u32) -> Result<(), Error>
    ensures { after (answer_number result) memory.new ≡ called (C.conviction (number_of desk) engine) memory.old }
{
    if !desk.may_convict() {
        return Err(Error::NoRight);
    }
    if !well_formed(memory) {
        return Err(Error::Malformed);
    }
    Register::of(memory).conviction(engine)
}
