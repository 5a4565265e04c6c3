//! A report into a register.

ghost use Rattle.std.specs.Prelude.{◌≡◌, ◌<◌, ◌++◌, true, false, length, IfOk};
ghost use Rattle.octets.specs.Masks.{bit, with_bit};
ghost use Rattle.octets.specs.Words.{word_bytes};
ghost use Rattle.errors.specs.After.{after};
ghost use Rattle.errors.specs.Errors.{answer_number};
ghost use Rattle.register.specs.Signers.{signers_found};
ghost use Rattle.register.specs.Register.{sign_record, take_report};
ghost use Rattle.register.specs.Memory.{well_formed, decode};
ghost use Rattle.register.specs.Calls as C;
ghost use Rattle.register.specs.Calls.{called};

use crate::Register;
use crate::formed::well_formed;
use crate::layout::{MAX_RECORDS, RECORD_COUNT_AT, SUMMARIES_AT};
use engines::{Engine, Signers};
use errors::Error;
use models::layout::SUMMARIES_SIZE;
use octets::runs::copy;
use octets::words::{put_u16, put_u32, u16_at, u32_at};
use record::Record;
use record::layout::RECORD_SIZE;
use signed_records::PLACE_SIZE;
use tables::table::Table;

// The records held, each with its signers.
type Records<'a> = Table<'a, PLACE_SIZE, RECORD_SIZE, MAX_RECORDS>;

// The bytes of a record and its signers.
fn signed(r: Record, signers: Signers) -> [u8; PLACE_SIZE]
    ensures { result ≡ r.entry.bytes.now ++ word_bytes 4 signers }
{
    let mut place = [0u8; PLACE_SIZE];
    copy(r.bytes, &mut place);
    put_u32(&mut place, RECORD_SIZE, signers.mask());
    place
}

// The signers of a record where it was found: none where it was not.
fn signers_of(records: &[[u8; PLACE_SIZE]], found: Result<usize, usize>) -> Signers
    requires { IfOk found (λ i. i < length records.now) }
    ensures { result ≡ signers_found records.now found }
{
    match found {
        Ok(i) => {
            let place = &records[i];
            Signers::from_mask(u32_at(place, RECORD_SIZE))
        }
        Err(_) => Signers::from_mask(0),
    }
}

// The signers of a record where it was found, and one more.
fn signers_with(
    records: &[[u8; PLACE_SIZE]],
    found: Result<usize, usize>,
    engine: Engine,
) -> Signers
    requires { IfOk found (λ i. i < length records.now) }
    ensures signers { result ≡ with_bit (signers_found records.now found) engine }
    ensures small { engine < 32 }
{
    signers_of(records, found).with(engine)
}

// Puts a record in, or its signer.
#[tactic(auto, using(crate::proofs::Opened::sized))]
fn sign(memory: &mut [u8], engine: Engine, r: Record) -> Result<(), Error>
    requires register { well_formed memory.old ≡ true }
    requires free { bit (decode memory.old).convicted engine ≡ false }
    ensures signed { after (answer_number result) (decode memory.new) ≡ sign_record engine r.entry.bytes.now (decode memory.old) }
    ensures formed { well_formed memory.new ≡ true }
{
    let (header, tables) = memory.split_at_mut(SUMMARIES_AT);
    let (summaries, places) = tables.split_at_mut(SUMMARIES_SIZE);
    let mut records = Records::of(places, u16_at(header, RECORD_COUNT_AT) as usize);
    let found = records.search(r.bytes);
    if records.is_full(found) {
        return Err(Error::Full);
    }
    let signers = signers_with(records.places(), found, engine);
    records.put(found, &signed(r, signers));
    put_u16(header, RECORD_COUNT_AT, records.count() as u16);
    Ok(())
}

impl<'a> Register<'a> {
    /// Reports a record for an engine.
    pub fn report(&mut self, engine: u32, r: &[u8]) -> Result<(), Error>
        ensures same_reference { self.new.memory.ghost_name ≡ self.old.memory.ghost_name }
        ensures reported { after (answer_number result) (decode self.new.memory.now) ≡ take_report engine r.now (decode self.old.memory.now) }
    {
        let Some(engine) = Engine::new(engine) else {
            return Err(Error::NoEngine);
        };
        let Some(r) = Record::parse(r) else {
            return Err(Error::NoRecord);
        };
        if self.is_convicted(engine) {
            return Err(Error::Convicted);
        }
        sign(self.memory, engine, r)
    }
}

/// Reports a record for an engine.
#[tactic(auto, unfolding(crate::specs::Memory::on_memory))]
pub fn report(memory: &mut [u8], engine: u32, r: &[u8]) -> Result<(), Error>
    ensures { after (answer_number result) memory.new ≡ called (C.report engine r.now) memory.old }
{
    if !well_formed(memory) {
        return Err(Error::Malformed);
    }
    Register::of(memory).report(engine, r)
}
