//! A register where it lies, which is only read.

ghost use Rattle.std.specs.Prelude.{◌≡◌, ◌≤◌, true, length, Ok, Err, cond};
ghost use Rattle.std.specs.List.{list_all};
ghost use Rattle.signed_records.specs.Read.{record_formed};
ghost use Rattle.models.specs.Answers.{summary_places};
ghost use Rattle.register.specs.Layout.{max_records};
ghost use Rattle.errors.specs.declared.Error.TheVariants.{Malformed};
ghost use Rattle.register.specs.Memory.{well_formed, decode};

use crate::formed::well_formed;
use crate::layout::{
    CONVICTED_AT, RECORD_COUNT_AT, RECORDS_AT, REGISTER_SIZE, SUMMARIES_AT, SUMMARY_COUNT_AT,
};
use engines::Signers;
use errors::Error;
use models::summaries::Summaries;
use octets::words::{u16_at, u32_at};
use signed_records::{PLACE_SIZE, SignedRecords};
use std::marker::Model;
use tables::table::places_of;

/// Lent bytes that are a register. Whoever has one asks for nothing more: in a contract it is the register that they hold.
#[derive(Drop)]
pub struct View<'a> {
    bytes: &'a [u8; REGISTER_SIZE],
}

impl<'a> Model for View<'a> {
    ghost use Rattle.std.specs.Prelude.{◌≡◌, true};
    ghost use Rattle.register.specs.Register.{Register as Held};
    ghost use Rattle.register.specs.Memory.{well_formed, decode};

    ghost Value = { Held };

    ghost view = { λ v. decode v.bytes.now };

    ghost invariant = { λ v. well_formed v.bytes.now ≡ true };
}

impl<'a> View<'a> {
    /// The register that these bytes are, if they are one.
    pub fn parse(bytes: &'a [u8]) -> Result<View<'a>, Error>
        ensures { result ≡ cond (well_formed bytes.now) (Ok (decode bytes.now)) (Err Malformed) }
    {
        let Ok(bytes) = <&[u8; REGISTER_SIZE]>::try_from(bytes) else {
            return Err(Error::Malformed);
        };
        if well_formed(bytes) {
            Ok(View { bytes })
        } else {
            Err(Error::Malformed)
        }
    }

    /// The register that these bytes are known to be.
    pub fn of(bytes: &'a [u8; REGISTER_SIZE]) -> View<'a>
        requires { well_formed bytes.now ≡ true }
        ensures { result ≡ decode bytes.now }
    {
        View { bytes }
    }

    /// The convicted engines.
    #[tactic(auto, unfolding(crate::specs::Memory::decode))]
    pub fn convicted(&self) -> Signers
        ensures { result ≡ self.now.convicted }
    {
        let bytes = self.bytes;
        Signers::from_mask(u32_at(bytes, CONVICTED_AT))
    }

    /// The summaries, in their order.
    pub fn summaries(&self) -> Summaries<'a>
        ensures { summary_places result ≡ self.now.summaries }
    {
        let bytes = self.bytes;
        Summaries {
            table: &bytes[SUMMARIES_AT..RECORDS_AT],
            count: u16_at(bytes, SUMMARY_COUNT_AT) as usize,
        }
    }

    /// The records with their signers, in their order.
    pub fn records(&self) -> SignedRecords<'a>
        ensures records { result ≡ self.now.records }
        ensures few { length self.now.records ≤ max_records }
        ensures formed { list_all record_formed self.now.records ≡ true }
    {
        let bytes = self.bytes;
        let count = u16_at(bytes, RECORD_COUNT_AT) as usize;
        SignedRecords::of(places_of::<PLACE_SIZE>(bytes.split_at(RECORDS_AT).1, count))
    }
}
