//! A track where it lies, which is only read.

ghost use Rattle.std.specs.Prelude.{◌≡◌, true, Ok, Err, cond};
ghost use Rattle.models.specs.Answers.{summary_places};
ghost use Rattle.errors.specs.declared.Error.TheVariants.{Malformed};
ghost use Rattle.track_memory.specs.Memory.{well_formed, decode};

use crate::formed::well_formed;
use crate::layout::{
    CONTESTED_AT, CONVICTED_AT, SUMMARIES_AT, SUMMARY_COUNT_AT, TRACK_SIZE, TRANSMISSION_COUNT_AT,
    TRANSMISSIONS_AT,
};
use engines::Signers;
use errors::Error;
use models::summaries::Summaries;
use octets::words::{u16_at, u32_at, u64_at};
use std::marker::Model;
use track_arrange::Blocks;

/// Borrowed bytes that are a track. In a contract it is the track that they hold, so no function that takes one asks for more.
#[derive(Drop)]
pub struct View<'a> {
    bytes: &'a [u8; TRACK_SIZE],
}

impl<'a> Model for View<'a> {
    ghost use Rattle.std.specs.Prelude.{◌≡◌, true};
    ghost use Rattle.octets.specs.Bytes.{Bytes};
    ghost use Rattle.track_memory.specs.Track.{Track};
    ghost use Rattle.track_memory.specs.Memory.{well_formed, decode};

    ghost Value = { Track };

    ghost view = { λ v. decode v.bytes.now };

    ghost invariant = { λ v. (well_formed v.bytes.now ≡ true) × Bytes v.bytes.now };
}

impl<'a> View<'a> {
    /// The track that these bytes are, if they are one; else `Malformed`.
    pub fn parse(bytes: &'a [u8]) -> Result<View<'a>, Error>
        ensures { result ≡ cond (well_formed bytes.now) (Ok (decode bytes.now)) (Err Malformed) }
    {
        let Ok(bytes) = <&[u8; TRACK_SIZE]>::try_from(bytes) else {
            return Err(Error::Malformed);
        };
        if well_formed(bytes) {
            Ok(View { bytes })
        } else {
            Err(Error::Malformed)
        }
    }

    /// The track that these bytes are known to be.
    pub fn of(bytes: &'a [u8]) -> View<'a>
        requires { well_formed bytes.now ≡ true }
        ensures { result ≡ decode bytes.now }
    {
        View {
            bytes: bytes.as_array().unwrap(),
        }
    }

    /// The convicted engines.
    #[tactic(auto, unfolding(crate::specs::Memory::decode))]
    pub fn convicted(&self) -> Signers
        ensures { result ≡ self.now.convicted }
    {
        let bytes = self.bytes;
        Signers::from_mask(u32_at(bytes, CONVICTED_AT))
    }

    /// How many fixes entered a list of refused, modulo 2^64.
    #[tactic(auto, unfolding(crate::specs::Memory::decode))]
    pub fn contested(&self) -> u64
        ensures { result ≡ self.now.contested }
    {
        let bytes = self.bytes;
        u64_at(bytes, CONTESTED_AT)
    }

    /// The summaries, in their order.
    pub fn summaries(&self) -> Summaries<'a>
        ensures { summary_places result ≡ self.now.summaries }
    {
        let bytes = self.bytes;
        Summaries {
            table: &bytes[SUMMARIES_AT..TRANSMISSIONS_AT],
            count: u16_at(bytes, SUMMARY_COUNT_AT) as usize,
        }
    }

    /// The transmissions, in their order.
    pub fn transmissions(&self) -> Blocks<'a>
        ensures { result.items ≡ self.now.transmissions }
    {
        let bytes = self.bytes;
        let count = bytes[TRANSMISSION_COUNT_AT] as usize;
        track_arrange::blocks(bytes.split_at(TRANSMISSIONS_AT).1, count)
    }
}
