//! Records with their signers, as they lie in memory: which a memory may hold, and each of them as a value.
#![tactic(auto)]

ghost use Rattle.std.specs.Prelude.{◌≡◌, true, take};
ghost use Rattle.std.specs.List.{list_all};
ghost use Rattle.std.specs.Iterator.{YieldsFirst, item_count};
ghost use Rattle.record.specs.Layout.{record_size};
ghost use Rattle.record.specs.Formed.{well_formed};
ghost use Rattle.signed_records.specs.Signed.{signers_in};
ghost use Rattle.signed_records.specs.Read.{record_formed};

use engines::Signers;
use record::Record;
use record::layout::RECORD_SIZE;
use std::marker::Model;

pub mod formed;

/// The bytes of a record with its signers.
pub const PLACE_SIZE: usize = RECORD_SIZE + 4;

/// A record and the engines that signed it.
#[derive(Drop)]
pub struct SignedRecord<'a> {
    bytes: &'a [u8; PLACE_SIZE],
}

impl<'a> Model for SignedRecord<'a> {
    ghost use Rattle.std.specs.Prelude.{ℕ, List, ◌≡◌, true};
    ghost use Rattle.signed_records.specs.Read.{record_formed};

    ghost Value = { List ℕ };

    ghost view = { λ p. p.bytes.now };

    ghost invariant = { λ p. record_formed p.bytes.now ≡ true };
}

impl<'a> SignedRecord<'a> {
    /// The record.
    pub fn record(&self) -> Record<'a>
        ensures { result.bytes.now ≡ take record_size self.now }
    {
        let bytes = self.bytes;
        Record::of(&bytes[..RECORD_SIZE])
    }

    /// The engines that signed it.
    pub fn signers(&self) -> Signers
        ensures { result ≡ signers_in self.now }
    {
        let bytes = self.bytes;
        Signers::from_mask(octets::words::u32_at(bytes, RECORD_SIZE))
    }
}

/// Records with their signers, gone through in their order.
#[derive(Drop)]
pub struct SignedRecords<'a> {
    places: &'a [[u8; PLACE_SIZE]],
}

impl<'a> Model for SignedRecords<'a> {
    ghost use Rattle.std.specs.Prelude.{ℕ, List, ◌≡◌, true};
    ghost use Rattle.std.specs.List.{list_all};
    ghost use Rattle.signed_records.specs.Read.{record_formed};

    ghost Value = { List (List ℕ) };

    ghost view = { λ r. r.places.now };

    ghost invariant = { λ r. list_all record_formed r.places.now ≡ true };
}

impl<'a> SignedRecords<'a> {
    /// The records that these places are known to hold.
    pub fn of(places: &'a [[u8; PLACE_SIZE]]) -> SignedRecords<'a>
        requires { list_all record_formed places.now ≡ true }
        ensures { result ≡ places.now }
    {
        SignedRecords { places }
    }
}

impl<'a> Iterator for SignedRecords<'a> {
    type Item = SignedRecord<'a>;

    ghost next_gives = { YieldsFirst (λ r. r) };

    ghost remaining = { item_count (λ r. r) };

    fn next(&mut self) -> Option<SignedRecord<'a>> {
        let places = self.places;
        let Some((bytes, rest)) = places.split_first() else {
            return None;
        };
        self.places = rest;
        Some(SignedRecord { bytes })
    }
}
