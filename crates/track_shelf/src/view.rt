//! A shelf where it lies, which is only read.

ghost use Rattle.std.specs.Prelude.{◌≡◌, ◌≤◌, true, Ok, Err, cond, length};
ghost use Rattle.models.specs.Answers.{summary_places};
ghost use Rattle.errors.specs.declared.Error.TheVariants.{Malformed};
ghost use Rattle.track_shelf.specs.Layout.{max_waiting};
ghost use Rattle.track_shelf.specs.Memory.{shelf_formed, decode_shelf};
ghost use Rattle.track_shelf.specs.Steps.{Sound};

use crate::Fixes;
use crate::formed::well_formed;
use crate::layout::{COUNT_AT, PLACE_SIZE, PLACES_AT, SHELF_SIZE};
use crate::waiting::Waiting;
use engines::Signers;
use errors::Error;
use models::summaries::Summaries;
use std::marker::Model;
use tables::table::places_of;

/// Borrowed bytes that are a shelf. In a contract it is the list of the fixes that wait in it.
#[derive(Drop)]
pub struct Shelf<'a> {
    bytes: &'a [u8; SHELF_SIZE],
}

impl<'a> Model for Shelf<'a> {
    ghost use Rattle.std.specs.Prelude.{List};
    ghost use Rattle.track_shelf.specs.Waiting as W;
    ghost use Rattle.track_shelf.specs.Memory.{decode_shelf};
    ghost use Rattle.track_shelf.specs.Steps.{Sound};

    ghost Value = { List W.Waiting };

    ghost view = { λ s. decode_shelf s.bytes.now };

    ghost invariant = { λ s. Sound s.bytes.now };
}

impl<'a> Shelf<'a> {
    /// The shelf that these bytes are beside a track with these engines convicted and these summaries, if they are one; else `Malformed`.
    pub fn parse(bytes: &'a [u8], convicted: Signers, all: Summaries) -> Result<Shelf<'a>, Error>
        ensures { result ≡ cond (shelf_formed convicted (summary_places all.entry) bytes.now) (Ok (decode_shelf bytes.now)) (Err Malformed) }
    {
        let Ok(bytes) = <&[u8; SHELF_SIZE]>::try_from(bytes) else {
            return Err(Error::Malformed);
        };
        if well_formed(bytes, convicted, all) {
            Ok(Shelf { bytes })
        } else {
            Err(Error::Malformed)
        }
    }

    /// The shelf that these bytes are known to be.
    pub fn of(bytes: &'a [u8]) -> Shelf<'a>
        requires { Sound bytes.now }
        ensures { result ≡ decode_shelf bytes.now }
    {
        Shelf {
            bytes: bytes.as_array().unwrap(),
        }
    }

    /// How many fixes wait.
    pub fn len(&self) -> usize
        ensures count { result ≡ length self.now }
        ensures few { result ≤ max_waiting }
    {
        self.bytes[COUNT_AT] as usize
    }

    /// The fixes that wait, in their order.
    pub fn fixes(&self) -> Fixes<'a>
        ensures { result.items ≡ self.now }
    {
        let bytes = self.bytes;
        let places = places_of::<PLACE_SIZE>(bytes.split_at(PLACES_AT).1, bytes[COUNT_AT] as usize);
        let mut fixes = Fixes::new();
        for place in places {
            fixes.push(Waiting::read(place));
        }
        fixes
    }
}
