//! A track and the shelf beside it where they lie, which are only read.

ghost use Rattle.std.specs.Prelude.{◌≡◌, Ok, Err, cond};
ghost use Rattle.errors.specs.declared.Error.TheVariants.{Malformed};
ghost use Rattle.track_shelf.specs.Both.{both_formed, decode_both};

use crate::view::Shelf;
use errors::Error;
use std::marker::Model;
use track_memory::view::View;

/// Borrowed bytes that are a track and its shelf. In a contract it is what they hold.
#[derive(Drop)]
pub struct Both<'a> {
    pub track: View<'a>,
    pub shelf: Shelf<'a>,
}

impl<'a> Model for Both<'a> {
    ghost use Rattle.track_shelf.specs.Both as B;

    ghost Value = { B.Both };

    ghost view = { λ b. record { track = b.track; shelf = b.shelf } };
}

impl<'a> Both<'a> {
    /// The track and the shelf that these bytes are, if they are; else `Malformed`.
    pub fn parse(memory: &'a [u8], shelf: &'a [u8]) -> Result<Both<'a>, Error>
        ensures { result ≡ cond (both_formed memory.now shelf.now) (Ok (decode_both memory.now shelf.now)) (Err Malformed) }
    {
        let track = View::parse(memory)?;
        let shelf = Shelf::parse(shelf, track.convicted(), track.summaries())?;
        Ok(Both { track, shelf })
    }
}
