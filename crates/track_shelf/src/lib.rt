//! The shelf beside a track: fixes that wait for the summary of a model that they cite, in 18,561 lent bytes.
//!
//! A shelf is read as a list of `Waiting`, changed as one, and written back. One fix more at its end is written where it goes.
#![tactic(auto)]

ghost use Rattle.std.specs.Prelude.{◌≡◌, ◌≤◌, ◌<◌, ◌++◌, ◌∷◌, ◌*◌, [], length, map};
ghost use Rattle.tables.specs.Places.{table_of};
ghost use Rattle.track_shelf.specs.Layout.{shelf_size, max_waiting, place_size};
ghost use Rattle.track_shelf.specs.Memory.{decode_shelf, encode_shelf, waiting_count, waiting_bytes};
ghost use Rattle.track_shelf.specs.Steps.{Sound};

pub mod both;
mod formed;
pub mod layout;
pub mod parts;
mod stated;
pub mod view;
pub mod waiting;

use crate::layout::{COUNT_AT, MAX_WAITING, PLACE_SIZE, PLACES_AT, SHELF_SIZE};
use crate::waiting::Waiting;
use arrayvec::ArrayVec;

/// The fixes of a shelf, in their order.
pub type Fixes<'a> = ArrayVec<Waiting<'a>, MAX_WAITING>;

/// A copy of a shelf's bytes.
pub fn copy_of(shelf: &[u8]) -> [u8; SHELF_SIZE]
    requires { length shelf.now ≡ shelf_size }
    ensures { result ≡ shelf.now }
{
    *shelf.as_array().unwrap()
}

/// Puts a fix at the end of a shelf that has room.
pub fn push(shelf: &mut [u8], fix: &Waiting<'_>)
    requires sound { Sound shelf.old }
    requires room { waiting_count shelf.old < max_waiting }
    ensures { shelf.new ≡ encode_shelf (decode_shelf shelf.old ++ (fix.now ∷ [])) }
{
    let count = shelf[COUNT_AT];
    fix.put(shelf, PLACES_AT + count as usize * PLACE_SIZE);
    shelf[COUNT_AT] = count + 1;
}

// Writes the places of these fixes, and zeros behind them.
fn write_places(places: &mut [u8], fixes: &[Waiting<'_>])
    requires size { length places.old ≡ max_waiting * place_size }
    requires few { length fixes.now ≤ max_waiting }
    ensures { places.new ≡ table_of place_size max_waiting (map waiting_bytes fixes.now) }
{
    octets::runs::clear(places);
    let mut at = 0;
    for fix in fixes {
        at = fix.put(places, at);
    }
}

/// Writes a shelf: these fixes, and zeros behind them.
pub fn write(shelf: &mut [u8], fixes: &[Waiting<'_>])
    requires size { length shelf.old ≡ shelf_size }
    requires few { length fixes.now ≤ max_waiting }
    ensures { shelf.new ≡ encode_shelf fixes.now }
{
    let (count, places) = shelf.split_at_mut(PLACES_AT);
    count[COUNT_AT] = fixes.len() as u8;
    write_places(places, fixes);
}
