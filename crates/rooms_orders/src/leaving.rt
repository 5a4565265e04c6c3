//! What a list of calls leaves of a fresh register, and of a fresh track and its shelf, as text.

ghost use Rattle.std.specs.Prelude.{◌≡◌, ◌&&◌, not, eqb, map, length, IfOk, OnOk};
ghost use Rattle.errors.specs.Errors.{answer_number};
ghost use Rattle.fix_lines.specs.Text.{board_size};
ghost use Rattle.register.specs.Memory.{fresh};
ghost use Rattle.register.specs.Calls.{runs, none_full};
ghost use Rattle.track.specs.Calls as T;
ghost use Rattle.orders.specs.Claims.{track_calls};
ghost use Rattle.session_lines.specs.Gives.{call_of};
ghost use Rattle.rooms_orders.specs.Tried as O;

use crate::texts;
use board::BOARD_SIZE;
use desks::Desk;
use errors::{Error, value_or_number};
use register::layout::REGISTER_SIZE;
use register::view::View;
use session_lines::Call;
use std::alloc::{AllocError, Global};
use track_memory::layout::TRACK_SIZE;
use track_shelf::layout::SHELF_SIZE;

// Whether none is refused as full, after a further call.
fn still(none_full: bool, answer: Result<(), Error>) -> bool
    ensures { result ≡ (none_full && not (eqb (answer_number answer) 5)) }
{
    none_full && !matches!(answer, Err(Error::Full))
}

fn text_buffer() -> [u8; BOARD_SIZE]
    ensures { length result ≡ board_size }
{
    [0; BOARD_SIZE]
}

// Makes calls on a register; whether none of them is refused as full.
fn perform_all(memory: &mut [u8], calls: &[Call]) -> bool
    ensures left { memory.new ≡ runs memory.old (map call_of calls.now) }
    ensures none_full { result ≡ none_full memory.old (map call_of calls.now) }
{
    let mut none_full = true;
    for call in calls {
        let answer = session_text::perform(memory, call);
        none_full = still(none_full, answer);
    }
    none_full
}

// Makes a call on a track and its shelf.
fn perform_on_track(memory: &mut [u8], shelf: &mut [u8], call: &Call)
    ensures { (memory.new, shelf.new) ≡ T.runs (memory.old, shelf.old) (track_calls (O.one (call_of call.now))) }
{
    match call {
        Call::Summary {
            engine,
            model,
            spec,
            inputs,
        } => {
            let _ = track::summaries::summary(
                memory,
                shelf,
                *engine as u32,
                *model as u32,
                *spec,
                inputs,
            );
        }
        Call::Conviction { engine } => {
            let _ = track::convictions::conviction(memory, shelf, *engine as u32);
        }
        Call::Report { engine, fields } => {
            let _ = track::reports::report(memory, shelf, *engine as u32, &fields.bytes());
        }
    }
}

// Makes calls on a track and its shelf.
fn perform_all_on_track(memory: &mut [u8], shelf: &mut [u8], calls: &[Call])
    ensures { (memory.new, shelf.new) ≡ T.runs (memory.old, shelf.old) (track_calls (map call_of calls.now)) }
{
    for call in calls {
        perform_on_track(memory, shelf, call);
    }
}

// Adds the board that calls leave of a fresh register, as a manager sees it; whether none of them is refused as full.
pub fn add_board(
    alloc: Global,
    boards: &mut Vec<Vec<u8>>,
    calls: &[Call],
) -> Result<bool, AllocError>
    ensures none_full { IfOk result (λ b. b ≡ none_full fresh (map call_of calls.now)) }
    ensures added { OnOk result (O.texts_of boards.new ≡ O.with_text (O.board_after (map call_of calls.now)) (O.texts_of boards.old)) }
{
    let mut memory = [0; REGISTER_SIZE];
    let none_full = perform_all(&mut memory, calls);
    let mut out = text_buffer();
    let n = board::write(Desk::Manager, &View::of(&memory), &mut out);
    texts::add(alloc, boards, &out[..n])?;
    Ok(none_full)
}

// Adds the listing that calls leave of a fresh track.
pub fn add_listing(
    alloc: Global,
    listings: &mut Vec<Vec<u8>>,
    calls: &[Call],
) -> Result<(), AllocError>
    ensures { OnOk result (O.texts_of listings.new ≡ O.with_text (O.listing_after (map call_of calls.now)) (O.texts_of listings.old)) }
{
    let mut memory = [0; TRACK_SIZE];
    let mut shelf = [0; SHELF_SIZE];
    perform_all_on_track(&mut memory, &mut shelf, calls);
    let mut out = text_buffer();
    // It is a track, and every listing fits.
    let n = value_or_number(track_listing::listing(&memory, &mut out)) as usize;
    texts::add(alloc, listings, &out[..n])
}
