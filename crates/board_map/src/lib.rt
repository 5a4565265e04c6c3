//! The map of a register: what a control room sees, as points that any program for maps can show.
#![tactic(auto)]

ghost use Rattle.std.specs.Prelude.{◌≡◌, true, ◌≤◌, ◌&&◌, leb, length, is_ok};
ghost use Rattle.octets.specs.Put.{Put};
ghost use Rattle.fixes.specs.Items.{AllFormed};
ghost use Rattle.board_fixes.specs.Order.{identities_ascend};
ghost use Rattle.errors.specs.After.{after};
ghost use Rattle.errors.specs.Errors.{value_or_number};
ghost use Rattle.register.specs.Memory.{well_formed};
ghost use Rattle.board_map.specs.Map.{map_size, map_in, draw_map};
ghost use Rattle.board_map.specs.Written.{map_over};

use board_fixes::{Fix, Fixes, MAX_FIXES};
use board_picture::Picture;
use board_transmissions::Transmissions;
use errors::Error;
use register::view::View;

pub mod claims;
mod points;
pub mod refusals;
mod texts;

/// The least output that a map is written to: every map fits.
pub const MAP_SIZE: usize = 4096;

// The most transmissions on a board.
const MAX_SHOWN: usize = 8;

// Writes the map of fixes. A function of its own, since room for a picture is cleared first.
#[inline(never)]
fn draw_fixes(fixes: &[Fix<'_>], out: &mut [u8]) -> usize
    requires few { length fixes.now ≤ MAX_FIXES }
    requires formed { AllFormed fixes.now }
    requires in_order { identities_ascend fixes.now ≡ true }
    requires room { length (map_over fixes.now) ≤ length out.old }
    ensures { Put out.old 0 (map_over fixes.now) result out.new }
{
    let transmissions = Transmissions::of(fixes);
    let mut picture = Picture::new();
    picture.fill(&transmissions);
    let start = picture.len().saturating_sub(MAX_SHOWN);
    texts::write_latest(out, &picture, start)
}

/// Writes the map of a register at the start of `out`: its length.
pub fn write(register: &View<'_>, out: &mut [u8]) -> usize
    requires room { map_size ≤ length out.old }
    ensures map { Put out.old 0 (map_in register.now) result out.new }
    ensures fits { length (map_in register.now) ≤ map_size }
{
    let mut fixes = Fixes::new();
    board_fixes::represent(register, &mut fixes);
    if fixes.is_empty() {
        return texts::write_none(out);
    }
    draw_fixes(&fixes, out)
}

/// The map of a register in any bytes: its length. `Malformed` where they are no register, then `SmallMap` where `out` has less than
/// `MAP_SIZE` bytes.
pub fn map(memory: &[u8], out: &mut [u8]) -> Result<u32, Error>
    ensures map { after (value_or_number result) out.new ≡ draw_map memory.now out.old }
    ensures done { is_ok result ≡ (well_formed memory.now && leb map_size (length out.old)) }
{
    let register = View::parse(memory)?;
    if out.len() < MAP_SIZE {
        return Err(Error::SmallMap);
    }
    Ok(write(&register, out) as u32)
}
