//! The fixes of a board as values: an entry for each line of the full board, in the order of the lines.
#![tactic(auto)]

ghost use Rattle.std.specs.Prelude.{◌≡◌, true, ◌≤◌, ◌&&◌, leb, length, is_ok};
ghost use Rattle.octets.specs.Put.{Put};
ghost use Rattle.fixes.specs.Items.{AllFormed};
ghost use Rattle.board_fixes.specs.Order.{identities_ascend};
ghost use Rattle.errors.specs.After.{after};
ghost use Rattle.errors.specs.Errors.{value_or_number};
ghost use Rattle.register.specs.Memory.{well_formed};
ghost use Rattle.board_values.specs.Written.{fixes_size, fixes_in, write_fixes};
ghost use Rattle.board_values.specs.Drawn.{fixes_over};

use board_fixes::{Fix, Fixes, MAX_FIXES};
use board_picture::Picture;
use board_transmissions::Transmissions;
use errors::Error;
use register::view::View;

pub mod claims;
pub mod entries;
mod texts;

/// The least output that a board's fixes are written to: room for an entry of each of 96.
pub const FIXES_SIZE: usize = 4704;

// The most transmissions on a board.
const MAX_SHOWN: usize = 8;

// Writes the entries of fixes. A function of its own, since room for a picture is cleared first.
#[inline(never)]
fn draw_fixes(register: &View<'_>, fixes: &[Fix<'_>], out: &mut [u8]) -> usize
    requires few { length fixes.now ≤ MAX_FIXES }
    requires formed { AllFormed fixes.now }
    requires in_order { identities_ascend fixes.now ≡ true }
    requires room { length (fixes_over register.now.records fixes.now) ≤ length out.old }
    ensures { Put out.old 0 (fixes_over register.now.records fixes.now) result out.new }
{
    let transmissions = Transmissions::of(fixes);
    let mut picture = Picture::new();
    picture.fill(&transmissions);
    let start = picture.len().saturating_sub(MAX_SHOWN);
    texts::write_latest(register, out, &picture, start)
}

/// Writes the fixes of a register's board at the start of `out`: how many bytes they have.
pub fn write(register: &View<'_>, out: &mut [u8]) -> usize
    requires room { fixes_size ≤ length out.old }
    ensures fixes { Put out.old 0 (fixes_in register.now) result out.new }
    ensures fits { length (fixes_in register.now) ≤ fixes_size }
{
    let mut fixes = Fixes::new();
    board_fixes::represent(register, &mut fixes);
    if fixes.is_empty() {
        return 0;
    }
    draw_fixes(register, &fixes, out)
}

/// Writes the fixes of the board of a register in any bytes: how many bytes they have. `Malformed` where the bytes are no register, then
/// `SmallOutput` where `out` has less than `FIXES_SIZE` bytes.
pub fn fixes(memory: &[u8], out: &mut [u8]) -> Result<u32, Error>
    ensures fixes { after (value_or_number result) out.new ≡ write_fixes memory.now out.old }
    ensures done { is_ok result ≡ (well_formed memory.now && leb fixes_size (length out.old)) }
{
    let register = View::parse(memory)?;
    if out.len() < FIXES_SIZE {
        return Err(Error::SmallOutput);
    }
    Ok(write(&register, out) as u32)
}
