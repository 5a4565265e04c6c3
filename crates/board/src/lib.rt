//! The board of a register: what a control room sees, the same for every order in which reports came.
#![tactic(auto)]

ghost use Rattle.std.specs.Prelude.{◌≡◌, true, ◌≤◌, ◌&&◌, eqb, leb, length, is_ok};
ghost use Rattle.octets.specs.Put.{Put};
ghost use Rattle.fixes.specs.Items.{AllFormed};
ghost use Rattle.board_fixes.specs.Order.{identities_ascend};
ghost use Rattle.fix_lines.specs.Text.{board_size};
ghost use Rattle.errors.specs.After.{after};
ghost use Rattle.errors.specs.Errors.{value_or_number};
ghost use Rattle.register.specs.Memory.{well_formed};
ghost use Rattle.desks.specs.Desks.{number_of};
ghost use Rattle.desks.specs.Previewing.{may_preview};
ghost use Rattle.board.specs.Board.{board_seen, draw_board};
ghost use Rattle.board.specs.Preview.{convict, draw_preview};
ghost use Rattle.board.specs.Latest.{latest_over, text_for, drawn};

use board_fixes::{Fix, Fixes, MAX_FIXES};
use board_picture::Picture;
use board_transmissions::Transmissions;
use desks::Desk;
use errors::Error;
use register::layout::REGISTER_SIZE;
use register::view::View;

pub mod claims;
mod texts;

/// The least output that a board is written to: every board fits.
pub const BOARD_SIZE: usize = 16384;

// The most transmissions on a board.
const MAX_SHOWN: usize = 8;

// Writes the board of fixes for a desk. A function of its own, since room for a picture is cleared first.
#[inline(never)]
fn draw_fixes(desk: Desk, fixes: &[Fix<'_>], out: &mut [u8]) -> usize
    requires few { length fixes.now ≤ MAX_FIXES }
    requires formed { AllFormed fixes.now }
    requires in_order { identities_ascend fixes.now ≡ true }
    requires room { length (text_for desk 1 (latest_over fixes.now)) ≤ length out.old }
    ensures { Put out.old 0 (text_for desk 1 (latest_over fixes.now)) result out.new }
{
    let transmissions = Transmissions::of(fixes);
    let mut picture = Picture::new();
    picture.fill(&transmissions);
    let start = picture.len().saturating_sub(MAX_SHOWN);
    texts::write_latest(desk, out, &picture, start)
}

/// Writes the board of a register for a desk at the start of `out`: its length, which is 0 where nothing is shown.
pub fn write(desk: Desk, register: &View<'_>, out: &mut [u8]) -> usize
    requires room { board_size ≤ length out.old }
    ensures board { Put out.old 0 (board_seen desk register.now) result out.new }
    ensures fits { length (board_seen desk register.now) ≤ board_size }
{
    let mut fixes = Fixes::new();
    board_fixes::represent(register, &mut fixes);
    if fixes.is_empty() {
        return 0;
    }
    draw_fixes(desk, &fixes, out)
}

/// The board of a register for a desk: its length.
pub fn draw(desk: Desk, register: &View<'_>, out: &mut [u8]) -> Result<u32, Error>
    ensures board { after (value_or_number result) out.new ≡ drawn desk register.now out.old }
    ensures done { is_ok result ≡ leb board_size (length out.old) }
{
    if out.len() < BOARD_SIZE {
        return Err(Error::SmallOutput);
    }
    Ok(write(desk, register, out) as u32)
}

/// The board of a register in any bytes, for a desk: its length.
pub fn board(desk: Desk, memory: &[u8], out: &mut [u8]) -> Result<u32, Error>
    ensures board { after (value_or_number result) out.new ≡ draw_board (number_of desk) memory.now out.old }
    ensures done { is_ok result ≡ (well_formed memory.now && leb board_size (length out.old)) }
{
    draw(desk, &View::parse(memory)?, out)
}

/// The board of a register in any bytes as it would be if an engine were convicted, for a desk that may preview: its length. The engine is
/// convicted on a copy, and the copy drawn, as a manager does it; the copy is well-formed then and is not tested again.
pub fn preview(desk: Desk, memory: &[u8], engine: u32, out: &mut [u8]) -> Result<u32, Error>
    ensures preview { after (value_or_number result) out.new ≡ draw_preview (number_of desk) engine memory.now out.old }
    ensures done { is_ok result ≡ (may_preview desk && (eqb (convict engine memory.now).answer 0 && leb board_size (length out.old))) }
{
    if !desk.may_preview() {
        return Err(Error::NoRight);
    }
    let Ok(bytes) = <&[u8; REGISTER_SIZE]>::try_from(memory) else {
        return Err(Error::Malformed);
    };
    let mut copied = *bytes;
    register::convictions::conviction(Desk::Manager, &mut copied, engine)?;
    draw(Desk::Manager, &View::of(&copied), out)
}
