//! What is said of two rooms.

ghost use Rattle.std.specs.Prelude.{◌≡◌, ◌≤◌, ◌++◌, true, length, IfOk, OnOk};
ghost use Rattle.octets.specs.Put.{Put};
ghost use Rattle.fix_lines.specs.Text.{board_size};
ghost use Rattle.register.specs.Layout.{register_size};
ghost use Rattle.register.specs.Memory.{well_formed, decode};
ghost use Rattle.register_join.specs.Lacks.{lacking};
ghost use Rattle.board.specs.Full.{board_in};
ghost use Rattle.rooms_text.specs.Lacking.{lacking_text};
ghost use Rattle.rooms_text.specs.Boards.{boards_text};
ghost use Rattle.rooms_text.specs.Compared as C;

use crate::boards::push_boards;
use crate::lacking::push_lacking;
use crate::lines::Room;
use board::BOARD_SIZE;
use desks::Desk;
use register::layout::{REGISTER_SIZE, SUMMARY_COUNT_AT};
use register::view::View;
use std::alloc::{AllocError, Global};

/// What is said of two rooms.
#[derive(Drop)]
pub struct Compared {
    /// What each lacks, whether their registers are equal, whether their boards are, and how these differ.
    pub text: Vec<u8>,
    /// Whether their registers are equal but for the convicted set.
    pub equal: bool,
}

fn register_buffer() -> [u8; REGISTER_SIZE]
    ensures { length result ≡ register_size }
{
    [0; REGISTER_SIZE]
}

fn board_buffer() -> [u8; BOARD_SIZE]
    ensures { length result ≡ board_size }
{
    [0; BOARD_SIZE]
}

// A line for each call that a room lacks and the other holds.
fn push_lacks(
    out: &mut Vec<u8>,
    room: Room,
    memory: &[u8; REGISTER_SIZE],
    other: &[u8; REGISTER_SIZE],
) -> Result<(), AllocError>
    requires own { well_formed memory.now ≡ true }
    requires others { well_formed other.now ≡ true }
    ensures { OnOk result (out.new.items ≡ out.old.items ++ lacking_text room (lacking (decode other.now) (decode memory.now))) }
{
    let mut lacked = register_buffer();
    // Both are registers, and the output has the size of one: so it is done.
    let _ = register_join::lacks(memory, other, &mut lacked);
    push_lacking(out, room, &View::of(&lacked))
}

// Whether two registers are equal but for their convicted sets.
fn is_equal(a: &[u8; REGISTER_SIZE], b: &[u8; REGISTER_SIZE]) -> bool
    ensures { result ≡ C.is_equal a.now b.now }
{
    octets::order::equal(
        a.split_at(SUMMARY_COUNT_AT).1,
        b.split_at(SUMMARY_COUNT_AT).1,
    )
}

fn push_equal(out: &mut Vec<u8>, equal: bool) -> Result<(), AllocError>
    ensures { OnOk result (out.new.items ≡ out.old.items ++ C.equal_line equal) }
{
    if equal {
        out.extend_from_slice(b"registers=equal\n")
    } else {
        out.extend_from_slice(b"registers=different\n")
    }
}

// The board of a register for a manager, at the start of a buffer; the answer is its length.
fn write_board(register: &View<'_>, out: &mut [u8; BOARD_SIZE]) -> usize
    ensures text { Put out.old 0 (board_in register.now) result out.new }
    ensures fits { result ≤ board_size }
{
    board::write(Desk::Manager, register, out)
}

// Whether the boards of two registers are equal, and the lines in which they differ.
fn push_boards_of(out: &mut Vec<u8>, a: &View<'_>, b: &View<'_>) -> Result<(), AllocError>
    ensures { OnOk result (out.new.items ≡ out.old.items ++ boards_text (board_in a.now) (board_in b.now)) }
{
    let mut first = board_buffer();
    let mut second = board_buffer();
    let n = write_board(a, &mut first);
    let k = write_board(b, &mut second);
    push_boards(out, &first[..n], &second[..k])
}

/// Compares the registers of two rooms.
pub fn compare(
    alloc: Global,
    a: &[u8; REGISTER_SIZE],
    b: &[u8; REGISTER_SIZE],
) -> Result<Compared, AllocError>
    requires first { well_formed a.now ≡ true }
    requires second { well_formed b.now ≡ true }
    ensures text { IfOk result (λ c. c.text.items ≡ C.compared a.now b.now) }
    ensures equal { IfOk result (λ c. c.equal ≡ C.is_equal a.now b.now) }
{
    let mut text = Vec::new(alloc);
    push_lacks(&mut text, Room::A, a, b)?;
    push_lacks(&mut text, Room::B, b, a)?;
    let equal = is_equal(a, b);
    push_equal(&mut text, equal)?;
    push_boards_of(&mut text, &View::of(a), &View::of(b))?;
    Ok(Compared { text, equal })
}
