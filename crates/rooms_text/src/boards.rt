//! How two boards differ, line by line.

ghost use Rattle.std.specs.Prelude.{◌≡◌, ◌+◌, ◌≤◌, ◌<◌, ◌==◌, ◌++◌, length, count_by, OnOk};
ghost use Rattle.octets.specs.Put.{Put};
ghost use Rattle.text.specs.Texts.{append};
ghost use Rattle.rooms_text.specs.Boards as B;

use crate::lines::{Room, push_letter};
use session_lines::split_once;
use session_text::from_line;
use std::alloc::AllocError;
use text::Text;

// What a line of a board begins with at most, before its own text.
const PREFIX_SIZE: usize = 64;

// How many lines a text has.
fn line_count(text: &[u8]) -> usize
    ensures { result ≡ B.line_count text.now }
{
    text.iter().filter(|byte| **byte == b'\n').count()
}

// What stands before the first line feed; nothing, where there is none.
fn first_line(text: &[u8]) -> &[u8]
    ensures { result.now ≡ B.first_line text.now }
{
    match split_once(text, b'\n') {
        Some((line, _)) => line,
        None => &[],
    }
}

// The line of this number, from 1, without its line feed; nothing, where there is none.
fn line_at(text: &[u8], number: usize) -> &[u8]
    ensures { result.now ≡ B.line_at number text.now }
{
    first_line(from_line(text, number))
}

#[tactic(auto, unfolding(octets::specs::Ascii::ascii))]
fn push_prefix(out: &mut Text, room: Room, number: usize)
    ensures { out.new ≡ append out.old (B.prefix room number) }
{
    out.push_str("board=");
    push_letter(out, room);
    out.push_field(" line=", &(number as u64));
    out.push_str(" ");
}

// What a line of a room's board begins with, at the start of a buffer; the answer is its length.
fn write_prefix(out: &mut [u8; PREFIX_SIZE], room: Room, number: usize) -> usize
    ensures { (result ≤ PREFIX_SIZE) × Put out.old 0 (B.prefix room number) result out.new }
{
    let mut text = Text::new(out);
    push_prefix(&mut text, room, number);
    text.len()
}

// A line of a room's board, if there is one of this number.
fn push_board_line(
    out: &mut Vec<u8>,
    room: Room,
    number: usize,
    line: &[u8],
) -> Result<(), AllocError>
    ensures { OnOk result (out.new.items ≡ out.old.items ++ B.board_line room number line.now) }
{
    if line.is_empty() {
        return Ok(());
    }
    let mut prefix = [0u8; PREFIX_SIZE];
    let n = write_prefix(&mut prefix, room, number);
    out.extend_from_slice(&prefix[..n])?;
    out.extend_from_slice(line)?;
    out.extend_from_slice(b"\n")
}

// The lines of this number of both boards, where they differ.
fn push_difference(out: &mut Vec<u8>, a: &[u8], b: &[u8], number: usize) -> Result<(), AllocError>
    ensures { OnOk result (out.new.items ≡ out.old.items ++ B.difference a.now b.now number) }
{
    let first = line_at(a, number);
    let second = line_at(b, number);
    if octets::order::equal(first, second) {
        return Ok(());
    }
    push_board_line(out, Room::A, number, first)?;
    push_board_line(out, Room::B, number, second)
}

fn push_differences(out: &mut Vec<u8>, a: &[u8], b: &[u8]) -> Result<(), AllocError>
    ensures { OnOk result (out.new.items ≡ out.old.items ++ B.differences a.now b.now) }
{
    let count = line_count(a).max(line_count(b));
    for index in 0..count {
        push_difference(out, a, b, index + 1)?;
    }
    Ok(())
}

/// Appends whether two boards are equal, and the lines in which they differ.
#[tactic(auto, unfolding(octets::specs::Ascii::ascii))]
pub fn push_boards(out: &mut Vec<u8>, a: &[u8], b: &[u8]) -> Result<(), AllocError>
    ensures { OnOk result (out.new.items ≡ out.old.items ++ B.boards_text a.now b.now) }
{
    if octets::order::equal(a, b) {
        return out.extend_from_slice(b"boards=equal\n");
    }
    out.extend_from_slice(b"boards=different\n")?;
    push_differences(out, a, b)
}
