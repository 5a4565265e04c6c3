//! A register turned for an archive, so that like bytes of all its places stand together, and turned back.
//!
//! Nothing is asked of what the bytes mean: all 96 places are turned, those in use and the others.
#![tactic(auto)]

ghost use Rattle.std.specs.Prelude.{◌≡◌, ◌*◌, ◌<◌, length};
ghost use Rattle.errors.specs.After.{after};
ghost use Rattle.errors.specs.Errors.{answer_number};
ghost use Rattle.register.specs.Layout.{records_size};
ghost use Rattle.register_columns.specs.Transposed.{column, transposed};
ghost use Rattle.register_columns.specs.Columns.{turned, columns, uncolumns, rearrange};

use errors::Error;
use register::layout::{MAX_RECORDS, RECORDS_AT, REGISTER_SIZE};
use signed_records::PLACE_SIZE;

pub mod claims;

// Byte j of each row.
fn gather(rows: &[u8], width: usize, j: usize, out: &mut [u8])
    requires whole { length rows.now ≡ length out.old * width }
    requires within { j < width }
    ensures { out.new ≡ column (length out.old) width rows.now j }
{
    for i in 0..out.len() {
        out[i] = rows[i * width + j];
    }
}

// The rows, turned.
#[inline(always)]
fn transpose(from: &[u8], rows: usize, width: usize, to: &mut [u8])
    requires from { length from.now ≡ rows * width }
    requires to { length to.old ≡ rows * width }
    ensures { to.new ≡ transposed rows width from.now }
{
    for j in 0..width {
        gather(from, width, j, &mut to[j * rows..j * rows + rows]);
    }
}

// The head copied, and the places turned as rows of that width.
#[inline(always)]
fn turn(from: &[u8], rows: usize, width: usize, to: &mut [u8]) -> Result<(), Error>
    requires { rows * width ≡ records_size }
    ensures { after (answer_number result) to.new ≡ rearrange (turned rows width) from.now to.old }
{
    if from.len() != REGISTER_SIZE || to.len() != REGISTER_SIZE {
        return Err(Error::OtherLength);
    }
    let (head, places) = from.split_at(RECORDS_AT);
    let (front, back) = to.split_at_mut(RECORDS_AT);
    front.copy_from_slice(head);
    transpose(places, rows, width, back);
    Ok(())
}

/// Writes the bytes of `from` with the first byte of each of its 96 places together, then the second of each, and so on. Its first
/// 9,224 bytes are copied as they are. Both have the length of a register, or nothing is written.
pub fn columns(from: &[u8], to: &mut [u8]) -> Result<(), Error>
    ensures { after (answer_number result) to.new ≡ rearrange columns from.now to.old }
{
    turn(from, MAX_RECORDS, PLACE_SIZE, to)
}

/// Undoes `columns`, and is undone by it.
pub fn uncolumns(from: &[u8], to: &mut [u8]) -> Result<(), Error>
    ensures { after (answer_number result) to.new ≡ rearrange uncolumns from.now to.old }
{
    turn(from, PLACE_SIZE, MAX_RECORDS, to)
}
