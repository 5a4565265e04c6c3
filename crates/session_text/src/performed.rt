//! A session performed on a register of the caller's, and why one is refused.

ghost use Rattle.std.specs.Prelude.{◌≡◌, ◌&&◌, leb, length, is_ok};
ghost use Rattle.errors.specs.After.{after};
ghost use Rattle.register.specs.Memory.{well_formed};
ghost use Rattle.session_text.specs.Output.{calls_of};
ghost use Rattle.session_text.specs.Performed.{refusal_number, answers_size, perform_session, write_reason};
ghost use Rattle.session_text.specs.Numbers.{unperformed_number, performed_number};

use crate::reasons::REASON_SIZE;
use crate::refusals::{Refusal, check};
use crate::{MAX_INPUT, write_answers};
use errors::Error;
use register::view::View;

/// The least output that the answers of a session are written to: each is shorter than its operation.
pub const ANSWERS_SIZE: usize = MAX_INPUT;

/// Why a session is not performed on a register.
#[derive(Clone, Copy)]
pub enum Unperformed {
    /// The memory is no register, or the output is too small.
    Error(Error),
    /// The session is refused.
    Refusal(Refusal),
}

impl Refusal {
    /// The number by which other products know it.
    pub fn number(self) -> u32
        ensures { result ≡ refusal_number self }
    {
        match self {
            Refusal::TooLong => 12,
            Refusal::BadLine(_) => 11,
        }
    }
}

impl Unperformed {
    /// The number by which other products know it.
    pub fn number(self) -> u32
        ensures { result ≡ unperformed_number self }
    {
        match self {
            Unperformed::Error(error) => error.number(),
            Unperformed::Refusal(refusal) => refusal.number(),
        }
    }
}

/// The number of an answer: how many bytes were written, or why the session is not performed.
pub fn performed_number(answer: Result<u32, Unperformed>) -> u32
    ensures { result ≡ performed_number answer }
{
    match answer {
        Ok(length) => length,
        Err(why) => why.number(),
    }
}

/// Performs a session on the register in any bytes, as a manager, and writes the answers of its operations to the start of `out`: how many bytes
/// they have. Refused, in this order, as `Malformed` where the bytes are no register, as the session is, and as `SmallOutput` where `out` has less
/// than `ANSWERS_SIZE` bytes; then neither changes.
pub fn perform_on(memory: &mut [u8], input: &[u8], out: &mut [u8]) -> Result<u32, Unperformed>
    ensures session { after (performed_number result) (memory.new, out.new) ≡ perform_session input.now memory.old out.old }
    ensures done { is_ok result ≡ (well_formed memory.old && (is_ok (calls_of input.now) && leb answers_size (length out.old))) }
{
    if let Err(error) = View::parse(memory) {
        return Err(Unperformed::Error(error));
    }
    if let Err(refusal) = check(input) {
        return Err(Unperformed::Refusal(refusal));
    }
    if out.len() < ANSWERS_SIZE {
        return Err(Unperformed::Error(Error::SmallOutput));
    }
    Ok(write_answers(input, memory, out) as u32)
}

/// Why a session is refused, in a sentence at the start of `out`: how many bytes it has, 0 where the session is not refused.
pub fn reason(input: &[u8], out: &mut [u8; REASON_SIZE]) -> u32
    ensures { after result out.new ≡ write_reason input.now out.old }
{
    match check(input) {
        Ok(()) => 0,
        Err(refusal) => refusal.write_reason(input, out) as u32,
    }
}
