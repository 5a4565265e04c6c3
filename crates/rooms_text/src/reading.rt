//! The register that a file holds: a saved register, or a session, whose calls are made on a fresh one.

ghost use Rattle.std.specs.Prelude.{◌≡◌, true, OnOk};
ghost use Rattle.register.specs.Memory.{well_formed};
ghost use Rattle.register.specs.Calls.{runs};
ghost use Rattle.session_lines.specs.Session.{at_start, calls_from};
ghost use Rattle.rooms_text.specs.Reading as R;

use register::layout::REGISTER_SIZE;
use session_lines::Lines;

/// Why there is no register in a file.
#[derive(Clone, Copy)]
pub enum Refusal {
    /// It has as many bytes as a register, and they are none.
    NoRegister,
    /// It is a session that is refused.
    Session(session_text::Refusal),
}

// Makes the calls of a session up to its first bad line.
fn perform_all(memory: &mut [u8], input: &[u8])
    ensures { memory.new ≡ runs memory.old (calls_from (at_start input.now)) }
{
    let mut lines = Lines::new(input);
    while let Ok(call) = lines.operation() {
        let _ = session_text::perform(memory, &call);
    }
}

// The register that was saved.
fn read_saved(input: &[u8; REGISTER_SIZE], memory: &mut [u8; REGISTER_SIZE]) -> Result<(), Refusal>
    ensures answer { result ≡ R.answer_of (R.saved_in input.now) }
    ensures left { memory.new ≡ R.left_by (R.saved_in input.now) memory.old }
    ensures formed { OnOk result (well_formed memory.new ≡ true) }
{
    if !register::formed::well_formed(input) {
        return Err(Refusal::NoRegister);
    }
    *memory = *input;
    Ok(())
}

// The register that a session leaves.
fn read_session(input: &[u8], memory: &mut [u8; REGISTER_SIZE]) -> Result<(), Refusal>
    ensures answer { result ≡ R.answer_of (R.session_in input.now) }
    ensures left { memory.new ≡ R.left_by (R.session_in input.now) memory.old }
    ensures formed { OnOk result (well_formed memory.new ≡ true) }
{
    match session_text::check(input) {
        Ok(()) => {
            *memory = [0; REGISTER_SIZE];
            perform_all(memory, input);
            Ok(())
        }
        Err(refusal) => Err(Refusal::Session(refusal)),
    }
}

/// Reads the register that a file's bytes hold: a saved register where there are as many bytes as one has, else a session, made on a fresh
/// register. A refusal leaves `memory` as it was.
pub fn read(input: &[u8], memory: &mut [u8; REGISTER_SIZE]) -> Result<(), Refusal>
    ensures answer { result ≡ R.answer_of (R.held_in input.now) }
    ensures left { memory.new ≡ R.left_by (R.held_in input.now) memory.old }
    ensures formed { OnOk result (well_formed memory.new ≡ true) }
{
    match <&[u8; REGISTER_SIZE]>::try_from(input) {
        Ok(saved) => read_saved(saved, memory),
        Err(_) => read_session(input, memory),
    }
}
