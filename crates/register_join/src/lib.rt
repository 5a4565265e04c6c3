//! Registers that merge: what two rooms hold together, and what one of them lacks.
//!
//! A join depends on no order: it holds what one register would that had got the calls of both (docs/REFERENCE.md, 'Join').
#![tactic(auto)]

ghost use Rattle.std.specs.Prelude.{◌≡◌};
ghost use Rattle.errors.specs.After.{after};
ghost use Rattle.errors.specs.Errors.{answer_number};
ghost use Rattle.register_join.specs.Join.{join_memory};
ghost use Rattle.register_join.specs.Lacks.{lacks_memory};

use errors::Error;
use register::formed::well_formed;
use register::layout::REGISTER_SIZE;

pub mod claims;
pub mod lack;
pub mod parts;
pub mod records;
pub mod refusals;
pub mod summaries;
pub mod together;
pub mod walk;

/// Joins to a register what another holds: the convicted engines of both, and of both the summaries and the records, each with the signers
/// that it has in either, without those of convicted engines. `other` is only read.
///
/// `Malformed` where either is no register, `Full` where that is more than 96 records or 256 summaries; then no byte is changed.
pub fn join(memory: &mut [u8], other: &[u8]) -> Result<(), Error>
    ensures { after (answer_number result) memory.new ≡ join_memory other.now memory.old }
{
    if !well_formed(memory) || !well_formed(other) {
        return Err(Error::Malformed);
    }
    let mut joined = parts::fresh();
    together::write(memory, other, &mut joined)?;
    memory.copy_from_slice(&joined);
    Ok(())
}

/// Writes into the first 37,256 bytes of `out` what another register holds and this one does not, which is a register too. Both are only
/// read.
///
/// `Malformed` where either is no register, `SmallOutput` where `out` is smaller; then no byte is changed.
pub fn lacks(memory: &[u8], other: &[u8], out: &mut [u8]) -> Result<(), Error>
    ensures { after (answer_number result) out.new ≡ lacks_memory other.now memory.now out.old }
{
    if !well_formed(other) || !well_formed(memory) {
        return Err(Error::Malformed);
    }
    if out.len() < REGISTER_SIZE {
        return Err(Error::SmallOutput);
    }
    let (front, _) = out.split_at_mut(REGISTER_SIZE);
    lack::write(memory, other, front);
    Ok(())
}
