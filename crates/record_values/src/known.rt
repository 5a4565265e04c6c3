//! What a record is known by: its identity, and its model inputs in a register.

ghost use Rattle.std.specs.Prelude.{◌≡◌};
ghost use Rattle.errors.specs.After.{after};
ghost use Rattle.errors.specs.Errors.{answer_number};
ghost use Rattle.models.specs.Answers.{summary_places};
ghost use Rattle.record_values.specs.Known.{write_identity, inputs_among, write_inputs};
ghost use Rattle.record_values.specs.Numbers.{known_number};

use errors::Error;
use models::citations::{cited_inputs, first_missing};
use models::hashes::{HASH_SIZE, Inputs};
use models::identities;
use models::summaries::Summaries;
use record::Record;
use register::view::View;

/// What a register says of a record's models, where they are not refused.
#[derive(Clone, Copy)]
pub enum Known {
    /// Its model inputs, which were written.
    Inputs,
    /// It waits for a model that has no summary.
    Waiting,
}

/// The number of an answer: 0, 24 where the record waits, or the error's.
pub fn known_number(answer: Result<Known, Error>) -> u32
    ensures { result ≡ known_number answer }
{
    match answer {
        Ok(Known::Inputs) => 0,
        Ok(Known::Waiting) => 24,
        Err(error) => error.number(),
    }
}

/// Writes the identity of a record with these model inputs; `Error::NoRecord` where the bytes are none, and then nothing is written.
pub fn identity(
    bytes: &[u8],
    inputs: &[u8; HASH_SIZE],
    out: &mut [u8; HASH_SIZE],
) -> Result<(), Error>
    ensures { after (answer_number result) out.new ≡ write_identity bytes.now inputs.now out.old }
{
    let Some(record) = Record::parse(bytes) else {
        return Err(Error::NoRecord);
    };
    let set = identities::set_hash(record);
    let identity = identities::identity(&set, &Inputs(*inputs));
    *out = *identity.bytes();
    Ok(())
}

// Writes the model inputs of a record, where it counts by these summaries.
fn inputs_among(summaries: Summaries, r: Record, out: &mut [u8; HASH_SIZE]) -> Result<Known, Error>
    ensures { after (known_number result) out.new ≡ inputs_among (summary_places summaries.entry) r.entry.bytes.now out.old }
{
    if first_missing(summaries, r).is_some() {
        return Ok(Known::Waiting);
    }
    let Some(inputs) = cited_inputs(summaries, r) else {
        return Err(Error::ModelDisputed);
    };
    *out = *inputs.bytes();
    Ok(Known::Inputs)
}

/// Writes the model inputs of a record by a register's summaries, where it counts: each model that it cites is agreed and of its spec. It is
/// refused as `Malformed`, `NoRecord` or `ModelDisputed`, or waits, in this order: `NoRecord` before it waits, and then `ModelDisputed`. Nothing
/// is written in each of these cases.
pub fn inputs(memory: &[u8], bytes: &[u8], out: &mut [u8; HASH_SIZE]) -> Result<Known, Error>
    ensures { after (known_number result) out.new ≡ write_inputs memory.now bytes.now out.old }
{
    let register = View::parse(memory)?;
    let Some(record) = Record::parse(bytes) else {
        return Err(Error::NoRecord);
    };
    inputs_among(register.summaries(), record, out)
}
