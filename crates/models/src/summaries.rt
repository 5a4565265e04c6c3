//! A summary's bytes, and a table of summaries in lent bytes, which are gone through in their order.

ghost use Rattle.std.specs.Prelude.{◌≡◌, ◌*◌, ◌≤◌, length};
ghost use Rattle.std.specs.Iterator.{YieldsFirstBy, item_count};
ghost use Rattle.tables.specs.Places.{places};
ghost use Rattle.models.specs.Summary.{summary_size, inputs_size, model_of, spec_of, summary_inputs, summary_of};

use crate::layout;
use engines::Engine;

/// One summary.
#[derive(Clone, Copy)]
pub struct Summary<'a> {
    pub bytes: &'a [u8],
    ghost size: { length bytes.now ≡ summary_size },
}

impl<'a> Summary<'a> {
    /// The model that it is of.
    pub fn model(self) -> u8
        ensures { result ≡ model_of self.entry.bytes.now }
    {
        self.bytes[layout::MODEL_AT]
    }

    /// The spec that it states.
    pub fn spec(self) -> u16
        ensures { result ≡ spec_of self.entry.bytes.now }
    {
        octets::words::u16_at(self.bytes, layout::SPEC_AT)
    }

    /// The hash of the model's inputs that it states.
    pub fn inputs(self) -> &'a [u8]
        ensures value { result.now ≡ summary_inputs self.entry.bytes.now }
        ensures size { length result.now ≡ inputs_size }
    {
        let bytes = self.bytes;
        &bytes[layout::INPUTS_AT..layout::SUMMARY_SIZE]
    }
}

/// The first `count` summaries of a table. As an iterator it gives one after another.
#[derive(Clone, Copy)]
pub struct Summaries<'a> {
    pub table: &'a [u8],
    pub count: usize,
    ghost within: { count * summary_size ≤ length table.now },
}

impl<'a> Iterator for Summaries<'a> {
    type Item = Summary<'a>;

    ghost next_gives = { YieldsFirstBy (λ p. p.bytes.now) (λ s. places summary_size s.count s.table.now) };

    ghost remaining = { item_count (λ s. places summary_size s.count s.table.now) };

    fn next(&mut self) -> Option<Summary<'a>> {
        if self.count == 0 {
            return None;
        }
        let table = self.table;
        let bytes = &table[..layout::SUMMARY_SIZE];
        *self = Summaries {
            table: &table[layout::SUMMARY_SIZE..],
            count: self.count - 1,
        };
        Some(Summary { bytes })
    }
}

/// The bytes of a summary.
pub fn new_summary(
    engine: Engine,
    model: u8,
    spec: u16,
    inputs: &[u8; layout::INPUTS_SIZE],
) -> [u8; layout::SUMMARY_SIZE]
    ensures { result ≡ summary_of engine model spec inputs.now }
{
    let mut p = [0u8; layout::SUMMARY_SIZE];
    p[layout::ENGINE_AT] = engine.number();
    p[layout::MODEL_AT] = model;
    octets::words::put_u16(&mut p, layout::SPEC_AT, spec);
    octets::runs::copy(inputs, &mut p[layout::INPUTS_AT..]);
    p
}
