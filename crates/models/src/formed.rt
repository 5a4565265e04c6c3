//! Which bytes are a table of summaries.

ghost use Rattle.std.specs.Prelude.{◌≡◌, ◌&&◌};
ghost use Rattle.std.specs.List.{list_all};
ghost use Rattle.tables.specs.Places.{is_table};
ghost use Rattle.models.specs.Answers.{summary_places};
ghost use Rattle.models.specs.Summary.{summary_size};
ghost use Rattle.models.specs.Summaries.{summary_formed};

use crate::layout::{self, SUMMARY_SIZE};
use crate::summaries::{Summaries, Summary};
use engines::{Engine, Signers};
use tables::table::is_table;

// Whether a summary is within the limits, of an engine that is not convicted.
fn summary_formed(s: Summary, convicted: Signers) -> bool
    ensures { result ≡ summary_formed convicted s.entry.bytes.now }
{
    let Some(engine) = Engine::new(s.bytes[layout::ENGINE_AT] as u32) else {
        return false;
    };
    (s.model() <= record::layout::MAX_MODEL) & !convicted.contains(engine)
}

// Whether all of these summaries are.
fn summaries_formed(mut all: Summaries, convicted: Signers) -> bool
    ensures { result ≡ list_all (summary_formed convicted) (summary_places all.entry) }
{
    all.all(|s| summary_formed(s, convicted))
}

/// Whether these summaries are, they are ordered by their first KEY bytes, and the rest of their table is zero.
pub fn summary_table_formed<const KEY: usize>(all: Summaries, convicted: Signers) -> bool
    ensures { result ≡ (is_table KEY summary_size all.entry.count all.entry.table.now && list_all (summary_formed convicted) (summary_places all.entry)) }
{
    is_table::<SUMMARY_SIZE, KEY>(all.table, all.count) && summaries_formed(all, convicted)
}
