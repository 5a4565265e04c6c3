//! Which models have a summary, seen once for all the places of a shelf.

ghost use Rattle.std.specs.Prelude.{◌≡◌};
ghost use Rattle.models.specs.Models.{state_of};
ghost use Rattle.models.specs.Missing.{is_missing};
ghost use Rattle.models.specs.Answers.{summary_places};
ghost use Rattle.track_shelf.specs.Steps.{Marks};

use models::layout::{MODEL_AT, SUMMARY_SIZE};
use models::summaries::Summaries;
use std::marker::Model;
use tables::table::places_of;

// As many as a byte numbers.
const MODELS: usize = 256;

/// Summaries, and which models have one. In a contract it is the summaries.
#[derive(Drop)]
pub(crate) struct Stated<'a> {
    all: Summaries<'a>,
    has: [bool; MODELS],
}

impl<'a> Model for Stated<'a> {
    ghost use Rattle.std.specs.Prelude.{List, ℕ};
    ghost use Rattle.models.specs.Answers.{summary_places};
    ghost use Rattle.track_shelf.specs.Steps.{Marks};

    ghost Value = { List (List ℕ) };

    ghost view = { λ s. summary_places s.all };

    ghost invariant = { λ s. Marks (summary_places s.all) s.has };
}

impl<'a> Stated<'a> {
    /// These summaries, gone through once.
    pub fn of(all: Summaries<'a>) -> Stated<'a>
        ensures { result ≡ summary_places all.entry }
    {
        let mut has = [false; MODELS];
        let summaries = places_of::<SUMMARY_SIZE>(all.table, all.count);
        for summary in summaries {
            has[summary[MODEL_AT] as usize] = true;
        }
        Stated { all, has }
    }

    /// Whether a model has no summary.
    pub fn lacks(&self, model: u8) -> bool
        ensures { result ≡ is_missing (state_of model self.now) }
    {
        !self.has[model as usize]
    }
}
