//! A convicted engine's summaries taken out of a table.

ghost use Rattle.std.specs.Prelude.{◌*◌, ◌≤◌, length};
ghost use Rattle.tables.specs.Places.{places, keep_places};
ghost use Rattle.tables.specs.Strikes.{Struck};
ghost use Rattle.models.specs.Summary.{summary_size};
ghost use Rattle.models.specs.Summaries.{is_of_another, no_value};

use crate::layout::SUMMARY_SIZE;
use engines::Engine;
use tables::strikes::{clear_rest, move_down};

/// Takes an engine's summaries out of the first n of a table, and returns how many are left.
pub fn strike_summaries(t: &mut [u8], n: usize, engine: Engine) -> usize
    requires { n * summary_size ≤ length t.old }
    ensures { Struck summary_size (keep_places summary_size (is_of_another engine) no_value (places summary_size n t.old)) t.old result t.new }
{
    let mut j = 0;
    for i in 0..n {
        let at = i * SUMMARY_SIZE;
        if t[at] == engine.number() {
            continue;
        }
        move_down(t, at, j * SUMMARY_SIZE, SUMMARY_SIZE);
        j += 1;
    }
    clear_rest(t, j, SUMMARY_SIZE);
    j
}
