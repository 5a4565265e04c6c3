//! Which fixes of a board are one transmission: all that are linked through any chain.
//!
//! One table of marks serves all walks of a board. A visit marks a fix and visits what is linked to it and has no mark, so
//! that the number without a mark falls at each visit: each fix is visited once, and n fixes cost at most n * n tests of a
//! link. A fix that an earlier walk marked has a label, and no link leads to it from one without a mark.
#![tactic(auto)]

ghost use Rattle.std.specs.Prelude.{◌≡◌, true, false, ◌≤◌, ◌<◌, length};
ghost use Rattle.record.specs.Fields.{time};
ghost use Rattle.lists.specs.Tables.{marked};
ghost use Rattle.fixes.specs.Items.{AllFormed, Apart};
ghost use Rattle.board_transmissions.specs.Transmissions as L;
ghost use Rattle.board_transmissions.specs.Walk as W;
ghost use Rattle.board_transmissions.specs.Labels.{relabel};
ghost use Rattle.board_transmissions.specs.Links.{link_at};

use board_fixes::{Fix, MAX_FIXES};

pub mod claims;
mod parts;

pub use parts::{Transmission, Transmissions};

// How much the times of two that link may differ, in nanoseconds.
const LINK_SPAN: u64 = 2_000_000_000;

// Whether two times differ by at most that much.
fn near_in_time(s: u64, t: u64) -> bool
    ensures { result ≡ L.near_in_time s t }
{
    s.abs_diff(t) <= LINK_SPAN
}

/// Whether two fixes link: message and at least one tag are common, and the times are near. The times are asked first, since two
/// numbers are compared sooner than messages and tags.
pub fn is_linked(f: &Fix<'_>, g: &Fix<'_>) -> bool
    ensures { result ≡ L.linked f.now g.now }
{
    near_in_time(f.report.time(), g.report.time()) && f.report.is_tied_to(g.report)
}

// Marks i, and all fixes that links lead to from it through those without a mark, and gives each of them the label s.
fn visit(
    fixes: &[Fix<'_>],
    i: usize,
    s: u8,
    marks: &mut [bool; MAX_FIXES],
    labels: &mut [u8; MAX_FIXES],
)
    requires few { length fixes.now ≤ MAX_FIXES }
    requires i_in_bounds { i < length fixes.now }
    requires i_unmarked { marked marks.old i ≡ false }
    ensures marks_after { marks.new ≡ W.visit (link_at fixes.now) (length fixes.now) (W.unmarked marks.old) i marks.old }
    ensures labels_after { labels.new ≡ relabel s marks.old marks.new labels.old }
{
    marks[i] = true;
    labels[i] = s;
    for j in 0..fixes.len() {
        if !marks[j] && is_linked(&fixes[i], &fixes[j]) {
            visit(fixes, j, s, marks, labels);
        }
    }
}
