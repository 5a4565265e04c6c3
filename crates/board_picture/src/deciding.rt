//! The lines of a transmission, by what is decided of it.

ghost use Rattle.std.specs.Prelude.{◌≤◌, ◌<◌, ◌+◌, length, map, All};
ghost use Rattle.arrayvec.specs.ArrayVec.{array_vec_len};
ghost use Rattle.fixes.specs.Items.{fix_at};
ghost use Rattle.fixes.specs.Decided.{IsFix, ShowsFixes};
ghost use Rattle.board_transmissions.specs.Links.{members_of};
ghost use Rattle.board_picture.specs.Lines.{Appends, Decides, line_of, line_refused};

use crate::line::{Line, Lines};
use crate::part::Counts;
use board_fixes::MAX_FIXES;
use board_transmissions::Transmission;
use decision::{Decision, LEAST, Refusal};
use decision_items::Item;
use fix_lines::Standing;

// A fix of a transmission as an item of a decision.
fn item_at<'s>(transmission: &Transmission<'s, '_>, i: usize) -> Item<'s>
    requires { i < length transmission.now.indices }
    ensures { IsFix (fix_at (members_of transmission.now) i) result }
{
    transmission.fix(i).item()
}

// Appends the lines of some of its fixes, which are named by their indices.
fn push_named(
    lines: &mut Lines,
    transmission: &Transmission<'_, '_>,
    named: &[u8],
    standing: Standing,
)
    requires room { array_vec_len lines.old + length named.now ≤ MAX_FIXES }
    requires below { All (λ i. i < length transmission.now.indices) named.now }
    ensures { Appends transmission.now.fixes lines.old.items lines.new.items (map (λ i. line_of standing (fix_at (members_of transmission.now) i)) named.now) }
{
    for i in named {
        let fix = transmission.index(*i as usize);
        lines.push(Line {
            fix,
            standing,
            against: fix,
        });
    }
}

// Appends the lines of those that are refused.
fn push_refused(lines: &mut Lines, transmission: &Transmission<'_, '_>, refusals: &[Refusal])
    requires room { array_vec_len lines.old + length refusals.now ≤ MAX_FIXES }
    requires below { All (λ r. r.refused < length transmission.now.indices) refusals.now }
    requires against { All (λ r. r.kept < length transmission.now.indices) refusals.now }
    ensures { Appends transmission.now.fixes lines.old.items lines.new.items (map (line_refused (members_of transmission.now)) refusals.now) }
{
    for refusal in refusals {
        let fix = transmission.index(refusal.refused as usize);
        let against = transmission.index(refusal.kept as usize);
        lines.push(Line {
            fix,
            standing: Standing::Refused(refusal.chi2),
            against,
        });
    }
}

// Appends the lines of a transmission of which this is decided.
fn push_decided<const N: usize>(
    lines: &mut Lines,
    transmission: &Transmission<'_, '_>,
    decision: &Decision<N>,
) -> Counts
    requires decided { ShowsFixes (members_of transmission.now) decision.now }
    requires room { array_vec_len lines.old + length transmission.now.indices ≤ MAX_FIXES }
    ensures { Decides transmission.now lines.old.items lines.new.items result }
{
    push_named(lines, transmission, &decision.ranked, Standing::Ranked);
    push_named(
        lines,
        transmission,
        &decision.dominated,
        Standing::Dominated,
    );
    push_refused(lines, transmission, &decision.refusals);
    Counts {
        ranked: decision.ranked.len() as u8,
        dominated: decision.dominated.len() as u8,
        refused: decision.refusals.len() as u8,
    }
}

// Decides a transmission of few fixes, in the smallest tables. A function of its own, as the next, since room for a decision is cleared first.
#[inline(never)]
fn push_least(lines: &mut Lines, transmission: &Transmission<'_, '_>) -> Counts
    requires few { length transmission.now.indices ≤ LEAST }
    requires room { array_vec_len lines.old + length transmission.now.indices ≤ MAX_FIXES }
    ensures { Decides transmission.now lines.old.items lines.new.items result }
{
    let decision = decision::decide_least(transmission.len(), |i| item_at(transmission, i));
    push_decided(lines, transmission, &decision)
}

// Decides a transmission of many fixes.
#[inline(never)]
fn push_many(lines: &mut Lines, transmission: &Transmission<'_, '_>) -> Counts
    requires { array_vec_len lines.old + length transmission.now.indices ≤ MAX_FIXES }
    ensures { Decides transmission.now lines.old.items lines.new.items result }
{
    let decision = decision::decide_each(transmission.len(), |i| item_at(transmission, i));
    push_decided(lines, transmission, &decision)
}

/// Appends the lines of a transmission: the ranked in rank, then the dominated and the refused. One that is alone is ranked.
pub fn push_lines(lines: &mut Lines, transmission: &Transmission<'_, '_>) -> Counts
    requires { array_vec_len lines.old + length transmission.now.indices ≤ MAX_FIXES }
    ensures decided { Decides transmission.now lines.old.items lines.new.items result }
    ensures some { 0 < length transmission.now.indices }
{
    if transmission.len() > LEAST {
        return push_many(lines, transmission);
    }
    if transmission.len() > 1 {
        return push_least(lines, transmission);
    }
    let fix = transmission.index(0);
    lines.push(Line {
        fix,
        standing: Standing::Ranked,
        against: fix,
    });
    Counts {
        ranked: 1,
        dominated: 0,
        refused: 0,
    }
}
