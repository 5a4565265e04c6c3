//! What is decided of fixes: each is an item of the decision.

ghost use Rattle.std.specs.Prelude.{◌≡◌, ◌<◌, ◌≤◌, length};
ghost use Rattle.fixes.specs.Items.{fix_at};
ghost use Rattle.fixes.specs.Decided.{IsFix, ShowsFixes};
ghost use Rattle.track_normalize.specs.Deciding.{max_gathered};

use crate::gathering::MAX_GATHERED;
use decision::{Decision, decide_alone, decide_few};
use decision_items::Item;
use fixes::Fix;

// A fix as an item.
fn item_at<'s>(fixes: &'s [Fix<'_>], i: usize) -> Item<'s>
    requires { i < length fixes.now }
    ensures { IsFix (fix_at fixes.now i) result }
{
    fixes[i].item()
}

// What is decided of fixes that compete.
fn decide(fixes: &[Fix<'_>]) -> Decision<MAX_GATHERED>
    requires some { 0 < length fixes.now }
    requires few { length fixes.now ≤ max_gathered }
    ensures { ShowsFixes fixes.now result }
{
    decide_few(fixes.len(), |i| item_at(fixes, i))
}

/// What is decided of fixes.
pub fn outcome(fixes: &[Fix<'_>]) -> Decision<MAX_GATHERED>
    requires few { length fixes.now ≤ max_gathered }
    ensures { ShowsFixes fixes.now result }
{
    if fixes.len() <= 1 {
        return decide_alone(fixes.len());
    }
    decide(fixes)
}
