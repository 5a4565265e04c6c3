//! An item and its subset, compared by the subset's factor.

ghost use Rattle.std.specs.Prelude.{◌≡◌, true, Some};
ghost use Rattle.decision_items.specs.Values as V;
ghost use Rattle.decision_rule.specs.Factors.{IsKnown};

use crate::row::KnownFactor;
use decision_items::Item;

/// Works an item's factor out, where it is not known yet.
pub fn work_out(item: &Item<'_>, known: &mut KnownFactor)
    requires { IsKnown item.now known.old }
    ensures { known.new ≡ Some (V.factor item.now) }
{
    if known.is_none() {
        *known = Some(item.factor());
    }
}

/// Whether an item disagrees with its subset, if that is consistent. Only then the subset's factor is asked for.
#[tactic(auto, unfolding(decision_items::specs::Values::disagrees))]
pub fn disagrees(item: &Item<'_>, subset: &Item<'_>, known: &mut KnownFactor) -> bool
    requires is_subset { V.is_subset subset.now item.now ≡ true }
    requires known { IsKnown subset.now known.old }
    ensures result { result ≡ V.disagrees item.now subset.now }
    ensures known { IsKnown subset.now known.new }
{
    if !subset.candidate.consistent {
        return false;
    }
    work_out(subset, known);
    item.is_apart_from(subset, known.as_ref().unwrap())
}
