//! The lists of a decision: the refused and against whom, the dominated, and the ranked in rank.

ghost use Rattle.std.specs.Prelude.{◌≡◌, [], map, ◌+◌, ◌≤◌, ◌<◌, length};
ghost use Rattle.std.specs.List.{prefix_len};
ghost use Rattle.lists.specs.Lists.{insert};
ghost use Rattle.arrayvec.specs.ArrayVec.{array_vec_len};
ghost use Rattle.decision_rule.specs.Listed.{relations};
ghost use Rattle.decision.specs.Answer.{refusal};
ghost use Rattle.decision_rule.specs.Phases.{items_of};
ghost use Rattle.decision.specs.Working.{among, replaced_in, opposed_in, refusal_in, finding, MembersBelow};

use crate::Refusal;
use arrayvec::ArrayVec;
use decision_rule::settled::Settled;

// The refusal of item i that another takes the place of.
fn replaced(settled: &Settled<'_>, i: usize) -> Option<Refusal>
    requires { i < length (items_of settled.now) }
    ensures { result ≡ finding (replaced_in (items_of settled.now) i) }
{
    let kept = settled.replacing(i)?;
    Some(Refusal {
        chi2: settled.chi_square(kept, i),
        refused: i as u8,
        kept: kept as u8,
        superseded: true,
    })
}

// The refusal of item i that another opposes.
fn opposed(settled: &Settled<'_>, i: usize) -> Option<Refusal>
    requires { i < length (items_of settled.now) }
    ensures { result ≡ finding (opposed_in (items_of settled.now) i) }
{
    let kept = settled.opposing(i)?;
    Some(Refusal {
        chi2: settled.chi_square(i, kept),
        refused: i as u8,
        kept: kept as u8,
        superseded: false,
    })
}

// The refusal of item i, if it is refused.
fn refusal(settled: &Settled<'_>, i: usize) -> Option<Refusal>
    requires { i < length (items_of settled.now) }
    ensures { result ≡ finding (refusal_in (items_of settled.now) i) }
{
    if !settled.is_refused(i) {
        return None;
    }
    if settled.is_superseded(i) {
        return replaced(settled, i);
    }
    opposed(settled, i)
}

/// Lists the refusals, ascending by the refused item.
pub fn list_refusals<const N: usize>(settled: &Settled<'_>, list: &mut ArrayVec<Refusal, N>)
    requires none { list.old.items ≡ [] }
    requires room { length (items_of settled.now) ≤ N }
    ensures { list.new.items ≡ map refusal (among (items_of settled.now)).refused }
{
    for i in 0..settled.len() {
        let Some(found) = refusal(settled, i) else {
            continue;
        };
        list.push(found);
    }
}

/// Lists the dominated, ascending.
pub fn list_dominated<const N: usize>(settled: &Settled<'_>, list: &mut ArrayVec<u8, N>)
    requires none { list.old.items ≡ [] }
    requires room { length (items_of settled.now) ≤ N }
    ensures { list.new.items ≡ (among (items_of settled.now)).dominated }
{
    for i in 0..settled.len() {
        if !settled.is_dominated(i) {
            continue;
        }
        list.push(i as u8);
    }
}

// How many items at the front of a list rank before item i.
fn place_of(settled: &Settled<'_>, list: &[u8], i: usize) -> usize
    requires below { MembersBelow (length (items_of settled.now)) list.now }
    requires i_below { i < length (items_of settled.now) }
    ensures { result ≡ prefix_len (λ j. (relations (items_of settled.now)).ahead j i) list.now }
{
    for k in 0..list.len() {
        if !settled.ranks_before(list[k] as usize, i) {
            return k;
        }
    }
    list.len()
}

// Puts item i in behind those that rank before it.
fn enter<const N: usize>(settled: &Settled<'_>, list: &mut ArrayVec<u8, N>, i: usize)
    requires below { MembersBelow (length (items_of settled.now)) list.old.items }
    requires i_below { i < length (items_of settled.now) }
    requires room { array_vec_len list.old < N }
    ensures items { list.new.items ≡ insert (relations (items_of settled.now)).ahead i list.old.items }
    ensures len { array_vec_len list.new ≡ array_vec_len list.old + 1 }
{
    let place = place_of(settled, list.as_slice(), i);
    list.insert(place, i as u8);
}

/// Lists the ranked, in rank.
pub fn list_ranked<const N: usize>(settled: &Settled<'_>, list: &mut ArrayVec<u8, N>)
    requires none { list.old.items ≡ [] }
    requires room { length (items_of settled.now) ≤ N }
    ensures { list.new.items ≡ (among (items_of settled.now)).ranked }
{
    for i in (0..settled.len()).rev() {
        if !settled.is_ranked(i) {
            continue;
        }
        enter(settled, list, i);
    }
}
