//! What is kept of the fixes of one transmission, once they are decided: the best five of those that stand, and of the refused the four of
//! lowest identity.

ghost use Rattle.std.specs.Prelude.{◌≡◌, not, map, position, All, ◌<◌, length, take};
ghost use Rattle.lists.specs.Lists.{insert, sort};
ghost use Rattle.fixes.specs.Items.{fix_at};
ghost use Rattle.track_transmission.specs.Layout.{max_standing, max_refused};
ghost use Rattle.track_normalize.specs.Joining.{with_fix};
ghost use Rattle.track_normalize.specs.Deciding.{normalized_distinct, named_refused, lower_held};

use crate::gathering::{Gathered, gather, gather_all, gather_refused};
use crate::outcome::outcome;
use arrayvec::ArrayVec;
use decision::Refusal;
use fixes::Fix;
use track_transmission::layout::{MAX_REFUSED, MAX_STANDING};
use track_transmission::refused::RefusedFix;
use track_transmission::transmission::Transmission;

// Lists the best of the fixes that stand, of which these are the indices.
fn list_standing<'a>(
    fixes: &[Fix<'a>],
    ranked: &[u8],
    standing: &mut ArrayVec<Fix<'a>, MAX_STANDING>,
)
    requires { All (λ i. i < length fixes.now) ranked.now }
    ensures { standing.new.items ≡ take max_standing (map (fix_at fixes.now) ranked.now) }
{
    standing.clear();
    for i in ranked {
        if standing.is_full() {
            return;
        }
        standing.push(fixes[*i as usize].copied());
    }
}

// Where the first refused fix stands that is not of lower identity, if there is one.
fn place_of(refused: &[RefusedFix<'_>], x: &RefusedFix<'_>) -> Option<usize>
    ensures { result ≡ position (λ y. not (lower_held y x.now)) refused.now }
{
    refused.iter().position(|y| !y.fix.precedes(&x.fix))
}

// Puts a refused fix in behind those of lower identity; of too many the last is let go.
fn enter<'a>(refused: &mut ArrayVec<RefusedFix<'a>, MAX_REFUSED>, x: RefusedFix<'a>)
    ensures { refused.new.items ≡ take max_refused (insert lower_held x.entry refused.old.items) }
{
    let place = place_of(refused, &x).unwrap_or(refused.len());
    if place < MAX_REFUSED {
        refused.truncate(MAX_REFUSED - 1);
        refused.insert(place, x);
    }
}

// Lists the refused of lowest identity, from the indices of each and of the one that it is refused against.
fn list_refused<'a>(
    fixes: &[Fix<'a>],
    refusals: &[Refusal],
    refused: &mut ArrayVec<RefusedFix<'a>, MAX_REFUSED>,
)
    requires { All (λ x. (x.refused < length fixes.now) × (x.kept < length fixes.now)) refusals.now }
    ensures { refused.new.items ≡ take max_refused (sort lower_held (map (named_refused fixes.now) refusals.now)) }
{
    refused.clear();
    for k in (0..refusals.len()).rev() {
        let x = refusals[k];
        let against = &fixes[x.kept as usize];
        enter(
            refused,
            RefusedFix {
                fix: fixes[x.refused as usize].copied(),
                against: against.identity,
                chi2: arithmetic::stored_bits(x.chi2),
            },
        );
    }
}

/// Puts what is kept of fixes of different identities in the place of what a transmission holds.
pub fn decide<'a>(fixes: &Gathered<'a>, into: &mut Transmission<'a>)
    ensures { into.new ≡ normalized_distinct fixes.now.items }
{
    let fixes = fixes.as_slice();
    let decided = outcome(fixes);
    list_standing(fixes, &decided.ranked, &mut into.fixes);
    list_refused(fixes, &decided.refusals, &mut into.refused);
}

/// Puts what is kept of the fixes that a transmission holds and of a further one in the place of what another holds.
pub fn decide_with<'a>(held: &Transmission<'a>, fix: &Fix<'a>, into: &mut Transmission<'a>)
    ensures { into.new ≡ with_fix fix.now held.now }
{
    let mut gathered = Gathered::new();
    gather_all(&mut gathered, &held.fixes);
    gather(&mut gathered, fix);
    gather_refused(&mut gathered, &held.refused);
    decide(&gathered, into);
}
