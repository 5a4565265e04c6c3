//! A further fix in the transmission that it is tied to.

ghost use Rattle.std.specs.Prelude.{◌≡◌, cond, count_by, position, not};
ghost use Rattle.std.specs.List.{list_any};
ghost use Rattle.track_transmission.specs.Held.{fix_of, held_in, is_of};
ghost use Rattle.track_normalize.specs.Joining as J;
ghost use Rattle.track_normalize.specs.Did.{joined_as};

use crate::Joined;
use crate::deciding::decide_with;
use crate::gathering::seat_of;
use fixes::Fix;
use track_transmission::refused::RefusedFix;
use track_transmission::transmission::Transmission;

// Whether some fix has the identity of another.
fn has(fixes: &[Fix<'_>], fix: &Fix<'_>) -> bool
    ensures { result ≡ list_any (is_of fix.now) fixes.now }
{
    fixes.iter().any(|standing| standing.is_of(fix))
}

// Whether some refused fix has it.
fn has_refused(refused: &[RefusedFix<'_>], fix: &Fix<'_>) -> bool
    ensures { result ≡ list_any (λ x. is_of fix.now (fix_of x)) refused.now }
{
    refused.iter().any(|refusal| refusal.fix.is_of(fix))
}

// Whether a refused fix was not refused before.
fn is_new(before: &[RefusedFix<'_>], refusal: &RefusedFix<'_>) -> bool
    ensures { result ≡ not (list_any (λ y. is_of (fix_of refusal.now) (fix_of y)) before.now) }
{
    !has_refused(before, &refusal.fix)
}

// How many refused fixes were not refused before.
fn entered(before: &[RefusedFix<'_>], after: &[RefusedFix<'_>]) -> usize
    ensures { result ≡ count_by (λ x. not (list_any (λ y. is_of (fix_of x) (fix_of y)) before.now)) after.now }
{
    after
        .iter()
        .filter(|refusal| is_new(before, refusal))
        .count()
}

// Whether the fix kept is another one.
fn is_moved(before: &[Fix<'_>], after: &[Fix<'_>]) -> bool
    ensures { result ≡ J.moved before.now after.now }
{
    let [f, ..] = before else {
        return true;
    };
    let [g, ..] = after else {
        return true;
    };
    !g.is_of(f)
}

// Where the first refused fix stands that has the identity of another, if one has.
fn place_of(refused: &[RefusedFix<'_>], fix: &Fix<'_>) -> Option<usize>
    ensures { result ≡ position (λ x. is_of fix.now (fix_of x)) refused.now }
{
    refused.iter().position(|refusal| refusal.fix.is_of(fix))
}

/// Decides the fixes of a transmission and a further one, puts what is kept in the place of what another holds, and tells what the fix did.
pub fn join<'a>(held: &Transmission<'a>, fix: &Fix<'a>, into: &mut Transmission<'a>) -> Joined
    ensures left { into.new ≡ J.with_fix fix.now held.now }
    ensures told { result ≡ joined_as fix.now held.now into.new }
{
    decide_with(held, fix, into);
    Joined {
        refused: has_refused(&into.refused, fix),
        moved: is_moved(&held.fixes, &into.fixes),
        upheld: has(&into.fixes, fix),
        entered: entered(&held.refused, &into.refused) as u8,
    }
}

/// Adds the signers of a further fix to those of the first fix that has its identity, and tells whether one has.
pub fn sign(held: &mut Transmission<'_>, fix: &Fix<'_>) -> bool
    ensures held { result ≡ list_any (is_of fix.now) (held_in held.old) }
    ensures left { held.new ≡ cond result (J.sign_in fix.now held.old) held.old }
{
    if let Some(i) = seat_of(&held.fixes, fix) {
        held.fixes[i].sign(fix.signers);
        return true;
    }
    if let Some(i) = place_of(&held.refused, fix) {
        held.refused[i].sign(fix.signers);
        return true;
    }
    false
}
