//! Fixes gathered: of one identity one fix, the first that came, with the signers of all.

ghost use Rattle.std.specs.Prelude.{◌≡◌, map, position, ◌+◌, ◌<◌, ◌≤◌, length};
ghost use Rattle.arrayvec.specs.ArrayVec.{array_vec_len};
ghost use Rattle.track_transmission.specs.Held.{is_of, fix_of};
ghost use Rattle.track_normalize.specs.Normal as N;

use arrayvec::ArrayVec;
use fixes::Fix;
use track_transmission::layout::{MAX_REFUSED, MAX_STANDING};
use track_transmission::refused::RefusedFix;

/// The most fixes that are decided at once: those that a transmission holds, and one more.
pub const MAX_GATHERED: usize = MAX_STANDING + MAX_REFUSED + 1;

/// Fixes of which no two have one identity.
pub type Gathered<'a> = ArrayVec<Fix<'a>, MAX_GATHERED>;

/// Where the first fix stands that has the identity of another, if one has.
pub fn seat_of(fixes: &[Fix<'_>], fix: &Fix<'_>) -> Option<usize>
    ensures { result ≡ position (is_of fix.now) fixes.now }
{
    fixes.iter().position(|held| held.is_of(fix))
}

/// Gathers a further fix: the first of its identity gains its signers, or it comes last.
pub fn gather<'a>(gathered: &mut Gathered<'a>, fix: &Fix<'a>)
    requires { array_vec_len gathered.old < MAX_GATHERED }
    ensures { gathered.new.items ≡ N.gather gathered.old.items fix.now }
{
    match seat_of(gathered, fix) {
        Some(i) => gathered[i].sign(fix.signers),
        None => gathered.push(fix.copied()),
    }
}

/// Gathers fixes.
pub fn gather_all<'a>(gathered: &mut Gathered<'a>, fixes: &[Fix<'a>])
    requires { array_vec_len gathered.old + length fixes.now ≤ MAX_GATHERED }
    ensures { gathered.new.items ≡ N.gather_all gathered.old.items fixes.now }
{
    for fix in fixes {
        gather(gathered, fix);
    }
}

/// Gathers refused fixes.
pub fn gather_refused<'a>(gathered: &mut Gathered<'a>, refused: &[RefusedFix<'a>])
    requires { array_vec_len gathered.old + length refused.now ≤ MAX_GATHERED }
    ensures { gathered.new.items ≡ N.gather_all gathered.old.items (map fix_of refused.now) }
{
    for refusal in refused {
        gather(gathered, &refusal.fix);
    }
}
