//! Some of the fixes that wait, in their order.

ghost use Rattle.std.specs.Prelude.{◌≡◌, not};
ghost use Rattle.std.specs.List.{filter};
ghost use Rattle.track_shelf.specs.Waiting.{waits_for, is_reported_by};

use crate::Fixes;
use engines::Engine;

/// Those that wait for a model.
pub fn for_model<'a>(fixes: &Fixes<'a>, model: u8) -> Fixes<'a>
    ensures { result.items ≡ filter (waits_for model) fixes.now.items }
{
    let mut part = Fixes::new();
    let all = fixes.as_slice();
    for fix in all {
        if fix.model == model {
            part.push(fix.again());
        }
    }
    part
}

/// Those that wait for another model.
pub fn for_others<'a>(fixes: &Fixes<'a>, model: u8) -> Fixes<'a>
    ensures { result.items ≡ filter (λ w. not (waits_for model w)) fixes.now.items }
{
    let mut part = Fixes::new();
    let all = fixes.as_slice();
    for fix in all {
        if fix.model != model {
            part.push(fix.again());
        }
    }
    part
}

/// Those that another engine reported.
pub fn of_others<'a>(fixes: &Fixes<'a>, engine: Engine) -> Fixes<'a>
    ensures { result.items ≡ filter (λ w. not (is_reported_by engine w)) fixes.now.items }
{
    let mut part = Fixes::new();
    let all = fixes.as_slice();
    for fix in all {
        if fix.engine != engine {
            part.push(fix.again());
        }
    }
    part
}
