//! What is claimed of a transmission that is shown, of whatever fixes.

ghost use Rattle.fixes.specs.Claims.{ShownIsDecided};

/// What is shown of fixes is the decision of them.
pub fn shown_is_decided()
    ensures { ShownIsDecided }
{}
