//! What is claimed of what a track does with a further fix, whatever transmissions it holds. Each function's contract is the claim; there is nothing to run.

ghost use Rattle.track_merge.specs.Claims.{JoiningEnters, OthersEnterNone, FewEnter, OrderKept};

/// A fix lets enter those that are refused now and were not, where it joins one transmission as new, and none in every other case; at most four.
pub fn those_that_enter()
    ensures joining { JoiningEnters }
    ensures others { OthersEnterNone }
    ensures few { FewEnter }
{}

/// What is in order is left in order.
pub fn order_kept()
    ensures { OrderKept }
{}
