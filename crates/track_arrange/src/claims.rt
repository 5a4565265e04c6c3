//! What is claimed of the order of a track's transmissions, whatever transmissions are given. Each function's contract is the claim; there is nothing to run.

ghost use Rattle.track_arrange.specs.Claims.{ArrangedInOrder, LatestLeft, FewAllLeft, OrderStays};

/// The transmissions that are left ascend, each with a fix; what is in order stays as it is.
pub fn arranged_in_order()
    ensures in_order { ArrangedInOrder }
    ensures stays { OrderStays }
{}

/// The latest eight are left, none that is forgotten is younger, and those alike keep their order; up to eight none is forgotten.
pub fn latest_left()
    ensures latest { LatestLeft }
    ensures all_of_few { FewAllLeft }
{}
