//! In which order a map is refused. The contract is the claim; there is nothing to run.

ghost use Rattle.board_map.specs.Refusals.{MapInOrder};

/// A map is refused with 1 and 14, in this order, and then nothing is changed.
pub fn refused_in_order()
    ensures { MapInOrder }
{}
