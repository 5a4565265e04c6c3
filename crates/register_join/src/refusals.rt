//! In which order a join, and what is lacking, are refused. The contract is the claim; there is nothing to run.

ghost use Rattle.register_join.specs.Refusals.{JoinInOrder, LacksInOrder};

/// A join is refused with 1 and 5, and what is lacking with 1 and 10, in this order, and then nothing is changed.
pub fn refused_in_order()
    ensures join { JoinInOrder }
    ensures lacks { LacksInOrder }
{}
