//! What is claimed of joins. Each function's contract is the claim; there is nothing to run.

ghost use Rattle.register_join.specs.Claims.{JoinHoldsWhatRemains, JoinIsTheRun, Commutative, Associative, Idempotent, CallAfterJoin, Exchange, ButConvicted, Convergence, WhatIsLacking, Swapped, LateAsWell, RegisterIsItsCalls, ConvictionsAlone, ConvictionsMakeNoRoom};

/// The join of what two lists of calls leave holds exactly what remains of both, or is refused as full exactly where that is more than a register has room for; and
/// where one room can take both lists, it is that room's bytes.
pub fn joins_of_lists()
    ensures remains { JoinHoldsWhatRemains }
    ensures run { JoinIsTheRun }
{}

/// As long as none is refused, the order of joins makes no difference, nor do repeats or fresh registers.
pub fn joins_in_any_order()
    ensures commutative { Commutative }
    ensures associative { Associative }
    ensures idempotent { Idempotent }
{}

/// A call after a join is the join after that call.
pub fn calls_after_joins()
    ensures { CallAfterJoin }
{}

/// Rooms that take calls, join one another and join packets of what they lacked hold what remains of the calls that they know of; where the same remains they hold the
/// same bytes but for the convicted engines; and rooms that have got from every room hold the same bytes.
pub fn exchanges()
    ensures exchange { Exchange }
    ensures but_convicted { ButConvicted }
    ensures convergence { Convergence }
{}

/// What a register lacks of another is a register with exactly that. Joining it is joining the other, late as well; rooms that swap it hold the same; and its calls leave
/// the join. And every register is what its own calls leave.
pub fn what_is_lacking()
    ensures lacking { WhatIsLacking }
    ensures swapped { Swapped }
    ensures late { LateAsWell }
    ensures calls { RegisterIsItsCalls }
{}

/// Convictions alone are never refused as full, and make no room for the register that they are of.
pub fn what_convictions_do()
    ensures alone { ConvictionsAlone }
    ensures no_room { ConvictionsMakeNoRoom }
{}
