//! What is claimed of every decision. Each function's contract is the claim; there is nothing to run.

ghost use Rattle.decision.specs.Claims.{EachOnce, DecisionsLawful, OrderFree, OneDecision, NoOtherDecision, OnlyTheEndsDisagree, Position3};
ghost use Rattle.decision.specs.Before.{DecidedAsBefore};

/// Items of any type A, with a measure of any type C between them, are ranked, dominated or refused, each exactly once.
pub fn each_falls_once<A, C>()
    ensures { EachOnce A C }
{}

/// Each item is ranked, dominated or refused, exactly once; ranked is empty only without items and ascends; a refusal names whom it
/// is against, with the chi-square of the two.
pub fn decisions_are_lawful()
    ensures { DecisionsLawful }
{}

/// What is decided does not depend on the order of the items.
pub fn order_of_items_is_free()
    ensures { OrderFree }
{}

/// What is decided is what the Rust decides, by agreement with an infinity where nothing was measured.
pub fn decided_as_before()
    ensures { DecidedAsBefore }
{}

/// Of three nested sets of which only the ends disagree, the middle one is ranked, the least dominated, the greatest refused.
pub fn middle_of_three_is_ranked()
    ensures disagree { OnlyTheEndsDisagree }
    ensures decided { Position3 }
{}

/// Decided in ascending identity, the same items in another order get the same decision by their identities: the same in each list, in the
/// same order.
pub fn one_decision_in_any_order()
    ensures { OneDecision }
{}

/// That is the decision of the items in the order given, but for the order of the dominated and of the refused.
pub fn no_other_decision_in_any_order()
    ensures { NoOtherDecision }
{}
