//! What is claimed of a decision's bytes. The function's contract is the claim; there is nothing to run.

ghost use Rattle.decision.specs.Answer.{decided_arrays};
ghost use Rattle.decision.specs.Sorted.{sorted_arrays};
ghost use Rattle.decision_bytes.specs.Claims.{PartsStand};

/// Whatever bytes are decided, the lists have a place for each item, and the ranked, the dominated and the refusals stand where their
/// offsets say, one after another, and fill the answer.
pub fn parts_stand()
    ensures given { PartsStand decided_arrays }
    ensures any_order { PartsStand sorted_arrays }
{}
