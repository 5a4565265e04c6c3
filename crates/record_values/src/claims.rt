//! What is claimed of values. Each function's contract is the claim; there is nothing to run.

ghost use Rattle.record_values.specs.Claims.{RecordsAreWritten, RefusedExactlyWhere, HadWhereCounted, NoFaultExactlyWhen};

/// Every record is written of what it says, and 3 is answered exactly where no record says it.
pub fn records_are_written()
    ensures written { RecordsAreWritten }
    ensures refused { RefusedExactlyWhere }
{}

/// A record has model inputs in a register exactly where it counts on its board.
pub fn had_where_counted()
    ensures { HadWhereCounted }
{}

/// Bytes fail no check exactly where they are a record.
pub fn no_fault_exactly_when()
    ensures { NoFaultExactlyWhen }
{}
