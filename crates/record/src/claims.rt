//! What is claimed of records. Each function's contract is the claim; there is nothing to run.

ghost use Rattle.record.specs.Carried.{CarriedOver};
ghost use Rattle.record.specs.Claims.{RecordIsItsValue, BytesSayTheValue, RelationsAreOfValues, SubsetIsAnOrder};

/// A record's value determines its bytes.
pub fn record_is_its_value()
    ensures { RecordIsItsValue }
{}

/// What fields say is what is read from their bytes.
pub fn bytes_say_the_value()
    ensures { BytesSayTheValue }
{}

/// Whether one record is a subset of another, or tied to it, is said by their values.
pub fn relations_are_of_values()
    ensures { RelationsAreOfValues }
{}

/// To be a subset is a strict order.
pub fn subset_is_an_order()
    ensures { SubsetIsAnOrder }
{}

/// A record of the layout before, once it is widened, is a record; it says the same, and stands before or behind another as it did.
pub fn carried_over()
    ensures { CarriedOver }
{}
