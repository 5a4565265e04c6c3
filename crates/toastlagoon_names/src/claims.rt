//! What is claimed of names: each function's contract is the theorem.

ghost use Rattle.toastlagoon_names.specs.Claims.{NamesFit, NoNameIsEmpty};

/// Every number has a name, and each fits 48 bytes.
pub fn every_name_fits()
    ensures fit { NamesFit }
    ensures some { NoNameIsEmpty }
{}
