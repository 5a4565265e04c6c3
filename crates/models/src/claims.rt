//! What is claimed of models. Each function's contract is the claim; there is nothing to run.

ghost use Rattle.models.specs.Carried.{IdentityCarriedOver};
ghost use Rattle.models.specs.Claims.{WaitsExactlyWhere};

/// A record waits for a model exactly where one that it cites has no summary, and then for the first of those.
pub fn waits_exactly_where()
    ensures { WaitsExactlyWhere }
{}

/// A record of the layout before, once it is widened, has the identity that it had.
pub fn identity_carried_over()
    ensures { IdentityCarriedOver }
{}
