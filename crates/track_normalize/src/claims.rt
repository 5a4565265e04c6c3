//! What is claimed of what a track keeps of fixes, whatever fixes are given. Each function's contract is the claim; there is nothing to run.

ghost use Rattle.track_normalize.specs.Claims.{SomeStand, FewKept, IdentitiesDiffer, SignersUnited, AloneStands, OneOfEach, NoneLost, KeptAsGiven, RefusedAgainst};

/// Where any fix is given one to five stand, and at most four refused are kept.
pub fn one_to_five_stand()
    ensures some_stand { SomeStand }
    ensures few_kept { FewKept }
{}

/// No two of the fixes that are kept have one identity.
pub fn identities_differ()
    ensures { IdentitiesDiffer }
{}

/// An engine signed a fix that is kept exactly where it signed one of those given that have its identity.
pub fn signers_united()
    ensures { SignersUnited }
{}

/// A fix alone stands.
pub fn alone_stands()
    ensures { AloneStands }
{}

/// Of the fixes given there is one of each identity, and those kept with those forgotten are all of them, each once.
pub fn none_lost()
    ensures one_of_each { OneOfEach }
    ensures none_lost { NoneLost }
{}

/// A fix that is kept is one that was given, but for its signers; a refused one names a given one that it disagrees with, and has the
/// chi-square of the two.
pub fn kept_as_given()
    ensures as_given { KeptAsGiven }
    ensures against { RefusedAgainst }
{}
