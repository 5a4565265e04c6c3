//! An item of a decision, as a value, and how it relates to another.

ghost use Rattle.std.specs.Prelude.{◌≡◌, ◌+◌, ◌≤◌, true, take, drop, length};
ghost use Rattle.octets.specs.Order.{same};
ghost use Rattle.record.specs.Formed.{well_formed};
ghost use Rattle.arithmetic.specs.Stages.{placed_of};
ghost use Rattle.arithmetic.specs.Agree.{chi_square_in};
ghost use Rattle.decision_items.specs.Layout.{hash_size};
ghost use Rattle.decision_items.specs.Claimed.{claim_of};
ghost use Rattle.decision_items.specs.Items.{item_record, candidate_of};

use crate::Candidate;
use crate::layout::{
    CONSISTENT_AT, HASH_SIZE, IDENTITY_AT, INPUTS_AT, ITEM_SIZE, PREFERRED_AT, STANDING_AT,
    VERIFIED_AT,
};
use arithmetic::standing::{Agreement, ChiSquare, Placed};
use geometry::linalg::Factor;
use record::Record;

/// A record with its model inputs and its identity, and what a decision goes by besides. What its comparison with others needs
/// of its claim is worked out once, so that the comparison of two takes no sine or cosine. The factor of its covariance, which takes
/// three roots, is worked out only where it is asked for (`factor`): an item that is no other's subset is compared without one.
#[derive(Clone, Copy)]
pub struct Item<'a> {
    pub report: Record<'a>,
    pub inputs: &'a [u8; HASH_SIZE],
    pub identity: &'a [u8; HASH_SIZE],
    pub candidate: Candidate,
    placed: Placed,
    ghost is_placed: { placed ≡ placed_of (claim_of report.bytes.now) },
}

// The 32 bytes from a place on.
fn hash_at(bytes: &[u8], at: usize) -> &[u8; HASH_SIZE]
    requires { at + hash_size ≤ length bytes.now }
    ensures { result.now ≡ take hash_size (drop at bytes.now) }
{
    bytes[at..at + HASH_SIZE].as_array::<HASH_SIZE>().unwrap()
}

// What a decision goes by of an item with this record.
fn candidate(bytes: &[u8; ITEM_SIZE], report: Record) -> Candidate
    requires { report.bytes.now ≡ item_record bytes.now 0 }
    ensures { result ≡ candidate_of bytes.now 0 }
{
    Candidate {
        standing: octets::words::u64_at(bytes, STANDING_AT),
        weight: report.weight(),
        consistent: bytes[CONSISTENT_AT] != 0,
        preferred: bytes[PREFERRED_AT] != 0,
        verified: crate::verified_case(bytes[VERIFIED_AT]),
    }
}

impl<'a> Item<'a> {
    ghost use Rattle.decision_items.specs.Values as V;

    /// The item of a record.
    pub fn new(
        report: Record<'a>,
        inputs: &'a [u8; HASH_SIZE],
        identity: &'a [u8; HASH_SIZE],
        candidate: Candidate,
    ) -> Item<'a>
        ensures report { result.report.bytes.now ≡ report.entry.bytes.now }
        ensures inputs { result.inputs.now ≡ inputs.now }
        ensures identity { result.identity.now ≡ identity.now }
        ensures candidate { result.candidate ≡ candidate }
    {
        let placed = arithmetic::place(crate::claimed::claimed(report));
        Item {
            report,
            inputs,
            identity,
            candidate,
            placed,
        }
    }

    /// The item that these bytes are, whose record is known to be one.
    pub fn of(bytes: &'a [u8; ITEM_SIZE]) -> Item<'a>
        requires { well_formed (item_record bytes.now 0) ≡ true }
        ensures { V.IsItem bytes.now 0 result }
    {
        let report = Record::of(&bytes[..INPUTS_AT]);
        let inputs = hash_at(bytes, INPUTS_AT);
        let identity = hash_at(bytes, IDENTITY_AT);
        Item::new(report, inputs, identity, candidate(bytes, report))
    }

    /// Whether its record is a subset of another's.
    pub fn is_subset_of(&self, other: &Item<'_>) -> bool
        ensures { result ≡ V.is_subset self.now other.now }
    {
        self.report.is_subset_of(other.report)
    }

    /// The factor of its covariance, if there is one: what its supersets are compared with it by.
    #[inline(never)]
    pub fn factor(&self) -> Option<Factor>
        ensures { result ≡ V.factor self.now }
    {
        geometry::linalg::cholesky(crate::claimed::covariance(self.report))
    }

    // How it compares with its subset, whose factor this is.
    fn compare(&self, subset: &Item<'_>, factor: &Option<Factor>) -> Agreement
        requires { factor.now ≡ V.factor subset.now }
        ensures { result ≡ V.agreement self.now subset.now }
    {
        arithmetic::compare(&subset.placed, factor, &self.placed)
    }

    /// Whether it disagrees with its subset, whose factor this is.
    pub fn is_apart_from(&self, subset: &Item<'_>, factor: &Option<Factor>) -> bool
        requires { factor.now ≡ V.factor subset.now }
        ensures { result ≡ V.is_apart self.now subset.now }
    {
        !arithmetic::agrees(self.compare(subset, factor))
    }

    /// The chi-square of it against its subset, whose factor this is.
    pub fn chi_square(&self, subset: &Item<'_>, factor: &Option<Factor>) -> ChiSquare
        requires { factor.now ≡ V.factor subset.now }
        ensures { result ≡ chi_square_in (V.agreement self.now subset.now) }
    {
        arithmetic::chi_square(self.compare(subset, factor))
    }

    /// Whether it is verified, and passed.
    pub fn has_passed(&self) -> bool
        ensures { result ≡ V.has_passed self.now }
    {
        let verified = self.candidate.verified;
        crate::is_passed(verified)
    }

    /// Whether it has strictly more standing than another.
    pub fn outstands(&self, other: &Item<'_>) -> bool
        ensures { result ≡ V.outstands self.now other.now }
    {
        other.candidate.standing < self.candidate.standing
    }

    /// Whether the two have the same model inputs.
    pub fn has_inputs_of(&self, other: &Item<'_>) -> bool
        ensures { result ≡ same self.now.inputs.now other.now.inputs.now }
    {
        let mine = self.inputs;
        let theirs = other.inputs;
        octets::order::equal(mine, theirs)
    }

    /// Whether it has the lower identity.
    pub fn is_lower(&self, other: &Item<'_>) -> bool
        ensures { result ≡ V.lower self.now other.now }
    {
        let mine = self.identity;
        let theirs = other.identity;
        octets::order::precedes(mine, theirs)
    }

    /// Whether it ranks before another: preferred first, then more standing, then more weight, then the lower identity.
    #[tactic(auto, unfolding(crate::specs::Values::ahead))]
    pub fn ranks_before(&self, other: &Item<'_>) -> bool
        ensures { result ≡ V.ahead self.now other.now }
    {
        let mine = self.candidate;
        let theirs = other.candidate;
        if mine.preferred != theirs.preferred {
            return mine.preferred;
        }
        if theirs.standing < mine.standing {
            return true;
        }
        if mine.standing < theirs.standing {
            return false;
        }
        if theirs.weight < mine.weight {
            return true;
        }
        if mine.weight < theirs.weight {
            return false;
        }
        self.is_lower(other)
    }
}
