//! Fixes, and fixes as the items of a decision.
#![tactic(auto)]

ghost use Rattle.std.specs.Prelude.{◌≡◌};
ghost use Rattle.fixes.specs.Decided.{candidate_for};

use decision_items::layout::HASH_SIZE;
use decision_items::{Candidate, Item, Verified};
pub use fix::Fix;
use record::Record;

pub mod claims;
mod fix;

/// A record with its model inputs and its identity as an item: standing 0, consistent, unjudged, not preferred.
pub fn item_of<'a>(
    report: Record<'a>,
    inputs: &'a [u8; HASH_SIZE],
    identity: &'a [u8; HASH_SIZE],
) -> Item<'a>
    ensures report { result.report.bytes.now ≡ report.entry.bytes.now }
    ensures inputs { result.inputs.now ≡ inputs.now }
    ensures identity { result.identity.now ≡ identity.now }
    ensures candidate { result.candidate ≡ candidate_for report.entry.bytes.now }
{
    let candidate = Candidate {
        standing: 0,
        weight: report.weight(),
        consistent: true,
        preferred: false,
        verified: Verified::Unjudged,
    };
    Item::new(report, inputs, identity, candidate)
}
