//! What comparing a superset with the smaller fix that it would replace finds.
#![tactic(auto)]

ghost use Rattle.std.specs.Prelude.{◌≡◌};
ghost use Rattle.record.specs.Fields.{tags};
ghost use Rattle.record.specs.Relations.{member};
ghost use Rattle.record.specs.Added.{added_tags};
ghost use Rattle.decision_superset.specs.Supersets.{verdict_of, comparison_of, without_tags};

use arithmetic::standing::ChiSquare;
use arrayvec::ArrayVec;
use record::Record;
use record::layout::MAX_TAGS;
use std::marker::Model;

/// Whether the larger fix agrees with the smaller. A record that is malformed has no verdict.
#[derive(Clone, Copy)]
pub enum SupersetVerdict {
    Malformed,
    Agrees,
    Contested(ChiSquare),
}

/// The verdict, and beside it the tags that a contested superset added, in their order.
#[derive(Drop)]
pub struct Comparison {
    pub verdict: SupersetVerdict,
    pub added: ArrayVec<u64, MAX_TAGS>,
}

impl Model for Comparison {
    ghost use Rattle.decision_superset.specs.Supersets.{Compared};

    ghost Value = { Compared };

    ghost view = { λ c. record { verdict = c.verdict; added = c.added.items } };
}

// Whether t is one of a's tags.
fn has_tag(a: Record, t: u64) -> bool
    ensures { result ≡ member t (tags a.entry.bytes.now) }
{
    for i in 0..a.tag_count() {
        if t == a.tag(i) {
            return true;
        }
    }
    false
}

// The tags that b has and a has not.
fn added(a: Record, b: Record) -> ArrayVec<u64, MAX_TAGS>
    ensures { result.items ≡ added_tags a.entry.bytes.now b.entry.bytes.now }
{
    let mut added = ArrayVec::new();
    for i in 0..b.tag_count() {
        let t = b.tag(i);
        if has_tag(a, t) {
            continue;
        }
        added.push(t);
    }
    added
}

// A verdict that names no tags.
fn plain(verdict: SupersetVerdict) -> Comparison
    ensures { result ≡ without_tags verdict }
{
    Comparison {
        verdict,
        added: ArrayVec::new(),
    }
}

#[tactic(auto, unfolding(crate::specs::Supersets::comparison_of))]
// Whether the larger fix agrees with the smaller.
fn compared(smaller: Record, larger: Record) -> Comparison
    ensures { result ≡ comparison_of smaller.entry.bytes.now larger.entry.bytes.now }
{
    let a = arithmetic::agreement(
        decision_items::claimed::claimed(smaller),
        decision_items::claimed::claimed(larger),
    );
    if arithmetic::agrees(a) {
        return plain(SupersetVerdict::Agrees);
    }
    Comparison {
        verdict: SupersetVerdict::Contested(arithmetic::chi_square(a)),
        added: added(smaller, larger),
    }
}

/// Whether the larger of two fixes, in the bytes of their records, agrees with the smaller.
#[tactic(auto, unfolding(crate::specs::Supersets::verdict_of))]
pub fn superset_verdict(smaller: &[u8], larger: &[u8]) -> Comparison
    ensures { result ≡ verdict_of smaller.now larger.now }
{
    let Some(smaller) = Record::parse(smaller) else {
        return plain(SupersetVerdict::Malformed);
    };
    let Some(larger) = Record::parse(larger) else {
        return plain(SupersetVerdict::Malformed);
    };
    compared(smaller, larger)
}
