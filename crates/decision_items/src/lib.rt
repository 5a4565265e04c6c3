//! The items of a decision: in lent bytes of `layout::ITEM_SIZE` each, and as values.
#![tactic(auto)]

ghost use Rattle.std.specs.Prelude.{◌≡◌, ◌+◌, ◌*◌, ◌≤◌, ◌<◌, length, is_some, IfSome};
ghost use Rattle.octets.specs.Order.{same};
ghost use Rattle.record.specs.Layout.{record_size};
ghost use Rattle.record.specs.Formed.{well_formed};
ghost use Rattle.decision_items.specs.Layout.{item_size, hash_size};
ghost use Rattle.decision_items.specs.Items as I;

use record::Record;

pub mod claimed;
pub mod item;
pub mod layout;

pub use item::Item;

/// Whether a holder of an item's raw data verified it.
#[derive(Clone, Copy)]
pub enum Verified {
    Passed,
    Failed,
    Unjudged,
}

/// What a decision goes by of an item, besides its record, its model inputs and its identity.
#[derive(Clone, Copy)]
pub struct Candidate {
    pub standing: u64,
    pub weight: u32,
    pub consistent: bool,
    pub preferred: bool,
    pub verified: Verified,
}

// The case of a number.
fn verified_case(b: u8) -> Verified
    ensures { result ≡ I.verified_case b }
{
    if b == layout::PASSED {
        return Verified::Passed;
    }
    if b == layout::FAILED {
        return Verified::Failed;
    }
    Verified::Unjudged
}

// Whether an item was verified and passed.
fn is_passed(v: Verified) -> bool
    ensures { result ≡ I.is_passed v }
{
    match v {
        Verified::Passed => true,
        Verified::Failed => false,
        Verified::Unjudged => false,
    }
}

// The bytes of item i's record, which are a record where the items are whole.
fn record_bytes(s: &[u8], i: u8) -> &[u8]
    requires { i * item_size + item_size ≤ length s.now }
    ensures { (result.now ≡ I.item_record s.now i) × (length result.now ≡ record_size) }
{
    let a = i as usize * layout::ITEM_SIZE;
    let e = a + layout::INPUTS_AT;
    &s[a..e]
}

/// The record of item i, if its bytes are one.
pub fn parsed_record(s: &[u8], i: u8) -> Option<Record>
    requires { i * item_size + item_size ≤ length s.now }
    ensures formed { is_some result ≡ well_formed (I.item_record s.now i) }
    ensures same { IfSome result (λ r. r.bytes.now ≡ I.item_record s.now i) }
{
    Record::parse(record_bytes(s, i))
}

// The 32 bytes of item i from `at` on: its model inputs or its identity.
fn hash_of(s: &[u8], i: u8, at: usize) -> &[u8]
    requires { (i * item_size + item_size ≤ length s.now) × (at + hash_size ≤ item_size) }
    ensures { (result.now ≡ I.hash_of at s.now i) × (length result.now ≡ hash_size) }
{
    let a = i as usize * layout::ITEM_SIZE + at;
    let e = a + layout::HASH_SIZE;
    &s[a..e]
}

/// Whether two items have one identity.
pub fn same_identity(s: &[u8], i: u8, j: u8) -> bool
    requires { (i * item_size + item_size ≤ length s.now) × (j * item_size + item_size ≤ length s.now) }
    ensures { result ≡ I.same_identity s.now i j }
{
    octets::order::equal(
        hash_of(s, i, layout::IDENTITY_AT),
        hash_of(s, j, layout::IDENTITY_AT),
    )
}
