//! The items of a decision in lent bytes.
#![tactic(auto)]

ghost use Rattle.std.specs.Prelude.{◌≡◌, false, not, ◌+◌, ◌*◌, ◌/◌, ◌≤◌, ◌<◌, length, is_some, IfSome};
ghost use Rattle.std.specs.List.{list_any};
ghost use Rattle.lists.specs.Ordered.{up_to};
ghost use Rattle.decision_items.specs.Layout.{item_size, max_items};
ghost use Rattle.std.specs.Ordering.{is_lt};
ghost use Rattle.decision_items.specs.Items.{item_identity, lower_at, same_identity};
ghost use Rattle.decision_items.specs.Values.{IsItem};
ghost use Rattle.decision.specs.Answer.{bad_at, is_bad};

use decision_items::Item;
use decision_items::layout::{HASH_SIZE, IDENTITY_AT, ITEM_SIZE, MAX_ITEMS};
use std::cmp::Ordering;
use tables::table::places_of;

/// At most 96 items in bytes of `decision_items::layout::ITEM_SIZE` each, of which every record is well-formed and no two have one identity.
#[derive(Clone, Copy)]
pub struct Items<'a> {
    bytes: &'a [u8],
    ghost good: { is_bad bytes.now ≡ false },
    ghost whole: { length bytes.now ≡ length bytes.now / item_size * item_size },
    ghost few: { length bytes.now / item_size ≤ max_items },
}

// Whether item i has the identity of one before it.
fn repeated(s: &[u8], i: u8) -> bool
    requires { i * item_size + item_size ≤ length s.now }
    ensures { result ≡ list_any (same_identity s.now i) (up_to i) }
{
    for j in 0..i {
        if decision_items::same_identity(s, i, j) {
            return true;
        }
    }
    false
}

#[tactic(auto, unfolding(crate::specs::Answer::bad_at))]
fn bad_at(s: &[u8], i: u8) -> bool
    requires { i * item_size + item_size ≤ length s.now }
    ensures { result ≡ bad_at s.now i }
{
    decision_items::parsed_record(s, i).is_none() || repeated(s, i)
}

fn any_bad(s: &[u8], n: u8) -> bool
    requires { n * item_size ≤ length s.now }
    ensures { result ≡ list_any (bad_at s.now) (up_to n) }
{
    for i in 0..n {
        if bad_at(s, i) {
            return true;
        }
    }
    false
}

// Over 96 items, no whole number of items, a malformed one, or two with one identity.
fn is_bad(s: &[u8]) -> bool
    ensures { result ≡ is_bad s.now }
{
    if MAX_ITEMS * ITEM_SIZE < s.len() {
        return true;
    }
    if s.len() % ITEM_SIZE != 0 {
        return true;
    }
    any_bad(s, (s.len() / ITEM_SIZE) as u8)
}

impl<'a> Items<'a> {
    /// The items that bytes are. There are none where they are bad: over 96 items, no whole number of items, a malformed one, or two with
    /// one identity.
    pub fn parse(bytes: &'a [u8]) -> Option<Items<'a>>
        ensures good { is_some result ≡ not (is_bad bytes.now) }
        ensures same { IfSome result (λ items. items.bytes.now ≡ bytes.now) }
    {
        if is_bad(bytes) {
            return None;
        }
        Some(Items { bytes })
    }

    /// How many they are.
    pub fn len(&self) -> usize
        ensures { result ≡ length self.now.bytes.now / item_size }
    {
        self.bytes.len() / ITEM_SIZE
    }

    /// Item i.
    pub fn get(&self, i: usize) -> Item<'a>
        requires { i < length self.now.bytes.now / item_size }
        ensures { IsItem self.now.bytes.now i result }
    {
        let places = places_of::<ITEM_SIZE>(self.bytes, i + 1);
        Item::of(&places[i])
    }

    // The identity of item i. It has no byte where there are not so many items.
    fn identity(&self, i: u8) -> &'a [u8]
        ensures { result.now ≡ item_identity self.now.bytes.now i }
    {
        let at = i as usize * ITEM_SIZE + IDENTITY_AT;
        let bytes = self.bytes;
        bytes.get(at..at + HASH_SIZE).unwrap_or(&[])
    }

    /// How the identities of two items compare, byte by byte.
    pub fn compare(&self, i: u8, j: u8) -> Ordering
        ensures { is_lt result ≡ lower_at self.now.bytes.now i j }
    {
        self.identity(i).cmp(self.identity(j))
    }
}
