//! A decision's bytes: ranked, dominated and refusals, each a count and room for all items.
//!
//! Each writer puts its part at a position of a lent buffer and returns the position after it.
#![tactic(auto)]

ghost use Rattle.std.specs.Prelude.{◌≡◌, ℕ, false, ◌∷◌, ◌+◌, ◌*◌, ◌/◌, ◌≤◌, ◌<◌, length, replicate};
ghost use Rattle.octets.specs.Words.{word_bytes};
ghost use Rattle.octets.specs.Put.{Put};
ghost use Rattle.decision_items.specs.Layout.{item_size, max_items};
ghost use Rattle.decision_rule.specs.Outcome.{Outcome};
ghost use Rattle.arithmetic.specs.declared.standing.ChiSquare.{ChiSquare as Squared};
ghost use Rattle.decision.specs.Answer.{indices, is_bad, outcome, arrays_of, decided_arrays};
ghost use Rattle.decision.specs.Answered.{Says};
ghost use Rattle.decision.specs.Sorted.{sorted_arrays};
ghost use Rattle.decision_bytes.specs.Orders.{outcome_in, arrays_in};
ghost use Rattle.errors.specs.After.{after};
ghost use Rattle.decision_bytes.specs.Layout.{chi_square_size, refusal_size};
ghost use Rattle.decision_bytes.specs.Offsets.{indices_size, refusals_size, answer_size};
ghost use Rattle.decision_bytes.specs.Answer.{indices_bytes, chi_square_bytes, refusal_bytes, answer_bytes, hand_out};
ghost use Rattle.decision_bytes.specs.Offsets.{list_bytes};

use arithmetic::standing::ChiSquare;
use decision::{
    Decision, FEW, Items, LEAST, Refusal, SOME, decide_each, decide_few, decide_least, decide_some,
};
use decision_items::layout::MAX_ITEMS;

pub mod claims;

/// A count and room for an index of each item.
pub const INDICES_SIZE: usize = 1 + MAX_ITEMS;

// Whether there is a chi-square, and its bits.
const CHI_SQUARE_SIZE: usize = 1 + 8;

/// The refused, the kept, whether it is superseded, and the chi-square.
pub const REFUSAL_SIZE: usize = 3 + CHI_SQUARE_SIZE;

/// A count and room for a refusal of each item.
pub const REFUSALS_SIZE: usize = 1 + MAX_ITEMS * REFUSAL_SIZE;

/// The ranked, the dominated and the refusals.
pub const ANSWER_SIZE: usize = INDICES_SIZE + INDICES_SIZE + REFUSALS_SIZE;

// The answers of items of which something is decided, and of bad ones.
const DECIDED: u32 = 0;

const BAD_ITEMS: u32 = 8;

// Their count, and then items by their places, zero where there are no more.
fn put_indices(out: &mut [u8], at: usize, list: &[u8]) -> usize
    requires room { at + indices_size ≤ length out.old }
    requires few { length list.now ≤ max_items }
    ensures { (result ≡ at + indices_size) × Put out.old at (indices_bytes (indices list.now)) result out.new }
{
    let mut padded = [0u8; MAX_ITEMS];
    padded[..list.len()].copy_from_slice(list);
    out[at] = list.len() as u8;
    octets::runs::put_bytes(out, at + 1, &padded)
}

// Whether there is a chi-square, and its bits.
fn put_measured(out: &mut [u8], at: usize, measured: u8, bits: u64) -> usize
    requires { at + chi_square_size ≤ length out.old }
    ensures { Put out.old at (measured ∷ word_bytes 8 bits) result out.new }
{
    out[at] = measured;
    octets::words::put_u64(out, at + 1, bits);
    at + CHI_SQUARE_SIZE
}

// No number where none was measured.
fn put_chi_square(out: &mut [u8], at: usize, c: ChiSquare) -> usize
    requires { at + chi_square_size ≤ length out.old }
    ensures { Put out.old at (chi_square_bytes c) result out.new }
{
    match c {
        ChiSquare::Measured(x) => put_measured(out, at, 1, floats::to_bits(x)),
        ChiSquare::Unmeasured => put_measured(out, at, 0, 0),
    }
}

fn put_refusal(out: &mut [u8], at: usize, x: Refusal) -> usize
    requires { at + refusal_size ≤ length out.old }
    ensures { Put out.old at (refusal_bytes x) result out.new }
{
    out[at] = x.refused;
    out[at + 1] = x.kept;
    out[at + 2] = x.superseded as u8;
    let chi2 = x.chi2;
    put_chi_square(out, at + 3, chi2)
}

// The refusals, with their count before them.
fn put_refusals(out: &mut [u8], at: usize, refusals: &[Refusal]) -> usize
    requires room { at + refusals_size ≤ length out.old }
    requires few { length refusals.now ≤ max_items }
    ensures { (result ≤ at + refusals_size) × Put out.old at (list_bytes refusals.now) result out.new }
{
    out[at] = refusals.len() as u8;
    let mut next = at + 1;
    for x in refusals {
        next = put_refusal(out, next, *x);
    }
    next
}

// The three parts, one after another, into zeros, so that what is not used is zero.
#[inline(never)]
fn put_decision<const N: usize>(out: &mut [u8], decision: &Decision<N>)
    requires zeros { out.old ≡ replicate answer_size 0 }
    requires few { N ≤ max_items }
    ensures { (o : Outcome ℕ Squared) → Says decision.now o → out.new ≡ answer_bytes (arrays_of o) }
{
    let second = put_indices(out, 0, &decision.ranked);
    let third = put_indices(out, second, &decision.dominated);
    put_refusals(out, third, &decision.refusals);
}

/// In which order the dominated and the refusals stand.
#[derive(Clone, Copy)]
enum Order {
    /// In that in which the items were given.
    Given,
    /// In ascending identity.
    Identity,
}

// The decision in an order. A function of its own, so that what a sort needs is no part of the frame in which items are decided.
#[inline(never)]
fn put_ordered<const N: usize>(
    out: &mut [u8],
    items: &Items<'_>,
    decision: &mut Decision<N>,
    order: Order,
)
    requires zeros { out.old ≡ replicate answer_size 0 }
    requires few { N ≤ max_items }
    ensures { Says decision.old (outcome items.now.bytes.now) → out.new ≡ answer_bytes (arrays_of (outcome_in order items.now.bytes.now)) }
{
    match order {
        Order::Given => {}
        Order::Identity => decision.sort_by_identity(items),
    }
    put_decision(out, decision);
}

// Decides at most `LEAST` items. Each size has a function, and so a frame, of its own.
#[inline(never)]
fn put_least(out: &mut [u8], items: &Items<'_>, order: Order)
    requires zeros { out.old ≡ replicate answer_size 0 }
    requires some { (0 < length items.now.bytes.now / item_size) × (length items.now.bytes.now / item_size ≤ LEAST) }
    ensures { out.new ≡ answer_bytes (arrays_of (outcome_in order items.now.bytes.now)) }
{
    let mut decision = decide_least(items.len(), |i| items.get(i));
    put_ordered(out, items, &mut decision, order);
}

// Decides at most `FEW` items.
#[inline(never)]
fn put_few(out: &mut [u8], items: &Items<'_>, order: Order)
    requires zeros { out.old ≡ replicate answer_size 0 }
    requires some { (0 < length items.now.bytes.now / item_size) × (length items.now.bytes.now / item_size ≤ FEW) }
    ensures { out.new ≡ answer_bytes (arrays_of (outcome_in order items.now.bytes.now)) }
{
    let mut decision = decide_few(items.len(), |i| items.get(i));
    put_ordered(out, items, &mut decision, order);
}

// Decides at most `SOME` items.
#[inline(never)]
fn put_some(out: &mut [u8], items: &Items<'_>, order: Order)
    requires zeros { out.old ≡ replicate answer_size 0 }
    requires some { (0 < length items.now.bytes.now / item_size) × (length items.now.bytes.now / item_size ≤ SOME) }
    ensures { out.new ≡ answer_bytes (arrays_of (outcome_in order items.now.bytes.now)) }
{
    let mut decision = decide_some(items.len(), |i| items.get(i));
    put_ordered(out, items, &mut decision, order);
}

// Decides any items.
#[inline(never)]
fn put_many(out: &mut [u8], items: &Items<'_>, order: Order)
    requires zeros { out.old ≡ replicate answer_size 0 }
    requires some { (0 < length items.now.bytes.now / item_size) × (length items.now.bytes.now / item_size ≤ max_items) }
    ensures { out.new ≡ answer_bytes (arrays_of (outcome_in order items.now.bytes.now)) }
{
    let mut decision = decide_each(items.len(), |i| items.get(i));
    put_ordered(out, items, &mut decision, order);
}

// Decides two items or more in tables of their size. A function of its own, so that one item alone does not wait for the tables.
#[inline(never)]
fn put_decided(out: &mut [u8; ANSWER_SIZE], items: &Items<'_>, order: Order)
    requires zeros { out.old ≡ replicate answer_size 0 }
    requires some { 1 < length items.now.bytes.now / item_size }
    ensures { out.new ≡ answer_bytes (arrays_of (outcome_in order items.now.bytes.now)) }
{
    match items.len() {
        ..=LEAST => put_least(out, items, order),
        ..=FEW => put_few(out, items, order),
        ..=SOME => put_some(out, items, order),
        _ => put_many(out, items, order),
    }
}

// Decides items in bytes, and answers in an order.
fn decide_in(s: &[u8], out: &mut [u8; ANSWER_SIZE], order: Order) -> u32
    ensures { after result out.new ≡ hand_out (arrays_in order s.now) out.old }
{
    let Some(items) = Items::parse(s) else {
        return BAD_ITEMS;
    };
    *out = [0u8; ANSWER_SIZE];
    let n = items.len();
    if n <= 1 {
        // An item that is alone is ranked.
        out[0] = n as u8;
    } else {
        put_decided(out, &items, order);
    }
    DECIDED
}

/// Decides items in bytes. The array is written where something is decided, and stays as it is on a refusal.
pub fn decide(s: &[u8], out: &mut [u8; ANSWER_SIZE]) -> u32
    ensures { after result out.new ≡ hand_out (decided_arrays s.now) out.old }
{
    decide_in(s, out, Order::Given)
}

/// Decides items in bytes as `decide` does, and answers the dominated and the refusals in ascending identity: so the answer does not follow
/// the order in which the items were given.
pub fn decide_any(s: &[u8], out: &mut [u8; ANSWER_SIZE]) -> u32
    ensures { after result out.new ≡ hand_out (sorted_arrays s.now) out.old }
{
    decide_in(s, out, Order::Identity)
}
