//! Which of one transmission's fixes stand, in rank, which are dominated, and which are refused, and against whom.
//!
//! `decide` takes the items in any bytes. `decide_each` asks for one after another, and `decide_some`, `decide_few` and `decide_least` do so
//! with smaller tables and lists, each in a frame of its own.
#![tactic(auto)]

ghost use Rattle.std.specs.Prelude.{◌≡◌, ℕ, false, [], ◌+◌, ◌*◌, ◌≤◌, ◌<◌, length, replicate, None};
ghost use Rattle.lists.specs.Ordered.{up_to};
ghost use Rattle.decision_items.specs.Layout.{item_size, max_items};
ghost use Rattle.decision.specs.Answer.{outcome, decided_arrays};
ghost use Rattle.decision.specs.Sorted.{sorted_outcome};
ghost use Rattle.decision.specs.Answered.{Says, answered};
ghost use Rattle.decision_rule.specs.Phases.{items_of};
ghost use Rattle.decision.specs.Working.{among};
ghost use Rattle.decision.specs.Each.{Each, DecidesEach};

use arithmetic::standing::ChiSquare;
use arrayvec::ArrayVec;
use decision_items::Item;
use decision_items::layout::{ITEM_SIZE, MAX_ITEMS};
use decision_rule::listed::Listed;
use decision_rule::row::{KnownFactor, Row};
use decision_rule::settled::Settled;

pub mod claims;
mod listing;
mod parsed;

pub use parsed::Items;

/// A decision of up to this many items is made in the smallest tables: the fewer places they have, the less there is to clear.
pub const LEAST: usize = 4;

/// Up to this many items have small tables.
pub const FEW: usize = 10;

/// And up to this many have tables of a third of the most.
pub const SOME: usize = 32;

/// A refused item, the one that it is refused against, and the chi-square between them where there is one. `superseded`: it is the smaller,
/// and a verified superset with more standing took its place; else it is the larger.
#[derive(Clone, Copy)]
pub struct Refusal {
    pub chi2: ChiSquare,
    pub refused: u8,
    pub kept: u8,
    pub superseded: bool,
}

impl Default for Refusal {
    // What an unused place of a list holds.
    fn default() -> Refusal {
        Refusal {
            chi2: ChiSquare::Unmeasured,
            refused: 0,
            kept: 0,
            superseded: false,
        }
    }
}

/// What is decided of at most N items, by their places: the ranked in rank, the dominated and the refusals ascending.
#[derive(Drop)]
pub struct Decision<const N: usize> {
    pub ranked: ArrayVec<u8, N>,
    pub dominated: ArrayVec<u8, N>,
    pub refusals: ArrayVec<Refusal, N>,
}

impl<const N: usize> Decision<N> {
    /// Puts the dominated and the refusals into ascending identity of their items, so that they do not follow the order in which the
    /// items were given.
    pub fn sort_by_identity(&mut self, items: &Items<'_>)
        ensures { Says self.old (outcome items.now.bytes.now) → Says self.new (sorted_outcome items.now.bytes.now) }
    {
        self.dominated
            .as_mut_slice()
            .sort_unstable_by(|a, b| items.compare(*a, *b));
        self.refusals
            .as_mut_slice()
            .sort_unstable_by(|a, b| items.compare(a.refused, b.refused));
    }
}

// What is decided of settled items.
fn decision_of<const N: usize>(settled: &Settled<'_>) -> Decision<N>
    requires room { length (items_of settled.now) ≤ N }
    ensures { Says result (among (items_of settled.now)) }
{
    let mut decision = Decision {
        ranked: ArrayVec::new(),
        dominated: ArrayVec::new(),
        refusals: ArrayVec::new(),
    };
    listing::list_ranked(settled, &mut decision.ranked);
    listing::list_dominated(settled, &mut decision.dominated);
    listing::list_refusals(settled, &mut decision.refusals);
    decision
}

// Reads the items, of which the first is read.
fn read<'a, F: Fn(usize) -> Item<'a>>(items: &mut [Item<'a>], item: F)
    requires given { (i : ℕ) → i < length items.old → F.pre item i }
    requires first { Each (F.post item) items.old 1 }
    ensures { (length items.new ≡ length items.old) × Each (F.post item) items.new (length items.old) }
{
    for i in 1..items.len() {
        items[i] = item(i);
    }
}

// What is decided of items, in lent rows, one for each, and a lent table with room for a factor of each, of which none is known yet.
fn decide_items<const N: usize>(
    items: &[Item<'_>],
    rows: &mut [Row],
    factors: &mut [KnownFactor],
) -> Decision<N>
    requires few { length items.now ≤ max_items }
    requires room { length items.now ≤ N }
    requires rows_len { length rows.old ≡ length items.now }
    requires factors_len { length items.now ≤ length factors.old }
    requires none_known { factors.old ≡ replicate (length factors.old) None }
    ensures { Says result (among items.now) }
{
    let factors = &mut factors[..items.len()];
    decision_of(&Settled::of(Listed::of(items), rows, factors))
}

/// What is decided of at most `LEAST` items, each of which is given by its place.
#[inline(never)]
pub fn decide_least<'a, F: Fn(usize) -> Item<'a>>(n: usize, item: F) -> Decision<LEAST>
    requires n_bound { (0 < n) × (n ≤ LEAST) }
    requires given { (i : ℕ) → i < n → F.pre item i }
    ensures { DecidesEach (F.post item) n result }
{
    let mut items = [item(0); LEAST];
    let mut rows = [Row::empty(); LEAST];
    let mut factors = [None; LEAST];
    read(&mut items[..n], item);
    decide_items(&items[..n], &mut rows[..n], &mut factors)
}

// In the smallest tables, where the lists have room for few.
#[inline(never)]
fn decide_fewest<'a, F: Fn(usize) -> Item<'a>>(n: usize, item: F) -> Decision<FEW>
    requires n_bound { (0 < n) × (n ≤ LEAST) }
    requires given { (i : ℕ) → i < n → F.pre item i }
    ensures { DecidesEach (F.post item) n result }
{
    let mut items = [item(0); LEAST];
    let mut rows = [Row::empty(); LEAST];
    let mut factors = [None; LEAST];
    read(&mut items[..n], item);
    decide_items(&items[..n], &mut rows[..n], &mut factors)
}

// In tables with room for few.
#[inline(never)]
fn decide_more<'a, F: Fn(usize) -> Item<'a>>(n: usize, item: F) -> Decision<FEW>
    requires n_bound { (0 < n) × (n ≤ FEW) }
    requires given { (i : ℕ) → i < n → F.pre item i }
    ensures { DecidesEach (F.post item) n result }
{
    let mut items = [item(0); FEW];
    let mut rows = [Row::empty(); FEW];
    let mut factors = [None; FEW];
    read(&mut items[..n], item);
    decide_items(&items[..n], &mut rows[..n], &mut factors)
}

/// What is decided of at most `FEW` items, each of which is given by its place.
pub fn decide_few<'a, F: Fn(usize) -> Item<'a>>(n: usize, item: F) -> Decision<FEW>
    requires n_bound { (0 < n) × (n ≤ FEW) }
    requires given { (i : ℕ) → i < n → F.pre item i }
    ensures { DecidesEach (F.post item) n result }
{
    if n <= LEAST {
        return decide_fewest(n, item);
    }
    decide_more(n, item)
}

/// What is decided of at most `SOME` items, each of which is given by its place.
#[inline(never)]
pub fn decide_some<'a, F: Fn(usize) -> Item<'a>>(n: usize, item: F) -> Decision<SOME>
    requires n_bound { (0 < n) × (n ≤ SOME) }
    requires given { (i : ℕ) → i < n → F.pre item i }
    ensures { DecidesEach (F.post item) n result }
{
    let mut items = [item(0); SOME];
    let mut rows = [Row::empty(); SOME];
    let mut factors = [None; SOME];
    read(&mut items[..n], item);
    decide_items(&items[..n], &mut rows[..n], &mut factors)
}

// In small tables, where the lists have room for all.
#[inline(never)]
fn decide_small<'a, F: Fn(usize) -> Item<'a>>(n: usize, item: F) -> Decision<MAX_ITEMS>
    requires n_bound { (0 < n) × (n ≤ FEW) }
    requires given { (i : ℕ) → i < n → F.pre item i }
    ensures { DecidesEach (F.post item) n result }
{
    let mut items = [item(0); FEW];
    let mut rows = [Row::empty(); FEW];
    let mut factors = [None; FEW];
    read(&mut items[..n], item);
    decide_items(&items[..n], &mut rows[..n], &mut factors)
}

// In tables with room for all.
#[inline(never)]
fn decide_many<'a, F: Fn(usize) -> Item<'a>>(n: usize, item: F) -> Decision<MAX_ITEMS>
    requires n_bound { (0 < n) × (n ≤ MAX_ITEMS) }
    requires given { (i : ℕ) → i < n → F.pre item i }
    ensures { DecidesEach (F.post item) n result }
{
    let mut items = [item(0); MAX_ITEMS];
    let mut rows = [Row::empty(); MAX_ITEMS];
    let mut factors = [None; MAX_ITEMS];
    read(&mut items[..n], item);
    decide_items(&items[..n], &mut rows[..n], &mut factors)
}

/// What is decided of items, each of which is given by its place.
pub fn decide_each<'a, F: Fn(usize) -> Item<'a>>(n: usize, item: F) -> Decision<MAX_ITEMS>
    requires n_bound { (0 < n) × (n ≤ MAX_ITEMS) }
    requires given { (i : ℕ) → i < n → F.pre item i }
    ensures { DecidesEach (F.post item) n result }
{
    if n <= FEW {
        return decide_small(n, item);
    }
    decide_many(n, item)
}

/// What is decided of at most one item: nothing opposes it.
pub fn decide_alone<const N: usize>(n: usize) -> Decision<N>
    requires few { n ≤ 1 }
    requires room { n ≤ N }
    ensures ranked { result.ranked.items ≡ up_to n }
    ensures dominated { result.dominated.items ≡ [] }
    ensures refusals { result.refusals.items ≡ [] }
{
    let mut ranked = ArrayVec::new();
    for i in 0..n {
        ranked.push(i as u8);
    }
    Decision {
        ranked,
        dominated: ArrayVec::new(),
        refusals: ArrayVec::new(),
    }
}

/// What is decided of items in bytes, of `decision_items::layout::ITEM_SIZE` each: any bytes may be lent. Nothing is decided of bad items
/// (`Items::parse`).
pub fn decide(s: &[u8]) -> Option<Decision<MAX_ITEMS>>
    ensures { answered result ≡ decided_arrays s.now }
{
    let items = Items::parse(s)?;
    let n = items.len();
    if n <= 1 {
        return Some(decide_alone(n));
    }
    Some(decide_each(n, |i| items.get(i)))
}
