//! Items by their places in a list.

ghost use Rattle.std.specs.Prelude.{◌≡◌, ◌&&◌, true, length, ◌≤◌, ◌<◌, Some, IfSome, slice_get};
ghost use Rattle.decision_items.specs.declared.item.Item.{Item};
ghost use Rattle.decision_items.specs.Layout.{max_items};

use crate::pairs;
use crate::places::Places;
use crate::row::{KnownFactor, Row};
use arithmetic::standing::ChiSquare;
use decision_items::Item;

/// The items of a decision.
#[derive(Clone, Copy)]
pub struct Listed<'a> {
    pub items: &'a [Item<'a>],
    ghost few: { length items.now ≤ max_items },
}

impl<'a> Listed<'a> {
    ghost use Rattle.decision_rule.specs.Rows as R;
    ghost use Rattle.decision_rule.specs.Listed as L;
    ghost use Rattle.decision_rule.specs.First as F;
    ghost use Rattle.decision_rule.specs.Places.{has_place, set_of};
    ghost use Rattle.decision_rule.specs.Factors.{IsKnown, Factors};

    /// The items of a list.
    pub fn of(items: &'a [Item<'a>]) -> Listed<'a>
        requires { length items.now ≤ max_items }
        ensures { result.items.now ≡ items.now }
    {
        Listed { items }
    }

    /// Whether item i is verified, and passed.
    pub fn has_passed(&self, i: usize) -> bool
        requires { i < length self.now.items.now }
        ensures { result ≡ (L.relations self.now.items.now).passed i }
    {
        let item = &self.items[i];
        item.has_passed()
    }

    /// Whether item i ranks before item j.
    pub fn ranks_before(&self, i: usize, j: usize) -> bool
        requires { (i < length self.now.items.now) × (j < length self.now.items.now) }
        ensures { result ≡ (L.relations self.now.items.now).ahead i j }
    {
        let item = &self.items[i];
        let other = &self.items[j];
        item.ranks_before(other)
    }

    /// The chi-square of item i against its subset j, of whose factor this is known.
    pub fn chi_square(&self, i: usize, j: usize, known: KnownFactor) -> ChiSquare
        requires i_below { i < length self.now.items.now }
        requires j_below { j < length self.now.items.now }
        requires known { (x : Item) → slice_get self.now.items.now j ≡ Some x → IsKnown x known }
        ensures { result ≡ (L.relations self.now.items.now).chi_square i j }
    {
        let item = &self.items[i];
        let subset = &self.items[j];
        match known {
            Some(factor) => item.chi_square(subset, &factor),
            None => item.chi_square(subset, &subset.factor()),
        }
    }

    // The lower identity of best, if there is one, and item j.
    fn better(&self, best: Option<usize>, j: usize) -> Option<usize>
        requires { (j < length self.now.items.now) × IfSome best (λ b. b < length self.now.items.now) }
        ensures { result ≡ F.better (L.relations self.now.items.now).lower best j }
    {
        let Some(b) = best else {
            return Some(j);
        };
        let best = &self.items[b];
        let item = &self.items[j];
        if item.is_lower(best) {
            return Some(j);
        }
        Some(b)
    }

    /// The lowest identity of some items.
    pub fn lowest(&self, of: Places) -> Option<usize>
        ensures first { result ≡ R.lowest self.now.items.now (has_place of.word) }
        ensures within { IfSome result (λ b. b < length self.now.items.now) }
    {
        let mut best = None;
        let mut left = of;
        for j in 0..self.items.len() {
            if !left.shift() {
                continue;
            }
            best = self.better(best, j);
        }
        best
    }

    /// Of some items those that have the model inputs of item i.
    pub fn alike(&self, of: Places, i: usize) -> Places
        requires { i < length self.now.items.now }
        ensures { result.word ≡ set_of (λ j. has_place of.word j && L.have_same_inputs self.now.items.now j i) (length self.now.items.now) }
    {
        let item = &self.items[i];
        let mut some = Places::none();
        let mut left = of;
        for j in 0..self.items.len() {
            if !left.shift() {
                continue;
            }
            let other = &self.items[j];
            if !other.has_inputs_of(item) {
                continue;
            }
            some.insert(j);
        }
        some
    }

    /// How item i stands to each other. The factors that it is the first to ask for are put into the table.
    pub fn row(&self, factors: &mut [KnownFactor], i: usize) -> Row
        requires i_below { i < length self.now.items.now }
        requires factors_len { length factors.old ≡ length self.now.items.now }
        requires known { Factors self.now.items.now factors.old }
        ensures row { result ≡ R.row self.now.items.now i (length self.now.items.now) }
        ensures known { Factors self.now.items.now factors.new }
    {
        let item = &self.items[i];
        let mut row = Row::empty();
        for j in 0..self.items.len() {
            let subset = &self.items[j];
            if !subset.is_subset_of(item) {
                continue;
            }
            row.subsets.insert(j);
            if !pairs::disagrees(item, subset, &mut factors[j]) {
                continue;
            }
            row.disagreeing.insert(j);
            if item.outstands(subset) {
                continue;
            }
            row.resisting.insert(j);
        }
        row
    }
}
