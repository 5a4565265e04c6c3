//! Items, each two of them compared once.

ghost use Rattle.std.specs.Prelude.{◌≡◌, length, replicate, ◌<◌, None, IfSome};
ghost use Rattle.decision_rule.specs.Rows.{Rows};
ghost use Rattle.decision_rule.specs.Factors.{Factors};

use crate::listed::Listed;
use crate::places::Places;
use crate::row::{KnownFactor, Row};
use arithmetic::standing::ChiSquare;

// Compares each two of the items.
fn fill(listed: Listed<'_>, rows: &mut [Row], factors: &mut [KnownFactor])
    requires rows_len { length rows.old ≡ length listed.items.now }
    requires factors_len { length factors.old ≡ length listed.items.now }
    requires known { Factors listed.items.now factors.old }
    ensures rows { (length rows.new ≡ length rows.old) × Rows listed.entry.items.now (length rows.new) rows.new }
    ensures factors { Factors listed.entry.items.now factors.new }
{
    for i in 0..rows.len() {
        rows[i] = listed.row(factors, i);
    }
}

/// Items, each two of them compared.
#[derive(Clone, Copy)]
pub struct Compared<'a> {
    pub listed: Listed<'a>,
    pub rows: &'a [Row],
    factors: &'a [KnownFactor],
    ghost all: { length rows.now ≡ length listed.items.now },
    ghost known: { Rows listed.items.now (length listed.items.now) rows.now },
    ghost all_factors: { length factors.now ≡ length listed.items.now },
    ghost known_factors: { Factors listed.items.now factors.now },
}

impl<'a> Compared<'a> {
    ghost use Rattle.decision_rule.specs.Rows as R;
    ghost use Rattle.decision_rule.specs.Listed as L;
    ghost use Rattle.decision_rule.specs.Places.{set_of};
    ghost use Rattle.decision_rule.specs.Phases.{compared_items as items_of};

    /// Compares each two of the items, in lent rows and a lent table of factors: one of each for each item. No factor is known before.
    pub fn of(listed: Listed<'a>, rows: &'a mut [Row], factors: &'a mut [KnownFactor]) -> Self
        requires rows_len { length rows.old ≡ length listed.items.now }
        requires none_known { factors.old ≡ replicate (length listed.items.now) None }
        ensures { result.listed.items.now ≡ listed.entry.items.now }
    {
        fill(listed, rows, factors);
        Compared {
            listed,
            rows,
            factors,
        }
    }

    fn row(&self, i: usize) -> Row
        requires { i < length (items_of self.now) }
        ensures { result ≡ R.row (items_of self.now) i (length (items_of self.now)) }
    {
        self.rows[i]
    }

    /// Whether item i passed, has disagreeing subsets, and more standing than each of them.
    fn supersedes(&self, i: usize) -> bool
        requires { i < length (items_of self.now) }
        ensures { result ≡ R.supersedes (items_of self.now) i }
    {
        if !self.listed.has_passed(i) {
            return false;
        }
        let row = self.row(i);
        if row.disagreeing.is_empty() {
            return false;
        }
        row.resisting.is_empty()
    }

    /// Who supersedes.
    pub fn superseding(&self) -> Places
        ensures { result.word ≡ R.set_where R.supersedes (items_of self.now) }
    {
        let mut some = Places::none();
        for i in 0..self.rows.len() {
            if !self.supersedes(i) {
                continue;
            }
            some.insert(i);
        }
        some
    }

    /// Who is superseded.
    pub fn superseded(&self, superseding: Places) -> Places
        requires { superseding.word ≡ R.set_where R.supersedes (items_of self.now) }
        ensures { result.word ≡ R.set_where R.is_superseded (items_of self.now) }
    {
        let mut some = Places::none();
        for i in 0..self.rows.len() {
            if !superseding.contains(i) {
                continue;
            }
            let row = self.row(i);
            some = some.union(row.disagreeing);
        }
        some
    }

    // Whether item i is refused.
    fn is_refused(&self, superseding: Places, superseded: Places, i: usize) -> bool
        requires i_below { i < length (items_of self.now) }
        requires superseding { superseding.word ≡ R.set_where R.supersedes (items_of self.now) }
        requires superseded { superseded.word ≡ R.set_where R.is_superseded (items_of self.now) }
        ensures { result ≡ R.is_refused (items_of self.now) i }
    {
        if superseded.contains(i) {
            return true;
        }
        if superseding.contains(i) {
            return false;
        }
        let opposing = self.opposing(superseded, i);
        !opposing.is_empty()
    }

    /// Who is refused.
    pub fn refused(&self, superseding: Places, superseded: Places) -> Places
        requires { (superseding.word ≡ R.set_where R.supersedes (items_of self.now)) × (superseded.word ≡ R.set_where R.is_superseded (items_of self.now)) }
        ensures { result.word ≡ R.set_where R.is_refused (items_of self.now) }
    {
        let mut some = Places::none();
        for i in 0..self.rows.len() {
            if !self.is_refused(superseding, superseded, i) {
                continue;
            }
            some.insert(i);
        }
        some
    }

    /// Who is a subset, with its model inputs, of one that is not refused.
    pub fn covered(&self, refused: Places) -> Places
        requires { refused.word ≡ R.set_where R.is_refused (items_of self.now) }
        ensures { result.word ≡ R.set_where R.is_covered (items_of self.now) }
    {
        let mut some = Places::none();
        for i in 0..self.rows.len() {
            if refused.contains(i) {
                continue;
            }
            let row = self.row(i);
            let more = row.subsets.without(some);
            if more.is_empty() {
                continue;
            }
            some = some.union(self.listed.alike(more, i));
        }
        some
    }

    // Who takes the place of item i.
    fn replacing(&self, superseding: Places, i: usize) -> Places
        requires { (i < length (items_of self.now)) × (superseding.word ≡ R.set_where R.supersedes (items_of self.now)) }
        ensures { result.word ≡ set_of (R.replaces (items_of self.now) i) (length (items_of self.now)) }
    {
        let mut some = Places::none();
        let mut left = superseding;
        for j in 0..self.rows.len() {
            if !left.shift() {
                continue;
            }
            let row = self.row(j);
            if !row.disagreeing.contains(i) {
                continue;
            }
            some.insert(j);
        }
        some
    }

    // Who opposes item i.
    fn opposing(&self, superseded: Places, i: usize) -> Places
        requires { (i < length (items_of self.now)) × (superseded.word ≡ R.set_where R.is_superseded (items_of self.now)) }
        ensures { result.word ≡ set_of (R.opposes (items_of self.now) i) (length (items_of self.now)) }
    {
        let row = self.row(i);
        row.disagreeing.without(superseded)
    }

    /// The chi-square of item i against its subset j.
    pub fn chi_square(&self, i: usize, j: usize) -> ChiSquare
        requires { (i < length (items_of self.now)) × (j < length (items_of self.now)) }
        ensures { result ≡ (L.relations (items_of self.now)).chi_square i j }
    {
        self.listed.chi_square(i, j, self.factors[j])
    }

    /// Of those that take the place of item i the lowest identity.
    pub fn first_replacing(&self, superseding: Places, i: usize) -> Option<usize>
        requires { (i < length (items_of self.now)) × (superseding.word ≡ R.set_where R.supersedes (items_of self.now)) }
        ensures first { result ≡ R.lowest (items_of self.now) (R.replaces (items_of self.now) i) }
        ensures within { IfSome result (λ k. k < length (items_of self.now)) }
    {
        self.listed.lowest(self.replacing(superseding, i))
    }

    /// Of those that oppose item i the lowest identity.
    pub fn first_opposing(&self, superseded: Places, i: usize) -> Option<usize>
        requires { (i < length (items_of self.now)) × (superseded.word ≡ R.set_where R.is_superseded (items_of self.now)) }
        ensures first { result ≡ R.lowest (items_of self.now) (R.opposes (items_of self.now) i) }
        ensures within { IfSome result (λ k. k < length (items_of self.now)) }
    {
        self.listed.lowest(self.opposing(superseded, i))
    }
}
