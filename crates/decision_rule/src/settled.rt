//! Items of which all is settled: who is refused, and against whom, who is dominated, and who is ranked.

ghost use Rattle.std.specs.Prelude.{◌≡◌, ◌<◌, length, replicate, None, IfSome};
ghost use Rattle.decision_rule.specs.Rows as R;

use crate::compared::Compared;
use crate::listed::Listed;
use crate::places::Places;
use crate::row::{KnownFactor, Row};
use arithmetic::standing::ChiSquare;

/// Compared items, and which of them supersede, are superseded, refused or covered.
#[derive(Clone, Copy)]
pub struct Settled<'a> {
    pub compared: Compared<'a>,
    superseding: Places,
    superseded: Places,
    refused: Places,
    covered: Places,
    ghost supersede: { superseding.word ≡ R.set_where R.supersedes compared.listed.items.now },
    ghost are_superseded: { superseded.word ≡ R.set_where R.is_superseded compared.listed.items.now },
    ghost are_refused: { refused.word ≡ R.set_where R.is_refused compared.listed.items.now },
    ghost are_covered: { covered.word ≡ R.set_where R.is_covered compared.listed.items.now },
}

impl<'a> Settled<'a> {
    ghost use Rattle.decision_rule.specs.Listed as L;
    ghost use Rattle.decision_rule.specs.Phases.{items_of};

    /// Settles items, in lent rows and a lent table of factors: one of each for each item. No factor is known before.
    pub fn of(listed: Listed<'a>, rows: &'a mut [Row], factors: &'a mut [KnownFactor]) -> Self
        requires rows_len { length rows.old ≡ length listed.items.now }
        requires none_known { factors.old ≡ replicate (length listed.items.now) None }
        ensures { items_of result ≡ listed.entry.items.now }
    {
        let compared = Compared::of(listed, rows, factors);
        let superseding = compared.superseding();
        let superseded = compared.superseded(superseding);
        let refused = compared.refused(superseding, superseded);
        let covered = compared.covered(refused);
        Settled {
            compared,
            superseding,
            superseded,
            refused,
            covered,
        }
    }

    /// How many items there are.
    pub fn len(&self) -> usize
        ensures { result ≡ length (items_of self.now) }
    {
        self.compared.listed.items.len()
    }

    /// Whether another takes the place of item i.
    pub fn is_superseded(&self, i: usize) -> bool
        requires { i < length (items_of self.now) }
        ensures { result ≡ R.is_superseded (items_of self.now) i }
    {
        self.superseded.contains(i)
    }

    /// Whether item i is refused.
    pub fn is_refused(&self, i: usize) -> bool
        requires { i < length (items_of self.now) }
        ensures { result ≡ R.is_refused (items_of self.now) i }
    {
        self.refused.contains(i)
    }

    fn is_covered(&self, i: usize) -> bool
        requires { i < length (items_of self.now) }
        ensures { result ≡ R.is_covered (items_of self.now) i }
    {
        self.covered.contains(i)
    }

    /// Whether item i is dominated.
    pub fn is_dominated(&self, i: usize) -> bool
        requires { i < length (items_of self.now) }
        ensures { result ≡ R.is_dominated (items_of self.now) i }
    {
        if self.is_refused(i) {
            return false;
        }
        self.is_covered(i)
    }

    /// Whether item i is ranked.
    pub fn is_ranked(&self, i: usize) -> bool
        requires { i < length (items_of self.now) }
        ensures { result ≡ R.is_ranked (items_of self.now) i }
    {
        if self.is_refused(i) {
            return false;
        }
        !self.is_covered(i)
    }

    /// Whether item i ranks before item j.
    pub fn ranks_before(&self, i: usize, j: usize) -> bool
        requires { (i < length (items_of self.now)) × (j < length (items_of self.now)) }
        ensures { result ≡ (L.relations (items_of self.now)).ahead i j }
    {
        self.compared.listed.ranks_before(i, j)
    }

    /// Of those that take the place of item i the lowest identity.
    pub fn replacing(&self, i: usize) -> Option<usize>
        requires { i < length (items_of self.now) }
        ensures first { result ≡ R.lowest (items_of self.now) (R.replaces (items_of self.now) i) }
        ensures within { IfSome result (λ k. k < length (items_of self.now)) }
    {
        self.compared.first_replacing(self.superseding, i)
    }

    /// Of those that oppose item i the lowest identity.
    pub fn opposing(&self, i: usize) -> Option<usize>
        requires { i < length (items_of self.now) }
        ensures first { result ≡ R.lowest (items_of self.now) (R.opposes (items_of self.now) i) }
        ensures within { IfSome result (λ k. k < length (items_of self.now)) }
    {
        self.compared.first_opposing(self.superseded, i)
    }

    /// The chi-square of item i against its subset j.
    pub fn chi_square(&self, i: usize, j: usize) -> ChiSquare
        requires { (i < length (items_of self.now)) × (j < length (items_of self.now)) }
        ensures { result ≡ (L.relations (items_of self.now)).chi_square i j }
    {
        self.compared.chi_square(i, j)
    }
}
