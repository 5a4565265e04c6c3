//! The transmissions of fixes.

ghost use Rattle.std.specs.Prelude.{◌≡◌, true, ◌≤◌, ◌<◌, length, slice_index_or, get_or, []};
ghost use Rattle.board_fixes.specs.Order.{identities_ascend};
ghost use Rattle.fixes.specs.Items.{AllFormed, fix_at};
ghost use Rattle.board_transmissions.specs.Links.{members_of, Parts};
ghost use Rattle.board_transmissions.specs.Transmissions.{transmissions_of};

use crate::visit;
use arrayvec::ArrayVec;
use board_fixes::{Fix, MAX_FIXES};
use std::marker::Model;

/// Fixes, of each the label of its transmission, which is its first fix, and these first fixes.
#[derive(Drop)]
pub struct Transmissions<'s, 'a> {
    fixes: &'s [Fix<'a>],
    labels: [u8; MAX_FIXES],
    firsts: ArrayVec<u8, MAX_FIXES>,
}

impl<'s, 'a> Model for Transmissions<'s, 'a> {
    ghost use Rattle.std.specs.Prelude.{map};
    ghost use Rattle.board_transmissions.specs.Links.{Parted, Parts, fixes_labelled};

    ghost Value = { Parted };

    ghost view = { λ t. record { fixes = t.fixes.now; parts = map (fixes_labelled t.fixes.now t.labels) t.firsts.items } };

    ghost invariant = { λ t. Parts t.fixes.now (map (fixes_labelled t.fixes.now t.labels) t.firsts.items) };
}

/// A transmission: fixes, and which of them are its members, of which there is one at least.
#[derive(Drop)]
pub struct Transmission<'s, 'a> {
    fixes: &'s [Fix<'a>],
    members: ArrayVec<u8, MAX_FIXES>,
}

impl<'s, 'a> Model for Transmission<'s, 'a> {
    ghost use Rattle.board_transmissions.specs.Links.{Members, SomeIndices};

    ghost Value = { Members };

    ghost view = { λ t. record { fixes = t.fixes.now; indices = t.members.items } };

    ghost invariant = { λ t. SomeIndices t.fixes.now t.members.items };
}

impl<'s, 'a> Transmissions<'s, 'a> {
    /// The transmissions of fixes in ascending identity.
    pub fn of(fixes: &'s [Fix<'a>]) -> Transmissions<'s, 'a>
        requires few { length fixes.now ≤ MAX_FIXES }
        requires formed { AllFormed fixes.now }
        requires in_order { identities_ascend fixes.now ≡ true }
        ensures { result ≡ record { fixes = fixes.now; parts = transmissions_of fixes.now } }
    {
        let mut marks = [false; MAX_FIXES];
        let mut labels = [0u8; MAX_FIXES];
        let mut firsts = ArrayVec::new();
        for s in 0..fixes.len() {
            if !marks[s] {
                visit(fixes, s, s as u8, &mut marks, &mut labels);
                firsts.push(s as u8);
            }
        }
        Transmissions {
            fixes,
            labels,
            firsts,
        }
    }

    /// All fixes.
    pub fn fixes(&self) -> &'s [Fix<'a>]
        ensures fixes { result.now ≡ self.now.fixes }
        ensures parts { Parts self.now.fixes self.now.parts }
    {
        self.fixes
    }

    /// How many transmissions there are.
    pub fn len(&self) -> usize
        ensures { result ≡ length self.now.parts }
    {
        self.firsts.len()
    }

    /// One of them.
    pub fn nth(&self, k: usize) -> Transmission<'s, 'a>
        requires { k < length self.now.parts }
        ensures fixes { result.fixes ≡ self.now.fixes }
        ensures members { members_of result ≡ slice_index_or self.now.parts k [] }
    {
        let fixes = self.fixes;
        let first = self.firsts[k];
        let mut members = ArrayVec::new();
        for j in 0..fixes.len() {
            if self.labels[j] == first {
                members.push(j as u8);
            }
        }
        Transmission { fixes, members }
    }
}

impl<'s, 'a> Transmission<'s, 'a> {
    /// How many fixes it has.
    pub fn len(&self) -> usize
        ensures value { result ≡ length self.now.indices }
        ensures some { 0 < result }
    {
        self.members.len()
    }

    /// One of its fixes, in ascending identity.
    pub fn fix(&self, i: usize) -> &'s Fix<'a>
        requires { i < length self.now.indices }
        ensures { result.now ≡ fix_at self.now.fixes (get_or self.now.indices i 0) }
    {
        &self.fixes[self.members[i] as usize]
    }

    /// Its index among the fixes of the board.
    pub fn index(&self, i: usize) -> u8
        requires { i < length self.now.indices }
        ensures value { result ≡ get_or self.now.indices i 0 }
        ensures within { result < length self.now.fixes }
    {
        self.members[i]
    }
}
