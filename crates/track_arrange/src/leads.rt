//! The order of transmissions, by the fixes that are kept of them.

ghost use Rattle.std.specs.Prelude.{◌≡◌, [], ◌≤◌, ◌<◌, IsTrue, length, map, position};
ghost use Rattle.std.specs.List.{list_all};
ghost use Rattle.arrayvec.specs.ArrayVec.{array_vec_len};
ghost use Rattle.fixes.specs.Ages.{time_of, older};
ghost use Rattle.lists.specs.Lists.{last_of};
ghost use Rattle.lists.specs.Ordered.{up_to};
ghost use Rattle.track_arrange.specs.Arranged.{max_transmissions};
ghost use Rattle.track_arrange.specs.Claims.{InOrder};
ghost use Rattle.track_arrange.specs.Leads.{before, put_behind, put_all_behind, leads_from, order_of, place_of, is_empty};

use crate::{Blocks, MAX_LEADS, MAX_TRANSMISSIONS};
use arrayvec::ArrayVec;
use models::hashes::Identity;
use std::marker::Model;
use track_transmission::block::Block;
use track_transmission::fix::HeldFix;

/// A transmission by its place, and the fix that is kept of it.
#[derive(Default, Drop)]
pub struct Lead<'a> {
    place: usize,
    kept: HeldFix<'a>,
    // The identity of that fix, once it is worked out: that takes two hashes.
    known: Option<Identity>,
}

impl<'a> Model for Lead<'a> {
    ghost use Rattle.std.specs.Prelude.{◌≡◌, IfSome};
    ghost use Rattle.track_arrange.specs.Leads as S;

    ghost Value = { S.Lead };

    ghost view = { λ l. record { place = l.place; kept = l.kept } };

    ghost invariant = { λ l. IfSome l.known (λ id. id ≡ l.kept.identity) };
}

impl<'a> Lead<'a> {
    fn of(place: usize, kept: HeldFix<'a>) -> Lead<'a>
        ensures { result ≡ record { place = place; kept = kept.entry } }
    {
        Lead {
            place,
            kept,
            known: None,
        }
    }

    // When its fix was transmitted.
    fn time(&self) -> u64
        ensures { result ≡ time_of self.now.kept }
    {
        let kept = &self.kept;
        kept.report.time()
    }

    // The identity of its fix.
    fn identity(&self) -> Identity
        ensures { result ≡ self.now.kept.identity }
    {
        match self.known {
            Some(identity) => identity,
            None => self.kept.identity(),
        }
    }

    // Works that out, unless it is known.
    fn learn(&mut self)
        ensures { self.new ≡ self.old }
    {
        self.known = Some(self.identity());
    }

    // Whether its transmission is older than that of another: by time, and only where the times are equal by identity.
    fn is_older(&self, other: &Lead<'_>) -> bool
        ensures { result ≡ older self.now.kept other.now.kept }
    {
        if self.time() < other.time() {
            return true;
        }
        if other.time() < self.time() {
            return false;
        }
        self.identity() < other.identity()
    }
}

type Leads<'a> = ArrayVec<Lead<'a>, MAX_LEADS>;

/// The places of at most eight transmissions.
pub type Order = ArrayVec<usize, MAX_TRANSMISSIONS>;

// Works out the identities that a further lead will be compared by: its own, and those of the leads of the same time.
fn learn_ties(leads: &mut Leads<'_>, lead: &mut Lead<'_>)
    ensures leads { leads.new.items ≡ leads.old.items }
    ensures lead { lead.new ≡ lead.old }
{
    for held in leads.iter_mut() {
        if held.time() == lead.time() {
            held.learn();
            lead.learn();
        }
    }
}

// Where the first stands that a lead is older than, if there is one.
fn place_among(leads: &[Lead<'_>], lead: &Lead<'_>) -> Option<usize>
    ensures { result ≡ position (before lead.now) leads.now }
{
    leads.iter().position(|held| lead.is_older(held))
}

// Puts a further one in behind those that it is not older than.
fn enter<'a>(leads: &mut Leads<'a>, lead: Lead<'a>)
    requires { array_vec_len leads.old < MAX_LEADS }
    ensures { leads.new.items ≡ put_behind before lead.entry leads.old.items }
{
    let mut lead = lead;
    learn_ties(leads, &mut lead);
    let place = place_among(leads, &lead).unwrap_or(leads.len());
    leads.insert(place, lead);
}

// Enters transmissions, but for those without a fix.
fn enter_all<'a>(leads: &mut Leads<'a>, blocks: &Blocks<'a>)
    requires { leads.old.items ≡ [] }
    ensures { leads.new.items ≡ put_all_behind before [] (leads_from 0 blocks.now.items) }
{
    let blocks = blocks.as_slice();
    for (place, block) in blocks.iter().enumerate() {
        if let Some(kept) = block.kept() {
            enter(leads, Lead::of(place, kept));
        }
    }
}

// Forgets the first beyond eight.
fn forget_oldest(leads: &mut Leads<'_>)
    ensures { leads.new.items ≡ last_of max_transmissions leads.old.items }
{
    if MAX_TRANSMISSIONS < leads.len() {
        leads.remove(0);
    }
}

// The places of leads.
fn places_of(leads: &[Lead<'_>]) -> Order
    requires { length leads.now ≤ MAX_TRANSMISSIONS }
    ensures { result.items ≡ map place_of leads.now }
{
    let mut places = Order::new();
    for lead in leads {
        places.push(lead.place);
    }
    places
}

// Whether each of transmissions has a fix, which is later than those before it. Then they are in order.
pub(crate) fn ascend(blocks: &[Block<'_>]) -> bool
    ensures { IsTrue result → InOrder blocks.now }
{
    let mut latest = 0;
    for block in blocks {
        let Some(kept) = block.kept() else {
            return false;
        };
        let time = kept.report.time();
        if time <= latest {
            return false;
        }
        latest = time;
    }
    true
}

// Whether none of transmissions has a fix.
fn are_empty(blocks: &[Block<'_>]) -> bool
    ensures { result ≡ list_all is_empty blocks.now }
{
    blocks.iter().all(|block| block.fix_count() == 0)
}

// The places of the latest eight of so many transmissions that are in order.
fn latest_places(n: usize) -> Order
    requires { n ≤ MAX_LEADS }
    ensures { result.items ≡ last_of max_transmissions (up_to n) }
{
    let first = n.saturating_sub(MAX_TRANSMISSIONS);
    let mut places = Order::new();
    for i in 0..n - first {
        places.push(first + i);
    }
    places
}

// The order of transmissions that are in any, by their places.
#[inline(never)]
fn order_of_any(blocks: &Blocks<'_>) -> Order
    ensures { result.items ≡ order_of blocks.now.items }
{
    let mut leads = Leads::new();
    enter_all(&mut leads, blocks);
    forget_oldest(&mut leads);
    places_of(&leads)
}

/// The order of transmissions, by their places: that of the latest eight that have a fix.
pub fn order(blocks: &Blocks<'_>) -> Order
    ensures { result.items ≡ order_of blocks.now.items }
{
    let all = blocks.as_slice();
    if ascend(all) {
        return latest_places(all.len());
    }
    if are_empty(all) {
        return Order::new();
    }
    order_of_any(blocks)
}
