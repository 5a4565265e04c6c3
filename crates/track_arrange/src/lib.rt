//! The order of a track's transmissions, in a lent table of at most eight: the oldest first, by time and then identity of
//! the fix kept; those without a fix are taken out.
//!
//! A transmission is moved only if it is out of place: a table in order is read once, and nothing in it is written. Identities are not
//! stored in a track, and one is worked out, once, only where two times are equal.
#![tactic(auto)]

ghost use Rattle.std.specs.Prelude.{◌≡◌, ℕ, [], ◌∷◌, ◌++◌, ◌+◌, ◌*◌, ◌<◌, ◌≤◌, IsTrue, length, map, get_or, take, drop, slice_index};
ghost use Rattle.tables.specs.Places.{flat};
ghost use Rattle.track_transmission.specs.Layout.{transmission_size};
ghost use Rattle.track_transmission.specs.Bytes.{transmission_in};
ghost use Rattle.track_transmission.specs.Parts.{Steady};
ghost use Rattle.track_arrange.specs.Arranged.{max_transmissions, arranged};
ghost use Rattle.track_arrange.specs.Blocks.{Filled, AllSteady};
ghost use Rattle.track_arrange.specs.Blocks as B;
ghost use Rattle.track_arrange.specs.Leads.{order_of};

use arrayvec::ArrayVec;
use std::slice::from_ref;
use track_transmission::block::Block;
use track_transmission::layout::TRANSMISSION_SIZE;

pub mod claims;
mod leads;

/// The most transmissions that a track holds.
pub const MAX_TRANSMISSIONS: usize = 8;

// Those and a further one.
const MAX_LEADS: usize = MAX_TRANSMISSIONS + 1;

const TABLE_SIZE: usize = MAX_TRANSMISSIONS * TRANSMISSION_SIZE;

/// The transmissions of a table, and room for a further one.
pub type Blocks<'a> = ArrayVec<Block<'a>, MAX_LEADS>;

/// The n transmissions of a table.
pub fn blocks(t: &[u8], n: usize) -> Blocks<'_>
    requires { Filled t.now n }
    ensures { result.items ≡ B.held n t.now }
{
    let mut blocks = Blocks::new();
    let places = tables::table::places_of::<TRANSMISSION_SIZE>(t, n);
    for place in places {
        blocks.push(Block::of(place));
    }
    blocks
}

// Copies the transmission of a place to place i before it.
fn bring_down(t: &mut [u8; TABLE_SIZE], place: usize, i: usize)
    requires { (i < place) × (place < max_transmissions) }
    ensures { t.new ≡ B.put_block i (take transmission_size (drop (place * transmission_size) t.old)) t.old }
{
    let (front, back) = t.split_at_mut(place * TRANSMISSION_SIZE);
    octets::runs::put_bytes(front, i * TRANSMISSION_SIZE, &back[..TRANSMISSION_SIZE]);
}

// Copies the transmission of a place to place i behind it.
fn bring_up(t: &mut [u8; TABLE_SIZE], place: usize, i: usize)
    requires { (place < i) × (i < max_transmissions) }
    ensures { t.new ≡ B.put_block i (take transmission_size (drop (place * transmission_size) t.old)) t.old }
{
    let at = place * TRANSMISSION_SIZE;
    let (front, back) = t.split_at_mut(i * TRANSMISSION_SIZE);
    octets::runs::copy(&front[at..at + TRANSMISSION_SIZE], back);
}

// Of transmissions and of further ones behind them that of a place.
fn block_at<'a>(
    places: &'a [[u8; TRANSMISSION_SIZE]],
    further: &'a [[u8; TRANSMISSION_SIZE]],
    k: usize,
) -> &'a [u8; TRANSMISSION_SIZE]
    requires { k < length places.now + length further.now }
    ensures { result.now ≡ B.block_in (places.now ++ further.now) k }
{
    if k < places.len() {
        return &places[k];
    }
    &further[k - places.len()]
}

// Which transmissions go to the front of a table, in this order: those of these places among n and further ones behind them.
#[derive(Clone, Copy)]
struct Moves<'a> {
    n: usize,
    further: &'a [[u8; TRANSMISSION_SIZE]],
    order: &'a [usize],
    ghost few: { n ≤ max_transmissions },
    ghost few_left: { length order.now ≤ max_transmissions },
    ghost within: { (i : ℕ) → i < length order.now → slice_index order.now i < n + length further.now },
    ghost sized: { (i : ℕ) → i < length further.now → length (get_or further.now i []) ≡ transmission_size },
}

impl Moves<'_> {
    // Whether each is where it goes to, or behind.
    fn all_come_down(self) -> bool
        ensures { IsTrue result → (i : ℕ) → i < length self.entry.order.now → i ≤ slice_index self.entry.order.now i }
    {
        for (i, place) in self.order.iter().enumerate() {
            if *place < i {
                return false;
            }
        }
        true
    }

    // Whether each of those in the table is where it goes to, or before.
    fn all_go_up(self) -> bool
        ensures { IsTrue result → (i : ℕ) → i < length self.entry.order.now → slice_index self.entry.order.now i < self.entry.n → slice_index self.entry.order.now i ≤ i }
    {
        for (i, place) in self.order.iter().enumerate() {
            if i < *place && *place < self.n {
                return false;
            }
        }
        true
    }

    // Puts the one that goes to place i there.
    fn put(self, t: &mut [u8; TABLE_SIZE], i: usize)
        requires { i < length self.order.now }
        ensures { t.new ≡ B.put_block i (B.block_of self.entry.n t.old self.entry.further.now (slice_index self.entry.order.now i)) t.old }
    {
        let place = self.order[i];
        if self.n <= place {
            octets::runs::put_bytes(t, i * TRANSMISSION_SIZE, &self.further[place - self.n]);
            return;
        }
        if i < place {
            bring_down(t, place, i);
            return;
        }
        if place < i {
            bring_up(t, place, i);
        }
    }

    // Writes all. They come down, so each is in the table still when it is asked for.
    fn write_down(self, t: &mut [u8; TABLE_SIZE])
        requires { (i : ℕ) → i < length self.order.now → i ≤ slice_index self.order.now i }
        ensures { t.new ≡ B.moved_table self.entry.n self.entry.further.now self.entry.order.now t.old }
    {
        for i in 0..self.order.len() {
            self.put(t, i);
        }
    }

    // The same from the last to the first, where they go up.
    fn write_up(self, t: &mut [u8; TABLE_SIZE])
        requires { (i : ℕ) → i < length self.order.now → slice_index self.order.now i < self.n → slice_index self.order.now i ≤ i }
        ensures { t.new ≡ B.moved_table self.entry.n self.entry.further.now self.entry.order.now t.old }
    {
        for i in (0..self.order.len()).rev() {
            self.put(t, i);
        }
    }

    // The same of any, which are read in a copy of the table.
    fn write_anew(self, t: &mut [u8; TABLE_SIZE])
        ensures { t.new ≡ B.moved_table self.entry.n self.entry.further.now self.entry.order.now t.old }
    {
        let was = *t;
        let places = tables::table::places_of::<TRANSMISSION_SIZE>(&was, self.n);
        for (i, place) in self.order.iter().enumerate() {
            let block = block_at(places, self.further, *place);
            octets::runs::put_bytes(t, i * TRANSMISSION_SIZE, block);
        }
    }

    // The same, in place where it can be.
    fn write(self, t: &mut [u8; TABLE_SIZE])
        ensures { t.new ≡ B.moved_table self.entry.n self.entry.further.now self.entry.order.now t.old }
    {
        if self.all_come_down() {
            self.write_down(t);
        } else if self.all_go_up() {
            self.write_up(t);
        } else {
            self.write_anew(t);
        }
    }
}

// Brings the n transmissions of a table and further ones into their order, and returns how many are left.
fn settle(t: &mut [u8], n: usize, further: &[[u8; TRANSMISSION_SIZE]], order: &[usize]) -> usize
    requires filled { Filled t.old n }
    requires steady { AllSteady further.now }
    requires order { order.now ≡ order_of (B.held n t.old ++ map transmission_in further.now) }
    ensures filled { Filled t.new result }
    ensures held { B.held result t.new ≡ arranged (B.held n t.old ++ map transmission_in further.now) }
{
    let table = t.as_mut_array::<TABLE_SIZE>().unwrap();
    Moves { n, further, order }.write(table);
    let left = order.len();
    if left < n {
        octets::runs::clear(&mut table[left * TRANSMISSION_SIZE..n * TRANSMISSION_SIZE]);
    }
    left
}

/// Brings the n transmissions of a table into their order, and returns how many are left.
pub fn arrange(t: &mut [u8], n: usize) -> usize
    requires { Filled t.old n }
    ensures filled { Filled t.new result }
    ensures held { B.held result t.new ≡ arranged (B.held n t.old) }
{
    let all = blocks(t, n);
    if leads::ascend(&all) {
        return n;
    }
    let order = leads::order(&all);
    settle(t, n, &[], &order)
}

/// Takes a further transmission in among n, and returns how many there are then. Beyond eight the oldest goes.
pub fn admit(t: &mut [u8], n: usize, b: &[u8; TRANSMISSION_SIZE]) -> usize
    requires filled { Filled t.old n }
    requires steady { Steady b.now }
    ensures filled { Filled t.new result }
    ensures held { B.held result t.new ≡ arranged (B.held n t.old ++ transmission_in b.now ∷ []) }
{
    let mut all = blocks(t, n);
    all.push(Block::of(b));
    let order = leads::order(&all);
    settle(t, n, from_ref(b), &order)
}
