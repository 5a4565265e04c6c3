//! A sorted table in lent bytes.

ghost use Rattle.std.specs.Prelude.{◌≡◌, ◌&&◌, ◌+◌, ◌*◌, ◌^◌, ◌≤◌, ◌<◌, length, take, true, false};
ghost use Rattle.octets.specs.Order.{is_before};
ghost use Rattle.tables.specs.Places.{places, is_table, ascending, table_of};
ghost use Rattle.tables.specs.Positions.{insert_at};
ghost use Rattle.tables.specs.Tables.{sought, full, put_in, Sorted};

use octets::order::{equal, precedes};
use octets::runs::is_zero;

// The key of a place: its first bytes.
fn key_of<const WIDTH: usize, const KEY: usize>(place: &[u8; WIDTH]) -> &[u8]
    ensures { result.now ≡ take KEY place.now }
{
    if KEY < WIDTH { &place[..KEY] } else { place }
}

/// The first places of a table.
pub fn places_of<const WIDTH: usize>(t: &[u8], count: usize) -> &[[u8; WIDTH]]
    requires width { 0 < WIDTH }
    requires fits { count * WIDTH ≤ length t.now }
    ensures { result.now ≡ places WIDTH count t.now }
{
    let (all, _) = t.as_chunks::<WIDTH>();
    &all[..count]
}

// Whether the keys of these places ascend strictly.
fn is_ascending<const WIDTH: usize, const KEY: usize>(places: &[[u8; WIDTH]]) -> bool
    ensures { result ≡ ascending KEY places.now }
{
    let Some((first, rest)) = places.split_first() else {
        return true;
    };
    let mut last = key_of::<WIDTH, KEY>(first);
    for place in rest {
        let key = key_of::<WIDTH, KEY>(place);
        if !precedes(last, key) {
            return false;
        }
        last = key;
    }
    true
}

/// Whether t holds a table of so many places: their keys ascend strictly, and the rest is zero.
pub fn is_table<const WIDTH: usize, const KEY: usize>(t: &[u8], count: usize) -> bool
    requires width { 0 < WIDTH }
    requires room { WIDTH < 2 ^ 63 }
    requires fits { count * WIDTH ≤ length t.now }
    ensures { result ≡ is_table KEY WIDTH count t.now }
{
    is_ascending::<WIDTH, KEY>(places_of::<WIDTH>(t, count)) && is_zero(&t[count * WIDTH..])
}

/// Where a key stands among places that ascend, or where it would go in.
pub fn search<const WIDTH: usize, const KEY: usize>(
    places: &[[u8; WIDTH]],
    key: &[u8],
) -> Result<usize, usize>
    requires room { WIDTH < 2 ^ 63 }
    requires sorted { ascending KEY places.now ≡ true }
    ensures { result ≡ sought KEY key.now places.now }
{
    let i = places.partition_point(
        |place: &[u8; WIDTH]| -> bool
            ensures { result ≡ is_before (take KEY place.now) key.entry.now }
        { precedes(key_of::<WIDTH, KEY>(place), key) },
    );
    if i < places.len() && equal(key_of::<WIDTH, KEY>(&places[i]), key) {
        return Ok(i);
    }
    Err(i)
}

/// Puts x in at a byte, before what stands there. As many bytes at the end are lost.
pub fn insert(t: &mut [u8], at: usize, x: &[u8])
    requires { at + length x.now ≤ length t.old }
    ensures { t.new ≡ insert_at at x.now t.old }
{
    octets::runs::shift_up(&mut t[at..], x.len());
    octets::runs::copy(x, &mut t[at..]);
}

/// A sorted table of CAP places of WIDTH bytes in lent bytes; the first KEY bytes of a place are its key.
#[derive(Drop)]
pub struct Table<'a, const WIDTH: usize, const KEY: usize, const CAP: usize> {
    pub places: &'a mut [u8],
    pub count: usize,
    pub ghost sorted: { Sorted WIDTH KEY CAP count places.now },
}

// Puts a place where its key was found, or where it goes in, and answers how many there are then.
fn put_place<const WIDTH: usize, const KEY: usize, const CAP: usize>(
    t: &mut [u8],
    count: usize,
    found: Result<usize, usize>,
    place: &[u8; WIDTH],
) -> usize
    requires table { Sorted WIDTH KEY CAP count t.old }
    requires found { found ≡ sought KEY (take KEY place.now) (places WIDTH count t.old) }
    requires room { full CAP count found ≡ false }
    ensures places { t.new ≡ table_of WIDTH CAP (put_in KEY place.now (places WIDTH count t.old)) }
    ensures count { result ≡ length (put_in KEY place.now (places WIDTH count t.old)) }
{
    match found {
        Ok(i) => {
            let at = i * WIDTH;
            t[at..at + WIDTH].copy_from_slice(place);
            count
        }
        Err(i) => {
            let end = (count + 1) * WIDTH;
            insert(&mut t[..end], i * WIDTH, place);
            count + 1
        }
    }
}

impl<'a, const WIDTH: usize, const KEY: usize, const CAP: usize> Table<'a, WIDTH, KEY, CAP> {
    /// The table that lent bytes hold.
    pub fn of(places: &'a mut [u8], count: usize) -> Self
        requires { Sorted WIDTH KEY CAP count places.old }
        ensures same_reference { result.places.ghost_name ≡ places.entry.ghost_name }
        ensures places { result.places.now ≡ places.old }
        ensures count { result.count ≡ count }
    {
        Table { places, count }
    }

    /// How many places are used.
    pub fn count(&self) -> usize
        ensures { result ≡ self.now.count }
    {
        self.count
    }

    /// Whether what was not found finds every place used.
    pub fn is_full(&self, found: Result<usize, usize>) -> bool
        ensures { result ≡ full CAP self.now.count found }
    {
        found.is_err() && CAP <= self.count
    }

    /// The places used.
    pub fn places(&self) -> &[[u8; WIDTH]]
        ensures { result.now ≡ places WIDTH self.now.count self.now.places.now }
    {
        places_of::<WIDTH>(self.places, self.count)
    }

    /// Where a key stands, or where it would go in.
    pub fn search(&self, key: &[u8]) -> Result<usize, usize>
        ensures { result ≡ sought KEY key.now (places WIDTH self.now.count self.now.places.now) }
    {
        search::<WIDTH, KEY>(self.places(), key)
    }

    /// Puts a place where its key was found, or where it goes in.
    pub fn put(&mut self, found: Result<usize, usize>, place: &[u8; WIDTH])
        requires found { found ≡ sought KEY (take KEY place.now) (places WIDTH self.old.count self.old.places.now) }
        requires room { full CAP self.old.count found ≡ false }
        ensures same_reference { self.new.places.ghost_name ≡ self.old.places.ghost_name }
        ensures places { self.new.places.now ≡ table_of WIDTH CAP (put_in KEY place.now (places WIDTH self.old.count self.old.places.now)) }
        ensures count { self.new.count ≡ length (put_in KEY place.now (places WIDTH self.old.count self.old.places.now)) }
    {
        self.count = put_place::<WIDTH, KEY, CAP>(self.places, self.count, found, place);
    }
}
