//! Two tables of one kind gone through side by side, and united.

ghost use Rattle.std.specs.Prelude.{◌≡◌, ℕ, ◌≤◌, ◌<◌, ◌+◌, ◌*◌, ◌++◌, ◌^◌, Bool, List, true, false, [], length, take, drop, is_some, IfSome, replicate};
ghost use Rattle.tables.specs.Places.{ascending, table_of};
ghost use Rattle.register_join.specs.Merged.{Behind, EachWide, Lawful, together, left_before, counted_in};

use engines::Signers;
use errors::Error;
use octets::order::precedes;

/// A kind of place, of WIDTH bytes of which the first KEY are its key: what convictions leave of one.
pub trait Kind<const WIDTH: usize, const KEY: usize> {
    // what follows a key that both tables have
    ghost merge: { List ℕ → List ℕ → List ℕ };

    // whether a place stays, and what follows its key then
    ghost test: { ℕ → List ℕ → Bool };

    ghost change: { ℕ → List ℕ → List ℕ };

    // the same as a number, and a place with it
    ghost left_of: { ℕ → List ℕ → ℕ };

    ghost placed: { List ℕ → ℕ → List ℕ };

    /// What convictions leave of a place, as the bits of a number: none where it goes. What two leave of a key is the bits of both.
    fn left(place: &[u8; WIDTH], convicted: Signers) -> u32
        ensures value { result ≡ left_of convicted place.now }
        ensures small { result < 2 ^ 32 };

    /// Writes a place with what is left of it as place n of a table.
    fn put(t: &mut [u8], n: usize, place: &[u8; WIDTH], left: u32)
        requires { n * WIDTH + WIDTH ≤ length t.old }
        ensures size { length place.now ≡ WIDTH }
        ensures bytes { t.new ≡ take (n * WIDTH) t.old ++ (placed (take KEY place.now) left ++ drop (n * WIDTH + WIDTH) t.old) };
}

// The first place of two tables, what is left of it in both, and the places behind it.
#[derive(Clone, Copy)]
struct First<'a, const WIDTH: usize> {
    place: &'a [u8; WIDTH],
    left: u32,
    mine: &'a [[u8; WIDTH]],
    theirs: &'a [[u8; WIDTH]],
}

// The key of a place: its first bytes.
fn key_of<const WIDTH: usize, const KEY: usize>(place: &[u8; WIDTH]) -> &[u8]
    ensures { result.now ≡ take KEY place.now }
{
    if KEY < WIDTH { &place[..KEY] } else { place }
}

// Of the places of two tables, the first.
fn first_of<'a, K: Kind<WIDTH, KEY>, const WIDTH: usize, const KEY: usize>(
    mine: &'a [[u8; WIDTH]],
    their_convicted: Signers,
    theirs: &'a [[u8; WIDTH]],
    my_convicted: Signers,
) -> Option<First<'a, WIDTH>>
    requires kind { Lawful KEY WIDTH K.merge K.test K.change K.left_of K.placed }
    requires mine { ascending KEY mine.now ≡ true }
    requires theirs { ascending KEY theirs.now ≡ true }
    requires mine_wide { EachWide WIDTH mine.now }
    requires theirs_wide { EachWide WIDTH theirs.now }
    ensures none { is_some result ≡ false → together KEY K.merge K.test K.change their_convicted mine.now my_convicted theirs.now ≡ [] }
    ensures some { IfSome result (λ f. together KEY K.merge K.test K.change their_convicted mine.now my_convicted theirs.now ≡ left_before KEY K.placed f.place.now f.left (together KEY K.merge K.test K.change their_convicted f.mine.now my_convicted f.theirs.now)) }
    ensures behind { IfSome result (λ f. Behind KEY WIDTH mine.now theirs.now f.mine.now f.theirs.now) }
{
    let Some((p, ps)) = mine.split_first() else {
        let Some((q, qs)) = theirs.split_first() else {
            return None;
        };
        let left = K::left(q, my_convicted);
        return Some(First {
            place: q,
            left,
            mine,
            theirs: qs,
        });
    };
    let mine_left = K::left(p, their_convicted);
    let Some((q, qs)) = theirs.split_first() else {
        return Some(First {
            place: p,
            left: mine_left,
            mine: ps,
            theirs,
        });
    };
    let my_key = key_of::<WIDTH, KEY>(p);
    let their_key = key_of::<WIDTH, KEY>(q);
    if precedes(my_key, their_key) {
        return Some(First {
            place: p,
            left: mine_left,
            mine: ps,
            theirs,
        });
    }
    let theirs_left = K::left(q, my_convicted);
    if precedes(their_key, my_key) {
        return Some(First {
            place: q,
            left: theirs_left,
            mine,
            theirs: qs,
        });
    }
    Some(First {
        place: p,
        left: theirs_left | mine_left,
        mine: ps,
        theirs: qs,
    })
}

/// Writes the places of two tables, united, into one of CAP places that is all zero, and returns how many they are. `Full` where they are too
/// many.
pub fn unite<K: Kind<WIDTH, KEY>, const WIDTH: usize, const KEY: usize, const CAP: usize>(
    mine: &[[u8; WIDTH]],
    their_convicted: Signers,
    theirs: &[[u8; WIDTH]],
    my_convicted: Signers,
    out: &mut [u8],
) -> Result<usize, Error>
    requires kind { Lawful KEY WIDTH K.merge K.test K.change K.left_of K.placed }
    requires mine { ascending KEY mine.now ≡ true }
    requires theirs { ascending KEY theirs.now ≡ true }
    requires mine_wide { EachWide WIDTH mine.now }
    requires theirs_wide { EachWide WIDTH theirs.now }
    requires zero { out.old ≡ replicate (CAP * WIDTH) 0 }
    ensures answer { result ≡ counted_in CAP (together KEY K.merge K.test K.change their_convicted mine.now my_convicted theirs.now) }
    ensures written { length (together KEY K.merge K.test K.change their_convicted mine.now my_convicted theirs.now) ≤ CAP → out.new ≡ table_of WIDTH CAP (together KEY K.merge K.test K.change their_convicted mine.now my_convicted theirs.now) }
{
    let mut mine = mine;
    let mut theirs = theirs;
    let mut count = 0;
    while let Some(first) = first_of::<K, WIDTH, KEY>(mine, their_convicted, theirs, my_convicted) {
        mine = first.mine;
        theirs = first.theirs;
        if first.left == 0 {
            continue;
        }
        if count == CAP {
            return Err(Error::Full);
        }
        K::put(out, count, first.place, first.left);
        count += 1;
    }
    Ok(count)
}
