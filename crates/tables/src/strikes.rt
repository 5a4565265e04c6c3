//! Places that stay are moved down over those that go, and the rest is cleared.

ghost use Rattle.std.specs.Prelude.{◌≡◌, ◌++◌, ◌+◌, ◌*◌, ◌-◌, ◌≤◌, length, take, drop, replicate};

/// Clears what follows the first n places of w bytes each.
pub fn clear_rest(t: &mut [u8], n: usize, w: usize)
    requires { n * w ≤ length t.old }
    ensures { t.new ≡ take (n * w) t.old ++ replicate (length t.old - n * w) 0 }
{
    let end = n * w;
    octets::runs::clear(&mut t[end..]);
}

/// Copies the w bytes at `from` down to `to`, unless that is where they stand.
pub fn move_down(t: &mut [u8], from: usize, to: usize, w: usize)
    requires to_le_from { to ≤ from }
    requires w_in_bounds { from + w ≤ length t.old }
    ensures { t.new ≡ take to t.old ++ (take w (drop from t.old) ++ drop (to + w) t.old) }
{
    if to == from {
        return;
    }
    octets::runs::copy_down(t, from, to, w);
}
