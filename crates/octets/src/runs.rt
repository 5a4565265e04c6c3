//! Runs of zeros, and moves within a slice.

ghost use Rattle.std.specs.Prelude.{◌≡◌, ◌++◌, ◌+◌, ◌-◌, ◌≤◌, length, take, drop, replicate};
ghost use Rattle.octets.specs.Runs.{all_zero};
ghost use Rattle.octets.specs.Put.{Put};

use std::simd::{u8x64, u64x8};

// How many bytes are looked at together.
const BLOCK: usize = 64;

// Whether every byte from a place on is zero. Looks at all of them, without a branch for each.
fn is_zero_from(s: &[u8], at: usize) -> bool
    ensures { result ≡ all_zero (drop at s.now) }
{
    let mut any = 0;
    for i in at..s.len() {
        any |= s[i];
    }
    any == 0
}

/// Whether every byte is zero. Looks at all of them, block by block, without a branch for each.
pub fn is_zero(s: &[u8]) -> bool
    ensures { result ≡ all_zero s.now }
{
    let n = s.len();
    let mut any = u64x8::splat(0);
    let mut i = 0;
    while BLOCK <= n - i {
        any = any | u64x8::from_le_bytes(u8x64::from_slice(&s[i..]));
        i += BLOCK;
    }
    is_zero_from(s, i) && any.simd_ne(u64x8::splat(0)).to_bitmask() == 0
}

/// Sets every byte to zero.
pub fn clear(s: &mut [u8])
    ensures { s.new ≡ replicate (length s.old) 0 }
{
    s.fill(0);
}

/// Copies `from` to the front of `to`, where the bytes behind them stay, and answers how many that were.
pub fn copy(from: &[u8], to: &mut [u8]) -> usize
    requires { length from.now ≤ length to.old }
    ensures value { result ≡ length from.now }
    ensures to_after { to.new ≡ from.now ++ drop (length from.now) to.old }
{
    let n = from.len();
    to[..n].copy_from_slice(from);
    n
}

/// Copies `from` to a place of `to`, and answers the place behind it.
pub fn put_bytes(to: &mut [u8], at: usize, from: &[u8]) -> usize
    requires { at + length from.now ≤ length to.old }
    ensures { Put to.old at from.now result to.new }
{
    let end = at + from.len();
    to[at..end].copy_from_slice(from);
    end
}

/// Moves the bytes up by w. The first w stay, and the last w are lost.
pub fn shift_up(s: &mut [u8], w: usize)
    requires { w ≤ length s.old }
    ensures { s.new ≡ take w s.old ++ take (length s.old - w) s.old }
{
    for j in (w..s.len()).rev() {
        s[j] = s[j - w];
    }
}

/// Copies the w bytes at `from` down to `to`.
pub fn copy_down(s: &mut [u8], from: usize, to: usize, w: usize)
    requires to_le_from { to ≤ from }
    requires w_in_bounds { from + w ≤ length s.old }
    ensures { s.new ≡ take to s.old ++ (take w (drop from s.old) ++ drop (to + w) s.old) }
{
    for k in 0..w {
        s[to + k] = s[from + k];
    }
}
