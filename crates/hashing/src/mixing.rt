//! The mixing function G in four lanes at a time, and the halves of a round (RFC 7693, 3.1 and 3.2).

ghost use Rattle.std.specs.Prelude.{◌≡◌, ℕ, ◌+◌, ◌%◌, ◌^◌, ◌<◌, bit_xor};
ghost use Rattle.hashing.specs.Blake2s.{nth, rotate_right, half_mix, mix_words, mix_columns, mix_diagonals};
ghost use Rattle.hashing.specs.Rows.{lane, state_of, left};

use std::simd::{u32x4, u32x16};

// The rotations of G (2.1).
const R1: u32 = 16;

const R2: u32 = 12;

const R3: u32 = 8;

const R4: u32 = 7;

/// The state as four rows of four words.
pub type Rows = [u32x4; 4];

// a + b + x, modulo 2^32.
fn add(a: u32x4, b: u32x4, x: u32x4) -> u32x4
    ensures { (j : ℕ) → j < 4 → nth result j ≡ (nth a j + nth b j + nth x j) % 2 ^ 32 }
{
    a + b + x
}

// a ^ b, rotated by n.
fn turn(a: u32x4, b: u32x4, n: u32) -> u32x4
    requires { (0 < n) × (n < 32) }
    ensures { (j : ℕ) → j < 4 → nth result j ≡ rotate_right (bit_xor (nth a j) (nth b j)) n }
{
    let x = a ^ b;
    (x >> u32x4::splat(n)) ^ (x << u32x4::splat(32 - n))
}

// Four of the eight statements of G, in each lane.
fn half_mix(v: Rows, x: u32x4, r: u32, s: u32) -> Rows
    requires { (0 < r) × (r < 32) × (0 < s) × (s < 32) }
    ensures { (j : ℕ) → j < 4 → lane j result ≡ half_mix (lane j v) 0 1 2 3 (nth x j) r s }
{
    let [a, b, c, d] = v;
    let a = add(a, b, x);
    let d = turn(d, a, r);
    let c = add(c, d, u32x4::splat(0));
    let b = turn(b, c, s);
    [a, b, c, d]
}

// G in each lane.
fn mix(v: Rows, x: u32x4, y: u32x4) -> Rows
    ensures { (j : ℕ) → j < 4 → lane j result ≡ mix_words (lane j v) 0 1 2 3 (nth x j) (nth y j) }
{
    half_mix(half_mix(v, x, R1, R2), y, R3, R4)
}

/// The first half of a round, with the first eight words of m: the lanes are the columns.
pub fn columns(v: Rows, m: u32x16) -> Rows
    ensures { state_of result ≡ mix_columns (state_of v) m 0 1 2 3 4 5 6 7 }
{
    mix(v, m.swizzle([0, 2, 4, 6]), m.swizzle([1, 3, 5, 7]))
}

// A row turned left by one, two or three places.
fn left_1(a: u32x4) -> u32x4
    ensures { result ≡ left 1 a }
{
    a.rotate_elements_left::<1>()
}

fn left_2(a: u32x4) -> u32x4
    ensures { result ≡ left 2 a }
{
    a.rotate_elements_left::<2>()
}

fn left_3(a: u32x4) -> u32x4
    ensures { result ≡ left 3 a }
{
    a.rotate_elements_left::<3>()
}

/// The second half of a round, with the last eight words of m: the other rows are turned to the
/// second, so that the lanes are the diagonals, the last one first, and back. The second stays, for
/// it is ready last.
pub fn diagonals(v: Rows, m: u32x16) -> Rows
    ensures { state_of result ≡ mix_diagonals (state_of v) m 8 9 10 11 12 13 14 15 }
{
    let [a, b, c, d] = v;
    let turned = [left_3(a), b, left_1(c), left_2(d)];
    let [a, b, c, d] = mix(
        turned,
        m.swizzle([14, 8, 10, 12]),
        m.swizzle([15, 9, 11, 13]),
    );
    [left_1(a), b, left_3(c), left_2(d)]
}
