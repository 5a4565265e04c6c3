//! The ten rounds (RFC 7693, 3.2).

ghost use Rattle.std.specs.Prelude.{◌≡◌};
ghost use Rattle.hashing.specs.Blake2s.{round, rounds};
ghost use Rattle.hashing.specs.Rows.{state_of};

use crate::mixing::{Rows, columns, diagonals};
use std::simd::u32x16;

// The message schedule SIGMA (2.7). Ten rows and no table, since the places of a swizzle are a
// constant.
const SIGMA_0: [usize; 16] = [0, 1, 2, 3, 4, 5, 6, 7, 8, 9, 10, 11, 12, 13, 14, 15];

const SIGMA_1: [usize; 16] = [14, 10, 4, 8, 9, 15, 13, 6, 1, 12, 0, 2, 11, 7, 5, 3];

const SIGMA_2: [usize; 16] = [11, 8, 12, 0, 5, 2, 15, 13, 10, 14, 3, 6, 7, 1, 9, 4];

const SIGMA_3: [usize; 16] = [7, 9, 3, 1, 13, 12, 11, 14, 2, 6, 5, 10, 4, 0, 15, 8];

const SIGMA_4: [usize; 16] = [9, 0, 5, 7, 2, 4, 10, 15, 14, 1, 11, 12, 6, 8, 3, 13];

const SIGMA_5: [usize; 16] = [2, 12, 6, 10, 0, 11, 8, 3, 4, 13, 7, 5, 15, 14, 1, 9];

const SIGMA_6: [usize; 16] = [12, 5, 1, 15, 14, 13, 4, 10, 0, 7, 6, 3, 9, 2, 8, 11];

const SIGMA_7: [usize; 16] = [13, 11, 7, 14, 12, 1, 3, 9, 5, 0, 15, 4, 8, 6, 2, 10];

const SIGMA_8: [usize; 16] = [6, 15, 14, 9, 11, 3, 0, 8, 12, 2, 13, 7, 1, 4, 10, 5];

const SIGMA_9: [usize; 16] = [10, 2, 8, 4, 7, 6, 1, 5, 15, 11, 9, 14, 3, 12, 13, 0];

// A round that takes the words of m in their order, as the first one does.
fn round(v: Rows, m: u32x16) -> Rows
    ensures { state_of result ≡ round 0 m (state_of v) }
{
    diagonals(columns(v, m), m)
}

/// All ten: each takes the words in the order of its row of SIGMA.
pub fn all_rounds(v: Rows, m: u32x16) -> Rows
    ensures { state_of result ≡ rounds 10 m (state_of v) }
{
    let v = round(v, m.swizzle(SIGMA_0));
    let v = round(v, m.swizzle(SIGMA_1));
    let v = round(v, m.swizzle(SIGMA_2));
    let v = round(v, m.swizzle(SIGMA_3));
    let v = round(v, m.swizzle(SIGMA_4));
    let v = round(v, m.swizzle(SIGMA_5));
    let v = round(v, m.swizzle(SIGMA_6));
    let v = round(v, m.swizzle(SIGMA_7));
    let v = round(v, m.swizzle(SIGMA_8));
    round(v, m.swizzle(SIGMA_9))
}
