//! An f64 from and to its 64 bits, and the square root worked out from the bits.
#![tactic(auto)]

ghost use Rattle.std.specs.Prelude.{◌≡◌, ◌+◌, ◌*◌, ◌^◌, ◌<◌, ◌≤◌, from_bits, to_bits};
ghost use Rattle.std.specs.Float.{binary64};
ghost use Rattle.std.specs.Float.Ieee.Nearest.{closest};
ghost use Rattle.floats.specs.Root as Root;

pub mod claims;
mod table;

use table::INVERSES;

// The weight of a pattern's sign, the pattern of the infinity, the one that is written for a NaN, and the weight of the exponent's
// field.
const SIGN: u64 = 0x8000_0000_0000_0000;

pub const INFINITY: u64 = 0x7ff0_0000_0000_0000;

const NAN: u64 = 0x7ff8_0000_0000_0000;

const FIELD: u64 = 0x10_0000_0000_0000;

/// The f64 of any 64 bits. Every NaN pattern gives NaN.
pub fn of_bits(n: u64) -> f64
    ensures { result ≡ from_bits binary64 n }
{
    if n % SIGN > INFINITY {
        return 0.0 / 0.0;
    }
    f64::from_bits(n)
}

/// The bits of an f64. A NaN is written 7ff8000000000000, whatever its sign and payload are.
pub fn to_bits(x: f64) -> u64
    ensures { result ≡ to_bits binary64 x }
{
    if x != x {
        return NAN;
    }
    f64::to_bits(x)
}

// The product of the lower halves of two words.
fn product(a: u64, b: u64) -> u64 {
    (a % 0x1_0000_0000) * (b % 0x1_0000_0000)
}

// Below 2 ^ 58 / √m by less than a 40,000th part of it, for an m from 2 ^ 52 and below 2 ^ 54: on the line between two numbers of the table.
// Nothing rests on how near this and `guess` are: they save turns of the loops in `not_above` and `nearest`.
fn inverse(m: u64) -> u64
    requires { (2 ^ 52 ≤ m) × (m < 2 ^ 54) }
{
    let i = (m / 0x4000_0000_0000 - 64) as usize;
    let y = INVERSES[i] as u64;
    let fall = std::num::wrapping_sub_u64(y, INVERSES[i + 1] as u64);
    std::num::wrapping_sub_u64(y, product(fall, m / 0x4000) / 0x1_0000_0000)
}

// About √m * 2 ^ 26, for y a little below 2 ^ 58 / √m. What a root lacks is half of what its square leaves, over the root: so y times m, a
// little below the root, gives a root of 32 digits, and that gives one of 53. The second time y is too far off, and takes a turn of Newton's
// iteration, which waits for neither root. All of them are from below, so that nothing that is left over is negative.
fn guess(m: u64, y: u64) -> u64 {
    let h = m / 0x40_0000;
    let square = product(product(y, y) / 0x1_0000_0000, h);
    let off = std::num::wrapping_sub_u64(0x4000_0000_0000_0000, square);
    let nearer = y % 0x1_0000_0000 + product(off / 0x1_0000, y) / 0x8000_0000_0000;
    let wide = m % 0x40_0000_0000_0000 * 0x400;
    let first = product(y, h) / 0x8000_0000;
    let rest = std::num::wrapping_sub_u64(wide, product(first, first));
    let root = first + product(rest / 0x4_0000, y) / 0x4000_0000_0000;
    let left = std::num::wrapping_sub_u64(wide, product(root, root));
    let lower = product(left / 4, nearer) / 0x100_0000_0000;
    root * 0x20_0000 + (lower + 1) / 2
}

// The first number from guess down that is not above the nearest one to the root of n.
fn not_above(n: u128, guess: u64) -> u64
    requires { (0 < n) × (n < 2 ^ 106) × (guess < 2 ^ 54) }
    ensures { (result * result < n + result) × (result < 2 ^ 54) }
{
    let mut r = guess;
    while r as u128 * r as u128 >= n + r as u128 {
        r -= 1;
    }
    r
}

// The root of n to the nearest whole number, whatever the guess is. The square of a middle between two numbers is no whole number, so there
// is no tie: n is above r * r - r, the whole part of the square of the middle below r, and at most r * r + r.
fn nearest(n: u128, guess: u64) -> u64
    requires { (0 < n) × (n < 2 ^ 106) }
    ensures { (result * result < n + result) × (n ≤ result * result + result) }
{
    let mut r = not_above(n, guess % 0x40_0000_0000_0000);
    while r as u128 * r as u128 + (r as u128) < n {
        r += 1;
    }
    r
}

// The root of m * 2 ^ 52 to the nearest whole number.
fn rounded(m: u64) -> u64
    requires { (2 ^ 52 ≤ m) × (m < 2 ^ 54) }
    ensures { (result ≡ closest (Root.digits_of m) 8) × (result ≤ 2 ^ 53) }
{
    nearest(m as u128 * FIELD as u128, guess(m, inverse(m)))
}

fn root_of(m: u64, e: u64) -> f64
    requires { (2 ^ 52 ≤ m) × (m < 2 ^ 53) × (32 ≤ e) × (e < 4000) }
    ensures { result ≡ Root.root_of m e }
{
    f64::from_bits((e / 2 - 16) * FIELD + rounded(m * (1 + e % 2)))
}

// The leading digit of a normal, which the pattern leaves out, stands in the 53rd place: no zeros are counted, and nothing is shifted.
fn root_normal(b: u64) -> f64
    requires { (2 ^ 52 ≤ b) × (b < 0x7ff0_0000_0000_0000) }
    ensures { result ≡ Root.root_finite b }
{
    root_of(FIELD + b % FIELD, b / FIELD + 1053)
}

// Of a subnormal, whose unit is that of field one, the leading digit goes to the 53rd place, and the exponent's field goes down by as
// many places.
fn root_subnormal(b: u64) -> f64
    requires { (0 < b) × (b < 2 ^ 52) }
    ensures { result ≡ Root.root_finite b }
{
    let z = u64::leading_zeros(b) as u64;
    root_of(b << (z - 11), 1065 - z)
}

fn root_finite(b: u64) -> f64
    requires { (0 < b) × (b < 0x7ff0_0000_0000_0000) }
    ensures { result ≡ Root.root_finite b }
{
    if b < FIELD {
        return root_subnormal(b);
    }
    root_normal(b)
}

// All tests are on the bits, as integers.
fn root_bits(b: u64) -> f64
    ensures { result ≡ Root.root_bits b }
{
    if b % SIGN == 0 {
        return of_bits(b);
    }
    if b >= SIGN {
        return of_bits(NAN);
    }
    if b >= INFINITY {
        return of_bits(b);
    }
    root_finite(b)
}

/// IEEE 754's square root, to the nearest: a zero and the infinity are their own roots, a negative value or a NaN gives NaN.
pub fn root(x: f64) -> f64
    ensures { result ≡ Root.root x }
{
    root_bits(to_bits(x))
}
