//! Prints numbers as their bits, 16 hex digits each: the constants; both series at powers of two, where each coefficient shows;
//! sines and cosines; and for pairs of claims the agreement, the same from a table of prepared fixes, whether they agree, and the
//! smaller's horizontal sigma. make_stdout.py works out the same from the formulas and the Rust's text.
#![tactic(auto)]

ghost use Rattle.std.specs.Prelude.{◌≤◌, length};

use arithmetic::standing::{Agreement, Claimed, Measure};
use geometry::linalg::Covariance;
use std::io;

fn show(rt: &impl Print, x: f64) -> io::Result<()> {
    let bits = floats::to_bits(x);
    print!(rt; "{bits:016x}")
}

fn gap(rt: &impl Print) -> io::Result<()> {
    print!(rt; " ")
}

fn end(rt: &impl Print) -> io::Result<()> {
    println!(rt)
}

fn show_constants(rt: &impl Print) -> io::Result<()> {
    show(rt, geometry::angles::E7)?;
    end(rt)?;
    show(rt, geometry::angles::DEGREE)?;
    end(rt)?;
    show(rt, geometry::geodesy::A)?;
    end(rt)?;
    show(rt, geometry::geodesy::F)?;
    end(rt)?;
    show(rt, geometry::geodesy::E2)?;
    end(rt)?;
    show(rt, arithmetic::standing::AGREE_CHI2)?;
    end(rt)?;
    show(rt, arithmetic::standing::AGREE_CHI2_2D)?;
    end(rt)
}

fn show_series(rt: &impl Print, u: f64) -> io::Result<()> {
    show(rt, geometry::angles::sine_series(u))?;
    gap(rt)?;
    show(rt, geometry::angles::cosine_series(u))?;
    end(rt)
}

fn show_turn(rt: &impl Print, v: i32) -> io::Result<()> {
    let t = geometry::angles::sincos(v);
    show(rt, t.sin)?;
    gap(rt)?;
    show(rt, t.cos)?;
    end(rt)
}

// Angles in runs of neighbours: about 0 and 50 degrees, the edges of each quadrant, whole right angles, and the ends of an i32.
fn angle(i: u64) -> i32 {
    match i {
        0 => 0,
        1 => 1,
        2 => 2700,
        3 => 5400,
        4 => -2700,
        5 => -1,
        6 => 500_000_000,
        7 => 500_001_000,
        8 => 500_002_700,
        9 => -500_002_700,
        10 => -500_000_000,
        11 => 449_999_999,
        12 => 450_000_000,
        13 => 450_000_001,
        14 => 450_002_700,
        15 => -450_000_001,
        16 => -450_000_000,
        17 => -449_999_999,
        18 => 899_999_999,
        19 => 900_000_000,
        20 => 900_000_001,
        21 => -900_000_001,
        22 => -900_000_000,
        23 => -899_999_999,
        24 => 1_349_999_999,
        25 => 1_350_000_000,
        26 => 1_350_000_001,
        27 => -1_350_000_001,
        28 => -1_350_000_000,
        29 => -1_349_999_999,
        30 => 1_799_999_999,
        31 => 1_800_000_000,
        32 => 1_800_000_001,
        33 => -1_800_000_001,
        34 => -1_800_000_000,
        35 => -1_799_999_999,
        36 => 2_147_483_647,
        37 => 2_147_483_646,
        38 => -2_147_483_648,
        39 => -2_147_483_647,
        40 => 123_456_789,
        _ => -987_654_321,
    }
}

// Millimetres.
fn height(i: u64) -> i32 {
    match i {
        0 => 0,
        1 => 1500,
        2 => 12_000_000,
        3 => -400_000,
        4 => 1,
        5 => 2_147_483_647,
        6 => -2_147_483_648,
        _ => 9_144_000,
    }
}

// Zeros, ones, NaNs, infinities, subnormal, negative, small and large numbers.
fn number(i: u64) -> u64 {
    match i {
        0 => 0x0000_0000_0000_0000,
        1 => 0x8000_0000_0000_0000,
        2 => 0x3ff0_0000_0000_0000,
        3 => 0x4059_0000_0000_0000,
        4 => 0x4079_0000_0000_0000,
        5 => 0x7ff8_0000_0000_0000,
        6 => 0xfff0_0000_0000_0001,
        7 => 0x7ff0_0000_0000_0000,
        8 => 0xfff0_0000_0000_0000,
        9 => 0x0000_0000_0000_0001,
        10 => 0x000f_ffff_ffff_ffff,
        11 => 0x0010_0000_0000_0000,
        12 => 0xbff0_0000_0000_0000,
        13 => 0x7fef_ffff_ffff_ffff,
        14 => 0x3cb0_0000_0000_0000,
        _ => 0x40e8_6a00_0000_0000,
    }
}

fn six(xx: u64, xy: u64, xz: u64, yy: u64, yz: u64, zz: u64) -> Covariance {
    Covariance {
        xx: floats::of_bits(xx),
        xy: floats::of_bits(xy),
        xz: floats::of_bits(xz),
        yy: floats::of_bits(yy),
        yz: floats::of_bits(yz),
        zz: floats::of_bits(zz),
    }
}

// The bits of some numbers.
const ONE: u64 = 0x3ff0_0000_0000_0000;

const TWO: u64 = 0x4000_0000_0000_0000;

const HUNDRED: u64 = 0x4059_0000_0000_0000;

const MINUS_HUNDRED: u64 = 0xc059_0000_0000_0000;

// About 1e300.
const VAST: u64 = 0x7e37_e43c_8800_759c;

const MINUS_ZERO: u64 = 0x8000_0000_0000_0000;

const INFINITY: u64 = 0x7ff0_0000_0000_0000;

const NAN: u64 = 0x7ff8_0000_0000_0000;

// 400, 300 and 900 on the diagonal; 10, 5 and 7 beside it.
fn usual() -> Covariance {
    six(
        0x4079_0000_0000_0000,
        0x4024_0000_0000_0000,
        0x4014_0000_0000_0000,
        0x4072_c000_0000_0000,
        0x401c_0000_0000_0000,
        0x408c_2000_0000_0000,
    )
}

// In this order: zero; 1e-320 and then infinity on the diagonal; one that is not positive definite and passes by rounding; one
// that is not and fails at the second row, and at the third; NaN in the height's terms alone, and in xy; negative zero; a
// negative variance; infinite off the diagonal; a plain one; the least subnormal.
fn named(i: u64) -> Covariance {
    match i {
        0 => six(0, 0, 0, 0, 0, 0),
        1 => six(0x7e8, 0, 0, 0x7e8, 0, 0x7e8),
        2 => six(INFINITY, 0, 0, INFINITY, 0, INFINITY),
        3 => six(VAST, VAST, 0, VAST, 0, ONE),
        4 => six(ONE, TWO, 0, ONE, 0, ONE),
        5 => six(HUNDRED, 0, HUNDRED, HUNDRED, 0, HUNDRED),
        6 => six(HUNDRED, 0, NAN, HUNDRED, NAN, NAN),
        7 => six(HUNDRED, NAN, 0, HUNDRED, 0, HUNDRED),
        8 => six(MINUS_ZERO, 0, 0, HUNDRED, 0, HUNDRED),
        9 => six(HUNDRED, 0, 0, MINUS_HUNDRED, 0, HUNDRED),
        10 => six(HUNDRED, 0, INFINITY, HUNDRED, 0, INFINITY),
        11 => usual(),
        _ => six(1, 0, 0, 1, 0, 1),
    }
}

// Variances that put a chi-square one above its limit, at it and one below: with heights, then without.
fn variance(i: u64) -> u64 {
    match i {
        0 => 0x404b_be90_66d0_3ceb,
        1 => 0x404b_be90_66d0_3ced,
        2 => 0x404b_be90_66d0_3cef,
        3 => 0x4044_0558_e3b5_4673,
        4 => 0x4044_0558_e3b5_4674,
        _ => 0x4044_0558_e3b5_4676,
    }
}

// Marsaglia's xorshift of 64 bits.
fn next(x: u64) -> u64 {
    let a = x ^ (x << 13);
    let b = a ^ (a >> 7);
    b ^ (b << 17)
}

// From the table, any pattern at all, or a number that makes a positive definite matrix likely.
fn entry(kind: u64, diagonal: bool, x: u64) -> u64 {
    if kind == 0 {
        return number(x % 16);
    }
    if kind == 1 {
        return x;
    }
    if diagonal {
        return 0x4070_0000_0000_0000 + x % 0x10_0000_0000_0000;
    }
    if x >= 0x8000_0000_0000_0000 {
        return 0xc030_0000_0000_0000 + x % 0x10_0000_0000_0000;
    }
    0x4030_0000_0000_0000 + x % 0x10_0000_0000_0000
}

fn random(kind: u64, x: u64) -> Covariance {
    let a = next(x);
    let b = next(a);
    let c = next(b);
    let d = next(c);
    let e = next(d);
    let f = next(e);
    six(
        entry(kind, true, a),
        entry(kind, false, b),
        entry(kind, false, c),
        entry(kind, true, d),
        entry(kind, false, e),
        entry(kind, true, f),
    )
}

fn show_measure(rt: &impl Print, m: Measure) -> io::Result<()> {
    show(rt, m.chi2)?;
    gap(rt)?;
    show(rt, m.limit)?;
    gap(rt)
}

// Where nothing was measured there is no number.
fn show_no_measure(rt: &impl Print) -> io::Result<()> {
    print!(rt; "none none ")
}

fn show_agreement(rt: &impl Print, a: Agreement) -> io::Result<()> {
    match a {
        Agreement::Inside(m) => show_measure(rt, m),
        Agreement::Outside(m) => show_measure(rt, m),
        Agreement::Unmeasurable => show_no_measure(rt),
    }
}

// 1.0 where the two agree.
fn show_agrees(rt: &impl Print, a: Agreement) -> io::Result<()> {
    if arithmetic::agrees(a) {
        return show(rt, 1.0);
    }
    show(rt, 0.0)
}

fn staged(smaller: Claimed, larger: Claimed) -> Agreement {
    let factor = geometry::linalg::cholesky(smaller.covariance);
    arithmetic::compare(
        &arithmetic::place(smaller),
        &factor,
        &arithmetic::place(larger),
    )
}

fn show_pair(rt: &impl Print, smaller: Claimed, larger: Claimed) -> io::Result<()> {
    let whole = arithmetic::agreement(smaller, larger);
    show_agreement(rt, whole)?;
    show_agreement(rt, staged(smaller, larger))?;
    show_agrees(rt, whole)?;
    gap(rt)?;
    show(rt, arithmetic::horizontal_sigma_m(smaller.covariance))?;
    end(rt)
}

fn show_named(rt: &impl Print, c: Covariance, lat: i32, has_height: bool) -> io::Result<()> {
    show_pair(
        rt,
        Claimed {
            lat: 500_000_000,
            lon: 100_000_000,
            height: has_height.then_some(1500),
            covariance: c,
        },
        Claimed {
            lat,
            lon: 100_000_000,
            height: has_height.then_some(1500),
            covariance: c,
        },
    )
}

fn show_at_limit(rt: &impl Print, v: u64, lat: i32, lon: i32, has_height: bool) -> io::Result<()> {
    let c = six(v, 0, 0, v, 0, v);
    show_pair(
        rt,
        Claimed {
            lat: 500_000_000,
            lon: 100_000_000,
            height: has_height.then_some(1500),
            covariance: c,
        },
        Claimed {
            lat,
            lon,
            height: has_height.then_some(1500),
            covariance: c,
        },
    )
}

fn show_random(rt: &impl Print, x: u64) -> io::Result<()> {
    let c = random(x / 0x1_0000_0000 % 5, x);
    let lat = x % 40;
    let lon = x / 64 % 40;
    show_pair(
        rt,
        Claimed {
            lat: angle(lat),
            lon: angle(lon),
            height: (x / 0x10_0000 % 2 == 0).then_some(height(x / 0x1_0000 % 8)),
            covariance: c,
        },
        Claimed {
            lat: angle(lat + x / 4096 % 3),
            lon: angle(lon + x / 16384 % 3),
            height: (x / 0x1000_0000 % 2 == 0).then_some(height(x / 0x100_0000 % 8)),
            covariance: c,
        },
    )
}

fn show_all_series(rt: &impl Print) -> io::Result<()> {
    for i in 960..1124 {
        show_series(rt, floats::of_bits(i * 0x10_0000_0000_0000))?;
    }
    Ok(())
}

fn show_turns(rt: &impl Print) -> io::Result<()> {
    for i in 0..42 {
        show_turn(rt, angle(i))?;
    }
    Ok(())
}

fn show_all_named(rt: &impl Print) -> io::Result<()> {
    for i in 0..13 {
        show_named(rt, named(i), 500_000_000, true)?;
        show_named(rt, named(i), 500_000_000, false)?;
        show_named(rt, named(i), 500_002_700, true)?;
        show_named(rt, named(i), 500_002_700, false)?;
    }
    Ok(())
}

fn show_limit(rt: &impl Print, i: u64) -> io::Result<()> {
    if i < 3 {
        return show_at_limit(rt, variance(i), 500_002_701, 100_000_000, true);
    }
    show_at_limit(rt, variance(i), 500_002_007, 100_001_033, false)
}

fn show_limits(rt: &impl Print) -> io::Result<()> {
    for i in 0..6 {
        show_limit(rt, i)?;
    }
    Ok(())
}

fn show_randoms(rt: &impl Print) -> io::Result<()> {
    let mut x: u64 = 0x9e37_79b9_7f4a_7c15;
    for i in 0..400 {
        x = next(x);
        show_random(rt, x)?;
    }
    Ok(())
}

fn main(rt: HostRuntime) -> io::Result<()> {
    show_constants(&rt)?;
    show_all_series(&rt)?;
    show_turns(&rt)?;
    show_all_named(&rt)?;
    show_limits(&rt)?;
    show_randoms(&rt)
}
