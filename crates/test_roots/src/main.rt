//! Prints the bits of square roots, 16 hex digits to a line: of edge values, of squares and their neighbours, and of a sequence of
//! pseudo-random patterns. make_stdout.py makes the same inputs, and takes the roots from the machine's own square root.
#![tactic(auto)]

use std::io;

fn show(rt: &impl Print, b: u64) -> io::Result<()> {
    let r = floats::to_bits(floats::root(floats::of_bits(b)));
    println!(rt; "{r:016x}")
}

fn edge(i: u64) -> u64 {
    match i {
        0 => 0x0000_0000_0000_0000,
        1 => 0x8000_0000_0000_0000,
        2 => 0x0000_0000_0000_0001,
        3 => 0x0000_0000_0000_0002,
        4 => 0x0000_0000_0000_0003,
        5 => 0x0007_ffff_ffff_ffff,
        6 => 0x0008_0000_0000_0000,
        7 => 0x000f_ffff_ffff_fffe,
        8 => 0x000f_ffff_ffff_ffff,
        9 => 0x0010_0000_0000_0000,
        10 => 0x0010_0000_0000_0001,
        11 => 0x001f_ffff_ffff_ffff,
        12 => 0x0020_0000_0000_0000,
        13 => 0x3fcf_ffff_ffff_ffff,
        14 => 0x3fd0_0000_0000_0000,
        15 => 0x3fef_ffff_ffff_fffe,
        16 => 0x3fef_ffff_ffff_ffff,
        17 => 0x3ff0_0000_0000_0000,
        18 => 0x3ff0_0000_0000_0001,
        19 => 0x3ff0_0000_0000_0002,
        20 => 0x3fff_ffff_ffff_ffff,
        21 => 0x4000_0000_0000_0000,
        22 => 0x4008_0000_0000_0000,
        23 => 0x400f_ffff_ffff_ffff,
        24 => 0x4010_0000_0000_0000,
        25 => 0x7fdf_ffff_ffff_ffff,
        26 => 0x7fe0_0000_0000_0000,
        27 => 0x7fef_ffff_ffff_fffe,
        28 => 0x7fef_ffff_ffff_ffff,
        29 => 0x7ff0_0000_0000_0000,
        30 => 0x7ff0_0000_0000_0001,
        31 => 0x7ff7_ffff_ffff_ffff,
        32 => 0x7ff8_0000_0000_0000,
        33 => 0x7fff_ffff_ffff_ffff,
        34 => 0x8000_0000_0000_0001,
        35 => 0x800f_ffff_ffff_ffff,
        36 => 0x8010_0000_0000_0000,
        37 => 0xbff0_0000_0000_0000,
        38 => 0xffef_ffff_ffff_ffff,
        39 => 0xfff0_0000_0000_0000,
        40 => 0xfff0_0000_0000_0001,
        _ => 0xffff_ffff_ffff_ffff,
    }
}

// A square that an f64 holds, and the values next to it.
fn show_square(rt: &impl Print, k: u64) -> io::Result<()> {
    let n = k % 101 * 920_137;
    let b = floats::to_bits(std::num::nearest_u64_to_f64(n * n));
    show(rt, b.wrapping_sub(1))?;
    show(rt, b)?;
    show(rt, b.wrapping_add(1))
}

// Marsaglia's xorshift of 64 bits.
fn next(x: u64) -> u64 {
    let a = x ^ (x << 13);
    let b = a ^ (a >> 7);
    b ^ (b << 17)
}

// Of a number: a positive finite value of any exponent, one from 1 to below 4, and a subnormal one.
fn show_random(rt: &impl Print, x: u64, i: u64) -> io::Result<()> {
    show(rt, x % 0x7ff0_0000_0000_0000)?;
    show(rt, 0x3ff0_0000_0000_0000 + x % 0x20_0000_0000_0000)?;
    show(rt, x >> (12 + i % 50))
}

fn main(rt: HostRuntime) -> io::Result<()> {
    let mut x: u64 = 0x9e37_79b9_7f4a_7c15;
    for i in 0..42 {
        show(&rt, edge(i))?;
    }
    for i in 1..101 {
        show_square(&rt, i)?;
    }
    for i in 0..200 {
        x = next(x);
        show_random(&rt, x, i)?;
    }
    Ok(())
}
