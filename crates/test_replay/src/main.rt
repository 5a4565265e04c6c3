//! Replays the Rust's cases and prints what ours answers: on standard input 'a' and two claims of 61 bytes, or 'd', a length in two
//! bytes, and so many bytes of items. The expected output is what the Rust answered (make_stdout.py).
#![tactic(auto)]

ghost use Rattle.std.specs.Prelude.{◌+◌, ◌<◌, ◌≤◌, length};
ghost use Rattle.decision_bytes.specs.Layout.{chi_square_size, refusal_size};
ghost use Rattle.decision_bytes.specs.Offsets.{indices_size, refusals_size};

use arithmetic::standing::{Agreement, Claimed, Measure};
use decision_bytes::{ANSWER_SIZE, INDICES_SIZE, REFUSAL_SIZE};
use decision_items::layout::MAX_ITEMS;
use geometry::linalg::Covariance;
use std::io;

// A claim: latitude, longitude, whether it has a height, the height, and the covariance.
const CLAIM_SIZE: usize = 61;

const CLAIMS_SIZE: usize = CLAIM_SIZE + CLAIM_SIZE;

fn show(rt: &impl Print, n: u64) -> io::Result<()> {
    print!(rt; " {n}")
}

fn show_bits(rt: &impl Print, n: u64) -> io::Result<()> {
    print!(rt; " {n:016x}")
}

fn size(x: u8) -> usize
    ensures { result < 256 }
{
    x as usize
}

fn number(s: &[u8], at: usize) -> f64
    requires { at + 8 ≤ length s.now }
{
    floats::of_bits(octets::words::u64_at(s, at))
}

fn covariance(s: &[u8], at: usize) -> Covariance
    requires { at + 48 ≤ length s.now }
{
    let xx = number(s, at);
    let xy = number(s, at + 8);
    let xz = number(s, at + 16);
    let yy = number(s, at + 24);
    let yz = number(s, at + 32);
    let zz = number(s, at + 40);
    Covariance {
        xx,
        xy,
        xz,
        yy,
        yz,
        zz,
    }
}

fn claim(s: &[u8], at: usize) -> Claimed
    requires { at + 61 ≤ length s.now }
{
    let lat = octets::words::i32_at(s, at);
    let lon = octets::words::i32_at(s, at + 4);
    let height = (s[at + 8] != 0).then_some(octets::words::i32_at(s, at + 9));
    let covariance = covariance(s, at + 13);
    Claimed {
        lat,
        lon,
        height,
        covariance,
    }
}

// The bits of the chi-square and of its limit. A zero's sign is left free: a sum with zero has none.
fn show_measure(rt: &impl Print, m: Measure) -> io::Result<()> {
    show_bits(rt, floats::to_bits(m.chi2 + 0.0))?;
    show_bits(rt, floats::to_bits(m.limit))
}

// Where nothing was measured there is no number.
fn show_agreement(rt: &impl Print, a: Agreement) -> io::Result<()> {
    match a {
        Agreement::Inside(m) => show_measure(rt, m),
        Agreement::Outside(m) => show_measure(rt, m),
        Agreement::Unmeasurable => print!(rt; " none none"),
    }
}

fn agreement(rt: &impl Print, s: &[u8]) -> io::Result<()>
    requires { 122 ≤ length s.now }
{
    let smaller = claim(s, 0);
    let larger = claim(s, CLAIM_SIZE);
    let a = arithmetic::agreement(smaller, larger);
    print!(rt; "agreement")?;
    show_agreement(rt, a)?;
    println!(rt;)
}

fn show_indices(rt: &impl Print, s: &[u8], at: usize) -> io::Result<()>
    requires { at + indices_size ≤ length s.now }
{
    let count = size(s[at]);
    for i in 0..MAX_ITEMS {
        if count <= i {
            return Ok(());
        }
        show(rt, s[at + 1 + i] as u64)?;
    }
    Ok(())
}

// Whether there is a chi-square, and its bits.
fn show_chi_square(rt: &impl Print, s: &[u8], at: usize) -> io::Result<()>
    requires { at + chi_square_size ≤ length s.now }
{
    if s[at] == 0 {
        return print!(rt; " none");
    }
    show_bits(rt, octets::words::u64_at(s, at + 1))
}

fn show_refusal(rt: &impl Print, s: &[u8], at: usize) -> io::Result<()>
    requires { at + refusal_size ≤ length s.now }
{
    if s[at + 2] == 0 {
        print!(rt; " contested")?;
    } else {
        print!(rt; " superseded")?;
    }
    show(rt, s[at] as u64)?;
    show(rt, s[at + 1] as u64)?;
    show_chi_square(rt, s, at + 3)
}

fn show_refusals(rt: &impl Print, s: &[u8], at: usize) -> io::Result<()>
    requires { at + refusals_size ≤ length s.now }
{
    let count = size(s[at]);
    for i in 0..MAX_ITEMS {
        if count <= i {
            return Ok(());
        }
        show_refusal(rt, s, at + 1 + i * REFUSAL_SIZE)?;
    }
    Ok(())
}

fn show_answer(rt: &impl Print, answer: [u8; ANSWER_SIZE]) -> io::Result<()> {
    print!(rt; " ranked")?;
    show_indices(rt, &answer, 0)?;
    print!(rt; " dominated")?;
    show_indices(rt, &answer, INDICES_SIZE)?;
    print!(rt; " refused")?;
    show_refusals(rt, &answer, INDICES_SIZE + INDICES_SIZE)
}

fn decide(rt: &impl Print, items: &[u8]) -> io::Result<()> {
    let mut answer = [0u8; ANSWER_SIZE];
    let number = decision_bytes::decide(items, &mut answer);
    print!(rt; "answer")?;
    show(rt, number as u64)?;
    show_answer(rt, answer)?;
    println!(rt;)
}

// Two claims; false where they are cut short.
fn agreement_case(rt: &(impl Input + Print)) -> io::Result<bool> {
    let Some(claims) = console::array::<CLAIMS_SIZE>(rt)? else {
        return Ok(false);
    };
    agreement(rt, &claims)?;
    Ok(true)
}

// A length and so many bytes; false where they are cut short.
fn decide_case(rt: &(impl Input + Print), buffer: &mut [u8]) -> io::Result<bool> {
    let Some(items) = console::counted(rt, buffer)? else {
        return Ok(false);
    };
    decide(rt, items)?;
    Ok(true)
}

// One case; false at the end of the input.
fn step(rt: &(impl Input + Print), buffer: &mut [u8]) -> io::Result<bool> {
    let Some(kind) = console::array::<1>(rt)? else {
        return Ok(false);
    };
    if kind[0] == b'a' {
        return agreement_case(rt);
    }
    decide_case(rt, buffer)
}

fn main(rt: HostRuntime) -> io::Result<()> {
    let mut buffer = console::large_buffer();
    for i in 0..10000 {
        if !step(&rt, &mut buffer)? {
            return Ok(());
        }
    }
    Ok(())
}
