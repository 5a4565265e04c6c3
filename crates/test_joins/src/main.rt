//! Joins registers that are read by twos, and prints what a join and what is lacking are answered, each with the hash of the register that
//! is left: of the first with the second, and of the second with the first. The expected output is made from the words of the reference by
//! maps and hashes of another language (make_stdout.py).
//!
//! A register that is cut short ends the work.
#![tactic(auto)]

use errors::answer_number;
use register::layout::REGISTER_SIZE;
use std::io;

// More pairs than these are not read.
const MAX_PAIRS: u32 = 65536;

fn show(rt: &impl Print, answer: u32, bytes: &[u8]) -> io::Result<()> {
    print!(rt; "{answer} ")?;
    console::print_hash(rt, hashing::blake2s256(bytes))?;
    println!(rt;)
}

// What it is answered where another register is joined, and what is left.
fn show_join(
    rt: &impl Print,
    memory: &[u8; REGISTER_SIZE],
    other: &[u8; REGISTER_SIZE],
) -> io::Result<()> {
    let mut joined = *memory;
    let answer = answer_number(register_join::join(&mut joined, other));
    show(rt, answer, &joined)
}

// What is answered where it lacks of another, and what it lacks, a byte behind it; and the same into an output that is a byte short.
fn show_lacking(
    rt: &impl Print,
    memory: &[u8; REGISTER_SIZE],
    other: &[u8; REGISTER_SIZE],
) -> io::Result<()> {
    let mut out = [7; REGISTER_SIZE + 1];
    let answer = answer_number(register_join::lacks(memory, other, &mut out));
    show(rt, answer, &out)?;
    let mut out = [7; REGISTER_SIZE - 1];
    let answer = answer_number(register_join::lacks(memory, other, &mut out));
    show(rt, answer, &out)
}

fn show_pair(
    rt: &impl Print,
    memory: &[u8; REGISTER_SIZE],
    other: &[u8; REGISTER_SIZE],
) -> io::Result<()> {
    show_join(rt, memory, other)?;
    show_join(rt, other, memory)?;
    show_lacking(rt, memory, other)?;
    show_lacking(rt, other, memory)
}

// Reads two registers and shows what becomes of them; false at the end of the input.
fn step(rt: &(impl Input + Print)) -> io::Result<bool> {
    let Some(first) = console::array::<REGISTER_SIZE>(rt)? else {
        return Ok(false);
    };
    let Some(second) = console::array::<REGISTER_SIZE>(rt)? else {
        return Ok(false);
    };
    show_pair(rt, &first, &second)?;
    Ok(true)
}

fn main(rt: HostRuntime) -> io::Result<()> {
    for _ in 0..MAX_PAIRS {
        if !step(&rt)? {
            return Ok(());
        }
    }
    Ok(())
}
