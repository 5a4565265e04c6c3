//! Writes the map of registers that are read one after another, and prints what each is answered, with the text; and what it is answered
//! where the output has a byte too few. The expected output is that of a second writing of the map (make_stdout.py).
//!
//! A register that is cut short ends the work.
#![tactic(auto)]

use board_map::MAP_SIZE;
use errors::value_or_number;
use register::layout::REGISTER_SIZE;
use std::io;

// More registers than these are not read.
const MAX_REGISTERS: u32 = 65536;

// The greatest number that a map is refused with.
const GREATEST_REFUSAL: u32 = 14;

fn show_answer(rt: &impl Print, answer: u32) -> io::Result<()> {
    println!(rt; "answer={answer}")
}

// What a map is answered, and its text.
fn show_map(rt: &impl Print, memory: &[u8]) -> io::Result<()> {
    let mut out = [0; MAP_SIZE];
    let answer = value_or_number(board_map::map(memory, &mut out));
    show_answer(rt, answer)?;
    if answer <= GREATEST_REFUSAL {
        return Ok(());
    }
    let n = answer as usize;
    rt.write_all(&out[..n])?;
    println!(rt;)
}

// What it is answered where the output has a byte too few.
fn show_too_small(rt: &impl Print, memory: &[u8]) -> io::Result<()> {
    let mut out = [0; MAP_SIZE - 1];
    let answer = value_or_number(board_map::map(memory, &mut out));
    show_answer(rt, answer)
}

// One register; false at the end of the input.
fn step(rt: &(impl Input + Print)) -> io::Result<bool> {
    let Some(memory) = console::array::<REGISTER_SIZE>(rt)? else {
        return Ok(false);
    };
    show_map(rt, &memory)?;
    show_too_small(rt, &memory)?;
    println!(rt;)?;
    Ok(true)
}

fn main(rt: HostRuntime) -> io::Result<()> {
    for i in 0..MAX_REGISTERS {
        if !step(&rt)? {
            return Ok(());
        }
    }
    Ok(())
}
