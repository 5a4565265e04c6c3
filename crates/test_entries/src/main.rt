//! Writes the fixes of the boards of registers that are read one after another, and prints what each is answered, with the hash of the output;
//! and what it is answered where the output has a byte too few. make_stdout.py works out the same from a second writing of the board.
//!
//! A register that is cut short ends the work.
#![tactic(auto)]

use board_values::FIXES_SIZE;
use errors::value_or_number;
use register::layout::REGISTER_SIZE;
use std::io;

// More registers than these are not read.
const MAX_REGISTERS: u32 = 65536;

// What the fixes of a board are answered, and the hash of an output that was zeros.
fn show_fixes(rt: &impl Print, memory: &[u8]) -> io::Result<()> {
    let mut out = [0; FIXES_SIZE];
    let answer = value_or_number(board_values::fixes(memory, &mut out));
    print!(rt; "answer={answer} output=")?;
    console::print_hash(rt, hashing::blake2s256(&out))?;
    println!(rt;)
}

// What it is answered where the output has a byte too few.
fn show_too_small(rt: &impl Print, memory: &[u8]) -> io::Result<()> {
    let mut out = [0; FIXES_SIZE - 1];
    let answer = value_or_number(board_values::fixes(memory, &mut out));
    println!(rt; "answer={answer}")
}

// One register; false at the end of the input.
fn step(rt: &(impl Input + Print)) -> io::Result<bool> {
    let Some(memory) = console::array::<REGISTER_SIZE>(rt)? else {
        return Ok(false);
    };
    show_fixes(rt, &memory)?;
    show_too_small(rt, &memory)?;
    Ok(true)
}

fn main(rt: HostRuntime) -> io::Result<()> {
    for i in 0..MAX_REGISTERS {
        if !step(&rt)? {
            return Ok(());
        }
    }
    Ok(())
}
