//! Asks of every desk, and of two numbers that are none, what it is shown of registers that are read one after another: the board, the
//! preview of every engine's conviction and what a conviction is answered, each with its text. The expected output is that of a second
//! writing of the register and the board (make_stdout.py).
//!
//! A register that is cut short ends the work.
#![tactic(auto)]

use board::BOARD_SIZE;
use register::layout::REGISTER_SIZE;
use std::io;
use toastlagoon::{tl_board, tl_register_conviction, tl_register_preview};

// More registers than these are not read.
const MAX_REGISTERS: u32 = 65536;

// A crew, an analyst, a manager, and two that are none.
const DESKS: [u32; 5] = [0, 1, 2, 3, 258];

// All engines, and one number more, which is refused.
const NUMBERS: u32 = 33;

// The greatest number that a call is refused with.
const GREATEST_REFUSAL: u32 = 17;

fn output_buffer() -> [u8; BOARD_SIZE] {
    [0; BOARD_SIZE]
}

fn small_buffer() -> [u8; BOARD_SIZE - 1] {
    [0; BOARD_SIZE - 1]
}

// The text of an answer, where it is no refusal.
fn show_text(rt: &impl Print, out: &[u8; BOARD_SIZE], answer: u32) -> io::Result<()> {
    if answer <= GREATEST_REFUSAL || BOARD_SIZE < answer as usize {
        return Ok(());
    }
    let n = answer as usize;
    rt.write_all(&out[..n])
}

// What a board is answered, and its text.
fn show_board(rt: &impl Print, desk: u32, memory: &[u8]) -> io::Result<()> {
    let mut out = output_buffer();
    let answer = tl_board(desk, memory, &mut out);
    println!(rt; "desk={desk} board answer={answer}")?;
    show_text(rt, &out, answer)?;
    let too_small = tl_board(desk, memory, &mut small_buffer());
    println!(rt; "desk={desk} too small answer={too_small}")
}

// What a conviction on a copy is answered.
fn show_conviction(
    rt: &impl Print,
    desk: u32,
    memory: &[u8; REGISTER_SIZE],
    engine: u32,
) -> io::Result<()> {
    let mut copied = *memory;
    let answer = tl_register_conviction(desk, &mut copied, engine);
    println!(rt; "desk={desk} convict={engine} answer={answer}")?;
    let same = octets::order::equal(&copied, memory);
    println!(rt; "same={same}")
}

// What a preview is answered, and its text.
fn show_preview(rt: &impl Print, desk: u32, memory: &[u8], engine: u32) -> io::Result<()> {
    let mut out = output_buffer();
    let answer = tl_register_preview(desk, memory, engine, &mut out);
    println!(rt; "desk={desk} engine={engine} answer={answer}")?;
    show_text(rt, &out, answer)
}

// What it is answered where the output has a byte too few.
fn show_too_small(rt: &impl Print, desk: u32, memory: &[u8], engine: u32) -> io::Result<()> {
    let answer = tl_register_preview(desk, memory, engine, &mut small_buffer());
    println!(rt; "desk={desk} engine={engine} too small answer={answer}")
}

fn show_desk(rt: &impl Print, desk: u32, memory: &[u8; REGISTER_SIZE]) -> io::Result<()> {
    show_board(rt, desk, memory)?;
    show_conviction(rt, desk, memory, 1)?;
    show_conviction(rt, desk, memory, NUMBERS)?;
    for engine in 0..NUMBERS {
        show_preview(rt, desk, memory, engine)?;
    }
    show_too_small(rt, desk, memory, 0)?;
    show_too_small(rt, desk, memory, NUMBERS)
}

fn show_all(rt: &impl Print, memory: &[u8; REGISTER_SIZE]) -> io::Result<()> {
    for desk in &DESKS {
        show_desk(rt, *desk, memory)?;
    }
    Ok(())
}

// One register; false at the end of the input.
fn step(rt: &(impl Input + Print)) -> io::Result<bool> {
    let Some(memory) = console::array::<REGISTER_SIZE>(rt)? else {
        return Ok(false);
    };
    show_all(rt, &memory)?;
    println!(rt;)?;
    Ok(true)
}

fn main(rt: HostRuntime) -> io::Result<()> {
    for i in 0..MAX_REGISTERS {
        if !step(&rt)? {
            return Ok(());
        }
    }
    Ok(())
}
