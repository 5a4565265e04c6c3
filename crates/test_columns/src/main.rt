//! Turns buffers that are read one after another, each as its length in two bytes, lowest first, and its bytes, and prints what each
//! of the two functions answers, with the hash of the output: on the buffer, on what the other made of it, and where the output is a byte
//! short. The expected output is made by slices and hashes of another language (make_stdout.py).
#![tactic(auto)]

use errors::answer_number;
use register::layout::REGISTER_SIZE;
use std::io;

// More buffers than these are not read.
const MAX_BUFFERS: u32 = 1000;

// An output that nothing was written to.
fn output() -> [u8; REGISTER_SIZE] {
    [7; REGISTER_SIZE]
}

fn show(rt: &impl Print, answer: u32, out: &[u8]) -> io::Result<()> {
    print!(rt; "{answer} ")?;
    console::print_hash(rt, hashing::blake2s256(out))?;
    println!(rt;)
}

// Turned, and turned back.
fn show_columns(rt: &impl Print, bytes: &[u8]) -> io::Result<()> {
    let (mut out, mut back) = (output(), output());
    let answer = answer_number(register_columns::columns(bytes, &mut out));
    show(rt, answer, &out)?;
    let answer = answer_number(register_columns::uncolumns(&out, &mut back));
    show(rt, answer, &back)
}

// The other way round.
fn show_uncolumns(rt: &impl Print, bytes: &[u8]) -> io::Result<()> {
    let (mut out, mut back) = (output(), output());
    let answer = answer_number(register_columns::uncolumns(bytes, &mut out));
    show(rt, answer, &out)?;
    let answer = answer_number(register_columns::columns(&out, &mut back));
    show(rt, answer, &back)
}

// Into an output that is a byte short.
fn show_short(rt: &impl Print, bytes: &[u8]) -> io::Result<()> {
    let mut out = [7; REGISTER_SIZE - 1];
    let answer = answer_number(register_columns::columns(bytes, &mut out));
    show(rt, answer, &out)?;
    let answer = answer_number(register_columns::uncolumns(bytes, &mut out));
    show(rt, answer, &out)
}

// Reads a buffer and shows what becomes of it; false at the end of the input.
fn step(rt: &(impl Input + Print), buffer: &mut [u8]) -> io::Result<bool> {
    let Some(bytes) = console::counted(rt, buffer)? else {
        return Ok(false);
    };
    show_columns(rt, bytes)?;
    show_uncolumns(rt, bytes)?;
    show_short(rt, bytes)?;
    println!(rt;)?;
    Ok(true)
}

fn main(rt: HostRuntime) -> io::Result<()> {
    let mut buffer = console::large_buffer();
    for i in 0..MAX_BUFFERS {
        if !step(&rt, &mut buffer)? {
            return Ok(());
        }
    }
    Ok(())
}
