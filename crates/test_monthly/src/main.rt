//! Prints the monthly numbers of buffers that are read one after another, each as its length in two bytes, lowest first, and its bytes, with
//! an empty line after each. The expected output is made by a second writing in another language (make_stdout.py).
#![tactic(auto)]

use monthly_numbers::TEXT_SIZE;
use std::io;

// More buffers than these are not read.
const MAX_BUFFERS: u32 = 1000;

fn output() -> [u8; TEXT_SIZE] {
    [0; TEXT_SIZE]
}

// Reads a buffer and prints its numbers; false at the end of the input.
fn step(rt: &(impl Input + Print), buffer: &mut [u8]) -> io::Result<bool> {
    let Some(bytes) = console::counted(rt, buffer)? else {
        return Ok(false);
    };
    let mut out = output();
    let printed = monthly_numbers::print(bytes, &mut out);
    rt.write_all(&out[..printed.len])?;
    println!(rt;)?;
    Ok(true)
}

fn main(rt: HostRuntime) -> io::Result<()> {
    let mut buffer = console::large_buffer();
    for i in 0..MAX_BUFFERS {
        if !step(&rt, &mut buffer)? {
            return Ok(());
        }
    }
    Ok(())
}
