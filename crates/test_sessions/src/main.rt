//! Runs sessions one after another and prints what each prints: on standard input each has its length before it, in four bytes, lowest
//! first. The expected output is that of a second writing of the session, the register and the board (make_stdout.py).
#![tactic(auto)]

ghost use Rattle.std.specs.Prelude.{◌≡◌, ◌≤◌, length, IfOk};

use session_text::{MAX_INPUT, OUTPUT_SIZE};
use std::io;

// The length of the next session, and no more than one byte over what is read; so much too where no session is left.
fn next_length(rt: &impl Input) -> io::Result<usize>
    ensures { IfOk result (λ n. n ≤ 65537) }
{
    let mut four = [0u8; 4];
    let n = console::read_full(rt, &mut four)?;
    if n < 4 {
        return Ok(MAX_INPUT + 1);
    }
    let size = octets::words::u32_at(&four, 0) as usize;
    if MAX_INPUT < size {
        return Ok(MAX_INPUT + 1);
    }
    Ok(size)
}

fn input_buffer() -> [u8; MAX_INPUT + 1] {
    [0; MAX_INPUT + 1]
}

fn output_buffer() -> [u8; OUTPUT_SIZE] {
    [0; OUTPUT_SIZE]
}

// Reads a session of this length; answers how many bytes came.
fn read_session(rt: &impl Input, input: &mut [u8], size: usize) -> io::Result<usize>
    requires { size ≤ length input.old }
    ensures bound { IfOk result (λ n. n ≤ length input.old) }
    ensures same_length { length input.new ≡ length input.old }
{
    console::read_full(rt, &mut input[..size])
}

fn rehearse(rt: &(impl Input + Print), size: usize) -> io::Result<()>
    requires { size ≤ 65537 }
{
    let mut input = input_buffer();
    let n = read_session(rt, &mut input, size)?;
    let mut out = output_buffer();
    let printed = session_text::print(&input[..n], &mut out);
    rt.write_all(&out[..printed.len])
}

fn announce(rt: &impl Print, number: u64) -> io::Result<()> {
    println!(rt; "case {number}")
}

fn main(rt: HostRuntime) -> io::Result<()> {
    for number in 1..155 {
        announce(&rt, number)?;
        rehearse(&rt, next_length(&rt)?)?;
    }
    Ok(())
}
