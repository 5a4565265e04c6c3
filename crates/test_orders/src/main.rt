//! Makes the calls of sessions in random orders, and prints what came out of each; or that a session is refused. The expected output is the
//! second writing's (make_stdout.py).
//!
//! On standard input a session is how many orders in four bytes, the seed in eight, its length in two, and its bytes; numbers have their
//! lowest byte first. One that is cut short ends the work.
#![tactic(auto)]

use std::io;

// More sessions than these are not read.
const MAX_SESSIONS: u32 = 65536;

const HEAD_SIZE: usize = 12;

const SEED_AT: usize = 4;

fn show(rt: &(impl Print + AllocGlobal), input: &[u8], count: u32, seed: u64) -> io::Result<()> {
    let mut calls = rooms_orders::calls_of(rt.alloc(), input)?;
    let outcome = rooms_orders::try_orders(rt.alloc(), calls.as_mut_slice(), count, seed)?;
    let boards = outcome.boards;
    let listings = outcome.listings;
    let full = outcome.full;
    println!(rt; "seed={seed}")?;
    println!(rt; "orders={count}")?;
    println!(rt; "boards={boards}")?;
    println!(rt; "listings={listings}")?;
    println!(rt; "full={full}")
}

// Reads a session and shows what comes out of it; false at the end of the input.
fn step(rt: &(impl Input + Print + AllocGlobal)) -> io::Result<bool> {
    let Some(head) = console::array::<HEAD_SIZE>(rt)? else {
        return Ok(false);
    };
    let mut buffer = console::large_buffer();
    let Some(input) = console::counted(rt, &mut buffer)? else {
        return Ok(false);
    };
    let count = octets::words::u32_at(&head, 0);
    let seed = octets::words::u64_at(&head, SEED_AT);
    show(rt, input, count, seed)?;
    Ok(true)
}

fn main(rt: HostRuntime) -> io::Result<()> {
    for _ in 0..MAX_SESSIONS {
        if !step(&rt)? {
            return Ok(());
        }
    }
    Ok(())
}
