//! Prints BLAKE2s-256 digests in hex, a line each: of 'abc', of the empty input, of the bytes i mod
//! 251 for every length from 0 to 260, and of 1,000 and 4,096 of them. What it must write was made
//! by another implementation (make_stdout.py).
#![tactic(auto)]

ghost use Rattle.std.specs.Prelude.{◌≡◌, ◌≤◌, length};

use std::io;

fn print_digest(rt: &impl Print, input: &[u8]) -> io::Result<()> {
    console::print_hash(rt, hashing::blake2s256(input))?;
    println!(rt;)
}

fn fill(s: &mut [u8])
    ensures { length s.new ≡ length s.old }
{
    for i in 0..s.len() {
        s[i] = (i % 251) as u8;
    }
}

fn print_lengths(rt: &impl Print, s: &[u8]) -> io::Result<()>
    requires { 4096 ≤ length s.now }
{
    for n in 0..261 {
        print_digest(rt, &s[..n])?;
    }
    print_digest(rt, &s[..1000])?;
    print_digest(rt, &s[..4096])
}

fn main(rt: HostRuntime) -> io::Result<()> {
    print_digest(&rt, b"abc")?;
    print_digest(&rt, b"")?;
    let mut s = console::buffer();
    fill(&mut s);
    print_lengths(&rt, &s)
}
