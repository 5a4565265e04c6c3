//! Compares rooms that are read by twos, each as its length in two bytes and its bytes, and prints what is said of each pair; or, of the
//! first of the two that is refused, that it is no register, or a session that is refused. The expected output is the second writing's
//! (make_stdout.py).
//!
//! A room that is cut short ends the work.
#![tactic(auto)]

ghost use Rattle.std.specs.Prelude.{◌≡◌, true};
ghost use Rattle.register.specs.Memory.{well_formed};

use register::layout::REGISTER_SIZE;
use rooms_text::Refusal;
use std::io;

// More pairs than these are not read.
const MAX_PAIRS: u32 = 65536;

fn register_buffer() -> [u8; REGISTER_SIZE] {
    [0; REGISTER_SIZE]
}

fn show_refusal(rt: &impl Print, refusal: Refusal) -> io::Result<()> {
    match refusal {
        Refusal::NoRegister => println!(rt; "no register"),
        Refusal::Session(_) => println!(rt; "a refused session"),
    }
}

fn show_both(
    rt: &(impl Print + AllocGlobal),
    first: &[u8; REGISTER_SIZE],
    second: &[u8; REGISTER_SIZE],
) -> io::Result<()>
    requires one { well_formed first.now ≡ true }
    requires two { well_formed second.now ≡ true }
{
    let compared = rooms_text::compare(rt.alloc(), first, second)?;
    rt.write_all(compared.text.as_slice())?;
    let equal = compared.equal;
    println!(rt; "{equal}")
}

fn show_with(
    rt: &(impl Print + AllocGlobal),
    first: &[u8; REGISTER_SIZE],
    input: &[u8],
) -> io::Result<()>
    requires { well_formed first.now ≡ true }
{
    let mut second = register_buffer();
    match rooms_text::read(input, &mut second) {
        Ok(()) => show_both(rt, first, &second),
        Err(refusal) => show_refusal(rt, refusal),
    }
}

fn show_pair(rt: &(impl Print + AllocGlobal), one: &[u8], two: &[u8]) -> io::Result<()> {
    let mut first = register_buffer();
    match rooms_text::read(one, &mut first) {
        Ok(()) => show_with(rt, &first, two),
        Err(refusal) => show_refusal(rt, refusal),
    }
}

// Reads two rooms and shows what is said of them; false at the end of the input.
fn step(rt: &(impl Input + Print + AllocGlobal)) -> io::Result<bool> {
    let mut first = console::large_buffer();
    let mut second = console::large_buffer();
    let Some(one) = console::counted(rt, &mut first)? else {
        return Ok(false);
    };
    let Some(two) = console::counted(rt, &mut second)? else {
        return Ok(false);
    };
    show_pair(rt, one, two)?;
    Ok(true)
}

fn main(rt: HostRuntime) -> io::Result<()> {
    for _ in 0..MAX_PAIRS {
        if !step(&rt)? {
            return Ok(());
        }
    }
    Ok(())
}
