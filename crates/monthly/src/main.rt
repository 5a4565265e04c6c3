//! The monthly numbers of a register: its bytes, from a file or from standard input, to a line for each engine on standard output. One byte
//! more than a register has is enough to know that there are more.
#![tactic(auto)]

use monthly_numbers::TEXT_SIZE;
use register::layout::REGISTER_SIZE;
use session_arguments::{Instead, name_of};
use std::io;
use std::process::ExitCode;
use std::rt::{Env, Files};

const HELP: &str = "usage: monthly [FILE]

Reads the bytes of a register from FILE, or from standard input where FILE is - or is left out, and
prints for each engine, 0 to 31, how many held records it signed and what became of them; what the
numbers are, docs/REFERENCE.md says.

  --help      print this
  --version   print the version of the library

Where the bytes are no register, refused=1 is printed, and standard error says how many they are.

Status: 0 done; 1 the bytes are no register; 2 a wrong call; 3 a file cannot be read, or the output
not be written.
";

// The bytes are no register.
const REFUSED: u8 = 1;

// A wrong call.
const WRONG_CALL: u8 = 2;

// An error of the system.
const FAILED: u8 = 3;

fn input_buffer() -> [u8; REGISTER_SIZE + 1] {
    [0; REGISTER_SIZE + 1]
}

fn output_buffer() -> [u8; TEXT_SIZE] {
    [0; TEXT_SIZE]
}

// Says why the bytes of this file are no register.
fn explain(errors: &impl Print, name: &str, len: usize) -> io::Result<()> {
    if len > REGISTER_SIZE {
        println!(errors; "monthly: {name}: more than {REGISTER_SIZE} bytes, which a register has")
    } else if len < REGISTER_SIZE {
        println!(errors; "monthly: {name}: {len} bytes, and a register has {REGISTER_SIZE}")
    } else {
        println!(errors; "monthly: {name}: {len} bytes that are no register")
    }
}

// Prints what is printed of the bytes of this file; answers the exit status.
fn conduct(rt: &impl Print, errors: &impl Print, name: &str, input: &[u8]) -> io::Result<u8> {
    let mut out = output_buffer();
    let printed = monthly_numbers::print(input, &mut out);
    rt.write_all(&out[..printed.len])?;
    if printed.refused {
        explain(errors, name, input.len())?;
        return Ok(REFUSED);
    }
    Ok(0)
}

// The numbers of the register that a file holds, or standard input.
fn numbers(rt: &(impl Files + Input + Print), errors: &impl Print, name: &str) -> io::Result<u8> {
    let mut input = input_buffer();
    match console::read_from(rt, name, &mut input) {
        Ok(n) => conduct(rt, errors, name, &input[..n]),
        Err(error) => {
            println!(errors; "monthly: {name}: {error}")?;
            Ok(FAILED)
        }
    }
}

fn refuse(errors: &impl Print, word: &str) -> io::Result<u8> {
    println!(errors;
        "monthly: {word}: no option, or one file too many; --help says how it is called"
    )?;
    Ok(WRONG_CALL)
}

fn refuse_at(errors: &impl Print, words: &[String], index: usize) -> io::Result<u8> {
    match words.get(index) {
        Some(word) => refuse(errors, word),
        None => Ok(WRONG_CALL),
    }
}

// Does what the words ask for; answers the exit status. A session may be strict, and nothing else.
fn answer(
    rt: &(impl Env + Files + Input + Print + AllocGlobal),
    errors: &impl Print,
) -> io::Result<u8> {
    let words = console::words(rt)?;
    match session_arguments::asked(&words) {
        Ok(wish) if wish.strict => refuse(errors, "--strict"),
        Ok(wish) => numbers(rt, errors, name_of(wish, &words)),
        Err(Instead::Help) => {
            rt.write_all(HELP.as_bytes())?;
            Ok(0)
        }
        Err(Instead::Version) => {
            rt.write_all(toastlagoon_names::version_text())?;
            rt.write_all(b"\n")?;
            Ok(0)
        }
        Err(Instead::Wrong(index)) => refuse_at(errors, &words, index),
    }
}

fn main(rt: HostRuntime) -> ExitCode {
    match answer(&rt, &rt.stderr()) {
        Ok(status) => ExitCode::from(status),
        Err(error) => {
            let _ = eprintln!(rt; "monthly: {error}");
            ExitCode::from(FAILED)
        }
    }
}
