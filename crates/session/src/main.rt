//! A session: its bytes, from a file or from standard input, to standard output, and what is said of it to standard error. One byte more
//! than is read is enough to know that there are more.
#![tactic(auto)]

use session_arguments::{Instead, name_of};
use session_text::{MAX_INPUT, OUTPUT_SIZE};
use std::io;
use std::process::ExitCode;
use std::rt::{Env, Files};

const HELP: &str = "usage: session [--strict] [FILE]

Reads a session from FILE, or from standard input where FILE is - or is left out, and prints the
answer of each operation and then the board; what a session is, docs/REFERENCE.md says.

  --strict    end with status 4 where an operation is not answered 0
  --help      print this
  --version   print the version of the library

Standard error has a line for each operation that is not answered 0, or says why the session is refused.

Status: 0 done; 1 the session is refused; 2 a wrong call; 3 a file cannot be read, or the output not
be written; 4 with --strict, an operation is not answered 0.
";

// A wrong call.
const WRONG_CALL: u8 = 2;

// An error of the system.
const FAILED: u8 = 3;

fn input_buffer() -> [u8; MAX_INPUT + 1] {
    [0; MAX_INPUT + 1]
}

fn output_buffer() -> [u8; OUTPUT_SIZE] {
    [0; OUTPUT_SIZE]
}

// Prints what a session prints and says what there is to say of it; answers the exit status.
fn conduct(
    rt: &(impl Print + AllocGlobal),
    errors: &impl Print,
    input: &[u8],
    strict: bool,
) -> io::Result<u8> {
    let mut out = output_buffer();
    let printed = session_text::print(input, &mut out);
    rt.write_all(&out[..printed.len])?;
    let told = session_notices::told(rt.alloc(), input, printed.refused)?;
    errors.write_all(told.text.as_slice())?;
    Ok(told.ending.status(strict))
}

// The session that a file holds, or standard input.
fn session(
    rt: &(impl Files + Input + Print + AllocGlobal),
    errors: &impl Print,
    name: &str,
    strict: bool,
) -> io::Result<u8> {
    let mut input = input_buffer();
    match console::read_from(rt, name, &mut input) {
        Ok(n) => conduct(rt, errors, &input[..n], strict),
        Err(error) => {
            println!(errors; "session: {name}: {error}")?;
            Ok(FAILED)
        }
    }
}

fn refuse(errors: &impl Print, words: &[String], index: usize) -> io::Result<u8> {
    if let Some(word) = words.get(index) {
        println!(errors;
            "session: {word}: no option, or one file too many; --help says how it is called"
        )?;
    }
    Ok(WRONG_CALL)
}

// Does what the words ask for; answers the exit status.
fn answer(
    rt: &(impl Env + Files + Input + Print + AllocGlobal),
    errors: &impl Print,
) -> io::Result<u8> {
    let words = console::words(rt)?;
    match session_arguments::asked(&words) {
        Ok(wish) => session(rt, errors, name_of(wish, &words), wish.strict),
        Err(Instead::Help) => {
            rt.write_all(HELP.as_bytes())?;
            Ok(0)
        }
        Err(Instead::Version) => {
            rt.write_all(toastlagoon_names::version_text())?;
            rt.write_all(b"\n")?;
            Ok(0)
        }
        Err(Instead::Wrong(index)) => refuse(errors, &words, index),
    }
}

fn main(rt: HostRuntime) -> ExitCode {
    match answer(&rt, &rt.stderr()) {
        Ok(status) => ExitCode::from(status),
        Err(error) => {
            let _ = eprintln!(rt; "session: {error}");
            ExitCode::from(FAILED)
        }
    }
}
