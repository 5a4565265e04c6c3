//! Two rooms: the registers of two files, and what is said of them to standard output: what each lacks, and how their boards differ. One
//! byte more than is read is enough to know that there are more.
#![tactic(auto)]

ghost use Rattle.std.specs.Prelude.{◌≡◌, true, OnOk};
ghost use Rattle.register.specs.Memory.{well_formed};

use console::arguments::word_at;
use errors::Error;
use register::layout::REGISTER_SIZE;
use rooms_arguments::{Instead, Orders, Wish};
use rooms_orders::DEFAULT_SEED;
use rooms_text::Refusal;
use session_text::MAX_INPUT;
use std::alloc::AllocError;
use std::process::ExitCode;
use std::rt::{Env, Files};
use std::{fs, io};

const HELP: &str = "usage: rooms [--join FILE] A B
       rooms --orders N [--seed S] FILE

Reads a room from each of the files A and B, a saved register or a session, and prints what the room
A lacks that the room B holds, what B lacks that A holds, whether their registers are equal but for
the convicted set, whether their boards are, and the lines in which these differ; what is printed,
docs/REFERENCE.md says. A file of 37256 bytes is a saved register, any other a session; - is standard
input.

With --orders it reads one session from FILE, and makes its calls in N random orders, 1 to 4294967295,
each on a fresh register and on a fresh track with its shelf. It prints the seed and N, how many
different boards and how many different listings of the track came out, and in how many orders the
register refused a call as full; where that is 0, one board comes out.

  --seed S      the orders follow from S, 0 to 18446744073709551615; without it S is 1
  --join FILE   write the register that holds what both hold to FILE
  --help        print this
  --version     print the version of the library

Standard error names the operations of a session that are not answered 0, and says why a file is
refused, or why there is no joined register.

Status: 0 the registers are equal but for the convicted set, or one board came out; 1 they are not, or
more boards came out; 2 a wrong call, a file that is refused, or a joined register that would not have
room; 3 a file cannot be read or written, or the output not be written.
";

// The registers are not equal, or more than one board came out.
const NOT_EQUAL: u8 = 1;

// A wrong call, or what is refused.
const REFUSED: u8 = 2;

// An error of the system.
const FAILED: u8 = 3;

// Why the program ends before all is done.
#[derive(Drop)]
enum Stop {
    // Standard error says why already; the program ends with this status.
    Said(u8),
    System(io::Error),
}

impl From<io::Error> for Stop {
    fn from(error: io::Error) -> Stop {
        Stop::System(error)
    }
}

impl From<AllocError> for Stop {
    fn from(error: AllocError) -> Stop {
        Stop::System(io::Error::from(error))
    }
}

fn input_buffer() -> [u8; MAX_INPUT + 1] {
    [0; MAX_INPUT + 1]
}

fn register_buffer() -> [u8; REGISTER_SIZE] {
    [0; REGISTER_SIZE]
}

// Says of a session which of its operations are not answered 0, or why it is refused.
fn tell(
    rt: &impl AllocGlobal,
    errors: &impl Print,
    name: &str,
    input: &[u8],
    refused: Option<session_text::Refusal>,
) -> Result<(), Stop> {
    let told = session_notices::told(rt.alloc(), input, refused)?;
    if !told.text.is_empty() {
        println!(errors; "rooms: {name}:")?;
        errors.write_all(told.text.as_slice())?;
    }
    Ok(())
}

// Reads the register of a file's bytes, and says what there is to say of it.
fn take(
    rt: &impl AllocGlobal,
    errors: &impl Print,
    name: &str,
    input: &[u8],
    memory: &mut [u8; REGISTER_SIZE],
) -> Result<(), Stop>
    ensures { OnOk result (well_formed memory.new ≡ true) }
{
    match rooms_text::read(input, memory) {
        Ok(()) => {
            if input.len() != REGISTER_SIZE {
                tell(rt, errors, name, input, None)?;
            }
            Ok(())
        }
        Err(Refusal::NoRegister) => {
            println!(errors; "rooms: {name}: {REGISTER_SIZE} bytes that are no register")?;
            Err(Stop::Said(REFUSED))
        }
        Err(Refusal::Session(refusal)) => {
            tell(rt, errors, name, input, Some(refusal))?;
            Err(Stop::Said(REFUSED))
        }
    }
}

// Says which file an error of the system is about.
fn fail(errors: &impl Print, name: &str, error: io::Error) -> Stop {
    match println!(errors; "rooms: {name}: {error}") {
        Ok(()) => Stop::Said(FAILED),
        Err(error) => Stop::System(error),
    }
}

// The register that a file holds.
fn load(
    rt: &(impl Files + Input + AllocGlobal),
    errors: &impl Print,
    name: &str,
    memory: &mut [u8; REGISTER_SIZE],
) -> Result<(), Stop>
    ensures { OnOk result (well_formed memory.new ≡ true) }
{
    let mut input = input_buffer();
    match console::read_from(rt, name, &mut input) {
        Ok(n) => take(rt, errors, name, &input[..n], memory),
        Err(error) => Err(fail(errors, name, error)),
    }
}

// Writes what both hold to a file.
fn join(
    rt: &impl Files,
    errors: &impl Print,
    name: &str,
    memory: &mut [u8; REGISTER_SIZE],
    other: &[u8; REGISTER_SIZE],
) -> Result<(), Stop> {
    if register_join::join(memory, other).is_err() {
        println!(errors;
            "rooms: {name}: not written, for both together have no room: more than 96 records or 256 summaries"
        )?;
        return Err(Stop::Said(REFUSED));
    }
    match fs::write(rt, name, memory.as_slice()) {
        Ok(()) => Ok(()),
        Err(error) => Err(fail(errors, name, error)),
    }
}

// Compares the rooms that a wish names; answers the exit status.
fn compare(
    rt: &(impl Files + Input + Print + AllocGlobal),
    errors: &impl Print,
    words: &[String],
    wish: Wish,
) -> Result<u8, Stop> {
    let mut first = register_buffer();
    let mut second = register_buffer();
    load(rt, errors, word_at(words, wish.first), &mut first)?;
    load(rt, errors, word_at(words, wish.second), &mut second)?;
    let compared = rooms_text::compare(rt.alloc(), &first, &second)?;
    rt.write_all(compared.text.as_slice())?;
    if let Some(index) = wish.joined {
        join(rt, errors, word_at(words, index), &mut first, &second)?;
    }
    Ok(if compared.equal { 0 } else { NOT_EQUAL })
}

// Makes the calls of a session in random orders, and prints what came out; answers the exit status.
fn try_calls(
    rt: &(impl Print + AllocGlobal),
    input: &[u8],
    count: u32,
    seed: u64,
) -> Result<u8, Stop> {
    let mut calls = rooms_orders::calls_of(rt.alloc(), input)?;
    let outcome = rooms_orders::try_orders(rt.alloc(), calls.as_mut_slice(), count, seed)?;
    let boards = outcome.boards;
    let listings = outcome.listings;
    let full = outcome.full;
    println!(rt; "seed={seed}")?;
    println!(rt; "orders={count}")?;
    println!(rt; "boards={boards}")?;
    println!(rt; "listings={listings}")?;
    println!(rt; "full={full}")?;
    Ok(if outcome.boards == 1 { 0 } else { NOT_EQUAL })
}

// The same of the session in a file.
fn try_file(
    rt: &(impl Files + Input + Print + AllocGlobal),
    errors: &impl Print,
    name: &str,
    count: u32,
    seed: u64,
) -> Result<u8, Stop> {
    let mut input = input_buffer();
    let n = match console::read_from(rt, name, &mut input) {
        Ok(n) => n,
        Err(error) => return Err(fail(errors, name, error)),
    };
    match session_text::check(&input[..n]) {
        Ok(()) => {
            tell(rt, errors, name, &input[..n], None)?;
            try_calls(rt, &input[..n], count, seed)
        }
        Err(refusal) => {
            tell(rt, errors, name, &input[..n], Some(refusal))?;
            Ok(REFUSED)
        }
    }
}

// Tries a session in random orders, as a wish says; answers the exit status.
fn try_orders(
    rt: &(impl Files + Input + Print + AllocGlobal),
    errors: &impl Print,
    words: &[String],
    wish: Orders,
) -> Result<u8, Stop> {
    let count = match word_at(words, wish.count).parse::<u32>() {
        Ok(count) if count != 0 => count,
        _ => return refuse_number(errors, word_at(words, wish.count)),
    };
    let seed = match wish.seed {
        None => DEFAULT_SEED,
        Some(index) => match word_at(words, index).parse::<u64>() {
            Ok(seed) => seed,
            Err(_) => return refuse_number(errors, word_at(words, index)),
        },
    };
    try_file(rt, errors, word_at(words, wish.session), count, seed)
}

fn refuse_number(errors: &impl Print, word: &str) -> Result<u8, Stop> {
    println!(errors;
        "rooms: {word}: no number of orders, or no seed; --help says how it is called"
    )?;
    Ok(REFUSED)
}

fn refuse(errors: &impl Print, word: &str) -> Result<u8, Stop> {
    if word == "--orders" {
        println!(errors;
            "rooms: behind --orders come a number, --seed and a seed or neither, and one file; --help says more"
        )?;
        return Ok(REFUSED);
    }
    println!(errors;
        "rooms: {word}: no option, or one file too many; --help says how it is called"
    )?;
    Ok(REFUSED)
}

// Does what the words ask for; answers the exit status.
fn answer(
    rt: &(impl Env + Files + Input + Print + AllocGlobal),
    errors: &impl Print,
) -> Result<u8, Stop> {
    let words = console::words(rt)?;
    if let Some(wish) = rooms_arguments::orders_asked(&words) {
        return try_orders(rt, errors, &words, wish);
    }
    match rooms_arguments::asked(&words) {
        Ok(wish) => compare(rt, errors, &words, wish),
        Err(Instead::Help) => {
            rt.write_all(HELP.as_bytes())?;
            Ok(0)
        }
        Err(Instead::Version) => {
            rt.write_all(toastlagoon_names::version_text())?;
            rt.write_all(b"\n")?;
            Ok(0)
        }
        Err(Instead::Wrong(index)) => refuse(errors, word_at(&words, index)),
        Err(Instead::Missing) => {
            println!(errors; "rooms: a file is missing; --help says how it is called")?;
            Ok(REFUSED)
        }
    }
}

fn main(rt: HostRuntime) -> ExitCode {
    let errors = rt.stderr();
    match answer(&rt, &errors) {
        Ok(status) => ExitCode::from(status),
        Err(Stop::Said(status)) => ExitCode::from(status),
        Err(Stop::System(error)) => {
            let _ = eprintln!(rt; "rooms: {error}");
            ExitCode::from(FAILED)
        }
    }
}
