//! Prints, of cases read from standard input, what they are answered when a record is made of them, and what the record is known by. The
//! input is a register, and then one case after another: the parts that a record is to say, each in room for more than a record has. A
//! line has the answer and the hash of what was written, what the register answers of its model inputs, with their bytes, its identity of
//! those, and what is at fault with it where a byte is turned, for each byte in turn. make_stdout.py works out the same with another BLAKE2s.
#![tactic(auto)]

ghost use Rattle.std.specs.Prelude.{◌+◌, ◌*◌, ◌≤◌};

use errors::answer_number;
use octets::words::{i32_at, u16_at, u32_at, u64_at};
use record::layout::{COVARIANCE_NUMBERS, RECORD_SIZE};
use record_values::faults::{first_fault, found_number};
use record_values::known::{identity, inputs, known_number};
use record_values::written::{Said, write};
use register::layout::REGISTER_SIZE;
use std::io;

// Room for a message, for tags and for models, each after a byte that says how many there are.
const MESSAGE_ROOM: usize = 20;

const TAGS_ROOM: usize = 30;

const MODELS_ROOM: usize = 8;

const LAT_AT: usize = 8;

const LON_AT: usize = 12;

const HEIGHT_FLAG_AT: usize = 16;

const HEIGHT_AT: usize = 17;

const MESSAGE_LENGTH_AT: usize = 21;

const MESSAGE_AT: usize = 22;

const TAG_COUNT_AT: usize = MESSAGE_AT + MESSAGE_ROOM;

const TAGS_AT: usize = TAG_COUNT_AT + 1;

const USED_AT: usize = TAGS_AT + 8 * TAGS_ROOM;

const MODEL_COUNT_AT: usize = USED_AT + 4;

const MODELS_AT: usize = MODEL_COUNT_AT + 1;

const SPEC_AT: usize = MODELS_AT + MODELS_ROOM;

const COVARIANCE_AT: usize = SPEC_AT + 2;

const CASE_SIZE: usize = COVARIANCE_AT + 8 * COVARIANCE_NUMBERS;

// More cases than these are not read.
const MAX_CASES: u32 = 10_000;

// N numbers of 8 bytes each, from a place on.
fn words<const N: usize>(case: &[u8; CASE_SIZE], at: usize) -> [u64; N]
    requires { at + 8 * N ≤ CASE_SIZE }
{
    let mut words = [0; N];
    for i in 0..N {
        words[i] = u64_at(case, at + 8 * i);
    }
    words
}

fn show_hash(rt: &impl Print, name: &str, hash: [u8; 32]) -> io::Result<()> {
    print!(rt; " {name}=")?;
    console::print_hash(rt, hash)
}

// What a record is known by, in a register.
fn show_known(rt: &impl Print, memory: &[u8], record: &[u8]) -> io::Result<()> {
    let mut known = [0; 32];
    let answer = known_number(inputs(memory, record, &mut known));
    print!(rt; " answer={answer}")?;
    show_hash(rt, "inputs", known)?;
    let mut own = [0; 32];
    let answer = answer_number(identity(record, &known, &mut own));
    print!(rt; " answer={answer}")?;
    show_hash(rt, "identity", own)
}

// What is at fault with a record of which a byte is turned, for each byte in turn: a letter, `a` where it is a record still.
fn show_faults(rt: &impl Print, record: &[u8; RECORD_SIZE]) -> io::Result<()> {
    print!(rt; " fault={} turned=", found_number(first_fault(record)))?;
    for i in 0..RECORD_SIZE {
        let mut turned = *record;
        turned[i] = !turned[i];
        let letter = b'a' + found_number(first_fault(&turned)) as u8;
        rt.write_all(&[letter])?;
    }
    Ok(())
}

// The record that is made of a case, and what it is known by.
fn show(rt: &impl Print, memory: &[u8], said: &Said) -> io::Result<()> {
    let mut record = [0; RECORD_SIZE];
    let answer = answer_number(write(said, &mut record));
    print!(rt; "answer={answer}")?;
    show_hash(rt, "record", hashing::blake2s256(&record))?;
    show_known(rt, memory, &record)?;
    show_faults(rt, &record)?;
    println!(rt;)
}

// A line for a case; none where a count is above its room.
fn run(rt: &impl Print, memory: &[u8], case: &[u8; CASE_SIZE]) -> io::Result<()> {
    let tags = words::<TAGS_ROOM>(case, TAGS_AT);
    let covariance = words::<COVARIANCE_NUMBERS>(case, COVARIANCE_AT);
    let room = &case[MESSAGE_AT..TAG_COUNT_AT];
    let Some(message) = room.get(..case[MESSAGE_LENGTH_AT] as usize) else {
        return Ok(());
    };
    let Some(tags) = tags.get(..case[TAG_COUNT_AT] as usize) else {
        return Ok(());
    };
    let room = &case[MODELS_AT..SPEC_AT];
    let Some(models) = room.get(..case[MODEL_COUNT_AT] as usize) else {
        return Ok(());
    };
    let said = Said {
        time: u64_at(case, 0),
        latitude: i32_at(case, LAT_AT),
        longitude: i32_at(case, LON_AT),
        height: (case[HEIGHT_FLAG_AT] == 1).then_some(i32_at(case, HEIGHT_AT)),
        message,
        tags,
        used: u32_at(case, USED_AT),
        models,
        spec: u16_at(case, SPEC_AT),
        covariance: &covariance,
    };
    show(rt, memory, &said)
}

fn main(rt: HostRuntime) -> io::Result<()> {
    let Some(memory) = console::array::<REGISTER_SIZE>(&rt)? else {
        return Ok(());
    };
    for i in 0..MAX_CASES {
        let Some(case) = console::array::<CASE_SIZE>(&rt)? else {
            return Ok(());
        };
        run(&rt, &memory, &case)?;
    }
    Ok(())
}
