//! Replays lists of calls on a track and its shelf and prints what each is answered, with the hashes of the bytes that it leaves of
//! both. The expected output is that of the Rust for the track, and of a second writing in Python for the shelf (make_stdout.py).
//!
//! On standard input a list is the number of its calls, in two bytes, and the calls; numbers have their lowest byte first. A call is
//! a byte for its kind and its fields: 0, a report: engine, a record of 288 bytes; 1, a summary: engine, model, spec in two
//! bytes, inputs of 32; 2, a conviction: engine; 3, a listing. Each list begins with a fresh track and a fresh shelf. A list that is
//! cut short, or a call of another kind, ends the work.
#![tactic(auto)]

use errors::{answer_number, value_or_number};
use models::layout::{ENGINE_AT, INPUTS_AT, MODEL_AT, SPEC_AT, SUMMARY_SIZE};
use record::layout::RECORD_SIZE;
use std::io;
use track::reports::reported_number;
use track_memory::layout::TRACK_SIZE;
use track_shelf::layout::SHELF_SIZE;

// More lists than these are not read.
const MAX_LISTS: u32 = 65536;

// The fields of a report; those of a summary are laid out as a track has it.
const REPORT_SIZE: usize = 1 + RECORD_SIZE;

// The least output that a listing is written to, and the greatest number that it is refused with.
const LISTING_SIZE: usize = 16384;

const GREATEST_REFUSAL: u32 = 10;

// An answer, and the hashes of the track and the shelf that the call leaves.
fn show(rt: &impl Print, answer: u32, memory: &[u8], shelf: &[u8]) -> io::Result<()> {
    print!(rt; "answer={answer} hash=")?;
    console::print_hash(rt, hashing::blake2s256(memory))?;
    print!(rt; " shelf=")?;
    console::print_hash(rt, hashing::blake2s256(shelf))?;
    println!(rt;)
}

// A report; false where it is cut short.
fn report(rt: &(impl Input + Print), memory: &mut [u8], shelf: &mut [u8]) -> io::Result<bool> {
    let Some(fields) = console::array::<REPORT_SIZE>(rt)? else {
        return Ok(false);
    };
    let engine = fields[0] as u32;
    let answer = reported_number(track::reports::report(memory, shelf, engine, &fields[1..]));
    show(rt, answer, memory, shelf)?;
    Ok(true)
}

// A summary; false where it is cut short.
fn summary(rt: &(impl Input + Print), memory: &mut [u8], shelf: &mut [u8]) -> io::Result<bool> {
    let Some(fields) = console::array::<SUMMARY_SIZE>(rt)? else {
        return Ok(false);
    };
    let engine = fields[ENGINE_AT] as u32;
    let model = fields[MODEL_AT] as u32;
    let spec = octets::words::u16_at(&fields, SPEC_AT);
    let inputs = &fields[INPUTS_AT..];
    let answer = track::summaries::summary(memory, shelf, engine, model, spec, inputs);
    show(rt, answer_number(answer), memory, shelf)?;
    Ok(true)
}

// A conviction; false where it is cut short.
fn conviction(rt: &(impl Input + Print), memory: &mut [u8], shelf: &mut [u8]) -> io::Result<bool> {
    let Some(fields) = console::array::<1>(rt)? else {
        return Ok(false);
    };
    let answer = track::convictions::conviction(memory, shelf, fields[0] as u32);
    show(rt, answer_number(answer), memory, shelf)?;
    Ok(true)
}

fn output_buffer() -> [u8; LISTING_SIZE] {
    [0; LISTING_SIZE]
}

// A listing, or the number that it is refused with.
fn show_listing(rt: &impl Print, memory: &[u8]) -> io::Result<()> {
    let mut out = output_buffer();
    let answer = value_or_number(track_listing::listing(memory, &mut out));
    if answer <= GREATEST_REFUSAL {
        return println!(rt; "answer={answer}");
    }
    let n = answer as usize;
    rt.write_all(&out[..n])
}

// One call; false where it is cut short, or is of no kind.
fn call(rt: &(impl Input + Print), memory: &mut [u8], shelf: &mut [u8]) -> io::Result<bool> {
    let Some(kind) = console::array::<1>(rt)? else {
        return Ok(false);
    };
    match kind[0] {
        0 => report(rt, memory, shelf),
        1 => summary(rt, memory, shelf),
        2 => conviction(rt, memory, shelf),
        3 => {
            show_listing(rt, memory)?;
            Ok(true)
        }
        _ => Ok(false),
    }
}

fn fresh_track() -> [u8; TRACK_SIZE] {
    [0; TRACK_SIZE]
}

fn fresh_shelf() -> [u8; SHELF_SIZE] {
    [0; SHELF_SIZE]
}

// So many calls on a fresh track and its shelf; false where one is cut short.
fn run(rt: &(impl Input + Print), count: u16) -> io::Result<bool> {
    let mut memory = fresh_track();
    let mut shelf = fresh_shelf();
    for i in 0..count {
        if !call(rt, &mut memory, &mut shelf)? {
            return Ok(false);
        }
    }
    Ok(true)
}

// One list; false at the end of the input, and where the list is cut short.
fn replay(rt: &(impl Input + Print)) -> io::Result<bool> {
    let Some(head) = console::array(rt)? else {
        return Ok(false);
    };
    if !run(rt, u16::from_le_bytes(head))? {
        return Ok(false);
    }
    println!(rt;)?;
    Ok(true)
}

fn main(rt: HostRuntime) -> io::Result<()> {
    for i in 0..MAX_LISTS {
        if !replay(&rt)? {
            return Ok(());
        }
    }
    Ok(())
}
