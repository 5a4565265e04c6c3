//! Prints, of cases read from standard input, what is known of a record among summaries. A case is a
//! number of summaries in two bytes, lowest first, a record, and so many summaries. A line has the
//! states of the models 0 to 4, each as its number and, where it is agreed, the place of its first
//! summary; whether the record counts; whether it cites a model that is missing; its model inputs, set
//! hash and identity, or `none` for inputs and identity where it does not count. make_stdout.py works
//! out the same with another BLAKE2s.
#![tactic(auto)]

use models::citations::{cited_inputs, first_missing};
use models::hashes::Inputs;
use models::identities;
use models::layout::SUMMARY_SIZE;
use models::states::ModelState;
use models::summaries::Summaries;
use record::Record;
use record::layout::RECORD_SIZE;
use std::io;

// A model's state: 6 without a summary, and 7 where it is disputed, as a track refuses what cites it; 0 where it is agreed, with the place
// of its first summary.
fn show_state(rt: &impl Print, state: ModelState) -> io::Result<()> {
    match state {
        ModelState::Missing => print!(rt; " 6"),
        ModelState::Disputed => print!(rt; " 7"),
        ModelState::Agreed { place, .. } => print!(rt; " 0@{place}"),
    }
}

fn show_states(rt: &impl Print, all: Summaries) -> io::Result<()> {
    for model in 0..5 {
        show_state(rt, models::states::state(all, model))?;
    }
    Ok(())
}

fn show_hash(rt: &impl Print, hash: [u8; 32]) -> io::Result<()> {
    print!(rt; " ")?;
    console::print_hash(rt, hash)
}

// What a record that counts is known by: its model inputs, set hash and identity.
fn show_counted(rt: &impl Print, inputs: Inputs, r: Record) -> io::Result<()> {
    let set = identities::set_hash(r);
    let identity = identities::identity(&set, &inputs);
    print!(rt; " counts yes missing no")?;
    show_hash(rt, inputs.0)?;
    show_hash(rt, set.0)?;
    show_hash(rt, identity.0)
}

// What is known of a record that does not count: neither its model inputs nor its identity are defined.
fn show_uncounted(rt: &impl Print, waits: bool, r: Record) -> io::Result<()> {
    let missing = yes_or_no(waits);
    print!(rt; " counts no missing {missing} none")?;
    show_hash(rt, identities::set_hash(r).0)?;
    print!(rt; " none")
}

fn yes_or_no(b: bool) -> &'static str {
    if b { "yes" } else { "no" }
}

// What is known of a record among summaries.
fn show_record(rt: &impl Print, all: Summaries, r: Record) -> io::Result<()> {
    print!(rt; "states")?;
    show_states(rt, all)?;
    match cited_inputs(all, r) {
        Some(inputs) => show_counted(rt, inputs, r)?,
        None => show_uncounted(rt, first_missing(all, r).is_some(), r)?,
    }
    println!(rt;)
}

// A line for a case.
fn run(rt: &impl Print, all: Summaries, bytes: &[u8]) -> io::Result<()> {
    match Record::parse(bytes) {
        Some(r) => show_record(rt, all, r),
        None => println!(rt; "malformed"),
    }
}

// Reads a case and runs it; false at the end of the input.
fn step(rt: &(impl Input + Print), buffer: &mut [u8]) -> io::Result<bool> {
    let Some(head) = console::array(rt)? else {
        return Ok(false);
    };
    let count = u16::from_le_bytes(head) as usize;
    let Some(case) = console::part(rt, buffer, RECORD_SIZE + count * SUMMARY_SIZE)? else {
        return Ok(false);
    };
    let (record, table) = case.split_at(RECORD_SIZE);
    run(rt, Summaries { table, count }, record)?;
    Ok(true)
}

fn main(rt: HostRuntime) -> io::Result<()> {
    let mut buffer = console::large_buffer();
    for i in 0..1000 {
        if !step(&rt, &mut buffer)? {
            return Ok(());
        }
    }
    Ok(())
}
