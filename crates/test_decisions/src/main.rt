//! Decides lists of items read from standard input, each as its length in two bytes, lowest first, and its bytes, and prints what
//! is decided, in the order given and in ascending identity. Then, of the first two records of each list, the verdict. make_stdout.py writes the lists and works out the same
//! from the rules and the Rust's text.
#![tactic(auto)]

use arithmetic::standing::ChiSquare;
use decision::{Decision, Items, Refusal};
use decision_items::layout::{INPUTS_AT, ITEM_SIZE, MAX_ITEMS};
use decision_superset::{Comparison, SupersetVerdict};
use std::io;

fn show(rt: &impl Print, n: u64) -> io::Result<()> {
    print!(rt; " {n}")
}

fn show_bits(rt: &impl Print, x: f64) -> io::Result<()> {
    let bits = floats::to_bits(x);
    print!(rt; " {bits:016x}")
}

// Where nothing was measured there is no number.
fn show_chi_square(rt: &impl Print, c: ChiSquare) -> io::Result<()> {
    match c {
        ChiSquare::Measured(x) => show_bits(rt, x),
        ChiSquare::Unmeasured => print!(rt; " none"),
    }
}

fn show_places(rt: &impl Print, list: &[u8]) -> io::Result<()> {
    for place in list {
        show(rt, *place as u64)?;
    }
    Ok(())
}

fn show_refusal(rt: &impl Print, r: Refusal) -> io::Result<()> {
    if r.superseded {
        print!(rt; " superseded")?;
    } else {
        print!(rt; " contested")?;
    }
    show(rt, r.refused as u64)?;
    show(rt, r.kept as u64)?;
    let chi2 = r.chi2;
    show_chi_square(rt, chi2)
}

fn show_refusals(rt: &impl Print, list: &[Refusal]) -> io::Result<()> {
    for refusal in list {
        show_refusal(rt, *refusal)?;
    }
    Ok(())
}

fn show_lists(
    rt: &impl Print,
    answer: u32,
    ranked: &[u8],
    dominated: &[u8],
    refusals: &[Refusal],
) -> io::Result<()> {
    print!(rt; "answer {answer} ranked")?;
    show_places(rt, ranked)?;
    print!(rt; " dominated")?;
    show_places(rt, dominated)?;
    print!(rt; " refused")?;
    show_refusals(rt, refusals)?;
    println!(rt;)
}

fn show_decision(rt: &impl Print, d: &Decision<MAX_ITEMS>) -> io::Result<()> {
    show_lists(rt, 0, &d.ranked, &d.dominated, &d.refusals)
}

// What is decided of items, in the order given and in ascending identity.
fn show_decisions(rt: &impl Print, s: &[u8]) -> io::Result<()> {
    let (Some(items), Some(mut d)) = (Items::parse(s), decision::decide(s)) else {
        show_lists(rt, 8, &[], &[], &[])?;
        return show_lists(rt, 8, &[], &[], &[]);
    };
    show_decision(rt, &d)?;
    d.sort_by_identity(&items);
    show_decision(rt, &d)
}

fn show_tags(rt: &impl Print, tags: &[u64]) -> io::Result<()> {
    for tag in tags {
        show(rt, *tag)?;
    }
    Ok(())
}

fn show_verdict(rt: &impl Print, v: SupersetVerdict) -> io::Result<()> {
    match v {
        SupersetVerdict::Malformed => print!(rt; "malformed"),
        SupersetVerdict::Agrees => print!(rt; "agrees"),
        SupersetVerdict::Contested(chi2) => show_contested(rt, chi2),
    }
}

fn show_contested(rt: &impl Print, chi2: ChiSquare) -> io::Result<()> {
    print!(rt; "contested")?;
    show_chi_square(rt, chi2)
}

fn show_comparison(rt: &impl Print, comparison: Comparison) -> io::Result<()> {
    show_verdict(rt, comparison.verdict)?;
    print!(rt; " added")?;
    show_tags(rt, &comparison.added)?;
    println!(rt;)
}

// The bytes of a list of items, and of the records of its first two.
fn run(rt: &impl Print, s: &[u8]) -> io::Result<()> {
    show_decisions(rt, s)?;
    let verdict = match (s.get(..INPUTS_AT), s.get(ITEM_SIZE..ITEM_SIZE + INPUTS_AT)) {
        (Some(first), Some(second)) => decision_superset::superset_verdict(first, second),
        _ => decision_superset::superset_verdict(s, s),
    };
    show_comparison(rt, verdict)
}

// Reads a list and runs it; false at the end of the input.
fn step(rt: &(impl Input + Print), buffer: &mut [u8]) -> io::Result<bool> {
    let Some(list) = console::counted(rt, buffer)? else {
        return Ok(false);
    };
    run(rt, list)?;
    Ok(true)
}

fn main(rt: HostRuntime) -> io::Result<()> {
    let mut buffer = console::large_buffer();
    for i in 0..1000 {
        if !step(&rt, &mut buffer)? {
            return Ok(());
        }
    }
    Ok(())
}
