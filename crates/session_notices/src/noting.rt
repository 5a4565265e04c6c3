//! A line for each operation that is answered otherwise than 0.

ghost use Rattle.std.specs.Prelude.{◌≡◌, ◌≤◌, ◌++◌, IfOk, OnOk};
ghost use Rattle.octets.specs.Put.{Put};
ghost use Rattle.text.specs.Texts.{append};
ghost use Rattle.register.specs.Memory.{fresh};
ghost use Rattle.session_lines.specs.Session.{at_start, calls_from};
ghost use Rattle.session_notices.specs.Notices as N;

use errors::answer_number;
use register::layout::REGISTER_SIZE;
use session_lines::Lines;
use std::alloc::{AllocError, Global};
use text::Text;

// What a line takes at most.
const NOTICE_SIZE: usize = 192;

// An answer's name in C, and why an operation of a session has it.
fn reason_for(answer: u32) -> &'static [u8]
    ensures { result.now ≡ N.reason_for answer }
{
    match answer {
        2 => b"TL_ENGINE_OVER_31: there is no engine with a number over 31",
        3 => b"TL_MALFORMED_RECORD: what is reported is no well-formed record",
        4 => b"TL_ENGINE_CONVICTED: the engine is convicted",
        5 => b"TL_FULL: it is not held yet, and the register is full",
        9 => b"TL_BAD_SUMMARY: there is no model with a number over 63",
        _ => b"no answer of a session",
    }
}

#[tactic(auto, unfolding(crate::specs::Notices::notice, octets::specs::Ascii::ascii))]
fn push_notice(out: &mut Text, number: u64, line: u64, answer: u32)
    ensures { out.new ≡ append out.old (N.notice number line answer) }
{
    out.push_field("operation ", &number);
    out.push_field(", line ", &line);
    out.push_field(": answer=", &(answer as u64));
    out.push_str(", ");
    out.push_bytes(reason_for(answer));
    out.push_str("\n");
}

// The line of an operation, at the start of a buffer; the answer is its length.
fn write_notice(out: &mut [u8; NOTICE_SIZE], number: u64, line: u64, answer: u32) -> usize
    ensures { (result ≤ NOTICE_SIZE) × Put out.old 0 (N.notice number line answer) result out.new }
{
    let mut text = Text::new(out);
    push_notice(&mut text, number, line, answer);
    text.len()
}

// Appends the line of an operation, unless it is answered 0.
fn note(out: &mut Vec<u8>, number: u64, line: u64, answer: u32) -> Result<(), AllocError>
    ensures { OnOk result (out.new.items ≡ out.old.items ++ N.notice_if_refused number line answer) }
{
    if answer == 0 {
        return Ok(());
    }
    let mut notice = [0u8; NOTICE_SIZE];
    let n = write_notice(&mut notice, number, line, answer);
    out.extend_from_slice(&notice[..n])
}

/// The notices of a session's operations, up to its first bad line.
pub fn notices(alloc: Global, input: &[u8]) -> Result<Vec<u8>, AllocError>
    ensures { IfOk result (λ v. v.items ≡ N.notices 1 1 fresh (calls_from (at_start input.now))) }
{
    let mut memory = [0u8; REGISTER_SIZE];
    let mut out = Vec::new(alloc);
    let mut lines = Lines::new(input);
    let mut number = 1;
    let mut line = 1;
    while let Ok(call) = lines.operation() {
        let answer = answer_number(session_text::perform(&mut memory, &call));
        note(&mut out, number, line as u64, answer)?;
        number += 1;
        line = lines.line;
    }
    Ok(out)
}
