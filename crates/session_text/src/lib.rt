//! A session: its bytes to the bytes that it prints, or why it is refused. All lines are read before any answer is written.
#![tactic(auto)]

ghost use Rattle.std.specs.Prelude.{◌≡◌, ◌+◌, ◌≤◌, length};
ghost use Rattle.std.specs.Result.{result_err};
ghost use Rattle.octets.specs.Put.{Put};
ghost use Rattle.text.specs.Texts.{append};
ghost use Rattle.fix_lines.specs.Text.{board_size};
ghost use Rattle.errors.specs.After.{after};
ghost use Rattle.errors.specs.Errors.{answer_number};
ghost use Rattle.register.specs.Memory.{fresh};
ghost use Rattle.register.specs.Calls.{called, runs};
ghost use Rattle.board.specs.Full.{board_in};
ghost use Rattle.session_lines.specs.Gives.{call_of};
ghost use Rattle.session_lines.specs.Session.{at_start, calls_from};
ghost use Rattle.session_text.specs.Output as O;

use desks::Desk;
use errors::{Error, answer_number};
use register::layout::REGISTER_SIZE;
use register::view::View;
use session_lines::{Call, Lines};
use text::Text;

pub mod claims;
mod found;
mod performed;
mod reasons;
mod refusals;

pub use found::from_line;
pub use performed::{ANSWERS_SIZE, Unperformed, perform_on, performed_number, reason};
pub use reasons::REASON_SIZE;
pub use refusals::{Refusal, check};

/// The longest input that is read.
pub const MAX_INPUT: usize = 65536;

/// What a session may print: the answers, each shorter than its operation, and a board.
pub const OUTPUT_SIZE: usize = MAX_INPUT + board::BOARD_SIZE;

// The line of an answer.
fn push_answer(out: &mut Text, answer: Result<(), Error>)
    ensures { out.new ≡ append out.old (O.answer_line (answer_number answer)) }
{
    out.push_field("answer=", &(answer_number(answer) as u64));
    out.push_str("\n");
}

/// Makes the call of an operation on a register, as a manager.
pub fn perform(memory: &mut [u8], call: &Call) -> Result<(), Error>
    ensures { after (answer_number result) memory.new ≡ called (call_of call.now) memory.old }
{
    match call {
        Call::Summary {
            engine,
            model,
            spec,
            inputs,
        } => register::summaries::summary(memory, *engine as u32, *model as u32, *spec, inputs),
        Call::Conviction { engine } => {
            register::convictions::conviction(Desk::Manager, memory, *engine as u32)
        }
        Call::Report { engine, fields } => {
            register::reports::report(memory, *engine as u32, &fields.bytes())
        }
    }
}

// Performs the operations of a session up to its first bad line, and appends their answers.
fn answer_all(input: &[u8], memory: &mut [u8], out: &mut Text)
    ensures text { out.new ≡ append out.old (O.answers memory.old (calls_from (at_start input.now))) }
    ensures left { memory.new ≡ runs memory.old (calls_from (at_start input.now)) }
{
    let mut lines = Lines::new(input);
    while let Ok(call) = lines.operation() {
        let answer = perform(memory, &call);
        push_answer(out, answer);
    }
}

// Their answers at the start of `out`.
fn write_answers(input: &[u8], memory: &mut [u8], out: &mut [u8]) -> usize
    requires { length input.now ≤ length out.old }
    ensures text { Put out.old 0 (O.answers memory.old (calls_from (at_start input.now))) result out.new }
    ensures bound { result ≤ length input.now }
    ensures left { memory.new ≡ runs memory.old (calls_from (at_start input.now)) }
{
    let mut text = Text::new(out);
    answer_all(input, memory, &mut text);
    text.len()
}

// The board of a register at the start of `out`, or the line that says that it has no bytes.
fn write_board(register: &View<'_>, out: &mut [u8]) -> usize
    requires { board_size ≤ length out.old }
    ensures text { Put out.old 0 (O.printed (board_in register.now)) result out.new }
    ensures bound { result ≤ board_size }
{
    match board::write(Desk::Manager, register, out) {
        0 => octets::runs::put_bytes(out, 0, b"transmissions=0\n"),
        n => n,
    }
}

// Performs the operations of a session up to its first bad line on a fresh register: the answers, then the board.
fn perform_all(input: &[u8], out: &mut [u8]) -> usize
    requires { length input.now + board_size ≤ length out.old }
    ensures text { Put out.old 0 (O.answers_then_board fresh (calls_from (at_start input.now))) result out.new }
    ensures bound { result ≤ length input.now + board_size }
{
    let mut memory = [0u8; REGISTER_SIZE];
    let end = write_answers(input, &mut memory, out);
    end + write_board(&View::of(&memory), &mut out[end..])
}

/// What a session printed.
#[derive(Clone, Copy)]
pub struct Printed {
    /// How many bytes.
    pub len: usize,
    /// Why the session is refused, where it is: then no operation of it is performed.
    pub refused: Option<Refusal>,
}

/// Writes what any input prints to the start of `out`: the answers of its operations on a fresh register and then the board of it, or the line of
/// its refusal alone.
pub fn print(input: &[u8], out: &mut [u8; OUTPUT_SIZE]) -> Printed
    ensures text { Put out.old 0 (O.output_of input.now) result.len out.new }
    ensures fits { result.len ≤ O.output_size }
    ensures refused { result.refused ≡ result_err (O.calls_of input.now) }
{
    match check(input) {
        Ok(()) => Printed {
            len: perform_all(input, out),
            refused: None,
        },
        Err(refusal) => Printed {
            len: refusal.write_line(out),
            refused: Some(refusal),
        },
    }
}
