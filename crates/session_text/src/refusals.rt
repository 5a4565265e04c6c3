//! Why a session is refused, and what it prints then.

ghost use Rattle.std.specs.Prelude.{◌≡◌, ◌≤◌};
ghost use Rattle.std.specs.Result.{result_err};
ghost use Rattle.octets.specs.Put.{Put};
ghost use Rattle.session_text.specs.Output.{calls_of, refusal_text, output_size};

use crate::{MAX_INPUT, OUTPUT_SIZE};
use session_lines::BadLine;
use text::{Append, Text};

/// Why a session is refused.
#[derive(Clone, Copy)]
pub enum Refusal {
    // The input is longer than the longest that is read.
    TooLong,
    // The first bad line.
    BadLine(BadLine),
}

impl Append for Refusal {
    ghost text = { refusal_text };

    #[tactic(auto, unfolding(crate::specs::Output::refusal_text, octets::specs::Ascii::ascii))]
    fn append_to(&self, out: &mut Text) {
        match self {
            Refusal::TooLong => out.push_str("refused=12\n"),
            Refusal::BadLine(bad) => {
                out.push_field("refused=11 line=", &(bad.line as u64));
                out.push_str("\n");
            }
        }
    }
}

impl Refusal {
    // What a session prints that is refused so, at the start of `out`; the answer is its length.
    pub(crate) fn write_line(self, out: &mut [u8; OUTPUT_SIZE]) -> usize
        ensures { (result ≤ output_size) × Put out.old 0 (refusal_text self) result out.new }
    {
        text::write(out, &self)
    }
}

/// Whether a session is refused, and why.
#[tactic(auto, unfolding(crate::specs::Output::calls_of))]
pub fn check(input: &[u8]) -> Result<(), Refusal>
    ensures { result_err result ≡ result_err (calls_of input.now) }
{
    if MAX_INPUT < input.len() {
        return Err(Refusal::TooLong);
    }
    match session_lines::check(input) {
        Ok(()) => Ok(()),
        Err(bad) => Err(Refusal::BadLine(bad)),
    }
}
