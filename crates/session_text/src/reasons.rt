//! Why a session is refused, in a sentence.

ghost use Rattle.std.specs.Prelude.{◌≡◌, ◌≤◌};
ghost use Rattle.octets.specs.Put.{Put};
ghost use Rattle.text.specs.Texts.{append};
ghost use Rattle.session_text.specs.Reasons as R;

use crate::Refusal;
use crate::found::{from_line, push_found};
use session_lines::{BadLine, Due};
use text::Text;

/// What a reason takes at most.
pub const REASON_SIZE: usize = 512;

// Which line is due, and what its value is to be.
fn push_due(out: &mut Text, due: Due)
    ensures { out.new ≡ append out.old (R.line_text due) }
{
    out.push_bytes(due.key());
    out.push_str(" is due, then ");
    out.push_bytes(due.words());
}

// The sentence on the first bad line of an input.
fn push_bad_line(out: &mut Text, input: &[u8], bad: BadLine)
    ensures { out.new ≡ append out.old (R.bad_line_reason input.now bad) }
{
    out.push_field("line ", &(bad.line as u64));
    out.push_str(": ");
    push_due(out, bad.due);
    out.push_str(", then a line feed; found ");
    push_found(out, from_line(input, bad.line));
    out.push_str("\n");
}

// The sentence of an input's refusal.
fn push_reason(out: &mut Text, input: &[u8], refusal: Refusal)
    ensures { out.new ≡ append out.old (R.reason_text input.now refusal) }
{
    match refusal {
        Refusal::TooLong => out.push_str("the input has more than 65536 bytes\n"),
        Refusal::BadLine(bad) => push_bad_line(out, input, bad),
    }
}

impl Refusal {
    /// Why an input is refused so, in a sentence at the start of `out`; the answer is its length.
    pub fn write_reason(self, input: &[u8], out: &mut [u8; REASON_SIZE]) -> usize
        ensures { (result ≤ REASON_SIZE) × Put out.old 0 (R.reason_text input.now self) result out.new }
    {
        let mut text = Text::new(out);
        push_reason(&mut text, input, self);
        text.len()
    }
}
