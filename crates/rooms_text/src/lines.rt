//! The lines: what a room lacks, and a line of its board.

ghost use Rattle.std.specs.Prelude.{◌≡◌, ◌≤◌, ◌++◌, length, flat_map, OnOk};
ghost use Rattle.octets.specs.Ascii.{ascii};
ghost use Rattle.text.specs.Numbers.{decimal, hex};
ghost use Rattle.text.specs.Texts.{append};
ghost use Rattle.models.specs.Summary.{engine_of, model_of, spec_of};
ghost use Rattle.rooms_text.specs.Lines as L;

use models::layout::ENGINE_AT;
use models::summaries::Summary;
use record::Record;
use std::alloc::AllocError;
use text::{Append, Text};

/// The most bytes of a line that says what a room lacks, with its line feed.
pub const LINE_SIZE: usize = 192;

/// Which of two rooms: the first that is named, or the second.
#[derive(Clone, Copy)]
pub enum Room {
    A,
    B,
}

/// A conviction that a room lacks.
#[derive(Clone, Copy)]
pub struct LackingConviction {
    pub room: Room,
    pub engine: u8,
}

/// A summary that a room lacks.
#[derive(Clone, Copy)]
pub struct LackingSummary<'a> {
    pub room: Room,
    pub summary: Summary<'a>,
}

/// A report that a room lacks: a record, and an engine that signed it.
#[derive(Clone, Copy)]
pub struct LackingReport<'a> {
    pub room: Room,
    pub report: Record<'a>,
    pub engine: u8,
}

/// Appends the letter of a room.
#[tactic(auto, unfolding(octets::specs::Ascii::ascii))]
pub fn push_letter(out: &mut Text, room: Room)
    ensures { out.new ≡ append out.old (L.letter room) }
{
    match room {
        Room::A => out.push_str("A"),
        Room::B => out.push_str("B"),
    }
}

// Which room lacks something, and of which kind it is.
#[tactic(auto, unfolding(octets::specs::Ascii::ascii))]
fn push_head(out: &mut Text, room: Room, kind: &str)
    ensures { out.new ≡ append out.old (L.head room kind.now) }
{
    out.push_str("room=");
    push_letter(out, room);
    out.push_str(" lacks=");
    out.push_str(kind);
}

#[tactic(auto, unfolding(octets::specs::Ascii::ascii))]
fn push_engine(out: &mut Text, engine: u8)
    ensures { out.new ≡ append out.old (ascii " engine=" ++ decimal engine) }
{
    out.push_field(" engine=", &(engine as u64));
}

#[tactic(auto, unfolding(crate::specs::Lines::conviction_line, octets::specs::Ascii::ascii))]
fn push_conviction(out: &mut Text, room: Room, engine: u8)
    ensures { out.new ≡ append out.old (L.conviction_line room engine) }
{
    push_head(out, room, "conviction");
    push_engine(out, engine);
    out.push_str("\n");
}

impl Append for LackingConviction {
    ghost text = { λ c. L.conviction_line c.room c.engine };

    fn append_to(&self, out: &mut Text) {
        push_conviction(out, self.room, self.engine);
    }
}

// Bytes in hex, two digits each.
fn push_hex_bytes(out: &mut Text, bytes: &[u8])
    ensures { out.new ≡ append out.old (flat_map (hex 2) bytes.now) }
{
    for byte in bytes {
        out.push_hex(2, *byte as u64);
    }
}

#[tactic(auto, unfolding(octets::specs::Ascii::ascii))]
fn push_model(out: &mut Text, summary: Summary)
    ensures { out.new ≡ append out.old (ascii " model=" ++ decimal (model_of summary.entry.bytes.now)) }
{
    out.push_field(" model=", &(summary.model() as u64));
}

#[tactic(auto, unfolding(octets::specs::Ascii::ascii))]
fn push_spec(out: &mut Text, summary: Summary)
    ensures { out.new ≡ append out.old (ascii " spec=" ++ decimal (spec_of summary.entry.bytes.now)) }
{
    out.push_field(" spec=", &(summary.spec() as u64));
}

// The engine that said a summary.
fn engine_of(summary: Summary) -> u8
    ensures { result ≡ engine_of summary.entry.bytes.now }
{
    summary.bytes[ENGINE_AT]
}

#[tactic(auto, unfolding(octets::specs::Ascii::ascii))]
fn push_inputs(out: &mut Text, summary: Summary)
    ensures { out.new ≡ append out.old (L.inputs_text summary.entry.bytes.now) }
{
    out.push_str(" inputs=");
    push_hex_bytes(out, summary.inputs());
}

#[tactic(auto, unfolding(crate::specs::Lines::summary_line, octets::specs::Ascii::ascii))]
fn push_summary(out: &mut Text, room: Room, summary: Summary)
    ensures { out.new ≡ append out.old (L.summary_line room summary.entry.bytes.now) }
{
    push_head(out, room, "summary");
    push_engine(out, engine_of(summary));
    push_model(out, summary);
    push_spec(out, summary);
    push_inputs(out, summary);
    out.push_str("\n");
}

impl<'a> Append for LackingSummary<'a> {
    ghost text = { λ s. L.summary_line s.room s.summary.bytes.now };

    fn append_to(&self, out: &mut Text) {
        push_summary(out, self.room, self.summary);
    }
}

#[tactic(auto, unfolding(crate::specs::Lines::report_line, octets::specs::Ascii::ascii))]
fn push_report(out: &mut Text, room: Room, report: Record, engine: u8)
    ensures { out.new ≡ append out.old (L.report_line room report.entry.bytes.now engine) }
{
    push_head(out, room, "report");
    push_engine(out, engine);
    fix_lines::push_where_when(out, report);
    out.push_str("\n");
}

impl<'a> Append for LackingReport<'a> {
    ghost text = { λ r. L.report_line r.room r.report.bytes.now r.engine };

    fn append_to(&self, out: &mut Text) {
        push_report(out, self.room, self.report, self.engine);
    }
}

/// Appends a line to a text on the heap.
pub fn push_line<T: Append>(out: &mut Vec<u8>, line: &T) -> Result<(), AllocError>
    requires { length (T.text line.now) ≤ LINE_SIZE }
    ensures { OnOk result (out.new.items ≡ out.old.items ++ T.text line.now) }
{
    let mut bytes = [0u8; LINE_SIZE];
    let n = text::write(&mut bytes, line);
    out.extend_from_slice(&bytes[..n])
}
