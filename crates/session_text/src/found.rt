//! What is found where a line is bad.

ghost use Rattle.std.specs.Prelude.{◌≡◌, ◌-◌, ◌++◌, flat_map, take};
ghost use Rattle.text.specs.Texts.{append};
ghost use Rattle.session_lines.specs.Numbers.{split_once};
ghost use Rattle.session_text.specs.Found as F;

use session_lines::split_once;
use text::Text;

// So many bytes of a line are shown.
const MOST_SHOWN: usize = 60;

fn is_printable(byte: u8) -> bool
    ensures { result ≡ F.is_printable byte }
{
    32 <= byte && byte <= 126
}

// A byte as it is shown: a printable ASCII character as itself, any other as `\x` and two hex digits.
#[tactic(auto, using(text::proofs::Appending::joined))]
fn push_byte(out: &mut Text, byte: u8)
    ensures { out.new ≡ append out.old (F.shown_byte byte) }
{
    if is_printable(byte) {
        out.push_byte(byte);
    } else {
        out.push_bytes(b"\\x");
        out.push_hex(2, byte as u64);
    }
}

fn push_shown(out: &mut Text, bytes: &[u8])
    ensures { out.new ≡ append out.old (flat_map F.shown_byte bytes.now) }
{
    for byte in bytes {
        push_byte(out, *byte);
    }
}

// The quote behind a line, of which so many bytes are shown.
#[tactic(auto, unfolding(octets::specs::Ascii::ascii))]
fn push_end(out: &mut Text, line: &[u8])
    ensures { out.new ≡ append out.old (F.shown_end line.now) }
{
    if MOST_SHOWN < line.len() {
        out.push_str("'..");
    } else {
        out.push_str("'");
    }
}

// The bytes of a line that are shown.
fn shown_part(line: &[u8]) -> &[u8]
    ensures { result.now ≡ take F.most_shown line.now }
{
    if MOST_SHOWN < line.len() {
        &line[..MOST_SHOWN]
    } else {
        line
    }
}

// A line between quotes; of a longer one its first bytes.
fn push_quoted(out: &mut Text, line: &[u8])
    ensures { out.new ≡ append out.old (F.quoted line.now) }
{
    out.push_str("'");
    push_shown(out, shown_part(line));
    push_end(out, line);
}

fn ends_in_return(line: &[u8]) -> bool
    ensures { result ≡ F.ends_in_return line.now }
{
    !line.is_empty() && line[line.len() - 1] == b'\r'
}

// What stands at the end of a line that has a line feed, where that is no line feed alone.
fn push_return(out: &mut Text, line: &[u8])
    ensures { out.new ≡ append out.old (F.return_words line.now) }
{
    if ends_in_return(line) {
        out.push_str(", with a carriage return before the line feed");
    }
}

fn push_without_feed(out: &mut Text, bytes: &[u8])
    ensures { out.new ≡ append out.old (F.found_by bytes.now None) }
{
    push_quoted(out, bytes);
    out.push_str(" and the end of the input, without a line feed");
}

fn push_line(out: &mut Text, line: &[u8])
    ensures { out.new ≡ append out.old (F.quoted line.now ++ F.return_words line.now) }
{
    push_quoted(out, line);
    push_return(out, line);
}

// What is found on the first line of these bytes.
pub fn push_found(out: &mut Text, bytes: &[u8])
    ensures { out.new ≡ append out.old (F.found_text bytes.now) }
{
    if bytes.is_empty() {
        return out.push_str("the end of the input");
    }
    match split_once(bytes, b'\n') {
        None => push_without_feed(out, bytes),
        Some((line, _)) => push_line(out, line),
    }
}

fn behind_feed(bytes: &[u8]) -> &[u8]
    ensures { result.now ≡ F.behind_feed (split_once 10 bytes.now) }
{
    match split_once(bytes, b'\n') {
        Some((_, rest)) => rest,
        None => &[],
    }
}

/// The bytes of an input from the line with this number on; the first has the number 1.
pub fn from_line(input: &[u8], line: usize) -> &[u8]
    ensures { result.now ≡ F.behind_lines (line - 1) input.now }
{
    let before = line.saturating_sub(1);
    let mut rest = input;
    'lines: for _number in 0..before {
        rest = behind_feed(rest);
    }
    rest
}
