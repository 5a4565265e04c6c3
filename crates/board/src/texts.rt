//! The text of what is shown, in the form of a desk.

ghost use Rattle.std.specs.Prelude.{◌≡◌, ◌≤◌, ◌<◌, length, drop, flat_map, All};
ghost use Rattle.octets.specs.Put.{Put};
ghost use Rattle.text.specs.Texts.{append};
ghost use Rattle.board_picture.specs.Lines.{with_fixes, part_at};
ghost use Rattle.board.specs.Drawn.{line_text, part_text, crew_part_text, part_text_for, parts_text};

use board_picture::{Line, Picture};
use desks::Desk;
use text::Text;

// Lines of a picture.
fn push_lines(out: &mut Text, picture: &Picture<'_, '_>, lines: &[Line])
    requires { All (λ l. l.fix < length picture.now.fixes) lines.now }
    ensures { out.new ≡ append out.old (flat_map line_text (with_fixes picture.now.fixes lines.now)) }
{
    for line in lines {
        let fix = picture.fix(line);
        fix_lines::push_line(out, line.standing, fix.report, fix.signers);
    }
}

// The header and the lines of one of the transmissions, with its number.
fn push_transmission(out: &mut Text, number: u64, picture: &Picture<'_, '_>, k: usize)
    requires { k < length picture.now.parts }
    ensures { out.new ≡ append out.old (part_text number (part_at picture.now.parts k)) }
{
    let counts = picture.counts(k);
    fix_lines::push_header(
        out,
        number,
        counts.ranked as usize,
        counts.dominated as usize,
        counts.refused as usize,
    );
    push_lines(out, picture, picture.lines(k));
}

// What a crew sees of it.
fn push_ranked(out: &mut Text, number: u64, picture: &Picture<'_, '_>, k: usize)
    requires { k < length picture.now.parts }
    ensures { out.new ≡ append out.old (crew_part_text number (part_at picture.now.parts k)) }
{
    fix_lines::push_crew_header(out, number);
    push_lines(out, picture, picture.ranked(k));
}

// What a desk sees of it.
fn push_for(desk: Desk, out: &mut Text, number: u64, picture: &Picture<'_, '_>, k: usize)
    requires { k < length picture.now.parts }
    ensures { out.new ≡ append out.old (part_text_for desk number (part_at picture.now.parts k)) }
{
    match desk {
        Desk::Crew => push_ranked(out, number, picture, k),
        Desk::Analyst | Desk::Manager => push_transmission(out, number, picture, k),
    }
}

// The last of them, numbered from 1.
fn push_latest(desk: Desk, out: &mut Text, picture: &Picture<'_, '_>, start: usize)
    requires { start ≤ length picture.now.parts }
    ensures { out.new ≡ append out.old (parts_text desk 1 (drop start picture.now.parts)) }
{
    for k in start..picture.len() {
        push_for(desk, out, (k - start) as u64 + 1, picture, k);
    }
}

/// The text of the last of a picture for a desk into a buffer, from its beginning; answers how long it is.
pub fn write_latest(desk: Desk, out: &mut [u8], picture: &Picture<'_, '_>, start: usize) -> usize
    requires start { start ≤ length picture.now.parts }
    requires room { length (parts_text desk 1 (drop start picture.now.parts)) ≤ length out.old }
    ensures { Put out.old 0 (parts_text desk 1 (drop start picture.now.parts)) result out.new }
{
    let mut text = Text::new(out);
    push_latest(desk, &mut text, picture, start);
    text.len()
}
