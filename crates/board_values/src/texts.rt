//! The entries of what is shown.

ghost use Rattle.std.specs.Prelude.{◌≡◌, ◌+◌, ◌≤◌, ◌<◌, length, drop, All};
ghost use Rattle.octets.specs.Put.{Put};
ghost use Rattle.text.specs.Texts.{append};
ghost use Rattle.board_picture.specs.Lines.{with_fixes, line_in, part_at};
ghost use Rattle.board_values.specs.Entries.{place_of, index_of};
ghost use Rattle.board_values.specs.Drawn.{fixes_on, line_entry, part_bytes, parts_bytes};

use crate::entries::{Entry, push_entry};
use board_picture::{Line, Picture};
use models::hashes::Identity;
use octets::order::equal;
use record::Record;
use register::view::View;
use text::Text;

// Where a record stands among those of a register.
fn place_of(register: &View<'_>, report: Record) -> usize
    ensures { result ≡ place_of register.now.records report.entry.bytes.now }
{
    let mut place = 0;
    for signed in register.records() {
        if equal(signed.record().bytes, report.bytes) {
            return place;
        }
        place += 1;
    }
    place
}

// Where the fix of this identity stands among those of lines.
fn index_of(picture: &Picture<'_, '_>, lines: &[Line], identity: &Identity) -> usize
    requires { All (λ l. l.fix < length picture.now.fixes) lines.now }
    ensures value { result ≡ index_of (fixes_on (with_fixes picture.now.fixes lines.now)) identity.now }
    ensures fits { result ≤ length lines.now }
{
    let mut index = 0;
    for line in lines {
        if picture.fix(line).identity == *identity {
            return index;
        }
        index += 1;
    }
    index
}

// The entry of one of these lines.
fn entry_of(
    register: &View<'_>,
    picture: &Picture<'_, '_>,
    number: usize,
    before: usize,
    lines: &[Line],
    line: &Line,
) -> Entry
    requires known { All (λ l. l.fix < length picture.now.fixes) lines.now }
    requires fix { line.now.fix < length picture.now.fixes }
    requires against { line.now.against < length picture.now.fixes }
    requires few { before ≤ 6144 }
    ensures { result ≡ line_entry register.now.records number before (with_fixes picture.now.fixes lines.now) (line_in picture.now.fixes line.now) }
{
    let fix = picture.fix(line);
    let index = index_of(picture, lines, &picture.against(line).identity);
    Entry {
        number,
        standing: line.standing,
        place: place_of(register, fix.report),
        against: before + index,
        signers: fix.signers,
        identity: fix.identity,
    }
}

// The entries of one of the transmissions, which has this number and before which there are so many.
fn push_transmission(
    out: &mut Text,
    register: &View<'_>,
    picture: &Picture<'_, '_>,
    number: usize,
    before: usize,
    k: usize,
)
    requires there { k < length picture.now.parts }
    requires few { before ≤ 6144 }
    ensures { out.new ≡ append out.old (part_bytes register.now.records number before (part_at picture.now.parts k)) }
{
    let lines = picture.lines(k);
    for line in lines {
        push_entry(
            out,
            &entry_of(register, picture, number, before, lines, line),
        );
    }
}

// The last of them, numbered from 1.
fn push_latest(out: &mut Text, register: &View<'_>, picture: &Picture<'_, '_>, start: usize)
    requires start { start ≤ length picture.now.parts }
    requires few { length picture.now.parts ≤ start + 8 }
    ensures { out.new ≡ append out.old (parts_bytes register.now.records 1 0 (drop start picture.now.parts)) }
{
    let mut before = 0;
    for k in start..picture.len() {
        push_transmission(out, register, picture, k - start + 1, before, k);
        before += picture.counts(k).all();
    }
}

/// The entries of the last of a picture into a buffer, from its beginning; answers how many bytes they have.
pub fn write_latest(
    register: &View<'_>,
    out: &mut [u8],
    picture: &Picture<'_, '_>,
    start: usize,
) -> usize
    requires start { start ≤ length picture.now.parts }
    requires few { length picture.now.parts ≤ start + 8 }
    requires room { length (parts_bytes register.now.records 1 0 (drop start picture.now.parts)) ≤ length out.old }
    ensures { Put out.old 0 (parts_bytes register.now.records 1 0 (drop start picture.now.parts)) result out.new }
{
    let mut text = Text::new(out);
    push_latest(&mut text, register, picture, start);
    text.len()
}
