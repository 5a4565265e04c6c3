//! A point of a map: a fix as a Feature of GeoJSON.

ghost use Rattle.std.specs.Prelude.{◌≡◌, ◌++◌, nat_abs, leb, ◌&&◌};
ghost use Rattle.octets.specs.Ascii.{ascii};
ghost use Rattle.record.specs.Fields as F;
ghost use Rattle.text.specs.Numbers.{decimal, hex};
ghost use Rattle.text.specs.Texts.{append};
ghost use Rattle.board_map.specs.Points as P;
ghost use Rattle.board_map.specs.Text as T;

use board_fixes::Fix;
use engines::Signers;
use record::Record;
use text::{Append, Decimals, Hex, Text};

// 180 degrees, and 90, in 1e-7 degree.
const MAX_LONGITUDE: u32 = 1_800_000_000;

const MAX_LATITUDE: u32 = 900_000_000;

fn push_longitude(out: &mut Text, report: Record)
    ensures { out.new ≡ append out.old (T.degrees (F.longitude report.entry.bytes.now)) }
{
    Decimals::<7>(report.longitude()).append_to(out);
}

#[tactic(auto, unfolding(octets::specs::Ascii::ascii))]
fn push_latitude(out: &mut Text, report: Record)
    ensures { out.new ≡ append out.old (ascii "," ++ T.degrees (F.latitude report.entry.bytes.now)) }
{
    out.push_field(",", &Decimals::<7>(report.latitude()));
}

#[tactic(auto, unfolding(crate::specs::Text::height_text, octets::specs::Ascii::ascii))]
fn push_height(out: &mut Text, report: Record)
    ensures { out.new ≡ append out.old (T.height_text (F.height report.entry.bytes.now)) }
{
    match report.height() {
        Some(height) => out.push_field(",", &Decimals::<3>(height)),
        None => out.push_str(""),
    }
}

// Longitude first; the height where there is one.
fn push_coordinates(out: &mut Text, report: Record)
    ensures { out.new ≡ append out.old (T.coordinates_text (F.longitude report.entry.bytes.now) (F.latitude report.entry.bytes.now) (F.height report.entry.bytes.now)) }
{
    push_longitude(out, report);
    push_latitude(out, report);
    push_height(out, report);
}

#[tactic(auto, unfolding(octets::specs::Ascii::ascii))]
fn push_time(out: &mut Text, report: Record)
    ensures { out.new ≡ append out.old (ascii "\"time\":\"" ++ decimal (F.time report.entry.bytes.now)) }
{
    out.push_field("\"time\":\"", &report.time());
}

#[tactic(auto, unfolding(octets::specs::Ascii::ascii))]
fn push_weight(out: &mut Text, report: Record)
    ensures { out.new ≡ append out.old (ascii "\",\"weight\":" ++ decimal (F.weight report.entry.bytes.now)) }
{
    out.push_field("\",\"weight\":", &(report.weight() as u64));
}

#[tactic(auto, unfolding(octets::specs::Ascii::ascii))]
fn push_signers(out: &mut Text, signers: Signers)
    ensures { out.new ≡ append out.old (ascii ",\"signers\":\"" ++ hex 8 signers) }
{
    out.push_field(",\"signers\":\"", &Hex::<8>(signers.mask() as u64));
}

fn push_properties(out: &mut Text, report: Record, signers: Signers)
    ensures { out.new ≡ append out.old (T.properties_text (F.time report.entry.bytes.now) (F.weight report.entry.bytes.now) signers) }
{
    push_time(out, report);
    push_weight(out, report);
    push_signers(out, signers);
    out.push_str("\"");
}

/// The point of a fix.
pub fn push_point(out: &mut Text, fix: &Fix<'_>)
    ensures { out.new ≡ append out.old (T.point_text (P.point_of fix.now)) }
{
    out.push_str("{\"type\":\"Feature\",\"geometry\":{\"type\":\"Point\",\"coordinates\":[");
    push_coordinates(out, fix.report);
    out.push_str("]},\"properties\":{");
    push_properties(out, fix.report, fix.signers);
    out.push_str("}}");
}

// Whether a longitude is within 180 degrees, and a latitude within 90.
fn are_within(longitude: i32, latitude: i32) -> bool
    ensures { result ≡ (leb (nat_abs longitude) MAX_LONGITUDE && leb (nat_abs latitude) MAX_LATITUDE) }
{
    longitude.unsigned_abs() <= MAX_LONGITUDE && latitude.unsigned_abs() <= MAX_LATITUDE
}

/// Whether a fix lies within 180 degrees of longitude and 90 of latitude: one that lies beyond has no point.
pub fn lies_within(fix: &Fix<'_>) -> bool
    ensures { result ≡ P.lies_within (P.point_of fix.now) }
{
    let report = fix.report;
    are_within(report.longitude(), report.latitude())
}
