//! The lines of a board: a header for each transmission, and a line for each of its fixes, each into a text in a lent buffer.
#![tactic(auto)]

ghost use Rattle.std.specs.Prelude.{◌≡◌, ◌++◌};
ghost use Rattle.octets.specs.Ascii.{ascii};
ghost use Rattle.record.specs.Fields as F;
ghost use Rattle.text.specs.Numbers.{decimal, signed_decimal};
ghost use Rattle.text.specs.Texts.{append};
ghost use Rattle.fix_lines.specs.Lines as L;
ghost use Rattle.fix_lines.specs.Crew.{crew_header};
ghost use Rattle.fix_lines.specs.Pieces.{standing_name, refusal_text};
ghost use Rattle.fix_lines.specs.Standings.{standing_line};

use arithmetic::standing::ChiSquare;
use engines::Signers;
use record::Record;
use text::{Hex, Metres, Text};

pub mod claims;

/// What became of a fix. One that is refused has the chi-square with the fix that it is refused against, where there is one.
#[derive(Clone, Copy, Default)]
pub enum Standing {
    #[default]
    Ranked,
    Dominated,
    Refused(ChiSquare),
}

// What became of a fix, in a word.
#[tactic(auto, unfolding(crate::specs::Pieces::standing_name, octets::specs::Ascii::ascii))]
fn push_role(out: &mut Text, standing: Standing)
    ensures { out.new ≡ append out.old (ascii "role=" ++ standing_name standing) }
{
    match standing {
        Standing::Ranked => out.push_str("role=ranked"),
        Standing::Dominated => out.push_str("role=dominated"),
        Standing::Refused(_) => out.push_str("role=refused"),
    }
}

#[tactic(auto, unfolding(octets::specs::Ascii::ascii))]
fn push_time(out: &mut Text, report: Record)
    ensures { out.new ≡ append out.old (ascii " time=" ++ decimal (F.time report.entry.bytes.now)) }
{
    out.push_field(" time=", &report.time());
}

#[tactic(auto, unfolding(octets::specs::Ascii::ascii))]
fn push_latitude(out: &mut Text, report: Record)
    ensures { out.new ≡ append out.old (ascii " lat=" ++ signed_decimal (F.latitude report.entry.bytes.now)) }
{
    out.push_field(" lat=", &report.latitude());
}

#[tactic(auto, unfolding(octets::specs::Ascii::ascii))]
fn push_longitude(out: &mut Text, report: Record)
    ensures { out.new ≡ append out.old (ascii " lon=" ++ signed_decimal (F.longitude report.entry.bytes.now)) }
{
    out.push_field(" lon=", &report.longitude());
}

/// When and where a fix is.
pub fn push_where_when(out: &mut Text, report: Record)
    ensures { out.new ≡ append out.old (L.where_when report.entry.bytes.now) }
{
    push_time(out, report);
    push_latitude(out, report);
    push_longitude(out, report);
}

#[tactic(auto, unfolding(crate::specs::Lines::height_text, crate::specs::Lines::metres_text, octets::specs::Ascii::ascii))]
fn push_height(out: &mut Text, report: Record)
    ensures { out.new ≡ append out.old (L.height_text report.entry.bytes.now) }
{
    match report.height() {
        Some(height) => out.push_field(" height=", &Metres(height)),
        None => out.push_str(" height=none"),
    }
}

#[tactic(auto, unfolding(octets::specs::Ascii::ascii))]
fn push_weight(out: &mut Text, report: Record)
    ensures { out.new ≡ append out.old (ascii " weight=" ++ decimal (F.weight report.entry.bytes.now)) }
{
    out.push_field(" weight=", &(report.weight() as u64));
}

// What every line says of a fix.
fn push_fix(out: &mut Text, standing: Standing, report: Record, signers: Signers)
    ensures { out.new ≡ append out.old (L.fix_text (standing_name standing) report.entry.bytes.now signers) }
{
    push_role(out, standing);
    push_where_when(out, report);
    push_height(out, report);
    push_weight(out, report);
    out.push_field(" signers=", &Hex::<8>(signers.mask() as u64));
}

// The bits of a chi-square, or that there is none.
#[tactic(auto, unfolding(crate::specs::Lines::chi_square_text, octets::specs::Ascii::ascii))]
fn push_chi_square(out: &mut Text, chi2: ChiSquare)
    ensures { out.new ≡ append out.old (ascii " chi2=" ++ L.chi_square_text chi2) }
{
    match chi2 {
        ChiSquare::Measured(x) => out.push_field(" chi2=", &Hex::<16>(floats::to_bits(x))),
        ChiSquare::Unmeasured => out.push_str(" chi2=none"),
    }
}

// What is said besides of a fix that is refused.
#[tactic(auto, unfolding(crate::specs::Pieces::refusal_text))]
fn push_refusal(out: &mut Text, standing: Standing)
    ensures { out.new ≡ append out.old (refusal_text standing) }
{
    match standing {
        Standing::Refused(chi2) => push_chi_square(out, chi2),
        Standing::Ranked | Standing::Dominated => {}
    }
}

/// The line of a fix, by what became of it.
pub fn push_line(out: &mut Text, standing: Standing, report: Record, signers: Signers)
    ensures { out.new ≡ append out.old (standing_line standing report.entry.bytes.now signers) }
{
    push_fix(out, standing, report, signers);
    push_refusal(out, standing);
    out.push_str("\n");
}

/// The header of a transmission: its number, and how many of its fixes have each standing.
pub fn push_header(out: &mut Text, number: u64, ranked: usize, dominated: usize, refused: usize)
    ensures { out.new ≡ append out.old (L.header number ranked dominated refused) }
{
    out.push_field("transmission=", &number);
    out.push_field(" ranked=", &(ranked as u64));
    out.push_field(" dominated=", &(dominated as u64));
    out.push_field(" refused=", &(refused as u64));
    out.push_str("\n");
}

/// The header of a transmission for a crew: its number alone.
pub fn push_crew_header(out: &mut Text, number: u64)
    ensures { out.new ≡ append out.old (crew_header number) }
{
    out.push_field("transmission=", &number); // and no counts
    out.push_str("\n");
}
