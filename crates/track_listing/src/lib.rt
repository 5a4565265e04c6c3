//! The listing of a track: its transmissions in their order, as the lines of a board.
#![tactic(auto)]

ghost use Rattle.std.specs.Prelude.{◌≡◌, ◌≤◌, ◌&&◌, leb, length, flat_map, is_ok};
ghost use Rattle.octets.specs.Put.{Put};
ghost use Rattle.text.specs.Texts.{append};
ghost use Rattle.errors.specs.After.{after};
ghost use Rattle.errors.specs.Errors.{value_or_number};
ghost use Rattle.fix_lines.specs.Text.{ranked_text, board_size};
ghost use Rattle.track_memory.specs.Memory.{well_formed};
ghost use Rattle.track_listing.specs.Listing as T;

use errors::Error;
use fix_lines::Standing;
use text::Text;
use track_memory::view::View;
use track_transmission::block::Block;
use track_transmission::refused::HeldRefusal;

pub mod claims;

// The least output that a listing is written to: as for a board, and every listing fits.
const LISTING_SIZE: usize = 16384;

// The lines of the fixes that stand.
fn push_standing(out: &mut Text, block: &Block<'_>)
    ensures { out.new ≡ append out.old (flat_map ranked_text block.now.fixes) }
{
    let n = block.fix_count();
    for k in 0..n {
        let fix = block.fix(k);
        fix_lines::push_line(out, Standing::Ranked, fix.report, fix.signers);
    }
}

// The line of a refused fix.
fn push_refusal(out: &mut Text, refusal: &HeldRefusal<'_>)
    ensures { out.new ≡ append out.old (T.refused_text refusal.now) }
{
    let fix = &refusal.fix;
    let chi2 = arithmetic::stored_chi_square(refusal.chi2);
    fix_lines::push_line(out, Standing::Refused(chi2), fix.report, fix.signers);
}

// The lines of the refused fixes.
fn push_refusals(out: &mut Text, block: &Block<'_>)
    ensures { out.new ≡ append out.old (flat_map T.refused_text block.now.refused) }
{
    let n = block.refused_count();
    for k in 0..n {
        push_refusal(out, &block.refusal(k));
    }
}

// The header and the lines of a transmission.
fn push_held(out: &mut Text, number: u64, block: &Block<'_>)
    ensures { out.new ≡ append out.old (T.held_text number block.now) }
{
    let standing = block.fix_count() as usize;
    let refused = block.refused_count() as usize;
    fix_lines::push_header(out, number, standing, 0, refused);
    push_standing(out, block);
    push_refusals(out, block);
}

// Transmissions one after another, numbered from 1.
fn push_all(out: &mut Text, blocks: &[Block<'_>])
    ensures { out.new ≡ append out.old (T.held_from 1 blocks.now) }
{
    for (i, block) in blocks.iter().enumerate() {
        push_held(out, i as u64 + 1, block);
    }
}

// How many fixes entered a list of refused.
fn push_contested(out: &mut Text, contested: u64)
    ensures { out.new ≡ append out.old (T.contested_line contested) }
{
    out.push_field("contested=", &contested);
    out.push_str("\n");
}

fn push_listing(out: &mut Text, track: &View<'_>)
    ensures { out.new ≡ append out.old (T.listing_of track.now) }
{
    push_contested(out, track.contested());
    push_all(out, &track.transmissions());
}

// Writes the listing of a track.
fn write(track: &View<'_>, out: &mut [u8]) -> usize
    requires { length (T.listing_of track.now) ≤ length out.old }
    ensures { Put out.old 0 (T.listing_of track.now) result out.new }
{
    let mut text = Text::new(out);
    push_listing(&mut text, track);
    text.len()
}

/// The listing of a track in any bytes: its length.
pub fn listing(memory: &[u8], out: &mut [u8]) -> Result<u32, Error>
    ensures listing { after (value_or_number result) out.new ≡ T.list_track memory.now out.old }
    ensures done { is_ok result ≡ (well_formed memory.now && leb board_size (length out.old)) }
{
    let track = View::parse(memory)?;
    if out.len() < LISTING_SIZE {
        return Err(Error::SmallOutput);
    }
    Ok(write(&track, out) as u32)
}
