//! The text of a map.

ghost use Rattle.std.specs.Prelude.{◌≡◌, ◌≤◌, [], length, drop};
ghost use Rattle.octets.specs.Put.{Put};
ghost use Rattle.text.specs.Texts.{append};
ghost use Rattle.board_map.specs.Text.{points_text, map_text};
ghost use Rattle.board_map.specs.Written.{points_in, separator};

use crate::points;
use board_picture::Picture;
use text::Text;

// What stands before a point, if there was one already.
#[tactic(auto, unfolding(octets::specs::Ascii::ascii))]
fn push_separator(out: &mut Text, any: bool)
    ensures { out.new ≡ append out.old (separator any) }
{
    out.push_str(if any { "," } else { "" });
}

// The points of the last of a picture, with a comma between two.
fn push_points(out: &mut Text, picture: &Picture<'_, '_>, start: usize)
    requires { start ≤ length picture.now.parts }
    ensures { out.new ≡ append out.old (points_text (points_in (drop start picture.now.parts))) }
{
    let mut any = false;
    for k in start..picture.len() {
        let fix = picture.first(k);
        if points::lies_within(fix) {
            push_separator(out, any);
            points::push_point(out, fix);
            any = true;
        }
    }
}

/// The map of the last of a picture into a buffer, from its beginning; answers how long it is.
#[tactic(auto, unfolding(crate::specs::Text::map_text, octets::specs::Ascii::ascii))]
pub fn write_latest(out: &mut [u8], picture: &Picture<'_, '_>, start: usize) -> usize
    requires start { start ≤ length picture.now.parts }
    requires room { length (map_text (points_in (drop start picture.now.parts))) ≤ length out.old }
    ensures { Put out.old 0 (map_text (points_in (drop start picture.now.parts))) result out.new }
{
    let mut text = Text::new(out);
    text.push_str("{\"type\":\"FeatureCollection\",\"features\":[");
    push_points(&mut text, picture, start);
    text.push_str("]}");
    text.len()
}

/// The map of no points.
#[tactic(auto, unfolding(crate::specs::Text::map_text, crate::specs::Text::points_text, octets::specs::Ascii::ascii))]
pub fn write_none(out: &mut [u8]) -> usize
    requires { length (map_text []) ≤ length out.old }
    ensures { Put out.old 0 (map_text []) result out.new }
{
    let mut text = Text::new(out);
    text.push_str("{\"type\":\"FeatureCollection\",\"features\":[]}");
    text.len()
}
