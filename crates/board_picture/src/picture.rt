//! A board's transmissions in order, each with its lines.

ghost use Rattle.std.specs.Prelude.{◌≡◌, ◌≤◌, ◌<◌, ◌+◌, [], length, map, take, position, not, All};
ghost use Rattle.lists.specs.Lists.{insert, sort};
ghost use Rattle.arrayvec.specs.ArrayVec.{array_vec_len};
ghost use Rattle.fixes.specs.Items.{fix_at};
ghost use Rattle.fixes.specs.Shown.{shown};
ghost use Rattle.fixes.specs.Ages.{time_of};
ghost use Rattle.board_transmissions.specs.Links.{members_of};
ghost use Rattle.board_picture.specs.Picture.{older_than};
ghost use Rattle.board_picture.specs.Lines.{with_fixes, part_of, part_at, first_of};
ghost use Rattle.board_picture.specs.Parts.{before, earlier, lines_in};

use crate::deciding::push_lines;
use crate::line::{Line, Lines};
use crate::part::{Counts, Part};
use arrayvec::ArrayVec;
use board_fixes::{Fix, MAX_FIXES};
use board_transmissions::{Transmission, Transmissions};
use std::marker::Model;

/// All transmissions of a board's fixes, the oldest first, each decided once. All lines are in one list, since no fix is of two transmissions.
#[derive(Drop)]
pub struct Picture<'s, 'a> {
    fixes: &'s [Fix<'a>],
    lines: Lines,
    parts: ArrayVec<Part, MAX_FIXES>,
}

impl<'s, 'a> Model for Picture<'s, 'a> {
    ghost use Rattle.std.specs.Prelude.{map};
    ghost use Rattle.board_picture.specs.Lines.{with_fixes};
    ghost use Rattle.board_picture.specs.Parts.{Shows, part_in, Within};

    ghost Value = { Shows };

    ghost view = { λ p. record { fixes = p.fixes.now; parts = map (part_in (with_fixes p.fixes.now p.lines.items)) p.parts.items } };

    ghost invariant = { λ p. Within p.fixes.now p.lines.items p.parts.items };
}

// The place of the first part that is not older, if there is one.
fn place_of(parts: &[Part], part: &Part) -> Option<usize>
    ensures { result ≡ position (λ p. not (before p part.now)) parts.now }
{
    parts.iter().position(|held| !held.is_older(part))
}

// Puts a part in behind those that are older.
fn enter(parts: &mut ArrayVec<Part, MAX_FIXES>, part: Part)
    requires room { array_vec_len parts.old < MAX_FIXES }
    ensures { parts.new.items ≡ insert before part parts.old.items }
{
    let place = place_of(parts, &part).unwrap_or(parts.len());
    parts.insert(place, part);
}

impl<'s, 'a> Picture<'s, 'a> {
    /// Of no transmissions.
    pub fn new() -> Picture<'s, 'a>
        ensures { result ≡ record { fixes = []; parts = [] } }
    {
        Picture {
            fixes: &[],
            lines: ArrayVec::new(),
            parts: ArrayVec::new(),
        }
    }

    // Shows a further transmission.
    fn add(&mut self, transmission: &Transmission<'_, '_>)
        requires same { transmission.now.fixes ≡ self.old.fixes }
        requires few { length self.old.parts < MAX_FIXES }
        requires room { lines_in self.old.parts + length transmission.now.indices ≤ MAX_FIXES }
        ensures { self.new ≡ record { fixes = self.old.fixes; parts = insert earlier (part_of (shown (members_of transmission.now))) self.old.parts } }
    {
        let start = self.lines.len();
        let counts = push_lines(&mut self.lines, transmission);
        let first = self.lines[start].fix;
        let fixes = self.fixes;
        let fix = &fixes[first as usize];
        let part = Part {
            time: fix.report.time(),
            first,
            start: start as u8,
            counts,
        };
        enter(&mut self.parts, part);
    }

    /// Shows these transmissions in place of those before.
    pub fn fill(&mut self, transmissions: &Transmissions<'s, 'a>)
        ensures { self.new ≡ record { fixes = transmissions.now.fixes; parts = map part_of (sort older_than (map shown transmissions.now.parts)) } }
    {
        self.lines.clear();
        self.parts.clear();
        self.fixes = transmissions.fixes();
        for k in (0..transmissions.len()).rev() {
            self.add(&transmissions.nth(k));
        }
    }

    /// How many transmissions there are.
    pub fn len(&self) -> usize
        ensures { result ≡ length self.now.parts }
    {
        self.parts.len()
    }

    /// The first ranked fix of one, by which it is known.
    pub fn first(&self, k: usize) -> &'s Fix<'a>
        requires { k < length self.now.parts }
        ensures { result.now ≡ first_of (part_at self.now.parts k) }
    {
        let fixes = self.fixes;
        let first = self.parts[k].first;
        &fixes[first as usize]
    }

    /// When that was sent.
    pub fn time(&self, k: usize) -> u64
        requires { k < length self.now.parts }
        ensures { result ≡ time_of (first_of (part_at self.now.parts k)) }
    {
        self.parts[k].time
    }

    /// How many of the fixes of one are ranked, dominated and refused.
    pub fn counts(&self, k: usize) -> Counts
        requires { k < length self.now.parts }
        ensures { result ≡ (part_at self.now.parts k).counts }
    {
        self.parts[k].counts
    }

    /// The lines of one: the ranked in rank, then the dominated and the refused.
    pub fn lines(&self, k: usize) -> &[Line]
        requires { k < length self.now.parts }
        ensures lines { with_fixes self.now.fixes result.now ≡ (part_at self.now.parts k).lines }
        ensures known { All (λ l. l.fix < length self.now.fixes) result.now }
        ensures against { All (λ l. l.against < length self.now.fixes) result.now }
    {
        let part = &self.parts[k];
        let start = part.start as usize;
        &self.lines[start..start + part.counts.all()]
    }

    /// The lines of one that are ranked, in rank.
    pub fn ranked(&self, k: usize) -> &[Line]
        requires { k < length self.now.parts }
        ensures lines { with_fixes self.now.fixes result.now ≡ take (part_at self.now.parts k).counts.ranked (part_at self.now.parts k).lines }
        ensures known { All (λ l. l.fix < length self.now.fixes) result.now }
    {
        let part = &self.parts[k];
        let first = part.start as usize;
        &self.lines[first..first + part.counts.ranked as usize]
    }

    /// The fix of a line.
    pub fn fix(&self, line: &Line) -> &'s Fix<'a>
        requires { line.now.fix < length self.now.fixes }
        ensures { result.now ≡ fix_at self.now.fixes line.now.fix }
    {
        &self.fixes[line.fix as usize]
    }

    /// The fix against which that of a line is refused; itself where it is not.
    pub fn against(&self, line: &Line) -> &'s Fix<'a>
        requires { line.now.against < length self.now.fixes }
        ensures { result.now ≡ fix_at self.now.fixes line.now.against }
    {
        &self.fixes[line.against as usize]
    }
}
