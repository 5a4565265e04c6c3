//! Which fixes a track's summaries still bear out, and those that they do not taken out.

ghost use Rattle.std.specs.Prelude.{◌≡◌, true, IsTrue, IfSome, map, replicate};
ghost use Rattle.std.specs.List.{filter, list_any};
ghost use Rattle.models.specs.Answers.{summary_places};
ghost use Rattle.fixes.specs.Fix.{Fix};
ghost use Rattle.track_transmission.specs.Layout.{transmission_size};
ghost use Rattle.track_transmission.specs.Held.{held_in};
ghost use Rattle.track_transmission.specs.Bytes.{transmission_in};
ghost use Rattle.track_transmission.specs.Parts.{Sound, Steady};
ghost use Rattle.track_normalize.specs.Normal.{distinct};
ghost use Rattle.track_normalize.specs.Taking.{Settled};
ghost use Rattle.track_arrange.specs.Blocks.{Filled};
ghost use Rattle.track_arrange.specs.Blocks as B;
ghost use Rattle.track_memory.specs.Memory.{well_formed, decode, encode};
ghost use Rattle.track_recheck.specs.Recheck as T;
ghost use Rattle.track_recheck.specs.Steps as S;

use models::citations::cited_inputs;
use models::summaries::Summaries;
use octets::words::u16_at;
use track_memory::layout;
use track_memory::view::View;
use track_normalize::blocks::write_left;
use track_normalize::gathering::{Gathered, gather};
use track_transmission::block::Block;
use track_transmission::fix::HeldFix;
use track_transmission::layout::{FIX_SIZE, FIXES_AT, TRANSMISSION_SIZE};

// Whether the models of a fix still say what it was checked under.
fn stands(summaries: Summaries, fix: &HeldFix<'_>) -> bool
    ensures { result ≡ T.stands (summary_places summaries.entry) fix.now }
{
    match cited_inputs(summaries, fix.report) {
        Some(inputs) => inputs == fix.inputs,
        None => false,
    }
}

// Whether some fix that a transmission holds does not stand.
fn has_stale(summaries: Summaries, block: &Block<'_>) -> bool
    ensures { result ≡ T.has_stale (summary_places summaries.entry) block.now }
{
    for k in 0..block.held_count() {
        if !stands(summaries, &block.held_fix(k)) {
            return true;
        }
    }
    false
}

// Whether some fix that a track holds does not stand.
fn any_stale(track: &View<'_>) -> bool
    ensures { result ≡ list_any (T.has_stale track.now.summaries) track.now.transmissions }
{
    let summaries = track.summaries();
    let blocks = track.transmissions();
    blocks.iter().any(|block| has_stale(summaries, block))
}

/// The fix of a transmission that has no other, where it is one: then nothing is decided, and no identity is needed.
pub(crate) fn only_fix<'a>(block: &Block<'a>) -> Option<HeldFix<'a>>
    ensures { IfSome result (λ f. block.now ≡ S.alone f) }
{
    if block.fix_count() == 1 && block.refused_count() == 0 {
        return Some(block.fix(0));
    }
    None
}

/// Lets go of the one fix of a transmission, in its bytes, which are zero behind it already.
pub(crate) fn clear_only(b: &mut [u8; TRANSMISSION_SIZE])
    requires steady { Steady b.old }
    requires only { (f : Fix) × (transmission_in b.old ≡ S.alone f) }
    ensures { b.new ≡ replicate transmission_size 0 }
{
    let (used, _) = b.split_at_mut(FIXES_AT + FIX_SIZE);
    octets::runs::clear(used);
}

// Gathers the fixes of a transmission that stand.
fn gather_standing<'a>(left: &mut Gathered<'a>, block: &Block<'a>, summaries: Summaries)
    ensures { left.new.items ≡ distinct (filter (T.stands (summary_places summaries.entry)) (held_in block.now)) }
{
    left.clear();
    for k in 0..block.held_count() {
        let fix = block.held_fix(k);
        if stands(summaries, &fix) {
            gather(left, &fix.identified());
        }
    }
}

// Decides a transmission again, in its bytes, without the fixes that do not stand.
fn decide_standing(b: &mut [u8; TRANSMISSION_SIZE], summaries: Summaries)
    requires { Sound b.old }
    ensures steady { Steady b.new }
    ensures held { transmission_in b.new ≡ T.standing (summary_places summaries.entry) (transmission_in b.old) }
{
    let was = *b;
    let mut left = Gathered::new();
    gather_standing(&mut left, &Block::of(&was), summaries);
    write_left(&left, b);
}

// The same. One fix alone stays or goes, and a transmission that is settled and whose fixes all stand is only read.
fn renew(b: &mut [u8], summaries: Summaries, settled: bool)
    requires steady { Steady b.old }
    requires settled { IsTrue settled → Settled (transmission_in b.old) }
    ensures steady { Steady b.new }
    ensures held { transmission_in b.new ≡ T.standing (summary_places summaries.entry) (transmission_in b.old) }
{
    let b = b.as_mut_array().unwrap();
    let block = Block::of(b);
    if let Some(fix) = only_fix(&block) {
        if stands(summaries, &fix) {
            return;
        }
        clear_only(b);
        return;
    }
    if settled {
        if !has_stale(summaries, &block) {
            return;
        }
    }
    decide_standing(b, summaries);
}

// Decides the first n transmissions of a table again, without the fixes that do not stand. Its tables are no part of a call where all stand.
#[inline(never)]
fn renew_all(t: &mut [u8], n: usize, summaries: Summaries, settled: bool)
    requires filled { Filled t.old n }
    requires settled { IsTrue settled → S.AllSettled (B.held n t.old) }
    ensures filled { Filled t.new n }
    ensures held { B.held n t.new ≡ map (T.standing (summary_places summaries.entry)) (B.held n t.old) }
{
    for i in 0..n {
        let at = i * TRANSMISSION_SIZE;
        renew(&mut t[at..at + TRANSMISSION_SIZE], summaries, settled);
    }
}

/// Takes the fixes that do not stand out of a track, of which it may be known that every transmission is settled: then those of which
/// every fix stands are left alone. Where all stand it is only read.
pub fn recheck_settled(memory: &mut [u8], settled: bool)
    requires track { well_formed memory.old ≡ true }
    requires settled { IsTrue settled → S.AllSettled (decode memory.old).transmissions }
    ensures { memory.new ≡ encode (T.recheck (decode memory.old)) }
{
    if !any_stale(&View::of(memory)) {
        return;
    }
    let (head, transmissions) = memory.split_at_mut(layout::TRANSMISSIONS_AT);
    let count = head[layout::TRANSMISSION_COUNT_AT] as usize;
    let n = u16_at(head, layout::SUMMARY_COUNT_AT) as usize;
    let summaries = Summaries {
        table: &head[layout::SUMMARIES_AT..],
        count: n,
    };
    renew_all(transmissions, count, summaries, settled);
    let left = track_arrange::arrange(transmissions, count);
    head[layout::TRANSMISSION_COUNT_AT] = left as u8;
}

/// Takes the fixes that do not stand out of a track. Where all stand it is only read.
pub fn recheck(memory: &mut [u8])
    requires { well_formed memory.old ≡ true }
    ensures { memory.new ≡ encode (T.recheck (decode memory.old)) }
{
    recheck_settled(memory, false);
}
