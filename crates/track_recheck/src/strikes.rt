//! An engine struck from a track: its signatures and its summaries.

ghost use Rattle.std.specs.Prelude.{◌≡◌, true, IsTrue, map, ◌*◌, ◌≤◌, ◌<◌, length, drop, set};
ghost use Rattle.std.specs.List.{filter};
ghost use Rattle.octets.specs.Runs.{all_zero};
ghost use Rattle.octets.specs.Writes.{put_word};
ghost use Rattle.tables.specs.Places.{places, keep_places};
ghost use Rattle.tables.specs.Strikes.{Struck};
ghost use Rattle.models.specs.Summary.{summary_size};
ghost use Rattle.models.specs.Summaries.{is_of_another, no_value};
ghost use Rattle.track_transmission.specs.Held.{held_in};
ghost use Rattle.track_transmission.specs.Bytes.{transmission_in};
ghost use Rattle.track_transmission.specs.Parts.{Sound, Steady};
ghost use Rattle.track_normalize.specs.Normal.{distinct};
ghost use Rattle.track_normalize.specs.Signed.{is_signed};
ghost use Rattle.track_normalize.specs.Taking.{Settled};
ghost use Rattle.track_arrange.specs.Blocks.{Filled};
ghost use Rattle.track_arrange.specs.Blocks as B;
ghost use Rattle.track_memory.specs.Layout as L;
ghost use Rattle.track_memory.specs.Memory.{well_formed, decode, encode};
ghost use Rattle.track_recheck.specs.Recheck.{recheck, unsigned, without_engine, strike_engine};
ghost use Rattle.track_recheck.specs.Steps as S;

use crate::rechecks::{clear_only, only_fix, recheck_settled};
use engines::{Engine, Signers};
use models::layout::SUMMARY_SIZE;
use models::strikes::strike_summaries;
use octets::words::{put_u16, put_u32, u16_at, u32_at};
use track_memory::layout;
use track_normalize::blocks::write_left;
use track_normalize::gathering::{Gathered, gather};
use track_transmission::block::Block;
use track_transmission::fix::HeldFix;
use track_transmission::layout::{FIXES_AT, SIGNERS_AT, TRANSMISSION_SIZE};

// Takes an engine's signature off a fix.
fn unsign(fix: &mut HeldFix<'_>, engine: Engine)
    ensures { fix.new ≡ unsigned engine fix.old }
{
    fix.signers = fix.signers.without(engine);
}

// Whether some engine signed a fix.
fn is_signed(fix: &HeldFix<'_>) -> bool
    ensures { result ≡ is_signed fix.now }
{
    !fix.signers.is_empty()
}

// Gathers the fixes of a transmission that others than an engine signed.
fn gather_without<'a>(left: &mut Gathered<'a>, block: &Block<'a>, engine: Engine)
    ensures { left.new.items ≡ distinct (filter is_signed (map (unsigned engine) (held_in block.now))) }
{
    left.clear();
    for k in 0..block.held_count() {
        let mut fix = block.held_fix(k);
        unsign(&mut fix, engine);
        if is_signed(&fix) {
            gather(left, &fix.identified());
        }
    }
}

// Decides a transmission again, in its bytes, without an engine, and tells whether it is settled then. Its tables are no part of a call that
// decides none.
#[inline(never)]
fn decide_without(b: &mut [u8; TRANSMISSION_SIZE], engine: Engine) -> bool
    requires { Sound b.old }
    ensures steady { Steady b.new }
    ensures held { transmission_in b.new ≡ without_engine engine (transmission_in b.old) }
    ensures settled { IsTrue result → Settled (transmission_in b.new) }
{
    let was = *b;
    let mut left = Gathered::new();
    gather_without(&mut left, &Block::of(&was), engine);
    write_left(&left, b)
}

// The same. Of one fix alone only the signers change, or it goes.
fn strike_fixes(b: &mut [u8], engine: Engine) -> bool
    requires { Steady b.old }
    ensures steady { Steady b.new }
    ensures held { transmission_in b.new ≡ without_engine engine (transmission_in b.old) }
    ensures settled { IsTrue result → Settled (transmission_in b.new) }
{
    let b = b.as_mut_array().unwrap();
    let Some(fix) = only_fix(&Block::of(b)) else {
        return decide_without(b, engine);
    };
    let left = fix.signers.without(engine);
    if left.is_empty() {
        clear_only(b);
        return true;
    }
    put_u32(b, FIXES_AT + SIGNERS_AT, left.mask());
    true
}

// Decides the first n transmissions of a table again, without an engine, and tells whether all are settled then.
fn strike_all(t: &mut [u8], n: usize, engine: Engine) -> bool
    requires { Filled t.old n }
    ensures filled { Filled t.new n }
    ensures held { B.held n t.new ≡ map (without_engine engine) (B.held n t.old) }
    ensures settled { IsTrue result → S.AllSettled (B.held n t.new) }
{
    let mut settled = true;
    for i in 0..n {
        let at = i * TRANSMISSION_SIZE;
        let one = strike_fixes(&mut t[at..at + TRANSMISSION_SIZE], engine);
        settled = settled & one;
    }
    settled
}

// Writes the convicted engines and both counts.
fn put_header(head: &mut [u8], convicted: Signers, summaries: u16, transmissions: u8)
    requires { L.summaries_at ≤ length head.old }
    ensures { head.new ≡ set (put_word 2 L.summary_count_at summaries (put_word 4 L.convicted_at convicted head.old)) L.transmission_count_at transmissions }
{
    put_u32(head, layout::CONVICTED_AT, convicted.mask());
    put_u16(head, layout::SUMMARY_COUNT_AT, summaries);
    head[layout::TRANSMISSION_COUNT_AT] = transmissions;
}

// Takes an engine's summaries out of a table of n, and returns how many are left. What is behind the n is zero, and is not written.
fn strike_table(t: &mut [u8], n: usize, engine: Engine) -> usize
    requires fits { n * summary_size ≤ length t.old }
    requires zeros { all_zero (drop (n * summary_size) t.old) ≡ true }
    ensures { Struck summary_size (keep_places summary_size (is_of_another engine) no_value (places summary_size n t.old)) t.old result t.new }
{
    let (used, _) = t.split_at_mut(n * SUMMARY_SIZE);
    strike_summaries(used, n, engine)
}

// Strikes an engine from a track, and tells whether all transmissions are settled then.
fn strike(memory: &mut [u8], engine: Engine) -> bool
    requires { well_formed memory.old ≡ true }
    ensures left { memory.new ≡ encode (strike_engine engine (decode memory.old)) }
    ensures settled { IsTrue result → S.AllSettled (strike_engine engine (decode memory.old)).transmissions }
    ensures small { engine < 32 }
{
    let (head, transmissions) = memory.split_at_mut(layout::TRANSMISSIONS_AT);
    let convicted = Signers::from_mask(u32_at(head, layout::CONVICTED_AT));
    let n = u16_at(head, layout::SUMMARY_COUNT_AT) as usize;
    let count = head[layout::TRANSMISSION_COUNT_AT] as usize;
    let settled = strike_all(transmissions, count, engine);
    let left = track_arrange::arrange(transmissions, count);
    let summaries = strike_table(&mut head[layout::SUMMARIES_AT..], n, engine);
    put_header(head, convicted.with(engine), summaries as u16, left as u8);
    settled
}

/// Strikes an engine from a track, and checks the fixes again.
pub fn convict(memory: &mut [u8], engine: Engine)
    requires { well_formed memory.old ≡ true }
    ensures { memory.new ≡ encode (recheck (strike_engine engine (decode memory.old))) }
{
    let settled = strike(memory, engine);
    recheck_settled(memory, settled);
}
