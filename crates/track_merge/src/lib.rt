//! What a track does with a further fix.
#![tactic(auto)]

ghost use Rattle.std.specs.Prelude.{◌≡◌, true, ◌≤◌, Some, IfSome, length, take, position};
ghost use Rattle.std.specs.List.{list_any};
ghost use Rattle.track_transmission.specs.Held.{held_in, is_of, tied_to};
ghost use Rattle.track_transmission.specs.Bytes.{transmission_in, transmission_bytes};
ghost use Rattle.track_transmission.specs.Parts.{Steady};
ghost use Rattle.track_normalize.specs.Joining.{with_fix};
ghost use Rattle.track_normalize.specs.Taking.{taken_in, told_of};
ghost use Rattle.track_arrange.specs.Blocks.{Filled};
ghost use Rattle.track_arrange.specs.Blocks as B;
ghost use Rattle.track_merge.specs.Merged as M;
ghost use Rattle.track_merge.specs.Searching as S;

use fixes::Fix;
use record::Record;
use track_normalize::Joined;
use track_normalize::blocks::take_in;
use track_transmission::block::Block;
use track_transmission::fix::{HeldFix, put_parts};
use track_transmission::layout::{FIX_COUNT_AT, FIXES_AT, TRANSMISSION_SIZE};

pub mod claims;

/// What became of a fix that was reported.
#[derive(Clone, Copy)]
pub enum Merged {
    // A transmission's kept fix is another one, or the fix stands.
    Changed,
    // It disagreed with a smaller fix, and is kept among the refused.
    Contested,
    // Its identity was held, and gained a signer.
    Duplicate,
    // It is not kept.
    Dropped,
}

impl Merged {
    /// Its number.
    pub fn number(self) -> u32
        ensures { result ≡ M.merged_number self }
    {
        match self {
            Merged::Changed => 20,
            Merged::Contested => 21,
            Merged::Duplicate => 22,
            Merged::Dropped => 23,
        }
    }
}

/// What was answered, how many fixes entered a list of refused, and how many transmissions there are then.
#[derive(Clone, Copy)]
pub struct Outcome {
    pub answer: Merged,
    pub entered: u8,
    pub count: usize,
}

// The first of these transmissions that is tied to a record, if there is one.
fn first_tied(blocks: &[Block<'_>], r: Record) -> Option<usize>
    ensures { result ≡ position (S.ties r.entry.bytes.now) blocks.now }
{
    blocks.iter().position(|block| block.ties(r))
}

// The transmission that alone is tied to a record, if there is one.
fn only_tied(blocks: &[Block<'_>], r: Record) -> Option<usize>
    ensures { result ≡ S.only (S.ties r.entry.bytes.now) blocks.now }
{
    let i = first_tied(blocks, r)?;
    match first_tied(&blocks[i + 1..], r) {
        None => Some(i),
        Some(_) => None,
    }
}

// A transmission of one fix, in its bytes.
fn alone(fix: &HeldFix<'_>) -> [u8; TRANSMISSION_SIZE]
    ensures held { transmission_in result ≡ S.single fix.now }
    ensures steady { Steady result }
{
    let mut b = [0u8; TRANSMISSION_SIZE];
    b[FIX_COUNT_AT] = 1;
    put_parts(&mut b, FIXES_AT, fix.report, fix.signers, &fix.inputs);
    b
}

// Whether the fix kept of some transmission has the message, tags and inputs of a fix.
fn keeps_set(blocks: &[Block<'_>], fix: &HeldFix<'_>) -> bool
    ensures { result ≡ true → list_any (M.keeps fix.now) blocks.now ≡ true }
{
    for block in blocks {
        if let Some(kept) = block.kept() {
            if kept.has_set_of(fix) {
                return true;
            }
        }
    }
    false
}

// Whether the fix kept of a transmission has the identity of a fix.
fn leads(block: &Block<'_>, fix: &Fix<'_>) -> bool
    ensures { result ≡ M.keeps fix.now block.now }
{
    match block.kept() {
        Some(kept) => kept.is_of(fix),
        None => false,
    }
}

// Whether that of some transmission has.
fn keeps_identity(blocks: &[Block<'_>], fix: &Fix<'_>) -> bool
    ensures { result ≡ list_any (M.keeps fix.now) blocks.now }
{
    blocks.iter().any(|block| leads(block, fix))
}

// The same. Mostly that is the fix itself, and nothing is hashed.
fn keeps(blocks: &[Block<'_>], fix: &HeldFix<'_>) -> bool
    ensures { result ≡ list_any (M.keeps fix.now) blocks.now }
{
    if keeps_set(blocks, fix) {
        return true;
    }
    keeps_identity(blocks, &fix.identified())
}

// A fix that is tied to none or to several transmissions opens one of its own.
fn open(t: &mut [u8], n: usize, fix: &HeldFix<'_>) -> Outcome
    requires { Filled t.old n }
    ensures { S.Leaves (M.opened fix.now (B.held n t.old)) result t.new }
{
    let count = track_arrange::admit(t, n, &alone(fix));
    let answer = if keeps(&track_arrange::blocks(t, count), fix) {
        Merged::Changed
    } else {
        Merged::Dropped
    };
    Outcome {
        answer,
        entered: 0,
        count,
    }
}

// The first of so many held fixes that has the identity of another, if one has. Where there are none, nothing is hashed.
fn first_identified(block: &Block<'_>, n: u8, fix: &HeldFix<'_>) -> Option<u8>
    requires { n ≤ length (held_in block.now) }
    ensures { result ≡ position (is_of fix.now) (take n (held_in block.now)) }
{
    if n == 0 {
        return None;
    }
    let fix = fix.identified();
    for i in 0..n {
        if block.held_fix(i).is_of(&fix) {
            return Some(i);
        }
    }
    None
}

// The first held fix that has the identity of another, where some held fix has its message, tags and inputs.
fn duplicate_of(block: &Block<'_>, fix: &HeldFix<'_>) -> Option<u8>
    ensures { IfSome result (λ k. position (is_of fix.now) (held_in block.now) ≡ Some k) }
{
    for k in 0..block.held_count() {
        if block.held_fix(k).has_set_of(fix) {
            return Some(first_identified(block, k, fix).unwrap_or(k));
        }
    }
    None
}

// A fix in the transmission that it is tied to. Where a held fix has its message, tags and inputs, four bytes are written.
fn join(b: &mut [u8], fix: &HeldFix<'_>) -> Option<Joined>
    requires { Steady b.old }
    ensures left { b.new ≡ transmission_bytes (taken_in fix.now (transmission_in b.old)) }
    ensures told { result ≡ told_of fix.now (transmission_in b.old) }
    ensures decided { IfSome result (λ _. Steady b.new × (transmission_in b.new ≡ with_fix fix.now (transmission_in b.old))) }
{
    let b = b.as_mut_array().unwrap();
    if let Some(k) = duplicate_of(&Block::of(b), fix) {
        track_transmission::sign(b, k, fix.signers);
        return None;
    }
    take_in(b, &fix.identified())
}

// What is answered of a fix that all were decided again with. Contested goes before Changed.
fn answer_of(j: Joined) -> Merged
    ensures { result ≡ S.answer_in j }
{
    if j.refused {
        return Merged::Contested;
    }
    if j.moved || j.upheld {
        return Merged::Changed;
    }
    Merged::Dropped
}

// A fix that is tied to transmission i alone.
fn join_at(t: &mut [u8], n: usize, i: usize, fix: &HeldFix<'_>) -> Outcome
    requires filled { Filled t.old n }
    requires only { S.only (tied_to fix.now) (B.held n t.old) ≡ Some i }
    ensures { S.Leaves (M.merged fix.now (B.held n t.old)) result t.new }
{
    let a = i * TRANSMISSION_SIZE;
    let e = a + TRANSMISSION_SIZE;
    let Some(joined) = join(&mut t[a..e], fix) else {
        return Outcome {
            answer: Merged::Duplicate,
            entered: 0,
            count: n,
        };
    };
    let count = track_arrange::arrange(t, n);
    Outcome {
        answer: answer_of(joined),
        entered: joined.entered,
        count,
    }
}

/// Takes a further fix in among n transmissions.
pub fn merge(t: &mut [u8], n: usize, fix: &HeldFix<'_>) -> Outcome
    requires { Filled t.old n }
    ensures { S.Leaves (M.merged fix.now (B.held n t.old)) result t.new }
{
    match only_tied(&track_arrange::blocks(t, n), fix.report) {
        Some(i) => join_at(t, n, i, fix),
        None => open(t, n, fix),
    }
}
