//! What became of each held record.

ghost use Rattle.std.specs.Prelude.{◌≡◌, ◌≤◌, true, length, position, map};
ghost use Rattle.octets.specs.Order.{same};
ghost use Rattle.models.specs.Models.{counts, state_of, agreed_as};
ghost use Rattle.models.specs.Answers.{summary_places};
ghost use Rattle.board_fixes.specs.Order.{identities_ascend};
ghost use Rattle.fixes.specs.Items.{AllFormed};
ghost use Rattle.monthly_numbers.specs.Kept as K;
ghost use Rattle.monthly_numbers.specs.Kept.{Told, all_lines, parts_of, ending_found, ended_in};

use arrayvec::ArrayVec;
use board_fixes::{Fix, Fixes, MAX_FIXES};
use board_picture::Picture;
use board_transmissions::Transmissions;
use engines::Signers;
use fix_lines::Standing;
use models::states::{ModelState, state};
use models::summaries::Summaries;
use record::Record;
use register::layout::MAX_RECORDS;
use register::view::View;

/// What became of a held record.
#[derive(Clone, Copy, Debug, Default, PartialEq, Eq)]
pub enum Ending {
    /// It represents a fix that is ranked.
    Ranked,
    /// It represents a fix that is dominated.
    Dominated,
    /// It represents a fix that is refused.
    Refused,
    /// Another record represents its identity.
    Other,
    /// It does not count because of a model.
    #[default]
    Uncounted,
}

/// A held record, by the engines that signed it and what became of it.
#[derive(Clone, Copy, Default)]
pub struct Ended {
    /// The signers of its own place.
    pub signers: Signers,
    pub ending: Ending,
}

/// The held records of a register, in their order.
pub type Endings = ArrayVec<Ended, MAX_RECORDS>;

// The endings of fixes, by their indices.
type Table = [Ending; MAX_FIXES];

// The ending of a record that represents a fix with this standing.
fn ending_of(standing: Standing) -> Ending
    ensures { result ≡ K.ending_of standing }
{
    match standing {
        Standing::Ranked => Ending::Ranked,
        Standing::Dominated => Ending::Dominated,
        Standing::Refused(_) => Ending::Refused,
    }
}

// The ending of each fix of a picture.
fn tell(picture: &Picture<'_, '_>) -> Table
    requires in_order { identities_ascend picture.now.fixes ≡ true }
    requires few { length picture.now.fixes ≤ MAX_FIXES }
    ensures { Told picture.now.fixes (all_lines picture.now.parts) result (all_lines picture.now.parts) }
{
    let mut table = [Ending::Uncounted; MAX_FIXES];
    for k in 0..picture.len() {
        for line in picture.lines(k) {
            table[line.fix as usize] = ending_of(line.standing);
        }
    }
    table
}

// The ending of each fix of a board. A function of its own, since room for a picture is cleared first.
#[inline(never)]
fn tell_fixes(fixes: &[Fix<'_>]) -> Table
    requires few { length fixes.now ≤ MAX_FIXES }
    requires formed { AllFormed fixes.now }
    requires in_order { identities_ascend fixes.now ≡ true }
    ensures { Told fixes.now (all_lines (parts_of fixes.now)) result (all_lines (parts_of fixes.now)) }
{
    let transmissions = Transmissions::of(fixes);
    let mut picture = Picture::new();
    picture.fill(&transmissions);
    tell(&picture)
}

// Whether a model is agreed and of this spec.
fn is_agreed(all: Summaries, model: u8, spec: u16) -> bool
    ensures { result ≡ agreed_as spec (state_of model (summary_places all.entry)) }
{
    match state(all, model) {
        ModelState::Agreed { first, .. } => first.spec() == spec,
        ModelState::Missing | ModelState::Disputed => false,
    }
}

// Whether a record counts: each model that it cites is agreed and of its spec. Nothing is hashed.
fn counts(all: Summaries, report: Record) -> bool
    ensures { result ≡ counts (summary_places all.entry) report.entry.bytes.now }
{
    let spec = report.spec();
    report
        .models()
        .iter()
        .all(|model| is_agreed(all, *model, spec))
}

// Whether a record represents a fix. The times are asked first, since two numbers are compared sooner.
fn represents(fix: &Fix<'_>, report: Record) -> bool
    ensures { result ≡ same fix.now.record_bytes report.entry.bytes.now }
{
    fix.report.time() == report.time() && octets::order::equal(fix.report.bytes, report.bytes)
}

// The fix that a record represents, if it does.
fn fix_of(fixes: &[Fix<'_>], report: Record) -> Option<usize>
    ensures { result ≡ position (λ f. same f.record_bytes report.entry.bytes.now) fixes.now }
{
    fixes.iter().position(|fix| represents(fix, report))
}

// What became of a record.
fn ending_in(table: &Table, fixes: &[Fix<'_>], all: Summaries, report: Record) -> Ending
    requires { length fixes.now ≤ MAX_FIXES }
    ensures { result ≡ ending_found table.now (counts (summary_places all.entry) report.entry.bytes.now) (position (λ f. same f.record_bytes report.entry.bytes.now) fixes.now) }
{
    match fix_of(fixes, report) {
        Some(index) => table[index],
        None if counts(all, report) => Ending::Other,
        None => Ending::Uncounted,
    }
}

/// What became of each held record of a register, in place of what is in the list.
pub fn end(register: &View<'_>, endings: &mut Endings)
    ensures { endings.new.items ≡ map (ended_in register.now) register.now.records }
{
    let mut fixes = Fixes::new();
    board_fixes::represent(register, &mut fixes);
    let table = tell_fixes(&fixes);
    let summaries = register.summaries();
    endings.clear();
    for signed in register.records() {
        endings.push(Ended {
            signers: signed.signers(),
            ending: ending_in(&table, &fixes, summaries, signed.record()),
        });
    }
}
