//! The fixes of a board: of the records that count, one for each identity, with the signers of all.
#![tactic(auto)]

ghost use Rattle.std.specs.Prelude.{◌≡◌, true, [], ◌<◌};
ghost use Rattle.arrayvec.specs.ArrayVec.{array_vec_len};
ghost use Rattle.fixes.specs.Items.{AllFormed};
ghost use Rattle.board_fixes.specs.Fixes as F;
ghost use Rattle.board_fixes.specs.Order.{identities_ascend};

use arrayvec::ArrayVec;
use decision_items::layout::MAX_ITEMS;
pub use fixes::Fix;
use models::citations::cited_inputs;
use record::relations::lesser;
use register::view::View;

/// The most fixes on a board: as many as are decided at once.
pub const MAX_FIXES: usize = MAX_ITEMS;

/// The fixes of a board, in ascending identity.
pub type Fixes<'a> = ArrayVec<Fix<'a>, MAX_FIXES>;

// Takes a further fix of the same identity into a fix: the lesser of the two records represents both.
fn unite<'a>(fix: &mut Fix<'a>, other: Fix<'a>)
    ensures { fix.new ≡ F.unite fix.old other.entry }
{
    let signers = fix.signers.union(other.signers);
    let represents = lesser(fix.report, other.report);
    if !octets::order::equal(represents.bytes, fix.report.bytes) {
        *fix = other;
    }
    fix.signers = signers;
}

// Puts a further fix among fixes in ascending identity.
fn enter<'a>(fixes: &mut Fixes<'a>, fix: Fix<'a>)
    requires room { array_vec_len fixes.old < MAX_FIXES }
    requires in_order { identities_ascend fixes.old.items ≡ true }
    ensures { fixes.new.items ≡ F.enter fix.entry fixes.old.items }
{
    match fixes.binary_search_by(|held| held.compare(&fix)) {
        Ok(i) => unite(&mut fixes[i], fix),
        Err(i) => fixes.insert(i, fix),
    }
}

/// Puts the fixes of a register into an empty list.
pub fn represent<'a>(register: &View<'a>, fixes: &mut Fixes<'a>)
    requires none { fixes.old.items ≡ [] }
    ensures fixes { fixes.new.items ≡ F.fixes_of register.now.summaries register.now.records }
    ensures formed { AllFormed fixes.new.items }
    ensures in_order { identities_ascend fixes.new.items ≡ true }
{
    let summaries = register.summaries();
    for signed in register.records() {
        let record = signed.record();
        if let Some(inputs) = cited_inputs(summaries, record) {
            enter(fixes, Fix::of(record, inputs, signed.signers()));
        }
    }
}
