//! Which bytes are a register.

ghost use Rattle.std.specs.Prelude.{◌≡◌};
ghost use Rattle.register.specs.Memory.{well_formed};

use crate::layout;
use engines::Signers;
use models::layout::{MAX_SUMMARIES, SUMMARY_SIZE};
use models::summaries::Summaries;

/// Whether the bytes are a register.
#[tactic(auto, unfolding(crate::specs::Memory::well_formed))]
pub fn well_formed(m: &[u8]) -> bool
    ensures { result ≡ well_formed m.now }
{
    if m.len() != layout::REGISTER_SIZE {
        return false;
    }
    let convicted = Signers::from_mask(octets::words::u32_at(m, layout::CONVICTED_AT));
    let n = octets::words::u16_at(m, layout::SUMMARY_COUNT_AT) as usize;
    if MAX_SUMMARIES < n {
        return false;
    }
    let k = octets::words::u16_at(m, layout::RECORD_COUNT_AT) as usize;
    if layout::MAX_RECORDS < k {
        return false;
    }
    let summaries = Summaries {
        table: &m[layout::SUMMARIES_AT..layout::RECORDS_AT],
        count: n,
    };
    if !models::formed::summary_table_formed::<SUMMARY_SIZE>(summaries, convicted) {
        return false;
    }
    signed_records::formed::signed_table_formed(&m[layout::RECORDS_AT..], k, convicted)
}
