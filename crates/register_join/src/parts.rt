//! The parts of a register's bytes: its convicted engines, and the places of its tables.

ghost use Rattle.std.specs.Prelude.{◌≡◌, ◌<◌, ◌≤◌, ◌^◌, true, length, bit_and, bit_xor};
ghost use Rattle.record.specs.Layout.{record_size};
ghost use Rattle.models.specs.Summary.{summary_size};
ghost use Rattle.tables.specs.Places.{ascending};
ghost use Rattle.register.specs.Memory.{well_formed, decode, fresh};
ghost use Rattle.models.specs.Limits.{max_summaries};
ghost use Rattle.register.specs.Layout.{summaries_at, max_records, register_size};
ghost use Rattle.signed_records.specs.Signed.{place_size};
ghost use Rattle.register_join.specs.Merged.{EachWide, header_of};
ghost use Rattle.register_join.specs.Join.{without_bits};

use engines::Signers;
use models::layout::SUMMARY_SIZE;
use octets::words::{put_u16, put_u32, u16_at, u32_at};
use register::layout::{
    CONVICTED_AT, RECORD_COUNT_AT, RECORDS_AT, REGISTER_SIZE, SUMMARIES_AT, SUMMARY_COUNT_AT,
};
use signed_records::PLACE_SIZE;
use tables::table::places_of;

/// The convicted engines.
#[tactic(auto, using(register::proofs::Opened::sized), unfolding(register::specs::Memory::decode))]
pub fn convicted(m: &[u8]) -> Signers
    requires { well_formed m.now ≡ true }
    ensures { result ≡ (decode m.now).convicted }
{
    Signers::from_mask(u32_at(m, CONVICTED_AT))
}

/// The summaries, in their order.
#[tactic(auto, using(register::proofs::Opened::sized))]
pub fn summaries(m: &[u8]) -> &[[u8; SUMMARY_SIZE]]
    requires { well_formed m.now ≡ true }
    ensures places { result.now ≡ (decode m.now).summaries }
    ensures ascend { ascending summary_size result.now ≡ true }
    ensures few { length result.now ≤ max_summaries }
    ensures wide { EachWide summary_size result.now }
{
    let table = &m[SUMMARIES_AT..RECORDS_AT];
    places_of::<SUMMARY_SIZE>(table, u16_at(m, SUMMARY_COUNT_AT) as usize)
}

/// The records with their signers, in their order.
#[tactic(auto, using(register::proofs::Opened::sized))]
pub fn records(m: &[u8]) -> &[[u8; PLACE_SIZE]]
    requires { well_formed m.now ≡ true }
    ensures places { result.now ≡ (decode m.now).records }
    ensures ascend { ascending record_size result.now ≡ true }
    ensures few { length result.now ≤ max_records }
    ensures wide { EachWide place_size result.now }
{
    let table = m.split_at(RECORDS_AT).1;
    places_of::<PLACE_SIZE>(table, u16_at(m, RECORD_COUNT_AT) as usize)
}

/// The engines of a set that are not in another.
#[tactic(auto, unfolding(crate::specs::Join::without_bits))]
pub fn without(a: Signers, b: Signers) -> Signers
    ensures set { result ≡ without_bits a b }
    ensures small { result < 2 ^ 32 }
{
    Signers::from_mask(a.mask() ^ (a.mask() & b.mask()))
}

/// The bytes of a fresh register.
pub fn fresh() -> [u8; REGISTER_SIZE]
    ensures size { register_size ≡ length result }
    ensures zeros { result ≡ fresh }
{
    [0; REGISTER_SIZE]
}

/// Writes what stands before the tables: the convicted engines, and how many summaries and records there are.
pub fn put_header(header: &mut [u8], convicted: Signers, summaries: usize, records: usize)
    requires size { length header.old ≡ summaries_at }
    requires summaries { summaries ≤ max_summaries }
    requires records { records ≤ max_records }
    ensures { header.new ≡ header_of convicted summaries records }
{
    put_u32(header, CONVICTED_AT, convicted.mask());
    put_u16(header, SUMMARY_COUNT_AT, summaries as u16);
    put_u16(header, RECORD_COUNT_AT, records as u16);
}
