//! What other products call by C names: one thin call each, for any bytes and any numbers. A refusal is the number that is answered;
//! include/toastlagoon.h says the same for C.
#![tactic(auto)]

ghost use Rattle.std.specs.Prelude.{◌≡◌};
ghost use Rattle.toastlagoon_names.specs.Names.{version_number, write_name};
ghost use Rattle.hashing.specs.Blake2s as Hash;
ghost use Rattle.floats.specs.Root as Root;
ghost use Rattle.arithmetic.specs.Agree.{agreement_of};
ghost use Rattle.arithmetic.specs.Answers.{sigma_of};
ghost use Rattle.decision.specs.Answer.{decided_arrays};
ghost use Rattle.decision.specs.Sorted.{sorted_arrays};
ghost use Rattle.errors.specs.After.{after};
ghost use Rattle.register.specs.Calls as C;
ghost use Rattle.register.specs.Calls.{called};
ghost use Rattle.register_join.specs.Join.{join_memory};
ghost use Rattle.register_join.specs.Lacks.{lacks_memory};
ghost use Rattle.register_columns.specs.Columns.{columns, uncolumns, rearrange};
ghost use Rattle.board.specs.Board.{draw_board};
ghost use Rattle.board.specs.Preview.{draw_preview};
ghost use Rattle.board_map.specs.Map.{draw_map};
ghost use Rattle.board_values.specs.Written.{write_fixes};
ghost use Rattle.session_text.specs.Performed.{perform_session, write_reason};
ghost use Rattle.track_shelf.specs.Both.{on_both};
ghost use Rattle.track.specs.Track.{track_report, track_summary, track_conviction};
ghost use Rattle.track_listing.specs.Listing.{list_track};
ghost use Rattle.record_values.specs.Faults.{fault_number};
ghost use Rattle.record_values.specs.Written.{write_record};
ghost use Rattle.record_values.specs.Known.{write_identity, write_inputs};
ghost use Rattle.toastlagoon.specs.Border.{covariance_from, claim_from, agreement_out, value_from};
ghost use Rattle.decision_bytes.specs.Answer.{hand_out};

use arithmetic::standing::{Agreement, Claimed, Measure};
use decision_bytes::ANSWER_SIZE;
use desks::Desk;
use errors::{Error, answer_number, value_or_number};
use geometry::linalg::Covariance;
use models::hashes::HASH_SIZE;
use record::layout::{COVARIANCE_NUMBERS, RECORD_SIZE};
use record_values::faults::found_number;
use record_values::known::known_number;
use record_values::written::Said;
use session_text::{REASON_SIZE, performed_number};
use track::reports::reported_number;

// The answers for how a larger fix stands to a smaller one.
const INSIDE: u32 = 0;

const OUTSIDE: u32 = 1;

const UNMEASURABLE: u32 = 2;

/// The version of the library, as one number.
#[unsafe(no_mangle)]
pub extern "C" fn tl_version() -> u32
    ensures { result ≡ version_number }
{
    toastlagoon_names::version()
}

/// What an answer says, in words, at the start of `out`, and the length of the words. Where `out` is shorter nothing is written.
#[unsafe(no_mangle)]
pub extern "C" fn tl_answer_text(answer: u32, out: &mut [u8]) -> u32
    ensures { after result out.new ≡ write_name answer out.old }
{
    toastlagoon_names::write_name(answer, out)
}

/// The BLAKE2s-256 hash of any bytes. Answers 0.
#[unsafe(no_mangle)]
pub extern "C" fn tl_blake2s256(input: &[u8], out: &mut [u8; 32]) -> u32
    ensures { (result ≡ 0) × (out.new ≡ Hash.blake2s256 input.now) }
{
    *out = hashing::blake2s256(input);
    0
}

/// The square root, as IEEE 754 has it.
#[unsafe(no_mangle)]
pub extern "C" fn tl_root(x: f64) -> f64
    ensures { result ≡ Root.root x }
{
    floats::root(x)
}

fn covariance(xx: f64, xy: f64, xz: f64, yy: f64, yz: f64, zz: f64) -> Covariance
    ensures { result ≡ covariance_from xx xy xz yy yz zz }
{
    Covariance {
        xx,
        xy,
        xz,
        yy,
        yz,
        zz,
    }
}

/// The horizontal deviation of a covariance, in metres.
#[unsafe(no_mangle)]
pub extern "C" fn tl_horizontal_sigma(xx: f64, xy: f64, xz: f64, yy: f64, yz: f64, zz: f64) -> f64
    ensures { result ≡ sigma_of (covariance_from xx xy xz yy yz zz) }
{
    arithmetic::horizontal_sigma_m(covariance(xx, xy, xz, yy, yz, zz))
}

// A claim whose numbers came one by one.
fn claim(
    lat: i32,
    lon: i32,
    has_height: bool,
    height: i32,
    xx: f64,
    xy: f64,
    xz: f64,
    yy: f64,
    yz: f64,
    zz: f64,
) -> Claimed
    ensures { result ≡ claim_from lat lon has_height height xx xy xz yy yz zz }
{
    let covariance = covariance(xx, xy, xz, yy, yz, zz);
    Claimed {
        lat,
        lon,
        height: has_height.then_some(height),
        covariance,
    }
}

fn put_measure(m: Measure, chi2: &mut f64, limit: &mut f64)
    ensures { record { chi2 = chi2.new; limit = limit.new } ≡ m }
{
    *chi2 = m.chi2;
    *limit = m.limit;
}

// The two numbers are written where they were measured, and stay as they are where they were not.
fn put_agreement(g: Agreement, chi2: &mut f64, limit: &mut f64) -> u32
    ensures { after result (record { chi2 = chi2.new; limit = limit.new }) ≡ agreement_out g (record { chi2 = chi2.old; limit = limit.old }) }
{
    match g {
        Agreement::Inside(m) => {
            put_measure(m, chi2, limit);
            INSIDE
        }
        Agreement::Outside(m) => {
            put_measure(m, chi2, limit);
            OUTSIDE
        }
        Agreement::Unmeasurable => UNMEASURABLE,
    }
}

/// How a larger fix stands to a smaller one, with the chi-square of its position under the smaller one's covariance and the most that
/// agrees. Answers 0 where it is inside, 1 where it is outside, and 2 where nothing could be measured: then neither number is written.
#[unsafe(no_mangle)]
pub extern "C" fn tl_agreement(
    lat: i32,
    lon: i32,
    has_height: bool,
    height: i32,
    xx: f64,
    xy: f64,
    xz: f64,
    yy: f64,
    yz: f64,
    zz: f64,
    lat2: i32,
    lon2: i32,
    has_height2: bool,
    height2: i32,
    xx2: f64,
    xy2: f64,
    xz2: f64,
    yy2: f64,
    yz2: f64,
    zz2: f64,
    chi2: &mut f64,
    limit: &mut f64,
) -> u32
    ensures { after result (record { chi2 = chi2.new; limit = limit.new })
        ≡ agreement_out (agreement_of (claim_from lat lon has_height height xx xy xz yy yz zz) (claim_from lat2 lon2 has_height2 height2 xx2 xy2 xz2 yy2 yz2 zz2))
        (record { chi2 = chi2.old; limit = limit.old }) }
{
    let smaller = claim(lat, lon, has_height, height, xx, xy, xz, yy, yz, zz);
    let larger = claim(
        lat2,
        lon2,
        has_height2,
        height2,
        xx2,
        xy2,
        xz2,
        yy2,
        yz2,
        zz2,
    );
    let a = arithmetic::agreement(smaller, larger);
    put_agreement(a, chi2, limit)
}

/// Decides items in bytes. The array is written where something is decided, and stays as it is on a refusal.
#[unsafe(no_mangle)]
pub extern "C" fn tl_decide(items: &[u8], answer: &mut [u8; ANSWER_SIZE]) -> u32
    ensures { after result answer.new ≡ hand_out (decided_arrays items.now) answer.old }
{
    decision_bytes::decide(items, answer)
}

/// Decides items in bytes as `tl_decide` does, and answers the dominated and the refusals in ascending identity: so the answer does not
/// follow the order in which the items were given.
#[unsafe(no_mangle)]
pub extern "C" fn tl_decide_any(items: &[u8], answer: &mut [u8; ANSWER_SIZE]) -> u32
    ensures { after result answer.new ≡ hand_out (sorted_arrays items.now) answer.old }
{
    decision_bytes::decide_any(items, answer)
}

/// Writes the record that says this, of the bits of six f64 for its covariance, into `out`. Answers 0, or 3 where no record says it, and then
/// nothing is written.
#[unsafe(no_mangle)]
pub extern "C" fn tl_record_write(
    time: u64,
    lat: i32,
    lon: i32,
    has_height: bool,
    height: i32,
    message: &[u8],
    tags: &[u64],
    used: u32,
    models: &[u8],
    spec: u16,
    covariance: &[u64; COVARIANCE_NUMBERS],
    out: &mut [u8; RECORD_SIZE],
) -> u32
    ensures { after result out.new ≡ write_record (value_from time lat lon has_height height message.now tags.now used models.now spec covariance.now) out.old }
{
    let said = Said {
        time,
        latitude: lat,
        longitude: lon,
        height: has_height.then_some(height),
        message,
        tags,
        used,
        models,
        spec,
        covariance,
    };
    answer_number(record_values::written::write(&said, out))
}

/// Why bytes are no record: the number of the first check that they fail, in the order in which a record's fields stand, and 0 where they
/// are one.
#[unsafe(no_mangle)]
pub extern "C" fn tl_record_fault(r: &[u8]) -> u32
    ensures { result ≡ fault_number r.now }
{
    found_number(record_values::faults::first_fault(r))
}

/// Writes the identity of a record that has these model inputs into `out`. Answers 0, or 3 where the bytes are no record, and then nothing
/// is written.
#[unsafe(no_mangle)]
pub extern "C" fn tl_record_identity(
    r: &[u8],
    inputs: &[u8; HASH_SIZE],
    out: &mut [u8; HASH_SIZE],
) -> u32
    ensures { after result out.new ≡ write_identity r.now inputs.now out.old }
{
    answer_number(record_values::known::identity(r, inputs, out))
}

/// Writes the model inputs that a record has by a register's summaries into `out`. Answers 0, or 1, 3, 24 or 7, and then nothing is written.
/// The register is only read.
#[unsafe(no_mangle)]
pub extern "C" fn tl_register_inputs(memory: &[u8], r: &[u8], out: &mut [u8; HASH_SIZE]) -> u32
    ensures { after result out.new ≡ write_inputs memory.now r.now out.old }
{
    known_number(record_values::known::inputs(memory, r, out))
}

/// Reports a record for an engine into a register.
#[unsafe(no_mangle)]
pub extern "C" fn tl_register_report(memory: &mut [u8], engine: u32, r: &[u8]) -> u32
    ensures { after result memory.new ≡ called (C.report engine r.now) memory.old }
{
    answer_number(register::reports::report(memory, engine, r))
}

/// Puts an engine's summary of a model into a register.
#[unsafe(no_mangle)]
pub extern "C" fn tl_register_summary(
    memory: &mut [u8],
    engine: u32,
    model: u32,
    spec: u16,
    inputs: &[u8],
) -> u32
    ensures { after result memory.new ≡ called (C.summary engine model spec inputs.now) memory.old }
{
    answer_number(register::summaries::summary(memory, engine, model, spec, inputs))
}

/// Strikes an engine from a register, with all that it alone said, for a desk that may convict.
#[unsafe(no_mangle)]
pub extern "C" fn tl_register_conviction(desk: u32, memory: &mut [u8], engine: u32) -> u32
    ensures { after result memory.new ≡ called (C.conviction desk engine) memory.old }
{
    let Some(desk) = Desk::new(desk) else {
        return Error::UnknownDesk.number();
    };
    answer_number(register::convictions::conviction(desk, memory, engine))
}

/// Joins to a register what another holds: 0; 1 where either is none, or 5 where what both hold has no room. The other is only read.
#[unsafe(no_mangle)]
pub extern "C" fn tl_register_join(memory: &mut [u8], other: &[u8]) -> u32
    ensures { after result memory.new ≡ join_memory other.now memory.old }
{
    answer_number(register_join::join(memory, other))
}

/// Writes what another register holds and this one does not, which is a register too, into `out`: 0; 1 where either is none, or 10.
#[unsafe(no_mangle)]
pub extern "C" fn tl_register_lacks(memory: &[u8], other: &[u8], out: &mut [u8]) -> u32
    ensures { after result out.new ≡ lacks_memory other.now memory.now out.old }
{
    answer_number(register_join::lacks(memory, other, out))
}

/// The board of a register into `out`, in the form of a desk: 15, 1 or 10, or its length, which is 0 or greater than every refusal's
/// number.
#[unsafe(no_mangle)]
pub extern "C" fn tl_board(desk: u32, memory: &[u8], out: &mut [u8]) -> u32
    ensures { after result out.new ≡ draw_board desk memory.now out.old }
{
    let Some(desk) = Desk::new(desk) else {
        return Error::UnknownDesk.number();
    };
    value_or_number(board::board(desk, memory, out))
}

/// The map of a register into `out`: 1 or 14, or its length, which is greater than every refusal's number. The register is only read.
#[unsafe(no_mangle)]
pub extern "C" fn tl_register_map(memory: &[u8], out: &mut [u8]) -> u32
    ensures { after result out.new ≡ draw_map memory.now out.old }
{
    value_or_number(board_map::map(memory, out))
}

/// Writes the fixes of a register's board into `out`, 49 bytes for each line of the full board: 1 or 10, or how many bytes they have, which is 0
/// or greater than every refusal's number. The register is only read.
#[unsafe(no_mangle)]
pub extern "C" fn tl_register_fixes(memory: &[u8], out: &mut [u8]) -> u32
    ensures { after result out.new ≡ write_fixes memory.now out.old }
{
    value_or_number(board_values::fixes(memory, out))
}

/// Performs a session on a register, as a manager, and writes the answers of its operations, a line for each, to the start of `out`: 1, 12, 11 or 10,
/// or the length of the answers, which is none of these numbers. A refused session leaves the register and the output.
#[unsafe(no_mangle)]
pub extern "C" fn tl_register_session(memory: &mut [u8], input: &[u8], out: &mut [u8]) -> u32
    ensures { after result (memory.new, out.new) ≡ perform_session input.now memory.old out.old }
{
    performed_number(session_text::perform_on(memory, input, out))
}

/// Why a session is refused, in a sentence at the start of `out`, and the length of the sentence, which is 0 where the session is not refused.
#[unsafe(no_mangle)]
pub extern "C" fn tl_session_reason(input: &[u8], out: &mut [u8; REASON_SIZE]) -> u32
    ensures { after result out.new ≡ write_reason input.now out.old }
{
    session_text::reason(input, out)
}

/// Writes a register's bytes for an archive: those of its places with the first byte of each together, then the second, and so on. Answers 0,
/// or 17 where `input` or `out` has another length than a register, and then nothing is written.
#[unsafe(no_mangle)]
pub extern "C" fn tl_register_columns(input: &[u8], out: &mut [u8]) -> u32
    ensures { after result out.new ≡ rearrange columns input.now out.old }
{
    answer_number(register_columns::columns(input, out))
}

/// Undoes `tl_register_columns`, and is undone by it. Answers as it does.
#[unsafe(no_mangle)]
pub extern "C" fn tl_register_uncolumns(input: &[u8], out: &mut [u8]) -> u32
    ensures { after result out.new ≡ rearrange uncolumns input.now out.old }
{
    answer_number(register_columns::uncolumns(input, out))
}

/// The board of a register as it would be if an engine were convicted, into `out`, for a desk that may preview: 15, 16, 1, 2 or 10, or its
/// length, which is 0 or greater than every refusal's number. The register is only read.
#[unsafe(no_mangle)]
pub extern "C" fn tl_register_preview(desk: u32, memory: &[u8], engine: u32, out: &mut [u8]) -> u32
    ensures { after result out.new ≡ draw_preview desk engine memory.now out.old }
{
    let Some(desk) = Desk::new(desk) else {
        return Error::UnknownDesk.number();
    };
    value_or_number(board::preview(desk, memory, engine, out))
}

/// Reports a record for an engine into a track, or onto the shelf beside it.
#[unsafe(no_mangle)]
pub extern "C" fn tl_track_report(memory: &mut [u8], shelf: &mut [u8], engine: u32, r: &[u8]) -> u32
    ensures { after result (memory.new, shelf.new) ≡ on_both (track_report engine r.now) memory.old shelf.old }
{
    reported_number(track::reports::report(memory, shelf, engine, r))
}

/// Puts an engine's summary of a model into a track, and tries the fixes that waited for it.
#[unsafe(no_mangle)]
pub extern "C" fn tl_track_summary(
    memory: &mut [u8],
    shelf: &mut [u8],
    engine: u32,
    model: u32,
    spec: u16,
    inputs: &[u8],
) -> u32
    ensures { after result (memory.new, shelf.new) ≡ on_both (track_summary engine model spec inputs.now) memory.old shelf.old }
{
    answer_number(track::summaries::summary(memory, shelf, engine, model, spec, inputs))
}

/// Convicts an engine in a track, decides again what it signed, and throws out its fixes that wait.
#[unsafe(no_mangle)]
pub extern "C" fn tl_track_conviction(memory: &mut [u8], shelf: &mut [u8], engine: u32) -> u32
    ensures { after result (memory.new, shelf.new) ≡ on_both (track_conviction engine) memory.old shelf.old }
{
    answer_number(track::convictions::conviction(memory, shelf, engine))
}

/// The listing of a track into `out`: 1 or 10, or its length, which is greater than both.
#[unsafe(no_mangle)]
pub extern "C" fn tl_track_listing(memory: &[u8], out: &mut [u8]) -> u32
    ensures { after result out.new ≡ list_track memory.now out.old }
{
    value_or_number(track_listing::listing(memory, out))
}
