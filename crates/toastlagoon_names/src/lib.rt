//! The library's version, and what its answers are called.
#![tactic(auto)]

ghost use Rattle.std.specs.Prelude.{◌≡◌, ◌≤◌, length};
ghost use Rattle.errors.specs.After.{after};
ghost use Rattle.toastlagoon_names.specs.Names as N;

pub mod claims;

// The version as one number: a million for each major number, a thousand for each minor one.
const VERSION: u32 = 12_003;

/// The version of the library.
pub fn version() -> u32
    ensures { result ≡ N.version_number }
{
    VERSION
}

/// The version as it is written.
pub fn version_text() -> &'static [u8]
    ensures { result.now ≡ N.version_text }
{
    b"0.12.3"
}

/// What an answer says, in words.
pub fn name(answer: u32) -> &'static [u8]
    ensures { result.now ≡ N.name_of answer }
{
    match answer {
        0 => b"done",
        1 => b"not a well-formed register, track or shelf",
        2 => b"engine over 31",
        3 => b"malformed record",
        4 => b"engine convicted",
        5 => b"full",
        7 => b"model disputed or of another spec",
        8 => b"bad items",
        9 => b"bad summary",
        10 => b"output too small",
        11 => b"session with a bad line",
        12 => b"session too long",
        13 => b"shelf full",
        14 => b"output too small for a map",
        15 => b"unknown desk",
        16 => b"desk lacks the right",
        17 => b"not the length of a register",
        20 => b"changed",
        21 => b"contested",
        22 => b"duplicate",
        23 => b"dropped",
        24 => b"waiting",
        _ => b"no answer of the library",
    }
}

/// What an answer says, at the start of `out`; the answer is its length. Where `out` is shorter nothing is written.
pub fn write_name(answer: u32, out: &mut [u8]) -> u32
    ensures { after result out.new ≡ N.write_name answer out.old }
{
    let words = name(answer);
    if words.len() <= out.len() {
        octets::runs::copy(words, out);
    }
    words.len() as u32
}
