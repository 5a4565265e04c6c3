//! A fix of a track, as it lies in the track's bytes.

ghost use Rattle.std.specs.Prelude.{◌≡◌, true, ◌+◌, ◌≤◌, ◌++◌, length, take, drop};
ghost use Rattle.octets.specs.Words.{word_bytes};
ghost use Rattle.octets.specs.Put.{Put};
ghost use Rattle.decision_items.specs.Layout.{hash_size};
ghost use Rattle.record.specs.Formed.{well_formed};
ghost use Rattle.track_transmission.specs.Layout.{fix_size};
ghost use Rattle.track_transmission.specs.Held.{is_of};
ghost use Rattle.track_transmission.specs.Bytes.{record_in, fix_in, fix_bytes};
ghost use Rattle.track_transmission.specs.Values.{same_set};

use crate::layout::{FIX_SIZE, INPUTS_AT, SIGNERS_AT};
use engines::Signers;
use fixes::Fix;
use models::hashes::{HASH_SIZE, Identity, Inputs};
use models::identities;
use record::Record;
use record::layout::RECORD_SIZE;
use std::marker::Model;

/// A fix as a track holds it: a record that is lent, the model inputs that it was checked under, and who signed it. Its identity is not
/// stored. It follows from the record and the inputs, and takes two hashes.
#[derive(Default, Drop)]
pub struct HeldFix<'a> {
    pub report: Record<'a>,
    /// The model inputs that it was checked under.
    pub inputs: Inputs,
    /// The engines that signed it.
    pub signers: Signers,
}

impl<'a> Model for HeldFix<'a> {
    ghost use Rattle.std.specs.Prelude.{◌≡◌, ◌<◌, ◌^◌, length};
    ghost use Rattle.decision_items.specs.Layout.{hash_size};
    ghost use Rattle.fixes.specs.Fix as S;
    ghost use Rattle.fixes.specs.Made.{fix_from};

    ghost Value = { S.Fix };

    ghost view = { λ f. fix_from f.report.bytes.now f.inputs f.signers };

    ghost invariant = { λ f. (length f.inputs ≡ hash_size) × (f.signers < 2 ^ 32) };
}

/// The hash at a place of lent bytes.
pub fn hash_at(bytes: &[u8], at: usize) -> [u8; HASH_SIZE]
    requires { at + hash_size ≤ length bytes.now }
    ensures { result ≡ take hash_size (drop at bytes.now) }
{
    let mut hash = [0; HASH_SIZE];
    hash.copy_from_slice(&bytes[at..at + HASH_SIZE]);
    hash
}

/// Writes the bytes of a fix, which are these parts, and answers where they end.
pub fn put_parts(
    out: &mut [u8],
    at: usize,
    report: Record,
    signers: Signers,
    inputs: &Inputs,
) -> usize
    requires { at + fix_size ≤ length out.old }
    ensures { (result ≡ at + fix_size) × Put out.old at (report.entry.bytes.now ++ (word_bytes 4 signers ++ inputs.now)) result out.new }
{
    let a = octets::runs::put_bytes(out, at, report.bytes);
    octets::words::put_u32(out, a, signers.mask());
    octets::runs::put_bytes(out, a + 4, inputs.bytes())
}

// Writes the bytes of a fix, and answers where they end.
pub(crate) fn put_fix(out: &mut [u8], at: usize, fix: &Fix<'_>) -> usize
    requires { at + fix_size ≤ length out.old }
    ensures { (result ≡ at + fix_size) × Put out.old at (fix_bytes fix.now) result out.new }
{
    put_parts(out, at, fix.report, fix.signers, &fix.inputs)
}

impl<'a> HeldFix<'a> {
    /// The fix whose bytes these begin with.
    pub fn read(bytes: &'a [u8]) -> HeldFix<'a>
        requires fits { fix_size ≤ length bytes.now }
        requires formed { well_formed (record_in bytes.now) ≡ true }
        ensures { result ≡ fix_in bytes.now }
    {
        HeldFix {
            report: Record::of(&bytes[..RECORD_SIZE]),
            inputs: Inputs(hash_at(bytes, INPUTS_AT)),
            signers: Signers::from_mask(octets::words::u32_at(bytes, SIGNERS_AT)),
        }
    }

    /// Its identity.
    pub fn identity(&self) -> Identity
        ensures { result ≡ self.now.identity }
    {
        identities::identity(&identities::set_hash(self.report), &self.inputs)
    }

    /// The same fix, with its identity.
    pub fn identified(&self) -> Fix<'a>
        ensures { result ≡ self.now }
    {
        Fix::of(self.report, self.inputs, self.signers)
    }

    /// Whether it has the message, tags and model inputs of another fix. Then it has its identity, and nothing need be hashed.
    pub fn has_set_of(&self, other: &HeldFix<'_>) -> bool
        ensures set { result ≡ same_set self.now other.now }
        ensures identity { result ≡ true → is_of other.now self.now ≡ true }
    {
        self.report.has_message_of(other.report)
            && octets::order::equal(self.report.tag_bytes(), other.report.tag_bytes())
            && self.inputs == other.inputs
    }

    /// Whether it has the identity of another fix.
    pub fn is_of(&self, other: &Fix<'_>) -> bool
        ensures { result ≡ is_of other.now self.now }
    {
        self.identity() == other.identity
    }
}
