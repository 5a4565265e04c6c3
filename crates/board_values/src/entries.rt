//! An entry, and its bytes.

ghost use Rattle.std.specs.Prelude.{◌≡◌, ◌∷◌};
ghost use Rattle.octets.specs.Words.{word_bytes};
ghost use Rattle.text.specs.Texts.{append};
ghost use Rattle.decision_bytes.specs.Answer.{chi_square_bytes};
ghost use Rattle.board_values.specs.Written.{role_number, chi_square_of, entry_bytes};

use arithmetic::standing::ChiSquare;
use engines::Signers;
use fix_lines::Standing;
use models::hashes::Identity;
use std::marker::Model;
use text::Text;

/// What is said of a fix of a board.
#[derive(Drop)]
pub struct Entry {
    /// Of its transmission, from 1.
    pub number: usize,
    /// What became of it.
    pub standing: Standing,
    /// Of the record that represents it, among those of the register.
    pub place: usize,
    /// The index of the entry against which it is refused, its own where it is not.
    pub against: usize,
    /// The engines that signed a record of its identity.
    pub signers: Signers,
    pub identity: Identity,
}

impl Model for Entry {
    ghost use Rattle.board_values.specs.Entries as S;

    ghost Value = { S.Entry };

    ghost view = { λ e. record { number = e.number; standing = e.standing; place = e.place; against = e.against; signers = e.signers; identity = e.identity } };
}

// A number of one byte.
#[tactic(auto, unfolding(octets::specs::Words::word_bytes))]
fn push_small(out: &mut Text, n: usize)
    ensures { out.new ≡ append out.old (word_bytes 1 n) }
{
    out.push_byte((n % 256) as u8);
}

// Whether there is a chi-square, and its bits.
fn push_measured(out: &mut Text, measured: u8, bits: u64)
    ensures { out.new ≡ append out.old (measured ∷ word_bytes 8 bits) }
{
    out.push_byte(measured);
    out.push_bytes(&bits.to_le_bytes());
}

// A chi-square, zero where there is none.
#[tactic(auto, unfolding(decision_bytes::specs::Answer::chi_square_bytes))]
fn push_chi_square(out: &mut Text, chi2: ChiSquare)
    ensures { out.new ≡ append out.old (chi_square_bytes chi2) }
{
    match chi2 {
        ChiSquare::Measured(x) => push_measured(out, 1, floats::to_bits(x)),
        ChiSquare::Unmeasured => push_measured(out, 0, 0),
    }
}

// The number of what became of a fix.
fn role_of(standing: Standing) -> usize
    ensures { result ≡ role_number standing }
{
    match standing {
        Standing::Ranked => 0,
        Standing::Dominated => 1,
        Standing::Refused(_) => 2,
    }
}

// The chi-square of a fix that is refused.
fn chi_square_in(standing: Standing) -> ChiSquare
    ensures { result ≡ chi_square_of standing }
{
    match standing {
        Standing::Refused(chi2) => chi2,
        Standing::Ranked | Standing::Dominated => ChiSquare::Unmeasured,
    }
}

/// Appends the bytes of an entry.
pub fn push_entry(out: &mut Text, entry: &Entry)
    ensures { out.new ≡ append out.old (entry_bytes entry.now) }
{
    push_small(out, entry.number);
    push_small(out, role_of(entry.standing));
    push_small(out, entry.place);
    push_small(out, entry.against);
    out.push_bytes(&entry.signers.mask().to_le_bytes());
    out.push_bytes(entry.identity.bytes());
    push_chi_square(out, chi_square_in(entry.standing));
}
