//! A fix: a record that is lent, what it is known by, and who signed it.

ghost use Rattle.std.specs.Prelude.{◌≡◌};
ghost use Rattle.std.specs.Int.Bits.{bit_or};
ghost use Rattle.octets.specs.Order.{same};
ghost use Rattle.models.specs.Compared.{byte_order};
ghost use Rattle.fixes.specs.Fix.{with_signers};
ghost use Rattle.fixes.specs.Shown.{lower};
ghost use Rattle.fixes.specs.Decided.{IsFix};
ghost use Rattle.fixes.specs.Made.{fix_from};

use decision_items::Item;
use engines::Signers;
use models::hashes::{Identity, Inputs};
use models::identities;
use record::Record;
use std::cmp::Ordering;
use std::marker::Model;

/// A fix of a board or of a track. Its identity is worked out where it is made: that takes two hashes.
#[derive(Default, Drop)]
pub struct Fix<'a> {
    pub identity: Identity,
    /// The record that represents it.
    pub report: Record<'a>,
    /// The model inputs of that record.
    pub inputs: Inputs,
    /// The engines that signed a record of this identity.
    pub signers: Signers,
}

impl<'a> Model for Fix<'a> {
    ghost use Rattle.fixes.specs.Fix as S;

    ghost Value = { S.Fix };

    ghost view = { λ f. record { identity = f.identity; record_bytes = f.report.bytes.now; inputs = f.inputs; signers = f.signers } };
}

impl<'a> Fix<'a> {
    /// A record that counts as a fix, with its model inputs and its signers.
    pub fn of(report: Record<'a>, inputs: Inputs, signers: Signers) -> Fix<'a>
        ensures { result ≡ fix_from report.entry.bytes.now inputs signers }
    {
        let set = identities::set_hash(report);
        Fix {
            identity: identities::identity(&set, &inputs),
            report,
            inputs,
            signers,
        }
    }

    /// The same fix.
    pub fn copied(&self) -> Fix<'a>
        ensures { result ≡ self.now }
    {
        Fix {
            identity: self.identity,
            report: self.report,
            inputs: self.inputs,
            signers: self.signers,
        }
    }

    /// Adds engines to its signers.
    pub fn sign(&mut self, engines: Signers)
        ensures { self.new ≡ with_signers (bit_or self.old.signers engines) self.old }
    {
        self.signers = self.signers.union(engines);
    }

    /// Whether it has the identity of another fix.
    pub fn is_of(&self, other: &Fix<'_>) -> bool
        ensures { result ≡ same self.now.identity other.now.identity }
    {
        self.identity == other.identity
    }

    /// Whether its identity comes before that of another fix.
    pub fn precedes(&self, other: &Fix<'_>) -> bool
        ensures { result ≡ lower self.now other.now }
    {
        self.identity < other.identity
    }

    /// How two fixes stand in the order of identities.
    pub fn compare(&self, other: &Fix<'_>) -> Ordering
        ensures { result ≡ byte_order self.now.identity other.now.identity }
    {
        self.identity.cmp(&other.identity)
    }

    /// It as an item of a decision.
    pub fn item(&self) -> Item<'_>
        ensures { IsFix self.now result }
    {
        crate::item_of(self.report, self.inputs.bytes(), self.identity.bytes())
    }
}
