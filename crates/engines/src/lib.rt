//! Engines, and sets of them.
#![tactic(auto)]

ghost use Rattle.std.specs.Prelude.{◌≡◌, ◌<◌, IfSome, is_some, nat_lt, nat_eq, bit_and, bit_or};
ghost use Rattle.octets.specs.Masks.{bit, with_bit, without_bit};

use std::marker::Model;

/// The greatest number of an engine.
pub const MAX_ENGINE: u32 = 31;

/// An engine, 0 to 31. In a contract it is its number.
#[derive(Clone, Copy, PartialEq, Eq)]
pub struct Engine {
    number: u8,
}

impl Model for Engine {
    ghost use Rattle.std.specs.Prelude.{ℕ, ◌<◌};

    ghost Value = { ℕ };

    ghost view = { λ e. e.number };

    ghost invariant = { λ e. e.number < 32 };

    ghost inverse = { λ n. record { number = n } };
}

impl Engine {
    /// The engine of this number, if there is one.
    pub fn new(number: u32) -> Option<Engine>
        ensures small { is_some result ≡ nat_lt number 32 }
        ensures same { IfSome result (λ e. e ≡ number) }
    {
        if number <= MAX_ENGINE {
            Some(Engine {
                number: number as u8,
            })
        } else {
            None
        }
    }

    /// Its number, 0 to 31.
    pub fn number(self) -> u8
        ensures number { result ≡ self }
        ensures small { result < 32 }
    {
        self.number
    }
}

/// A set of engines, as those that signed a record. In a contract it is its mask: bit n stands for engine n.
#[derive(Clone, Copy, Default, PartialEq, Eq)]
pub struct Signers(u32);

impl Model for Signers {
    ghost use Rattle.std.specs.Prelude.{ℕ};

    ghost Value = { ℕ };

    ghost view = { λ s. s.0 };

    ghost inverse = { λ n. record { 0 = n } };
}

impl Signers {
    /// The engines of a mask.
    pub fn from_mask(mask: u32) -> Signers
        ensures { result ≡ mask }
    {
        Signers(mask)
    }

    /// Its mask.
    pub fn mask(self) -> u32
        ensures { result ≡ self }
    {
        self.0
    }

    /// Whether no engine is in it.
    pub fn is_empty(self) -> bool
        ensures { result ≡ nat_eq self 0 }
    {
        self.0 == 0
    }

    /// Whether an engine is in it.
    pub fn contains(self, engine: Engine) -> bool
        ensures { result ≡ bit self engine }
    {
        octets::masks::has_u32(self.0, engine.number() as u32)
    }

    /// The set with an engine, 0 to 31.
    pub fn with(self, engine: Engine) -> Signers
        ensures set { result ≡ with_bit self engine }
        ensures small { engine < 32 }
    {
        Signers(octets::masks::with_u32(self.0, engine.number() as u32))
    }

    /// The set without an engine.
    pub fn without(self, engine: Engine) -> Signers
        ensures { result ≡ without_bit self engine }
    {
        Signers(octets::masks::without_u32(self.0, engine.number() as u32))
    }

    /// The engines that are in either.
    pub fn union(self, other: Signers) -> Signers
        ensures { result ≡ bit_or self other }
    {
        Signers(self.0 | other.0)
    }

    /// Whether no engine is in both.
    pub fn is_disjoint(self, other: Signers) -> bool
        ensures { result ≡ nat_eq (bit_and self other) 0 }
    {
        self.0 & other.0 == 0
    }
}
