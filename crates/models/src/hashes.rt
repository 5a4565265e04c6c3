//! Hashes, each of a type of its own, and the bytes that they are worked out from.

ghost use Rattle.std.specs.Prelude.{◌≡◌, ◌++◌, ◌+◌, ◌≤◌, length};
ghost use Rattle.arrayvec.specs.ArrayVec.{array_vec_len};

use arrayvec::ArrayVec;
use octets::order::{equal, precedes};
use std::cmp::Ordering;
use std::marker::Model;

/// A hash's bytes.
pub const HASH_SIZE: usize = 32;

/// The inputs of the models that a record cites.
#[derive(Clone, Copy, Default)]
pub struct Inputs(pub [u8; HASH_SIZE]);

impl Model for Inputs {
    ghost use Rattle.std.specs.Prelude.{ℕ, List};

    ghost Value = { List ℕ };

    ghost view = { λ h. h.0 };

    ghost inverse = { λ bytes. record { 0 = bytes } };
}

impl Inputs {
    /// Its bytes.
    pub fn bytes(&self) -> &[u8; HASH_SIZE]
        ensures { result.now ≡ self.now }
    {
        &self.0
    }
}

impl PartialEq for Inputs {
    ghost use Rattle.octets.specs.Order.{same};
    ghost use Rattle.models.specs.Compared.{same-per};

    ghost eq = { same };

    ghost laws = { same-per };

    fn eq(&self, other: &Inputs) -> bool {
        equal(self.bytes(), other.bytes())
    }
}

impl Eq for Inputs {
    ghost use Rattle.models.specs.Compared.{same-equiv};

    ghost laws = { same-equiv };
}

/// What a record was worked out from.
#[derive(Clone, Copy, Default)]
pub struct SetHash(pub [u8; HASH_SIZE]);

impl Model for SetHash {
    ghost use Rattle.std.specs.Prelude.{ℕ, List};

    ghost Value = { List ℕ };

    ghost view = { λ h. h.0 };

    ghost inverse = { λ bytes. record { 0 = bytes } };
}

impl SetHash {
    /// Its bytes.
    pub fn bytes(&self) -> &[u8; HASH_SIZE]
        ensures { result.now ≡ self.now }
    {
        &self.0
    }
}

/// What a record is known by.
#[derive(Clone, Copy, Default)]
pub struct Identity(pub [u8; HASH_SIZE]);

impl Model for Identity {
    ghost use Rattle.std.specs.Prelude.{ℕ, List};

    ghost Value = { List ℕ };

    ghost view = { λ h. h.0 };

    ghost inverse = { λ bytes. record { 0 = bytes } };
}

impl Identity {
    /// Its bytes.
    pub fn bytes(&self) -> &[u8; HASH_SIZE]
        ensures { result.now ≡ self.now }
    {
        &self.0
    }
}

impl PartialEq for Identity {
    ghost use Rattle.octets.specs.Order.{same};
    ghost use Rattle.models.specs.Compared.{same-per};

    ghost eq = { same };

    ghost laws = { same-per };

    fn eq(&self, other: &Identity) -> bool {
        equal(self.bytes(), other.bytes())
    }
}

impl Eq for Identity {
    ghost use Rattle.models.specs.Compared.{same-equiv};

    ghost laws = { same-equiv };
}

// In the order of their bytes.
impl PartialOrd for Identity {
    ghost use Rattle.std.specs.Prelude.{Some};
    ghost use Rattle.models.specs.Compared.{byte_order, byte-order-partial};

    ghost partial_cmp = { λ a b. Some (byte_order a b) };

    ghost laws = { byte-order-partial };

    fn partial_cmp(&self, other: &Identity) -> Option<Ordering> {
        Some(self.cmp(other))
    }
}

impl Ord for Identity {
    ghost use Rattle.std.specs.Prelude.{refl};
    ghost use Rattle.models.specs.Compared.{byte_order, byte-order-total, same-tie};

    ghost cmp = { byte_order };

    ghost total = { byte-order-total };

    ghost matches_partial_cmp = { λ a b. refl };

    ghost matches_eq = { same-tie };

    fn cmp(&self, other: &Identity) -> Ordering {
        if precedes(self.bytes(), other.bytes()) {
            return Ordering::Less;
        }
        if precedes(other.bytes(), self.bytes()) {
            return Ordering::Greater;
        }
        Ordering::Equal
    }
}

/// Puts a piece after what is there.
pub fn join<const N: usize>(b: &mut ArrayVec<u8, N>, piece: &[u8])
    requires { array_vec_len b.old + length piece.now ≤ N }
    ensures items { b.new.items ≡ b.old.items ++ piece.now }
    ensures len { array_vec_len b.new ≡ array_vec_len b.old + length piece.now }
{
    let _ = b.try_extend_from_slice(piece);
}
