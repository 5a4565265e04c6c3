//! Sets of places.

ghost use Rattle.std.specs.Prelude.{◌≡◌, ◌&&◌, ◌*◌, ◌/◌, ◌^◌, ◌<◌, nat_eq, nat_lt, bit_or, bit_and};
ghost use Rattle.std.specs.Int.{bit_not, w128};
ghost use Rattle.decision_rule.specs.Places.{has_place};

/// Some of the places 0 to 95.
#[derive(Clone, Copy)]
pub struct Places {
    word: u128,
}

impl Places {
    pub fn none() -> Places
        ensures { result.word ≡ 0 }
    {
        Places { word: 0 }
    }

    pub fn contains(self, i: usize) -> bool
        ensures { result ≡ nat_lt i 96 && has_place self.word i }
    {
        i < 96 && (self.word >> i) & 1 == 1
    }

    pub fn insert(&mut self, i: usize)
        requires { i < 96 }
        ensures { self.new.word ≡ bit_or self.old.word (2 ^ i) }
    {
        self.word |= 1u128 << i;
    }

    /// Whether place 0 is one of them; then each other is a place lower.
    pub fn shift(&mut self) -> bool
        ensures { (result ≡ has_place self.old.word 0) × (self.new.word ≡ self.old.word / 2) }
    {
        let is_first = self.word & 1 == 1;
        self.word >>= 1;
        is_first
    }

    pub fn union(self, other: Places) -> Places
        ensures { result.word ≡ bit_or self.word other.word }
    {
        Places {
            word: self.word | other.word,
        }
    }

    pub fn without(self, other: Places) -> Places
        ensures { result.word ≡ bit_and self.word (bit_not w128 other.word) }
    {
        Places {
            word: self.word & !other.word,
        }
    }

    pub fn is_empty(self) -> bool
        ensures { result ≡ nat_eq self.word 0 }
    {
        self.word == 0
    }
}
