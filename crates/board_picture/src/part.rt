//! A transmission in a list of lines.

ghost use Rattle.std.specs.Prelude.{◌≡◌, ◌<◌};
ghost use Rattle.board_picture.specs.Lines.{all_counted};
ghost use Rattle.board_picture.specs.Parts.{before};

/// How many fixes of a transmission are ranked, dominated and refused.
#[derive(Clone, Copy, Default)]
pub struct Counts {
    pub ranked: u8,
    pub dominated: u8,
    pub refused: u8,
}

impl Counts {
    /// How many there are together.
    pub fn all(&self) -> usize
        ensures value { result ≡ all_counted self.now }
        ensures fits { result < 768 }
    {
        self.ranked as usize + self.dominated as usize + self.refused as usize
    }
}

/// Where its lines begin and how many they are, and when its first ranked fix was sent and which it is.
#[derive(Clone, Copy, Default)]
pub struct Part {
    pub time: u64,
    pub first: u8,
    pub start: u8,
    pub counts: Counts,
}

impl Part {
    /// Whether it is older than another: by time, then by identity, in which the fixes ascend.
    pub fn is_older(&self, other: &Part) -> bool
        ensures { result ≡ before self.now other.now }
    {
        if self.time < other.time {
            return true;
        }
        if other.time < self.time {
            return false;
        }
        self.first < other.first
    }
}
