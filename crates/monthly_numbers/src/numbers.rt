//! The numbers of an engine.

ghost use Rattle.std.specs.Prelude.{◌≡◌, ◌≤◌, length};
ghost use Rattle.monthly_numbers.specs.Kept.{numbers_in, one_more, Below};

use crate::endings::{Ended, Ending};
use engines::Engine;
use register::layout::MAX_RECORDS;

/// How many held records an engine signed, at most 96, and how many of them have each ending.
#[derive(Clone, Copy, Debug, Default, PartialEq, Eq)]
pub struct Numbers {
    pub held: u8,
    pub ranked: u8,
    pub dominated: u8,
    pub refused: u8,
    pub other: u8,
    pub uncounted: u8,
}

impl Numbers {
    // Takes in one more record, which ends so.
    fn add(&mut self, ending: Ending)
        requires { Below 96 self.old }
        ensures { self.new ≡ one_more ending self.old }
    {
        self.held += 1;
        match ending {
            Ending::Ranked => self.ranked += 1,
            Ending::Dominated => self.dominated += 1,
            Ending::Refused => self.refused += 1,
            Ending::Other => self.other += 1,
            Ending::Uncounted => self.uncounted += 1,
        }
    }
}

/// Those of an engine.
pub fn engine_numbers(endings: &[Ended], engine: Engine) -> Numbers
    requires { length endings.now ≤ MAX_RECORDS }
    ensures { result ≡ numbers_in engine endings.now }
{
    let mut numbers = Numbers::default();
    for ended in endings {
        if ended.signers.contains(engine) {
            numbers.add(ended.ending);
        }
    }
    numbers
}
