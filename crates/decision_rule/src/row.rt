//! What is known of an item alone, and of it and each other.

ghost use Rattle.std.specs.Prelude.{◌≡◌};

use crate::places::Places;
use geometry::linalg::Factor;

/// What is known of the factor of an item's covariance: nothing yet, or what it is, if there is one.
pub type KnownFactor = Option<Option<Factor>>;

/// How an item stands to each other.
#[derive(Clone, Copy)]
pub struct Row {
    /// Its consistent subsets that it disagrees with.
    pub disagreeing: Places,
    /// Those of them that it does not outstand.
    pub resisting: Places,
    /// Its subsets.
    pub subsets: Places,
}

impl Row {
    pub fn empty() -> Row
        ensures { result ≡ record { disagreeing = record { word = 0 }; resisting = record { word = 0 }; subsets = record { word = 0 } } }
    {
        Row {
            disagreeing: Places::none(),
            resisting: Places::none(),
            subsets: Places::none(),
        }
    }
}
