//! What is shown of a board: its transmissions, each decided once, the oldest first.
#![tactic(auto)]

mod deciding;
pub mod line;
pub mod part;
pub mod picture;

pub use line::Line;
pub use part::Counts;
pub use picture::Picture;
