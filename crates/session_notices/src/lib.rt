//! What is said of a session on standard error: why it is refused, or a line for each operation that is answered otherwise than 0; and how
//! the session ends. Each text grows on the heap, for there may be as many lines as operations.
#![tactic(auto)]

pub mod claims;
mod noting;
mod saying;

pub use noting::notices;
pub use saying::{Ending, Said, told};
