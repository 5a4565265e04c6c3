//! A session's bytes, read as calls on a register (docs/REFERENCE.md, 'Session'): the lines that are left, what is due on the next one, and
//! the first line that is bad.
#![tactic(auto)]

pub mod claims;
mod lines;
mod numbers;
mod reader;
mod session;
mod values;

pub use lines::{BadLine, Call, Due, Lines};
pub use numbers::split_once;
pub use session::check;
