//! Two rooms: the registers that two files hold, what each of them lacks, and how their boards differ, as lines of text. A text grows on the
//! heap, for there may be as many lines as two registers have signers.
#![tactic(auto)]

mod boards;
pub mod claims;
mod comparing;
mod lacking;
mod lines;
mod reading;

pub use comparing::{Compared, compare};
pub use lines::Room;
pub use reading::{Refusal, read};
