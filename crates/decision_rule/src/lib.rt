//! The rule of a decision, over the items as values: who supersedes, who is superseded, who is refused and against whom, who is
//! dominated, and who ranks before whom. Each two items are compared once (`compared`); who is what is a set of places
//! (`settled`).
#![tactic(auto)]

pub mod compared;
pub mod listed;
mod pairs;
pub mod places;
pub mod row;
pub mod settled;
