//! A record made of what it says, and what a record is known by, for other products.
#![tactic(auto)]

pub mod claims;
pub mod faults;
pub mod known;
pub mod written;
