//! The boards of rooms that take calls and join one another's registers. Nothing here runs: what is claimed stands in `claims`.
#![tactic(auto)]

pub mod claims;
