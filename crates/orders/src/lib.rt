//! Whether the order of calls matters: to a track it does, to a board it does not. There is no code here but the claim.
#![tactic(auto)]

pub mod claims;
