//! What is taken out of a track: the fixes that its summaries no longer bear out, and an engine's signatures and summaries.
//! Every transmission is decided again without them.
#![tactic(auto)]

pub mod rechecks;
pub mod strikes;
