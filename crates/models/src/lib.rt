//! Models and identity: what the summaries held of a model say of it, which records count, and the
//! hashes that a record is known by; which bytes are a table of summaries, and a convicted engine's
//! summaries taken out of it.
//!
//! Summaries are lent as bytes, of which the first `count` places of 36 are used, and are gone through as an iterator; a record is
//! one by its type.
#![tactic(auto)]

pub mod citations;
pub mod claims;
pub mod formed;
pub mod hashes;
pub mod identities;
pub mod layout;
pub mod states;
pub mod strikes;
pub mod summaries;
