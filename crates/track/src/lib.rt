//! The track of one aircraft: the latest transmissions, each with the fixes that stand and those refused, the summaries,
//! and the engines convicted, in 33,856 lent bytes.
//!
//! report, summary and conviction take any numbers and any slices (docs/REFERENCE.md, 'Operations'); an error changes no byte.
#![tactic(auto)]

pub mod claims;
pub mod convictions;
pub mod reports;
pub mod summaries;
