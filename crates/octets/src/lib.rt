//! Bytes in lent slices: little-endian numbers, byte order, masks, runs of zeros and moves.
//!
//! Every layer above reads and writes memory through these. Where a function asks something of its
//! caller, it is that the bytes it names lie within the slice, or that a bit's number is below the
//! mask's width.
#![tactic(auto)]

pub mod claims;
pub mod masks;
pub mod order;
pub mod runs;
pub mod words;
