//! A counted table in lent bytes: n places of w bytes each, one after another, ordered by the first
//! k bytes of each, its key; what follows the n places is zero. The register's summaries (36 bytes,
//! the key is all of them) and records (292 bytes, a key of 288) are such tables, and so are a track's
//! summaries (36 bytes, a key of 2).
#![tactic(auto)]

pub mod strikes;
pub mod table;
