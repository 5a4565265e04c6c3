//! The layout of a transmission in a track: limits, and where each part begins, each from the one before it.

use decision_items::layout::HASH_SIZE;
use record::layout::RECORD_SIZE;

/// How many fixes are kept beside the best, and how many refused.
pub const ALTERNATIVES: usize = 4;

pub const MAX_STANDING: usize = ALTERNATIVES + 1;

pub const MAX_REFUSED: usize = ALTERNATIVES;

pub const SIGNERS_AT: usize = RECORD_SIZE;

pub const INPUTS_AT: usize = SIGNERS_AT + 4;

pub const FIX_SIZE: usize = INPUTS_AT + HASH_SIZE;

pub const AGAINST_AT: usize = FIX_SIZE;

pub const CHI2_AT: usize = AGAINST_AT + HASH_SIZE;

pub const REFUSED_SIZE: usize = CHI2_AT + 8;

pub const FIX_COUNT_AT: usize = 0;

pub const REFUSED_COUNT_AT: usize = FIX_COUNT_AT + 1;

pub const FIXES_AT: usize = REFUSED_COUNT_AT + 1;

pub const REFUSED_AT: usize = FIXES_AT + MAX_STANDING * FIX_SIZE;

pub const TRANSMISSION_SIZE: usize = REFUSED_AT + MAX_REFUSED * REFUSED_SIZE;
