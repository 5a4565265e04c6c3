//! The layout of an item: a record, model inputs, an identity, standing, and three flags.

pub const MAX_ITEMS: usize = 96;

pub const HASH_SIZE: usize = 32;

/// The numbers that say that an item was verified, and passed or failed.
pub const PASSED: u8 = 1;

pub const FAILED: u8 = 2;

pub const INPUTS_AT: usize = record::layout::RECORD_SIZE;

pub const IDENTITY_AT: usize = INPUTS_AT + HASH_SIZE;

pub const STANDING_AT: usize = IDENTITY_AT + HASH_SIZE;

pub const CONSISTENT_AT: usize = STANDING_AT + 8;

pub const PREFERRED_AT: usize = CONSISTENT_AT + 1;

pub const VERIFIED_AT: usize = PREFERRED_AT + 1;

pub const ITEM_SIZE: usize = VERIFIED_AT + 1;
