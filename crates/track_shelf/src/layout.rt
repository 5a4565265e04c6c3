//! The layout of a shelf: where each part begins, each from the one before it.

use record::layout::RECORD_SIZE;

/// The most fixes that wait beside a track.
pub const MAX_WAITING: usize = 64;

pub const MODEL_AT: usize = 0;

pub const ENGINE_AT: usize = MODEL_AT + 1;

pub const RECORD_AT: usize = ENGINE_AT + 1;

pub const PLACE_SIZE: usize = RECORD_AT + RECORD_SIZE;

pub const COUNT_AT: usize = 0;

pub const PLACES_AT: usize = COUNT_AT + 1;

pub const SHELF_SIZE: usize = PLACES_AT + MAX_WAITING * PLACE_SIZE;
