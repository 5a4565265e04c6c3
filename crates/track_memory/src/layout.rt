//! The layout of a track: where each part begins, each from the one before it.

use models::layout::{SPEC_AT, SUMMARIES_SIZE};
use track_arrange::MAX_TRANSMISSIONS;
use track_transmission::layout::TRANSMISSION_SIZE;

/// A summary's key: its engine and its model.
pub const PAIR_SIZE: usize = SPEC_AT;

pub const CONVICTED_AT: usize = 0;

pub const SUMMARY_COUNT_AT: usize = CONVICTED_AT + 4;

pub const TRANSMISSION_COUNT_AT: usize = SUMMARY_COUNT_AT + 2;

pub const ZERO_AT: usize = TRANSMISSION_COUNT_AT + 1;

pub const CONTESTED_AT: usize = ZERO_AT + 1;

pub const SUMMARIES_AT: usize = CONTESTED_AT + 8;

pub const TRANSMISSIONS_AT: usize = SUMMARIES_AT + SUMMARIES_SIZE;

pub const TRACK_SIZE: usize = TRANSMISSIONS_AT + MAX_TRANSMISSIONS * TRANSMISSION_SIZE;
