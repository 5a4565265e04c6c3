//! Why bytes are no record. `record::Record::parse` says no more than that they are none.

ghost use Rattle.std.specs.Prelude.{◌≡◌, ◌<◌, ◌≤◌, ◌+◌, ◌-◌, ◌*◌, ◌^◌, ◌||◌, ◌++◌, eqb, ltb, take, drop};
ghost use Rattle.octets.specs.Runs.{all_zero};
ghost use Rattle.record.specs.Layout.{max_tags, max_models, max_model, short_message, long_message, height_flag_at, height_at, message_at, tags_at, models_at};
ghost use Rattle.record.specs.Fields.{byte_at, message_length, tag_count, used, tags, model_count, tag_at, tags_from};
ghost use Rattle.record.specs.Formed.{ascends, all_up_to};
ghost use Rattle.record_values.specs.Faults.{height_checks, message_checks, tag_checks, model_checks, first_failing, fault_number};
ghost use Rattle.record_values.specs.Numbers.{fault_number_of, found_number};

use octets::runs::is_zero;
use octets::words::{u32_at, u64_at};
use record::layout::{
    HEIGHT_AT, HEIGHT_FLAG_AT, LONG_MESSAGE, MAX_MODEL, MAX_MODELS, MAX_TAGS, MESSAGE_AT,
    MESSAGE_LENGTH_AT, MODEL_COUNT_AT, MODELS_AT, RECORD_SIZE, SHORT_MESSAGE, SPEC_AT,
    TAG_COUNT_AT, TAGS_AT, USED_AT,
};

/// The first check that bytes fail which are no record, in the order in which a record's fields stand.
#[derive(Clone, Copy)]
pub enum Fault {
    /// There are not as many as a record has.
    Length,
    /// The height's flag is neither 0 nor 1.
    HeightFlag,
    /// There is no height, and its bytes are not zero.
    HeightRoom,
    /// The message has neither 7 nor 14 bytes.
    MessageLength,
    /// Bytes behind the message are not zero.
    MessageRoom,
    /// There is no tag.
    NoTag,
    /// There are more tags than a record has room for.
    TooManyTags,
    /// A tag that is not there was used.
    UsedMask,
    /// Tags do not ascend strictly.
    TagOrder,
    /// Bytes behind the tags are not zero.
    TagRoom,
    /// There are more models than a record has room for.
    TooManyModels,
    /// A model is above the greatest.
    Model,
    /// Bytes behind the models are not zero.
    ModelRoom,
}

impl Fault {
    /// Its number: 1 for the first check, and so on.
    pub fn number(self) -> u32
        ensures { result ≡ fault_number_of self }
    {
        match self {
            Fault::Length => 1,
            Fault::HeightFlag => 2,
            Fault::HeightRoom => 3,
            Fault::MessageLength => 4,
            Fault::MessageRoom => 5,
            Fault::NoTag => 6,
            Fault::TooManyTags => 7,
            Fault::UsedMask => 8,
            Fault::TagOrder => 9,
            Fault::TagRoom => 10,
            Fault::TooManyModels => 11,
            Fault::Model => 12,
            Fault::ModelRoom => 13,
        }
    }
}

/// The number of a fault, and 0 where there is none.
pub fn found_number(found: Option<Fault>) -> u32
    ensures { result ≡ found_number found }
{
    match found {
        Some(fault) => fault.number(),
        None => 0,
    }
}

// Whether there is a height, or its bytes are zero.
fn height_room(r: &[u8; RECORD_SIZE]) -> bool
    ensures { result ≡ (eqb (byte_at height_flag_at r.now) 1 || all_zero (take 4 (drop height_at r.now))) }
{
    r[HEIGHT_FLAG_AT] == 1 || is_zero(&r[HEIGHT_AT..MESSAGE_LENGTH_AT])
}

#[tactic(auto, unfolding(crate::specs::Faults::first_failing))]
fn height_fault(r: &[u8; RECORD_SIZE]) -> Option<Fault>
    ensures { found_number result ≡ first_failing 2 (height_checks r.now) }
{
    if r[HEIGHT_FLAG_AT] > 1 {
        return Some(Fault::HeightFlag);
    }
    if !height_room(r) {
        return Some(Fault::HeightRoom);
    }
    None
}

// Whether the message has a due length.
fn message_due(r: &[u8; RECORD_SIZE]) -> bool
    ensures { result ≡ (eqb (message_length r.now) short_message || eqb (message_length r.now) long_message) }
{
    r[MESSAGE_LENGTH_AT] == SHORT_MESSAGE || r[MESSAGE_LENGTH_AT] == LONG_MESSAGE
}

// Whether the bytes behind the message are zero.
fn message_room(r: &[u8; RECORD_SIZE]) -> bool
    requires { message_length r.now ≤ long_message }
    ensures { result ≡ all_zero (take (long_message - message_length r.now) (drop (message_at + message_length r.now) r.now)) }
{
    let n = r[MESSAGE_LENGTH_AT] as usize;
    is_zero(&r[MESSAGE_AT + n..TAG_COUNT_AT])
}

#[tactic(auto, unfolding(crate::specs::Faults::first_failing))]
fn message_fault(r: &[u8; RECORD_SIZE]) -> Option<Fault>
    ensures { found_number result ≡ first_failing 4 (message_checks r.now) }
{
    if !message_due(r) {
        return Some(Fault::MessageLength);
    }
    if !message_room(r) {
        return Some(Fault::MessageRoom);
    }
    None
}

// Whether the tags ascend strictly.
fn tags_ascend(r: &[u8; RECORD_SIZE]) -> bool
    requires some { 1 ≤ tag_count r.now }
    requires few { tag_count r.now ≤ max_tags }
    ensures { result ≡ ascends (tags r.now) }
{
    let mut last = u64_at(r, TAGS_AT);
    for i in 1..r[TAG_COUNT_AT] as usize {
        let tag = u64_at(r, TAGS_AT + 8 * i);
        if tag <= last {
            return false;
        }
        last = tag;
    }
    true
}

// Whether the bytes behind the tags are zero.
fn tag_room(r: &[u8; RECORD_SIZE]) -> bool
    requires { tag_count r.now ≤ max_tags }
    ensures { result ≡ all_zero (take (8 * (max_tags - tag_count r.now)) (drop (tags_at + 8 * tag_count r.now) r.now)) }
{
    let n = r[TAG_COUNT_AT] as usize;
    is_zero(&r[TAGS_AT + 8 * n..MODEL_COUNT_AT])
}

// Whether no bit of the mask stands at or above the number of tags.
fn mask_fits(r: &[u8; RECORD_SIZE]) -> bool
    requires { tag_count r.now ≤ max_tags }
    ensures { result ≡ ltb (used r.now) (2 ^ tag_count r.now) }
{
    u32_at(r, USED_AT) < 1u32 << (r[TAG_COUNT_AT] as u32)
}

#[tactic(auto, unfolding(crate::specs::Faults::first_failing))]
fn tag_fault(r: &[u8; RECORD_SIZE]) -> Option<Fault>
    ensures { found_number result ≡ first_failing 6 (tag_checks r.now) }
{
    let n = r[TAG_COUNT_AT] as usize;
    if n < 1 {
        return Some(Fault::NoTag);
    }
    if n > MAX_TAGS {
        return Some(Fault::TooManyTags);
    }
    if !mask_fits(r) {
        return Some(Fault::UsedMask);
    }
    if !tags_ascend(r) {
        return Some(Fault::TagOrder);
    }
    if !tag_room(r) {
        return Some(Fault::TagRoom);
    }
    None
}

// Whether none of these bytes is above the greatest model number.
fn all_models(s: &[u8]) -> bool
    ensures { result ≡ all_up_to max_model s.now }
{
    s.iter().all(|m| *m <= MAX_MODEL)
}

// Whether the bytes behind the models are zero.
fn model_room(r: &[u8; RECORD_SIZE]) -> bool
    requires { model_count r.now ≤ max_models }
    ensures { result ≡ all_zero (take (max_models - model_count r.now) (drop (models_at + model_count r.now) r.now)) }
{
    let n = r[MODEL_COUNT_AT] as usize;
    is_zero(&r[MODELS_AT + n..SPEC_AT])
}

#[tactic(auto, unfolding(crate::specs::Faults::first_failing))]
fn model_fault(r: &[u8; RECORD_SIZE]) -> Option<Fault>
    ensures { found_number result ≡ first_failing 11 (model_checks r.now) }
{
    let n = r[MODEL_COUNT_AT] as usize;
    if n > MAX_MODELS {
        return Some(Fault::TooManyModels);
    }
    if !all_models(&r[MODELS_AT..MODELS_AT + n]) {
        return Some(Fault::Model);
    }
    if !model_room(r) {
        return Some(Fault::ModelRoom);
    }
    None
}

// The first fault of the tags and the models.
fn fault_behind(r: &[u8; RECORD_SIZE]) -> Option<Fault>
    ensures { found_number result ≡ first_failing 6 (tag_checks r.now ++ model_checks r.now) }
{
    match tag_fault(r) {
        Some(fault) => Some(fault),
        None => model_fault(r),
    }
}

// The first fault of the message, the tags and the models.
fn fault_from_message(r: &[u8; RECORD_SIZE]) -> Option<Fault>
    ensures { found_number result ≡ first_failing 4 (message_checks r.now ++ (tag_checks r.now ++ model_checks r.now)) }
{
    match message_fault(r) {
        Some(fault) => Some(fault),
        None => fault_behind(r),
    }
}

// The first fault of so many bytes as a record has.
fn fault_of(r: &[u8; RECORD_SIZE]) -> Option<Fault>
    ensures { found_number result ≡ first_failing 2 (height_checks r.now ++ (message_checks r.now ++ (tag_checks r.now ++ model_checks r.now))) }
{
    match height_fault(r) {
        Some(fault) => Some(fault),
        None => fault_from_message(r),
    }
}

/// The first check that bytes fail, if they are no record.
#[tactic(auto, unfolding(crate::specs::Faults::first_failing))]
pub fn first_fault(bytes: &[u8]) -> Option<Fault>
    ensures { found_number result ≡ fault_number bytes.now }
{
    match <&[u8; RECORD_SIZE]>::try_from(bytes) {
        Ok(r) => fault_of(r),
        Err(_) => Some(Fault::Length),
    }
}
