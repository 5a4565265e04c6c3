//! What lines are read as, each from the whole text of its value.

ghost use Rattle.std.specs.Prelude.{◌≡◌, ℕ, List, Option, option_map};
ghost use Rattle.models.specs.Summary.{inputs_size};
ghost use Rattle.session_lines.specs.Numbers as Val;
ghost use Rattle.session_lines.specs.Operations.{kind_of};

use crate::lines::Kind;
use crate::numbers;
use arrayvec::ArrayVec;
use models::layout::INPUTS_SIZE;
use record::layout::{COVARIANCE_NUMBERS, MAX_MODELS, MAX_TAGS, MESSAGE_ROOM};
use std::marker::Model;

/// What the text of a line may be read as.
pub trait Value {
    // what a text says, where it is one of these values
    ghost reading: { List ℕ → Option Self };

    fn read(text: &[u8]) -> Option<Self>
        ensures { result ≡ reading text.now };
}

impl Value for u8 {
    ghost reading = { Val.read_number Val.u8 };

    fn read(text: &[u8]) -> Option<u8> {
        Some(numbers::number(text, 0xff)? as u8)
    }
}

impl Value for u16 {
    ghost reading = { Val.read_number Val.u16 };

    fn read(text: &[u8]) -> Option<u16> {
        Some(numbers::number(text, 0xffff)? as u16)
    }
}

impl Value for u32 {
    ghost reading = { Val.read_number Val.u32 };

    fn read(text: &[u8]) -> Option<u32> {
        Some(numbers::number(text, 0xffff_ffff)? as u32)
    }
}

impl Value for u64 {
    ghost reading = { Val.read_number Val.u64 };

    fn read(text: &[u8]) -> Option<u64> {
        numbers::number(text, u64::MAX)
    }
}

impl Value for i32 {
    ghost reading = { Val.read_signed };

    fn read(text: &[u8]) -> Option<i32> {
        numbers::signed(text)
    }
}

// A height, which may be unknown.
impl Value for Option<i32> {
    ghost reading = { Val.read_height };

    fn read(text: &[u8]) -> Option<Option<i32>> {
        numbers::height(text)
    }
}

// A summary's inputs.
impl Value for [u8; INPUTS_SIZE] {
    ghost reading = { Val.read_hex inputs_size };

    fn read(text: &[u8]) -> Option<[u8; INPUTS_SIZE]> {
        numbers::hex_array(text)
    }
}

impl Value for Kind {
    ghost reading = { kind_of };

    fn read(text: &[u8]) -> Option<Kind> {
        numbers::kind(text)
    }
}

/// The bytes of a message.
#[derive(Drop)]
pub struct Message(pub ArrayVec<u8, MESSAGE_ROOM>);

impl Model for Message {
    ghost Value = { List ℕ };

    ghost view = { λ m. m.0.items };
}

impl Value for Message {
    ghost reading = { Val.read_message };

    fn read(text: &[u8]) -> Option<Message> {
        Some(Message(numbers::message(text)?))
    }
}

/// Values with commas between, at least one, and no more than there is room for.
fn list<T: Value + Default + Drop, const ROOM: usize>(text: &[u8]) -> Option<ArrayVec<T, ROOM>>
    ensures { option_map (λ v. v.items) result ≡ Val.read_list T.reading ROOM text.now }
{
    let mut values = ArrayVec::new();
    let mut rest = text;
    while !values.is_full() {
        match numbers::split_once(rest, b',') {
            Some((first, others)) => {
                values.push(T::read(first)?);
                rest = others;
            }
            None => {
                values.push(T::read(rest)?);
                return Some(values);
            }
        }
    }
    None
}

/// The tags of a report.
#[derive(Drop)]
pub struct Tags(pub ArrayVec<u64, MAX_TAGS>);

impl Model for Tags {
    ghost Value = { List ℕ };

    ghost view = { λ t. t.0.items };
}

impl Value for Tags {
    ghost reading = { Val.read_tags };

    fn read(text: &[u8]) -> Option<Tags> {
        Some(Tags(list(text)?))
    }
}

/// The models that a report cites, of which there may be none.
#[derive(Drop)]
pub struct Models(pub ArrayVec<u8, MAX_MODELS>);

impl Model for Models {
    ghost Value = { List ℕ };

    ghost view = { λ m. m.0.items };
}

impl Value for Models {
    ghost reading = { Val.read_models };

    #[tactic(auto, unfolding(crate::specs::Numbers::read_models))]
    fn read(text: &[u8]) -> Option<Models> {
        if text == b"none".as_slice() {
            return Some(Models(ArrayVec::new()));
        }
        Some(Models(list(text)?))
    }
}

/// The bits of a covariance's six numbers; as they are written, in memory, is what a line says.
#[derive(Drop)]
pub struct Covariance(pub [u64; COVARIANCE_NUMBERS]);

impl Model for Covariance {
    ghost use Rattle.std.specs.Prelude.{List, ℕ};
    ghost use Rattle.record.specs.Encoded.{words};

    ghost Value = { List ℕ };

    ghost view = { λ c. words 8 c.0 };
}

impl Value for Covariance {
    ghost reading = { Val.read_covariance };

    fn read(text: &[u8]) -> Option<Covariance> {
        Some(Covariance(numbers::covariance(text)?))
    }
}
