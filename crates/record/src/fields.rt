//! What a record says, as values, and the bytes that say it.

ghost use Rattle.std.specs.Prelude.{◌≡◌, ◌≤◌, ◌∷◌, ◌++◌, length};
ghost use Rattle.octets.specs.Words.{word_bytes};
ghost use Rattle.text.specs.Texts.{append};
ghost use Rattle.record.specs.Layout.{record_size, used_size, max_tags, max_models, long_message};
ghost use Rattle.record.specs.Encoded.{unsigned_of, pad, words, height_bytes, message_bytes, bytes_of, record_of};

use crate::formed;
use crate::layout::{COVARIANCE_NUMBERS, MAX_MODELS, MAX_TAGS, MESSAGE_ROOM, RECORD_SIZE};
use arrayvec::ArrayVec;
use std::marker::Model;
use text::{Append, Text};

/// What a record says. Any fields have bytes; which of them are a record, `record` answers.
#[derive(Drop)]
pub struct Fields {
    /// Transmit time, in nanoseconds.
    pub time: u64,
    /// In 1e-7 degree.
    pub latitude: i32,
    /// In 1e-7 degree.
    pub longitude: i32,
    /// In millimetres, where it is known.
    pub height: Option<i32>,
    pub message: ArrayVec<u8, MESSAGE_ROOM>,
    pub tags: ArrayVec<u64, MAX_TAGS>,
    /// Which tags were used: bit i stands for the i-th.
    pub used: u32,
    pub models: ArrayVec<u8, MAX_MODELS>,
    pub spec: u16,
    /// The bits of xx, xy, xz, yy, yz, zz.
    pub covariance: [u64; COVARIANCE_NUMBERS],
}

impl Model for Fields {
    ghost use Rattle.record.specs.Value.{Value as Said};

    ghost Value = { Said };

    ghost view = { λ f. record { time = f.time; latitude = f.latitude; longitude = f.longitude; height = f.height; message = f.message.items; tags = f.tags.items; used = f.used; models = f.models.items; spec = f.spec; covariance = f.covariance } };
}

// A signed number, as its bits.
fn push_signed(out: &mut Text, value: &i32)
    ensures { out.new ≡ append out.old (word_bytes 4 (unsigned_of value.now)) }
{
    out.push_bytes(&value.to_le_bytes());
}

// A height's flag and its number.
fn push_height(out: &mut Text, height: &Option<i32>)
    ensures { out.new ≡ append out.old (height_bytes height.now) }
{
    match height {
        Some(h) => {
            out.push_byte(1);
            push_signed(out, h);
        }
        None => out.push_bytes(&[0; 5]),
    }
}

// A message's length, and its bytes with zeros behind them.
fn push_message(out: &mut Text, message: &ArrayVec<u8, MESSAGE_ROOM>)
    ensures text { out.new ≡ append out.old (message_bytes message.now.items) }
    ensures fits { length message.now.items ≤ long_message }
{
    let bytes = message.as_slice();
    out.push_byte(bytes.len() as u8);
    out.push_bytes(bytes);
    out.push_bytes(&[0; MESSAGE_ROOM][bytes.len()..]);
}

// Numbers of 8 bytes each, one after another.
fn push_words(out: &mut Text, values: &[u64])
    ensures { out.new ≡ append out.old (words 8 values.now) }
{
    for value in values {
        out.push_bytes(&value.to_le_bytes());
    }
}

// How many tags there are, which of them were used, and the tags with zeros behind them.
fn push_tags(out: &mut Text, tags: &ArrayVec<u64, MAX_TAGS>, used: u32)
    ensures text { out.new ≡ append out.old (length tags.now.items ∷ (word_bytes used_size used ++ words 8 (pad max_tags tags.now.items))) }
    ensures fits { length tags.now.items ≤ max_tags }
{
    let tags = tags.as_slice();
    out.push_byte(tags.len() as u8);
    out.push_bytes(&used.to_le_bytes());
    push_words(out, tags);
    push_words(out, &[0; MAX_TAGS][tags.len()..]);
}

// How many models there are, and the models with zeros behind them.
fn push_models(out: &mut Text, models: &ArrayVec<u8, MAX_MODELS>)
    ensures text { out.new ≡ append out.old (length models.now.items ∷ words 1 (pad max_models models.now.items)) }
    ensures fits { length models.now.items ≤ max_models }
{
    let models = models.as_slice();
    out.push_byte(models.len() as u8);
    out.push_bytes(models);
    out.push_bytes(&[0; MAX_MODELS][models.len()..]);
}

impl Fields {
    // The fields one after another. They take as much whatever they say.
    fn push_to(&self, out: &mut Text)
        ensures text { out.new ≡ append out.old (bytes_of self.now) }
        ensures size { length (bytes_of self.now) ≡ record_size }
    {
        out.push_bytes(&self.time.to_le_bytes());
        push_signed(out, &self.latitude);
        push_signed(out, &self.longitude);
        push_height(out, &self.height);
        push_message(out, &self.message);
        push_tags(out, &self.tags, self.used);
        push_models(out, &self.models);
        out.push_bytes(&self.spec.to_le_bytes());
        push_words(out, &self.covariance);
    }

    // Writes the bytes that say this.
    fn write_to(&self, bytes: &mut [u8])
        requires { length bytes.old ≡ record_size }
        ensures { bytes.new ≡ bytes_of self.now }
    {
        let mut out = Text::new(bytes);
        self.push_to(&mut out);
    }

    /// The bytes that say this, be they a record or not.
    pub fn bytes(&self) -> [u8; RECORD_SIZE]
        ensures { result ≡ bytes_of self.now }
    {
        let mut bytes = [0; RECORD_SIZE];
        self.write_to(&mut bytes);
        bytes
    }

    /// The record that says this; none where a message has neither 7 nor 14 bytes, there is no tag, tags do not ascend, a tag that is
    /// not there was used, or a model is above the greatest.
    pub fn record(&self) -> Option<[u8; RECORD_SIZE]>
        ensures { result ≡ record_of self.now }
    {
        let bytes = self.bytes();
        if formed::well_formed(&bytes) {
            Some(bytes)
        } else {
            None
        }
    }
}
