//! A record: one engine's fix of one transmission, in 288 lent bytes. A `Record` is made by `parse` alone, or where a caller shows
//! that the bytes are a record; so whoever has one asks for nothing more.
#![tactic(auto)]

ghost use Rattle.std.specs.Prelude.{◌≡◌, ◌≤◌, ◌<◌, ◌*◌, true, length, take, drop, is_some, IfSome};
ghost use Rattle.record.specs.Layout.{record_size, max_tags, max_models, long_message, tags_at};
ghost use Rattle.record.specs.Fields as F;
ghost use Rattle.record.specs.Formed.{well_formed};

pub mod claims;
mod fields;
pub mod formed;
pub mod layout;
pub mod relations;

pub use fields::Fields;

/// The fields of `formed` that the code goes by stand beside it, so that they are at hand wherever a record is.
#[derive(Clone, Copy)]
pub struct Record<'a> {
    pub bytes: &'a [u8],
    ghost formed: { well_formed bytes.now ≡ true },
    ghost size: { length bytes.now ≡ record_size },
    ghost message_fits: { F.message_length bytes.now ≤ long_message },
    ghost some_tag: { 1 ≤ F.tag_count bytes.now },
    ghost tags_fit: { F.tag_count bytes.now ≤ max_tags },
    ghost models_fit: { F.model_count bytes.now ≤ max_models },
}

// A record of nothing: a message of 7 zero bytes, and the tag 0.
static BLANK: [u8; layout::RECORD_SIZE] = [
    0, 0, 0, 0, 0, 0, 0, 0, 0, 0, 0, 0, 0, 0, 0, 0, 0, 0, 0, 0, 0, 7, 0, 0, 0, 0, 0, 0, 0, 0, 0, 0,
    0, 0, 0, 0, 1, 0, 0, 0, 0, 0, 0, 0, 0, 0, 0, 0, 0, 0, 0, 0, 0, 0, 0, 0, 0, 0, 0, 0, 0, 0, 0, 0,
    0, 0, 0, 0, 0, 0, 0, 0, 0, 0, 0, 0, 0, 0, 0, 0, 0, 0, 0, 0, 0, 0, 0, 0, 0, 0, 0, 0, 0, 0, 0, 0,
    0, 0, 0, 0, 0, 0, 0, 0, 0, 0, 0, 0, 0, 0, 0, 0, 0, 0, 0, 0, 0, 0, 0, 0, 0, 0, 0, 0, 0, 0, 0, 0,
    0, 0, 0, 0, 0, 0, 0, 0, 0, 0, 0, 0, 0, 0, 0, 0, 0, 0, 0, 0, 0, 0, 0, 0, 0, 0, 0, 0, 0, 0, 0, 0,
    0, 0, 0, 0, 0, 0, 0, 0, 0, 0, 0, 0, 0, 0, 0, 0, 0, 0, 0, 0, 0, 0, 0, 0, 0, 0, 0, 0, 0, 0, 0, 0,
    0, 0, 0, 0, 0, 0, 0, 0, 0, 0, 0, 0, 0, 0, 0, 0, 0, 0, 0, 0, 0, 0, 0, 0, 0, 0, 0, 0, 0, 0, 0, 0,
    0, 0, 0, 0, 0, 0, 0, 0, 0, 0, 0, 0, 0, 0, 0, 0, 0, 0, 0, 0, 0, 0, 0, 0, 0, 0, 0, 0, 0, 0, 0, 0,
    0, 0, 0, 0, 0, 0, 0, 0, 0, 0, 0, 0, 0, 0, 0, 0, 0, 0, 0, 0, 0, 0, 0, 0, 0, 0, 0, 0, 0, 0, 0, 0,
];

impl Default for Record<'_> {
    /// What an unused place of a list holds.
    fn default() -> Self {
        Record::of(&BLANK)
    }
}

impl<'a> Record<'a> {
    /// The record that these bytes are, if they are one.
    pub fn parse(bytes: &'a [u8]) -> Option<Record<'a>>
        ensures formed { is_some result ≡ well_formed bytes.now }
        ensures same { IfSome result (λ r. r.bytes.now ≡ bytes.now) }
    {
        if formed::well_formed(bytes) {
            Some(Record::of(bytes))
        } else {
            None
        }
    }

    /// The record that these bytes are known to be.
    pub fn of(bytes: &'a [u8]) -> Record<'a>
        requires { well_formed bytes.now ≡ true }
        ensures { result.bytes.now ≡ bytes.now }
    {
        Record { bytes }
    }

    /// Transmit time, in nanoseconds.
    pub fn time(self) -> u64
        ensures { result ≡ F.time self.entry.bytes.now }
    {
        octets::words::u64_at(self.bytes, layout::TIME_AT)
    }

    /// Latitude, in 1e-7 degree.
    pub fn latitude(self) -> i32
        ensures { result ≡ F.latitude self.entry.bytes.now }
    {
        octets::words::i32_at(self.bytes, layout::LAT_AT)
    }

    /// Longitude, in 1e-7 degree.
    pub fn longitude(self) -> i32
        ensures { result ≡ F.longitude self.entry.bytes.now }
    {
        octets::words::i32_at(self.bytes, layout::LON_AT)
    }

    /// Height in millimetres, where there is one.
    pub fn height(self) -> Option<i32>
        ensures { result ≡ F.height self.entry.bytes.now }
    {
        if self.bytes[layout::HEIGHT_FLAG_AT] == 1 {
            Some(octets::words::i32_at(self.bytes, layout::HEIGHT_AT))
        } else {
            None
        }
    }

    /// The message, of 7 or 14 bytes.
    pub fn message(self) -> &'a [u8]
        ensures value { result.now ≡ F.message self.entry.bytes.now }
        ensures size { length result.now ≡ F.message_length self.entry.bytes.now }
        ensures fits { length result.now ≤ long_message }
    {
        let end = layout::MESSAGE_AT + self.bytes[layout::MESSAGE_LENGTH_AT] as usize;
        let bytes = self.bytes;
        &bytes[layout::MESSAGE_AT..end]
    }

    /// The number of tags.
    pub fn tag_count(self) -> usize
        ensures value { result ≡ F.tag_count self.entry.bytes.now }
        ensures bounds { (1 ≤ result) × (result ≤ max_tags) }
    {
        self.bytes[layout::TAG_COUNT_AT] as usize
    }

    /// The i-th tag.
    pub fn tag(self, i: usize) -> u64
        requires { i < max_tags }
        ensures { result ≡ F.tag_at self.entry.bytes.now i }
    {
        octets::words::u64_at(self.bytes, layout::TAGS_AT + 8 * i)
    }

    /// The tags as they stand, each in 8 bytes with the lowest first.
    pub fn tag_bytes(self) -> &'a [u8]
        ensures value { result.now ≡ take (8 * F.tag_count self.entry.bytes.now) (drop tags_at self.entry.bytes.now) }
        ensures size { length result.now ≡ 8 * F.tag_count self.entry.bytes.now }
    {
        let end = layout::TAGS_AT + 8 * self.tag_count();
        let bytes = self.bytes;
        &bytes[layout::TAGS_AT..end]
    }

    /// Which tags were used: bit i stands for the i-th.
    pub fn used(self) -> u32
        ensures { result ≡ F.used self.entry.bytes.now }
    {
        octets::words::u32_at(self.bytes, layout::USED_AT)
    }

    /// The number of used tags.
    pub fn weight(self) -> u32
        ensures { result ≡ F.weight self.entry.bytes.now }
    {
        octets::masks::count_u32(self.used())
    }

    /// The models cited, in their order.
    pub fn models(self) -> &'a [u8]
        ensures value { result.now ≡ F.models self.entry.bytes.now }
        ensures few { length result.now ≤ max_models }
    {
        let end = layout::MODELS_AT + self.bytes[layout::MODEL_COUNT_AT] as usize;
        let bytes = self.bytes;
        &bytes[layout::MODELS_AT..end]
    }

    /// The spec.
    pub fn spec(self) -> u16
        ensures { result ≡ F.spec self.entry.bytes.now }
    {
        octets::words::u16_at(self.bytes, layout::SPEC_AT)
    }

    /// The bits of the i-th number of the covariance.
    pub fn covariance_bits(self, i: usize) -> u64
        requires { i < 6 }
        ensures { result ≡ F.covariance_bits self.entry.bytes.now i }
    {
        octets::words::u64_at(self.bytes, layout::COVARIANCE_AT + 8 * i)
    }
}
