//! A text that grows in a lent buffer: words, decimal and hexadecimal numbers, numbers with decimals, and heights in whole metres. What there is no room for
//! is left out, so a caller who must have it all shows at the end that the whole text fits.
#![tactic(auto)]

ghost use Rattle.std.specs.Prelude.{◌≡◌, ◌+◌, ◌≤◌, ◌<◌, ◌++◌, [], ◌∷◌, length, take, drop};
ghost use Rattle.text.specs.Numbers.{decimal, signed_decimal, hex_digit, hex};
ghost use Rattle.text.specs.Decimals.{with_decimals, signed_with_decimals};
ghost use Rattle.text.specs.Heights.{rounded_metres, metres};

use itoa::Buffer;

pub mod claims;
mod values;

pub use values::{Append, Decimals, Hex, Metres, write};

/// A text in a lent buffer, from its first byte on.
#[derive(Drop)]
pub struct Text<'a> {
    out: &'a mut [u8],
    len: usize,
}

impl<'a> Text<'a> {
    ghost use Rattle.text.specs.Texts.{empty_text, append};

    /// No text yet, in this buffer.
    pub fn new(out: &'a mut [u8]) -> Text<'a>
        ensures { result ≡ empty_text out.entry }
    {
        Text { out, len: 0 }
    }

    /// How many bytes have been written.
    pub fn len(&self) -> usize
        ensures { result ≡ self.now.len }
    {
        self.len
    }

    /// Appends a byte.
    #[tactic(auto, unfolding(crate::specs::Texts::bytes_after, crate::specs::Texts::length_after))]
    pub fn push_byte(&mut self, byte: u8)
        ensures { self.new ≡ append self.old (byte ∷ []) }
    {
        if self.len < self.out.len() {
            self.out[self.len] = byte;
            self.len += 1;
        }
    }

    /// Appends bytes.
    #[tactic(auto, unfolding(crate::specs::Texts::bytes_after, crate::specs::Texts::length_after))]
    pub fn push_bytes(&mut self, word: &[u8])
        ensures { self.new ≡ append self.old word.now }
    {
        if word.len() < self.out.len().saturating_sub(self.len) {
            let end = self.len + word.len();
            self.out[self.len..end].copy_from_slice(word);
            self.len = end;
        } else {
            for byte in word {
                self.push_byte(*byte);
            }
        }
    }

    /// Appends a word.
    pub fn push_str(&mut self, word: &str)
        ensures { self.new ≡ append self.old word.now }
    {
        self.push_bytes(word.as_bytes());
    }

    /// n in decimal.
    pub fn push_u64(&mut self, n: u64)
        ensures { self.new ≡ append self.old (decimal n) }
    {
        self.push_str(Buffer::new().format(n));
    }

    /// v in decimal, with a minus where it is negative.
    pub fn push_i32(&mut self, v: i32)
        ensures { self.new ≡ append self.old (signed_decimal v) }
    {
        self.push_str(Buffer::new().format(v));
    }

    /// The whole metres of a height in millimetres, in decimal.
    pub fn push_metres(&mut self, height: i32)
        ensures { self.new ≡ append self.old (signed_decimal (metres height)) }
    {
        self.push_i32(whole_metres(height));
    }

    // n in decimal. A function of its own, so that the next, which calls itself, has a small frame.
    #[inline(never)]
    fn push_whole(&mut self, n: u64)
        ensures { self.new ≡ append self.old (decimal n) }
    {
        self.push_u64(n);
    }

    // n in units of the last of k decimals.
    fn push_unsigned(&mut self, k: usize, n: u64)
        ensures { self.new ≡ append self.old (with_decimals k n) }
    {
        if k == 0 {
            self.push_whole(n);
            return;
        }
        self.push_unsigned(k - 1, n / 10);
        if k == 1 {
            self.push_byte(b'.');
        }
        self.push_byte(48 + (n % 10) as u8);
    }

    /// v in units of the last of k decimals, with a minus where it is negative.
    pub fn push_decimals(&mut self, k: usize, v: i32)
        ensures { self.new ≡ append self.old (signed_with_decimals k v) }
    {
        if v < 0 {
            self.push_byte(b'-');
        }
        self.push_unsigned(k, v.unsigned_abs() as u64);
    }

    /// The k lowest hex digits of n, highest first.
    pub fn push_hex(&mut self, k: usize, n: u64)
        ensures { self.new ≡ append self.old (hex k n) }
    {
        if k != 0 {
            self.push_hex(k - 1, n / 16);
            self.push_byte(hex_digit((n % 16) as u8));
        }
    }
}

/// A hex digit.
pub fn hex_digit(d: u8) -> u8
    requires { d < 16 }
    ensures { result ≡ hex_digit d }
{
    if d < 10 { 48 + d } else { 87 + d }
}

// How many metres n millimetres are: the nearest; of two equally near the even one.
fn rounded_metres(n: u32) -> u32
    ensures { result ≡ rounded_metres n }
{
    ((n as u64 + 499 + n as u64 / 1000 % 2) / 1000) as u32
}

// The nearest whole metres of a height in millimetres; of two equally near the even one.
fn whole_metres(height: i32) -> i32
    ensures { result ≡ metres height }
{
    let rounded = rounded_metres(height.unsigned_abs()) as i32;
    if height < 0 { -rounded } else { rounded }
}
