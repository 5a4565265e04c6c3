//! The values of lines, each from the whole text of a value.

ghost use Rattle.std.specs.Prelude.{◌≡◌, ◌+◌, ◌≤◌, ◌<◌, ◌==◌, ◌&&◌, nat_lt, slice_index, length, take, drop, reverse, IfSome, option_map, position};
ghost use Rattle.octets.specs.Words.{word_bytes};
ghost use Rattle.record.specs.Encoded.{words};
ghost use Rattle.session_lines.specs.Numbers as Val;
ghost use Rattle.session_lines.specs.Operations.{kind_of};

use crate::lines::Kind;
use arrayvec::ArrayVec;
use record::layout::{COVARIANCE_NUMBERS, COVARIANCE_SIZE, MESSAGE_ROOM, SHORT_MESSAGE};

// Where a byte stands first.
fn find(bytes: &[u8], byte: u8) -> Option<usize>
    ensures value { result ≡ position (λ b. b == byte) bytes.now }
    ensures bound { IfSome result (λ i. i < length bytes.now) }
{
    bytes.iter().position(|b| *b == byte)
}

/// What stands before the first separator, and what behind it.
pub fn split_once(bytes: &[u8], separator: u8) -> Option<(&[u8], &[u8])>
    ensures value { option_map (λ x. (x.0.now, x.1.now)) result ≡ Val.split_once separator bytes.now }
    ensures shorter { IfSome result (λ x. length x.1.now < length bytes.now) }
{
    let end = find(bytes, separator)?;
    Some((&bytes[..end], &bytes[end + 1..]))
}

// The digits of a number of at most `most`.
#[tactic(auto, using(crate::proofs::Texts::digits_steps))]
fn digits(text: &[u8], most: u64) -> Option<u64>
    ensures value { result ≡ Val.digits_after most 0 text.now }
    ensures bound { IfSome result (λ n. n ≤ most) }
{
    let mut value: u64 = 0;
    for d in text {
        let low = match *d {
            b'0'..=b'9' => (*d - b'0') as u64,
            _ => return None,
        };
        value = value.checked_mul(10)?.checked_add(low)?;
        if most < value {
            return None;
        }
    }
    Some(value)
}

// Whether a zero stands before further digits.
fn has_leading_zero(text: &[u8]) -> bool
    ensures { result ≡ (nat_lt 1 (length text.now) && slice_index text.now 0 == 48) }
{
    1 < text.len() && text[0] == b'0'
}

/// A number of at most `most`, in decimal without leading zeros.
#[tactic(auto, unfolding(crate::specs::Numbers::read_number))]
pub fn number(text: &[u8], most: u64) -> Option<u64>
    ensures value { result ≡ Val.read_number most text.now }
    ensures bound { IfSome result (λ n. n ≤ most) }
{
    if text.is_empty() || has_leading_zero(text) {
        return None;
    }
    digits(text, most)
}

/// A number of 32 bits, with a minus only where it is negative.
#[tactic(auto, unfolding(crate::specs::Numbers::read_signed))]
pub fn signed(text: &[u8]) -> Option<i32>
    ensures { result ≡ Val.read_signed text.now }
{
    match text.strip_prefix(b"-") {
        Some(magnitude) => match number(magnitude, 0x8000_0000)? {
            0 => None,
            n => Some(-(n as i64) as i32),
        },
        None => Some(number(text, 0x7fff_ffff)? as i32),
    }
}

/// A height, which may be unknown.
#[tactic(auto, unfolding(crate::specs::Numbers::read_height))]
pub fn height(text: &[u8]) -> Option<Option<i32>>
    ensures { result ≡ Val.read_height text.now }
{
    if text == b"none".as_slice() {
        return Some(None);
    }
    Some(Some(signed(text)?))
}

// The value of a lowercase hex digit.
fn nibble(c: u8) -> Option<u8>
    ensures value { result ≡ Val.nibble c }
    ensures bound { IfSome result (λ n. n < 16) }
{
    match c {
        b'0'..=b'9' => Some(c - b'0'),
        b'a'..=b'f' => Some(c - b'a' + 10),
        _ => None,
    }
}

// The byte that two hex digits make.
fn hex_byte(high: u8, low: u8) -> Option<u8>
    ensures { result ≡ Val.hex_byte high low }
{
    Some(nibble(high)? * 16 + nibble(low)?)
}

// Hex of no more bytes than there is room for.
fn hex<const ROOM: usize>(text: &[u8]) -> Option<ArrayVec<u8, ROOM>>
    ensures { option_map (λ v. v.items) result ≡ Val.hex_up_to ROOM text.now }
{
    if ROOM < text.len() / 2 {
        return None;
    }
    let mut bytes = ArrayVec::new();
    let mut rest = text;
    while let [high, low, others @ ..] = rest {
        bytes.push(hex_byte(*high, *low)?);
        rest = others;
    }
    if rest.is_empty() { Some(bytes) } else { None }
}

/// Hex of a due number of bytes.
#[tactic(auto, unfolding(crate::specs::Numbers::read_hex))]
pub fn hex_array<const SIZE: usize>(text: &[u8]) -> Option<[u8; SIZE]>
    requires { SIZE ≤ 65536 }
    ensures { result ≡ Val.read_hex SIZE text.now }
{
    match hex::<SIZE>(text)?.into_inner() {
        Ok(bytes) => Some(bytes),
        Err(_) => None,
    }
}

/// The bytes of a message, 7 or 14.
#[tactic(auto, unfolding(crate::specs::Numbers::read_message))]
pub fn message(text: &[u8]) -> Option<ArrayVec<u8, MESSAGE_ROOM>>
    ensures { option_map (λ v. v.items) result ≡ Val.read_message text.now }
{
    if text.len() == 2 * (SHORT_MESSAGE as usize) || text.len() == 2 * MESSAGE_ROOM {
        return hex(text);
    }
    None
}

// The number in the 8 bytes at a place, the highest first.
fn number_at(bytes: &[u8; COVARIANCE_SIZE], at: usize) -> u64
    requires { at + 8 ≤ 48 }
    ensures { word_bytes 8 result ≡ reverse (take 8 (drop at bytes.now)) }
{
    octets::words::u64_at(bytes, at).swap_bytes()
}

// Six numbers, each of 8 bytes with the highest first.
fn six_numbers(bytes: &[u8; COVARIANCE_SIZE]) -> [u64; COVARIANCE_NUMBERS]
    ensures { words 8 result ≡ Val.swap_bytes 6 bytes.now }
{
    [
        number_at(bytes, 0),
        number_at(bytes, 8),
        number_at(bytes, 16),
        number_at(bytes, 24),
        number_at(bytes, 32),
        number_at(bytes, 40),
    ]
}

/// The bits of a covariance's six numbers.
#[tactic(auto, unfolding(crate::specs::Numbers::read_covariance))]
pub fn covariance(text: &[u8]) -> Option<[u64; COVARIANCE_NUMBERS]>
    ensures { option_map (words 8) result ≡ Val.read_covariance text.now }
{
    let bytes = hex_array(text)?;
    Some(six_numbers(&bytes))
}

/// The operation that a text names.
#[tactic(auto, unfolding(crate::specs::Operations::kind_of))]
pub fn kind(text: &[u8]) -> Option<Kind>
    ensures { result ≡ kind_of text.now }
{
    if text == b"summary".as_slice() {
        Some(Kind::Summary)
    } else if text == b"convict".as_slice() {
        Some(Kind::Conviction)
    } else if text == b"report".as_slice() {
        Some(Kind::Report)
    } else {
        None
    }
}
