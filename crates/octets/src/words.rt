//! Numbers in memory, lowest byte first.

ghost use Rattle.std.specs.Prelude.{◌≡◌, ◌+◌, ◌≤◌, length};
ghost use Rattle.octets.specs.Words.{word_at, signed_at};
ghost use Rattle.octets.specs.Writes.{put_word};

/// The number in the 2 bytes at a place.
pub fn u16_at(s: &[u8], at: usize) -> u16
    requires { at + 2 ≤ length s.now }
    ensures { result ≡ word_at 2 at s.now }
{
    u16::from_le_bytes(*s[at..at + 2].as_array().unwrap())
}

/// The number in the 4 bytes at a place.
pub fn u32_at(s: &[u8], at: usize) -> u32
    requires { at + 4 ≤ length s.now }
    ensures { result ≡ word_at 4 at s.now }
{
    u32::from_le_bytes(*s[at..at + 4].as_array().unwrap())
}

/// The number in the 8 bytes at a place.
pub fn u64_at(s: &[u8], at: usize) -> u64
    requires { at + 8 ≤ length s.now }
    ensures { result ≡ word_at 8 at s.now }
{
    u64::from_le_bytes(*s[at..at + 8].as_array().unwrap())
}

/// The signed number in the 4 bytes at a place.
pub fn i32_at(s: &[u8], at: usize) -> i32
    requires { at + 4 ≤ length s.now }
    ensures { result ≡ signed_at at s.now }
{
    u32_at(s, at).cast_signed()
}

/// Writes a number into the 2 bytes at a place.
pub fn put_u16(s: &mut [u8], at: usize, x: u16)
    requires { at + 2 ≤ length s.old }
    ensures { s.new ≡ put_word 2 at x s.old }
{
    s[at..at + 2].copy_from_slice(&x.to_le_bytes());
}

/// Writes a number into the 4 bytes at a place.
pub fn put_u32(s: &mut [u8], at: usize, x: u32)
    requires { at + 4 ≤ length s.old }
    ensures { s.new ≡ put_word 4 at x s.old }
{
    s[at..at + 4].copy_from_slice(&x.to_le_bytes());
}

/// Writes a number into the 8 bytes at a place.
pub fn put_u64(s: &mut [u8], at: usize, x: u64)
    requires { at + 8 ≤ length s.old }
    ensures { s.new ≡ put_word 8 at x s.old }
{
    s[at..at + 8].copy_from_slice(&x.to_le_bytes());
}
