//! Byte order: strings are compared by their first differing byte.

ghost use Rattle.std.specs.Prelude.{◌≡◌, ◌+◌, ◌≤◌, true, min, length, take, drop};
ghost use Rattle.octets.specs.Order.{is_before, same};
ghost use Rattle.octets.specs.Alike.{alike};

use crate::words::u64_at;

// How many bytes are compared at once, as a word, and how many in a long run of bytes alike.
const WORD: usize = 8;

const BLOCK: usize = 64;

// How many bytes both have.
#[inline(always)]
fn shorter(a: &[u8], b: &[u8]) -> usize
    ensures value { result ≡ min (length a.now) (length b.now) }
    ensures most { alike a.now b.now ≤ result }
{
    if a.len() < b.len() { a.len() } else { b.len() }
}

// How many of the eight bytes at a place are alike, up to the first that differs: it has the lowest bit in which their words differ.
#[inline(always)]
fn alike_word(a: &[u8], b: &[u8], at: usize) -> usize
    requires a_has { at + 8 ≤ length a.now }
    requires b_has { at + 8 ≤ length b.now }
    ensures { result ≡ alike (take 8 (drop at a.now)) (take 8 (drop at b.now)) }
{
    let differ = u64_at(a, at) ^ u64_at(b, at);
    (differ.trailing_zeros() / u8::BITS) as usize
}

// Whether the 64 bytes at a place, before which all are alike, are alike too: as eight words, without a branch for each.
#[inline(always)]
fn is_block_alike(a: &[u8], b: &[u8], at: usize) -> bool
    requires a_has { at + 64 ≤ length a.now }
    requires b_has { at + 64 ≤ length b.now }
    requires before { at ≤ alike a.now b.now }
    ensures { result ≡ true → at + 64 ≤ alike a.now b.now }
{
    let mut is_alike = true;
    for k in 0..BLOCK / WORD {
        let i = at + WORD * k;
        is_alike &= u64_at(a, i) == u64_at(b, i);
    }
    is_alike
}

// How many bytes at the front are seen to be alike in whole blocks; there may be more.
#[inline(always)]
fn alike_blocks(a: &[u8], b: &[u8]) -> usize
    ensures { result ≤ alike a.now b.now }
{
    let n = shorter(a, b);
    let mut i = 0;
    while BLOCK <= n - i {
        if !is_block_alike(a, b, i) {
            return i;
        }
        i += BLOCK;
    }
    i
}

// How many bytes at the front are alike, where those before a place are. The last eight are compared together, so that none is left.
#[inline(always)]
fn alike_to_end(a: &[u8], b: &[u8], at: usize) -> usize
    requires a_has { 8 ≤ length a.now }
    requires b_has { 8 ≤ length b.now }
    requires alike { at ≤ alike a.now b.now }
    ensures { result ≡ alike a.now b.now }
{
    let n = shorter(a, b);
    let mut i = at;
    while WORD < n - i {
        let more = alike_word(a, b, i);
        if more < WORD {
            return i + more;
        }
        i += WORD;
    }
    let last = n - WORD;
    last + alike_word(a, b, last)
}

// The same, byte by byte.
fn alike_bytes(a: &[u8], b: &[u8]) -> usize
    ensures { result ≡ alike a.now b.now }
{
    let n = shorter(a, b);
    for i in 0..n {
        if a[i] != b[i] {
            return i;
        }
    }
    n
}

/// How many bytes at the front of a and b are alike. Most strings differ in their first byte: it is looked at alone.
#[inline(always)]
pub fn alike(a: &[u8], b: &[u8]) -> usize
    ensures { result ≡ alike a.now b.now }
{
    if shorter(a, b) < WORD {
        return alike_bytes(a, b);
    }
    if a[0] != b[0] {
        return 0;
    }
    alike_to_end(a, b, alike_blocks(a, b))
}

/// Whether a comes before b, where i bytes at the front are alike and no more.
#[inline(always)]
pub fn precedes_behind(a: &[u8], b: &[u8], i: usize) -> bool
    requires { i ≡ alike a.now b.now }
    ensures { result ≡ is_before a.now b.now }
{
    i < b.len() && (i == a.len() || a[i] < b[i])
}

/// Whether a comes before b.
#[inline]
pub fn precedes(a: &[u8], b: &[u8]) -> bool
    ensures { result ≡ is_before a.now b.now }
{
    precedes_behind(a, b, alike(a, b))
}

// Whether a and b are the same bytes, where they are 8 to 16: the first eight and the last eight are all.
#[inline(always)]
fn equal_ends(a: &[u8], b: &[u8]) -> bool
    requires least { 8 ≤ length a.now }
    requires most { length a.now ≤ 16 }
    requires as_many { length a.now ≡ length b.now }
    ensures { result ≡ same a.now b.now }
{
    let last = a.len() - WORD;
    u64_at(a, 0) == u64_at(b, 0) && u64_at(a, last) == u64_at(b, last)
}

/// Whether a and b are the same bytes.
#[inline]
pub fn equal(a: &[u8], b: &[u8]) -> bool
    ensures { result ≡ same a.now b.now }
{
    let n = a.len();
    if n != b.len() {
        return false;
    }
    if WORD <= n && n <= 2 * WORD {
        return equal_ends(a, b);
    }
    alike(a, b) == n
}
