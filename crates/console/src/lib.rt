//! What the programs read and print: their words; so many bytes of a file or of standard input, or as many as are left; buffers to read
//! into; and a hash in hex.
#![tactic(auto)]

ghost use Rattle.std.specs.Prelude.{◌≡◌, ◌<◌, length, take, replicate, IfOk, IfSome};
ghost use Rattle.std.specs.Io.{ReadsAtMost};
ghost use Rattle.std.specs.Io.KnownBytes.{Consumes, IsAtEnd};

use std::io::Read;
use std::rt::{Env, Files};
use std::{env, fs, io};

pub mod arguments;

/// 4,096 zeros. Lending the array as a slice needs the length.
pub fn buffer() -> [u8; 4096]
    ensures len { 4096 ≡ length result }
    ensures zeros { result ≡ replicate 4096 0 }
{
    [0; 4096]
}

/// 65,536 zeros.
pub fn large_buffer() -> [u8; 65536]
    ensures len { 65536 ≡ length result }
    ensures zeros { result ≡ replicate 65536 0 }
{
    [0; 65536]
}

/// The words behind the program's name.
pub fn words(rt: &(impl Env + AllocGlobal)) -> io::Result<Vec<String>> {
    let mut words = Vec::new(rt.alloc());
    for word in env::args(rt)?.skip(1) {
        words.push(word)?;
    }
    Ok(words)
}

/// Reads the file of this name, or standard input where it is `-`, until buf is full or there is no more, and answers how many bytes it
/// put at the start of buf.
pub fn read_from(rt: &(impl Files + Input), name: &str, buf: &mut [u8]) -> io::Result<usize>
    ensures { ReadsAtMost result buf.new }
{
    if name == "-" {
        return read_full(rt, buf);
    }
    fill(&mut fs::open(rt, name)?, buf)
}

/// Reads standard input until buf is full or the input ends, and answers how many bytes it put at
/// the start of buf.
pub fn read_full(rt: &impl Input, buf: &mut [u8]) -> io::Result<usize>
    ensures { ReadsAtMost result buf.new }
{
    fill(&mut rt.reader(), buf)
}

/// Reads until buf is full or the reader is at its end, and answers how many bytes it put at the
/// start of buf. A read that fails ends it, as does one that a signal interrupts.
pub fn fill<R: Read>(reader: &mut R, buf: &mut [u8]) -> io::Result<usize>
    ensures bound { ReadsAtMost result buf.new }
    ensures bytes { IfOk result (λ n. Consumes (R.remaining reader.old) (R.remaining reader.new) (take n buf.new)) }
    ensures end { IfOk result (λ n. n < length buf.new → IsAtEnd (R.remaining reader.new)) }
{
    let mut done = 0;
    while done < buf.len() {
        let n = reader.read(&mut buf[done..])?;
        if n == 0 {
            return Ok(done);
        }
        done += n;
    }
    Ok(done)
}

/// The next N bytes of standard input; none where it ends before.
pub fn array<const N: usize>(rt: &impl Input) -> io::Result<Option<[u8; N]>> {
    let mut bytes = [0; N];
    let n = read_full(rt, &mut bytes)?;
    if n < N {
        return Ok(None);
    }
    Ok(Some(bytes))
}

/// The next n bytes of standard input, into the front of buf; none where the input ends before, or buf is shorter.
pub fn part<'a>(rt: &impl Input, buf: &'a mut [u8], n: usize) -> io::Result<Option<&'a [u8]>>
    ensures { IfOk result (λ o. IfSome o (λ bytes. length bytes.now ≡ n)) }
{
    let Some(part) = buf.get_mut(..n) else {
        return Ok(None);
    };
    if read_full(rt, part)? < n {
        return Ok(None);
    }
    Ok(Some(part))
}

/// As many bytes of standard input as two bytes before them say, the low one first, into the front of buf; none where the input ends
/// before, or buf is shorter.
pub fn counted<'a>(rt: &impl Input, buf: &'a mut [u8]) -> io::Result<Option<&'a [u8]>> {
    let Some(head) = array(rt)? else {
        return Ok(None);
    };
    part(rt, buf, u16::from_le_bytes(head) as usize)
}

/// Prints a hash in hex.
pub fn print_hash(rt: &impl Print, hash: [u8; 32]) -> io::Result<()> {
    let mut text = [0; 64];
    hex::encode_to_slice(hash, &mut text).unwrap();
    rt.write_all(&text)
}
