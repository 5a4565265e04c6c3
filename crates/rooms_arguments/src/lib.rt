//! What the words behind the name of the program `rooms` ask for: two rooms to compare, or something in its place.
#![tactic(auto)]

ghost use Rattle.std.specs.Prelude.{◌≡◌, map, string_bytes};
ghost use Rattle.rooms_arguments.specs.Calling as C;

use console::arguments::{Word, word_of};

mod orders;

pub use orders::{Orders, orders_asked};

/// What is asked for in place of a comparison.
#[derive(Clone, Copy)]
pub enum Instead {
    /// What the program does, and how it is called.
    Help,
    /// The version.
    Version,
    /// Nothing: the word at this index is no option, or one file too many.
    Wrong(usize),
    /// Nothing: a file is missing.
    Missing,
}

/// Two rooms to compare.
#[derive(Clone, Copy)]
pub struct Wish {
    /// The index of the word that names the first room's file.
    pub first: usize,
    /// Of the second's.
    pub second: usize,
    /// Of the word that names the file for the joined register, where it is asked for.
    pub joined: Option<usize>,
}

// What was read of the words so far.
#[derive(Clone, Copy)]
struct Taken {
    first: Option<usize>,
    second: Option<usize>,
    joined: Option<usize>,
    // The next word names the file for the joined register.
    join_due: bool,
}

// A file's name at an index.
fn take_file(taken: Taken, index: usize) -> Result<Taken, Instead>
    ensures { result ≡ C.take_file taken index }
{
    if taken.first.is_none() {
        return Ok(Taken {
            first: Some(index),
            second: taken.second,
            joined: taken.joined,
            join_due: false,
        });
    }
    if taken.second.is_none() {
        return Ok(Taken {
            first: taken.first,
            second: Some(index),
            joined: taken.joined,
            join_due: false,
        });
    }
    Err(Instead::Wrong(index))
}

// The option `--join` at an index.
fn take_join(taken: Taken, index: usize) -> Result<Taken, Instead>
    ensures { result ≡ C.take_join taken index }
{
    if taken.joined.is_some() {
        return Err(Instead::Wrong(index));
    }
    Ok(Taken {
        first: taken.first,
        second: taken.second,
        joined: taken.joined,
        join_due: true,
    })
}

// What is read after the word at an index, or what is asked for in its place.
fn take(taken: Taken, index: usize, word: &[u8]) -> Result<Taken, Instead>
    ensures { result ≡ C.take taken index word.now }
{
    if taken.join_due {
        return Ok(Taken {
            first: taken.first,
            second: taken.second,
            joined: Some(index),
            join_due: false,
        });
    }
    match word_of(b"--join", word) {
        Word::Help => Err(Instead::Help),
        Word::Version => Err(Instead::Version),
        Word::Own => take_join(taken, index),
        Word::File => take_file(taken, index),
        Word::Unknown => Err(Instead::Wrong(index)),
    }
}

// What all words together ask for.
fn finish(taken: Taken) -> Result<Wish, Instead>
    ensures { result ≡ C.finish taken }
{
    match (taken.first, taken.second) {
        (Some(first), Some(second)) if !taken.join_due => Ok(Wish {
            first,
            second,
            joined: taken.joined,
        }),
        _ => Err(Instead::Missing),
    }
}

/// What the words ask for. They are read from left to right; the first that asks for something in place of a comparison decides.
pub fn asked(words: &[String]) -> Result<Wish, Instead>
    ensures { result ≡ C.asked_of (map string_bytes words.now) }
{
    let mut taken = Taken {
        first: None,
        second: None,
        joined: None,
        join_due: false,
    };
    for (index, word) in words.iter().enumerate() {
        taken = take(taken, index, word.as_bytes())?;
    }
    finish(taken)
}
