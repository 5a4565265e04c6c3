//! What the words behind a program's name ask for: a session from a file or from standard input, or something in its place.
#![tactic(auto)]

ghost use Rattle.std.specs.Prelude.{◌≡◌, map, string_bytes};
ghost use Rattle.session_arguments.specs.Words as W;
ghost use Rattle.session_arguments.specs.Calling as C;

use console::arguments::{Word, word_at, word_of};

/// What is asked for in place of a session.
#[derive(Clone, Copy)]
pub enum Instead {
    /// What the program does, and how it is called.
    Help,
    /// The version.
    Version,
    /// Nothing: the word at this index is no option, or one file too many.
    Wrong(usize),
}

/// A session that is asked for.
#[derive(Clone, Copy)]
pub struct Wish {
    /// The index of the word that names the file; standard input where none does.
    pub file: Option<usize>,
    /// Whether an operation that is not answered 0 changes the exit status.
    pub strict: bool,
}

// The wish after the word at an index, or what is asked for in its place.
fn take(wish: Wish, index: usize, word: &[u8]) -> Result<Wish, Instead>
    ensures { result ≡ C.take wish index (W.word_of word.now) }
{
    match word_of(b"--strict", word) {
        Word::Help => Err(Instead::Help),
        Word::Version => Err(Instead::Version),
        Word::Own => Ok(Wish {
            file: wish.file,
            strict: true,
        }),
        Word::File => match wish.file {
            None => Ok(Wish {
                file: Some(index),
                strict: wish.strict,
            }),
            Some(_) => Err(Instead::Wrong(index)),
        },
        Word::Unknown => Err(Instead::Wrong(index)),
    }
}

/// What the words ask for. They are read from left to right; the first that asks for something in place of a session decides.
pub fn asked(words: &[String]) -> Result<Wish, Instead>
    ensures { result ≡ C.asked_of (map string_bytes words.now) }
{
    let mut wish = Wish {
        file: None,
        strict: false,
    };
    for (index, word) in words.iter().enumerate() {
        wish = take(wish, index, word.as_bytes())?;
    }
    Ok(wish)
}

/// The file that a wish names: the word at its index, or `-`, standard input, where it names none.
pub fn name_of(wish: Wish, words: &[String]) -> &str
    ensures { result.now ≡ C.name_of wish (map string_bytes words.now) }
{
    match wish.file {
        Some(index) => word_at(words, index),
        None => "-",
    }
}
