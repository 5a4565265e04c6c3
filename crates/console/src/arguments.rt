//! The words behind a program's name, each alone.

ghost use Rattle.std.specs.Prelude.{◌≡◌, map, string_bytes};
ghost use Rattle.console.specs.Words as W;

/// What a word is to a program that has one option of its own.
#[derive(Clone, Copy)]
pub enum Word {
    /// `--help`.
    Help,
    /// `--version`.
    Version,
    /// The program's own option.
    Own,
    /// A file's name, or `-`.
    File,
    /// It begins as an option does, and is none.
    Unknown,
}

/// What a word is to a program whose own option is `own`.
pub fn word_of(own: &[u8], word: &[u8]) -> Word
    ensures { result ≡ W.word_of own.now word.now }
{
    if word == b"--help".as_slice() {
        Word::Help
    } else if word == b"--version".as_slice() {
        Word::Version
    } else if word == own {
        Word::Own
    } else if word == b"-".as_slice() || !word.starts_with(b"-") {
        Word::File
    } else {
        Word::Unknown
    }
}

/// The word at an index; `-`, standard input, where there is none.
pub fn word_at(words: &[String], index: usize) -> &str
    ensures { result.now ≡ W.word_at (map string_bytes words.now) index }
{
    match words.get(index) {
        Some(word) => word.as_str(),
        None => "-",
    }
}
