//! Why a call on a register or a track is not done, and the number by which other products know it.
#![tactic(auto)]

ghost use Rattle.std.specs.Prelude.{◌≡◌};
ghost use Rattle.errors.specs.Errors.{error_number, answer_number, value_or_number};

pub mod claims;

/// Why a call on a register or a track is not done (docs/REFERENCE.md, 'Answers').
#[derive(Clone, Copy)]
pub enum Error {
    /// A memory is no register, no track, or no shelf of that track.
    Malformed,
    /// No engine has this number.
    NoEngine,
    /// The bytes are no record.
    NoRecord,
    /// The engine is convicted.
    Convicted,
    /// It is not held, and there is no room for one more.
    Full,
    /// A model that the record cites is disputed, or of another spec than the record's.
    ModelDisputed,
    /// The model is above the greatest model number, or the inputs are not of their size.
    NoSummary,
    /// The output is smaller than the text may need.
    SmallOutput,
    /// The fix has to wait, and the shelf has no room for one more.
    ShelfFull,
    /// The output is smaller than a map may need.
    SmallMap,
    /// No desk has this number.
    UnknownDesk,
    /// The desk has no right to it.
    NoRight,
    /// The bytes that are passed, or the output, have another length than a register.
    OtherLength,
}

impl Error {
    /// The number by which other products know it.
    pub fn number(self) -> u32
        ensures { result ≡ error_number self }
    {
        match self {
            Error::Malformed => 1,
            Error::NoEngine => 2,
            Error::NoRecord => 3,
            Error::Convicted => 4,
            Error::Full => 5,
            Error::ModelDisputed => 7,
            Error::NoSummary => 9,
            Error::SmallOutput => 10,
            Error::ShelfFull => 13,
            Error::SmallMap => 14,
            Error::UnknownDesk => 15,
            Error::NoRight => 16,
            Error::OtherLength => 17,
        }
    }
}

/// The number of an answer: 0, or the error's.
pub fn answer_number(answer: Result<(), Error>) -> u32
    ensures { result ≡ answer_number answer }
{
    match answer {
        Ok(()) => 0,
        Err(error) => error.number(),
    }
}

/// A number that a call answers where it is done, or the error's.
pub fn value_or_number(answer: Result<u32, Error>) -> u32
    ensures { result ≡ value_or_number answer }
{
    match answer {
        Ok(value) => value,
        Err(error) => error.number(),
    }
}
