//! The lines of a session, what they say, and the first that is bad.

ghost use Rattle.std.specs.Prelude.{◌+◌, ◌^◌, ◌<◌, length};

use models::layout::INPUTS_SIZE;
use record::Fields;

/// The lines that are left, and the number of the first of them.
#[derive(Drop)]
pub struct Lines<'a> {
    pub rest: &'a [u8],
    pub line: usize,
    ghost fits: { line + length rest.now < 2 ^ 64 },
}

/// What is due on a line.
#[derive(Clone, Copy)]
pub enum Due {
    Op,
    Engine,
    Model,
    Spec,
    Inputs,
    Time,
    Lat,
    Lon,
    Height,
    Message,
    Tags,
    Used,
    Models,
    Cov,
}

/// A bad line: its number, and what is due there.
#[derive(Clone, Copy)]
pub struct BadLine {
    pub line: usize,
    pub due: Due,
}

/// Which operation a session's first line names.
#[derive(Clone, Copy)]
pub enum Kind {
    Summary,
    Conviction,
    Report,
}

/// A call on a register.
#[derive(Drop)]
pub enum Call {
    Summary {
        engine: u8,
        model: u8,
        spec: u16,
        inputs: [u8; INPUTS_SIZE],
    },
    Conviction {
        engine: u8,
    },
    Report {
        engine: u8,
        fields: Fields,
    },
}
