//! A line of a picture: a fix, what became of it, and against which fix.

use arrayvec::ArrayVec;
use board_fixes::MAX_FIXES;
use fix_lines::Standing;

/// A fix, by its index among those of the picture, what became of it, and the fix against which it is refused: itself where it is not.
#[derive(Clone, Copy, Default)]
pub struct Line {
    pub fix: u8,
    pub standing: Standing,
    pub against: u8,
}

/// The lines of a picture: one for each fix.
pub type Lines = ArrayVec<Line, MAX_FIXES>;
