//! The fixes of one transmission of a track decided again: of one identity one fix, the best five of those that stand, and of the refused
//! the four of lowest identity.
#![tactic(auto)]

pub mod blocks;
pub mod claims;
mod deciding;
pub mod gathering;
mod joining;
mod outcome;

/// What a further fix did: it is among the refused, the fix kept is another one, it stands, and how many entered the refused.
#[derive(Clone, Copy)]
pub struct Joined {
    pub refused: bool,
    pub moved: bool,
    pub upheld: bool,
    pub entered: u8,
}
