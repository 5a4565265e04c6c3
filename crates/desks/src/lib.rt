//! The kinds of desk, and what each may do.
#![tactic(auto)]

ghost use Rattle.std.specs.Prelude.{◌≡◌};
ghost use Rattle.desks.specs.Desks as D;
ghost use Rattle.desks.specs.Previewing as P;

/// Who sits at a desk (docs/REFERENCE.md, 'Desks'). The number says who a caller says that he is.
#[derive(Clone, Copy, PartialEq, Eq)]
pub enum Desk {
    /// A crew sees positions: the ranked fixes of a board.
    Crew,
    /// An analyst also sees what was set aside, and the board as it would be after a conviction.
    Analyst,
    /// A manager also convicts.
    Manager,
}

impl Desk {
    /// The desk of this number, if there is one: 0 a crew, 1 an analyst, 2 a manager.
    pub fn new(number: u32) -> Option<Desk>
        ensures { result ≡ D.desk_of number }
    {
        match number {
            0 => Some(Desk::Crew),
            1 => Some(Desk::Analyst),
            2 => Some(Desk::Manager),
            _ => None,
        }
    }

    /// Whether it may convict.
    pub fn may_convict(self) -> bool
        ensures { result ≡ D.may_convict self }
    {
        match self {
            Desk::Crew | Desk::Analyst => false,
            Desk::Manager => true,
        }
    }

    /// Whether it may look at the board as it would be after a conviction.
    pub fn may_preview(self) -> bool
        ensures { result ≡ P.may_preview self }
    {
        match self {
            Desk::Crew => false,
            Desk::Analyst | Desk::Manager => true,
        }
    }
}
