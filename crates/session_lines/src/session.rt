//! A whole session.

ghost use Rattle.std.specs.Prelude.{◌≡◌};
ghost use Rattle.session_lines.specs.Session.{session_of, bad_of};

use crate::lines::{BadLine, Lines};

/// Whether each line of a session is good, and else which is the first that is not.
pub fn check(input: &[u8]) -> Result<(), BadLine>
    ensures { bad_of result ≡ bad_of (session_of input.now) }
{
    let mut lines = Lines::new(input);
    while !lines.rest.is_empty() {
        lines.operation()?;
    }
    Ok(())
}
