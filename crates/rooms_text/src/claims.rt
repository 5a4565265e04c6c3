//! What is claimed of what is said of two rooms: each function's contract is the theorem.

ghost use Rattle.rooms_text.specs.Claims.{SilentExactlyWhere, AlikeInBoth};

/// Nothing is said to be lacking in a room exactly where joining the other changes nothing.
pub fn nothing_is_said_where_nothing_is_lacking()
    ensures { SilentExactlyWhere }
{}

/// Where two registers are equal but for the convicted engines, it is said that their boards are equal.
pub fn equal_registers_have_equal_boards()
    ensures { AlikeInBoth }
{}
