//! What is claimed of a board's fixes as values. Each function's contract is the claim; there is nothing to run.

ghost use Rattle.board_values.specs.Claims.{EntriesAreLines, EntriesCounted, EntriesSayLines, EntriesSayBoard, EntriesNameWhom, EntriesReadBack};

/// There is an entry for each line of the board, in the order of the lines, with what the line says.
pub fn entries_are_lines()
    ensures { EntriesAreLines }
{}

/// There are at most 96 entries, of at most 8 transmissions, and each has 49 bytes.
pub fn entries_counted()
    ensures { EntriesCounted }
{}

/// Each line of the full board is what its entry and the record at the entry's place say.
pub fn entries_say_lines()
    ensures { EntriesSayLines }
{}

/// The full board, its headers too, is what the entries and the register's records say: a header has the number of its transmission, and how many
/// entries of that number are ranked, dominated and refused.
pub fn entries_say_board()
    ensures { EntriesSayBoard }
{}

/// A refused fix names the entry of the fix against which it is refused: of the same transmission, a subset of it that disagrees. Any other names
/// itself.
pub fn entries_name_whom()
    ensures { EntriesNameWhom }
{}

/// The 49 bytes of an entry are read back as the entry.
pub fn entries_read_back()
    ensures { EntriesReadBack }
{}
