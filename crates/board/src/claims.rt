//! What is claimed of boards and previews: each function's contract is the theorem.

ghost use Rattle.std.specs.Prelude.{ℕ, ◌≡◌, ◌≤◌, ◌⊎◌, ◌<◌, List, true, length};
ghost use Rattle.octets.specs.Bytes.{Bytes};
ghost use Rattle.fix_lines.specs.Text.{board_size};
ghost use Rattle.register.specs.Memory.{well_formed, decode};
ghost use Rattle.errors.specs.Errors.{greatest_refusal};
ghost use Rattle.desks.specs.declared.Desk.{Desk};
ghost use Rattle.board.specs.Board.{board_seen};
ghost use Rattle.board.specs.Claims.{WholeLists};
ghost use Rattle.board.specs.Previews.{RefusedInOrder, AnalystAsManager, ThenConvicted, ConvictedIsPresent, IdleIsPresent, ConvictionAtTheEnd, PreviewsInBothRooms};
ghost use Rattle.board.specs.Crew.{CrewFollows, SameToCrews, BoardInOrder};
ghost use Rattle.board.specs.Shows.{WhatIsShown};
ghost use Rattle.board.specs.Bursts.{BurstsOnBoards};
ghost use Rattle.board.specs.Nothing.{NoBytesExactlyWhen};
ghost use Rattle.board.specs.Shortest.{NoneShorter};
ghost use Rattle.board.specs.Positions.{Positions};
ghost use Rattle.board.specs.Worked.{BoardsWorked};
ghost use Rattle.board.specs.Carried.{RegisterCarriedOver};

/// Two control rooms in which nothing is refused as full, and of whose calls the same remains, hold the same register, but for the convicted set, and see the same
/// board at each desk.
pub fn whole_lists()
    ensures { WholeLists }
{}

/// On a board no fix is lost, none stands twice, and the oldest transmission comes first.
pub fn what_is_shown()
    ensures { WhatIsShown }
{}

/// Where no fix was sent for longer than a link, the transmissions before and after are what they would be without each other.
pub fn bursts_on_boards()
    ensures { BurstsOnBoards }
{}

/// A board has no bytes exactly where no record of the register counts.
pub fn no_bytes_exactly_when()
    ensures { NoBytesExactlyWhen }
{}

/// Every desk's board fits, and its length is 0 or greater than every refusal's number.
pub fn every_board_fits()
    ensures fits { (desk : Desk) (m : List ℕ) → Bytes m → well_formed m ≡ true → length (board_seen desk (decode m)) ≤ board_size }
    ensures no_refusal { (desk : Desk) (m : List ℕ) → Bytes m → well_formed m ≡ true → (length (board_seen desk (decode m)) ≡ 0) ⊎ (greatest_refusal < length (board_seen desk (decode m))) }
{}

/// The preview of a conviction on every memory: how it is refused, that an analyst's is a manager's, what is drawn once the engine is convicted, and when it is the present board.
pub fn previews()
    ensures refused_in_order { RefusedInOrder }
    ensures analyst_as_manager { AnalystAsManager }
    ensures then_convicted { ThenConvicted }
    ensures convicted_is_present { ConvictedIsPresent }
    ensures idle_is_present { IdleIsPresent }
{}

/// The preview of a conviction after whole lists of calls.
pub fn previews_of_lists()
    ensures at_the_end { ConvictionAtTheEnd }
    ensures in_both_rooms { PreviewsInBothRooms }
{}

/// What a crew sees follows from the full board alone, and is the same where the ranked lines are; and how a board is refused.
pub fn crews()
    ensures follows { CrewFollows }
    ensures same { SameToCrews }
    ensures refused_in_order { BoardInOrder }
{}

/// Eight worked cases.
pub fn positions()
    ensures { Positions }
{}

/// A whole board, what a crew sees of it, and a whole preview, line by line.
pub fn boards_worked()
    ensures { BoardsWorked }
{}

/// A board is empty, or has at least 112 bytes, and a crew's at least 81.
pub fn no_board_is_shorter()
    ensures { NoneShorter }
{}

/// A register of before records had room for 24 tags, carried over, is a register, and shows the fixes that it showed.
pub fn register_carried_over()
    ensures { RegisterCarriedOver }
{}
