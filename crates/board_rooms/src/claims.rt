//! What is claimed of the boards of rooms that exchange. The function's contract is the claim; there is nothing to run.

ghost use Rattle.board_rooms.specs.Claims.{BoardsOfRooms, SameBoards, BoardsConverge};

/// At each desk, a room that takes calls and joins other rooms has the board over what remains of the calls that it knows of; rooms of which
/// the same remains have the same board; and rooms that have got from every room have one board, that over all calls that were taken.
pub fn boards_of_rooms()
    ensures rooms { BoardsOfRooms }
    ensures same { SameBoards }
    ensures converge { BoardsConverge }
{}
