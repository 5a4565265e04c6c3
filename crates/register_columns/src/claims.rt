//! What is claimed of a register that is turned. Each function's contract is the claim; there is nothing to run.

ghost use Rattle.register_columns.specs.Claims.{UndoEachOther, StandsTogether, HeadStays, RefusedWhereOther};

/// Each of the two undoes the other, on any bytes of a register's length.
pub fn each_undoes_the_other()
    ensures { UndoEachOther }
{}

/// Byte j of place i goes to byte i of column j, and the head stays where it is.
pub fn like_bytes_stand_together()
    ensures places { StandsTogether }
    ensures head { HeadStays }
{}

/// 17 is answered exactly where a length is another, and then nothing is written; else 0.
pub fn refused_where_a_length_is_another()
    ensures { RefusedWhereOther }
{}
