//! What is claimed of maps: each function's contract is the theorem.

ghost use Rattle.board_map.specs.Claims.{PointReadsBack, PointsReadBack, MapsReadBack, MapLength, PointsExactly, MapsInBothRooms};
ghost use Rattle.board_map.specs.Worked.{MapsWorked};

/// What is written of points is read back as these points, whole number by whole number; so is every map.
pub fn maps_are_read_back()
    ensures point { PointReadsBack }
    ensures points { PointsReadBack }
    ensures maps { MapsReadBack }
{}

/// Every map fits, and its length is greater than every refusal's number.
pub fn every_map_fits()
    ensures { MapLength }
{}

/// Which transmissions have a point: those whose first ranked fix lies within the degrees.
pub fn points_exactly()
    ensures { PointsExactly }
{}

/// Two control rooms in which nothing is refused as full, and of whose calls the same remains, get the same map.
pub fn maps_in_both_rooms()
    ensures { MapsInBothRooms }
{}

/// Three maps, to the letter.
pub fn maps_worked()
    ensures { MapsWorked }
{}
