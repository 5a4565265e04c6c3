//! What is claimed of listings: each function's contract is the theorem.

ghost use Rattle.track_listing.specs.Claims.{LengthNumbers, ListingLength, ListedNoneExactlyWhen};

/// A listing has 12 to 9,271 bytes.
pub fn listings_have_12_to_9271_bytes()
    ensures length { ListingLength }
    ensures numbers { LengthNumbers }
{}

/// A stored chi-square is listed as `none` exactly where its bits are those of the infinity.
pub fn listed_none_exactly_when()
    ensures { ListedNoneExactlyWhen }
{}
