//! What is claimed of links, of transmissions, and of bursts.

ghost use Rattle.std.specs.Prelude.{List, ◌≤◌, length};
ghost use Rattle.board_fixes.specs.Slots.{max_fixes};
ghost use Rattle.fixes.specs.Fix.{Fix};
ghost use Rattle.fixes.specs.Items.{AllFormed, Apart};
ghost use Rattle.board_transmissions.specs.Claims.{Partition, Position6};
ghost use Rattle.board_transmissions.specs.Bursts.{LinkExactlyWhen, LinkGoesBothWays, Limit, ChainsJoin, BurstsStayApart, FarSubset};

/// When two records link, that a link goes both ways, how far apart in time it reaches, and that chains of links join.
pub fn when_two_link()
    ensures exactly_when { LinkExactlyWhen }
    ensures both_ways { LinkGoesBothWays }
    ensures limit { Limit }
    ensures chains_join { ChainsJoin }
{}

/// The fixes of a board are parted: each is of one transmission, which is everything that a chain of links leads to.
pub fn partition()
    ensures parted { (fs : List Fix) → length fs ≤ max_fixes → AllFormed fs → Apart fs → Partition fs }
    ensures by_two_tags { Position6 }
{}

/// A later burst does not touch the transmissions of an earlier one, nor the earlier those of the later.
pub fn bursts()
    ensures stay_apart { BurstsStayApart }
    ensures far_subset { FarSubset }
{}
