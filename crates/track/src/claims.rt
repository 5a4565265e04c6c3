//! What is claimed of every track with its shelf and of every call on them: each function's contract is the theorem.

ghost use Rattle.track.specs.Claims.{EncodeDecode, LeavesTrack, HoldsLeft, RefusalLeaves, MalformedLeaves, SevenExactlyWhere, StaysInOrder, ReachedInOrder, OneServed, LatestServed};
ghost use Rattle.track.specs.Counting.{ReportCounts, WaitingCountsNone, SummaryCounts, RefusalCountsNone, ConvictionCountsNone};
ghost use Rattle.track.specs.Shelved.{NoneWaitsInVain, SettlesNone, StaysTillThen, WaitsInOrder, EarlyAsLate};

/// A track and its shelf in memory are the bytes of what they hold, and every call leaves a track and its shelf.
pub fn tracks_are_their_bytes()
    ensures encode_decode { EncodeDecode }
    ensures leaves_track { LeavesTrack }
    ensures holds_left { HoldsLeft }
{}

/// A call that is refused, or on bytes that are no track and its shelf, leaves the bytes of both.
pub fn refusals_leave_the_bytes()
    ensures refused { RefusalLeaves }
    ensures malformed { MalformedLeaves }
{}

/// A report is refused with 7 exactly where none of the record's models is missing and the record does not count.
pub fn seven_exactly_where()
    ensures { SevenExactlyWhere }
{}

/// `contested` grows by what enters a list of refused, at a report and where a fix that waited is tried, and by nothing else.
pub fn contested_counts_what_enters()
    ensures report { ReportCounts }
    ensures waiting { WaitingCountsNone }
    ensures refusal { RefusalCountsNone }
    ensures summary { SummaryCounts }
    ensures conviction { ConvictionCountsNone }
{}

/// No fix waits for a model that has a summary, so a summary of such a model tries none.
pub fn none_waits_in_vain()
    ensures none { NoneWaitsInVain }
    ensures settling { SettlesNone }
{}

/// A fix leaves the shelf by its trial or its engine's conviction only.
pub fn fixes_stay_till_then()
    ensures { StaysTillThen }
{}

/// Which fixes wait after a call that is not refused, and in which order.
pub fn fixes_wait_in_order()
    ensures { WaitsInOrder }
{}

/// Fixes that come before the summary of their model leave what they leave right behind it.
pub fn early_fixes_are_as_late_ones()
    ensures { EarlyAsLate }
{}

/// Every call keeps the order of transmissions, so every track that calls reach is in order.
pub fn calls_keep_the_order()
    ensures stays { StaysInOrder }
    ensures reached { ReachedInOrder }
{}

/// A track in order serves one fix if it has any, and that is the latest.
pub fn one_fix_is_served()
    ensures one { OneServed }
    ensures latest { LatestServed }
{}
