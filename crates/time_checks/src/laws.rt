// What holds of timing checks.
ghost use Rattle.time_checks.specs.Later.{EarlierCountByLatest};
ghost use Rattle.time_checks.specs.Quiet.{SameNetsStay, UntouchedStay};

/// A check none of whose terminals changes violates nothing, and has the events that it had.
pub fn untouched_checks_stay()
    ensures { UntouchedStay }
{}

/// A snapshot of the same nets as the one before has no violation, and leaves what a checker stands for.
pub fn same_nets_stay()
    ensures { SameNetsStay }
{}

/// What is violated at a snapshot depends on the events before an earlier time by their latest times alone.
pub fn earlier_events_count_by_their_latest()
    ensures { EarlierCountByLatest }
{}
