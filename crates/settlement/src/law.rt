//! The law that the next session may start from what the last one leaves.
ghost use Rattle.settlement.specs.Left.{JoinedRunsLeaveAnOpening, JoinedRunsLeaveASoundOpening, JoinedRunsLeaveNoPart};

/// States that two joined nodes at rest leave a sound opening if their history was grounded: both disks have their
/// blocks, the primary's data have an identifier, and the marks cover every block on which the disks differ, so
/// that no identifiers of the peer's disk can claim too much. After any history the opening is sound with the identifiers
/// that `parts_after` gives that disk; and if the primary began with no bitmap identifier where both nodes had the same current
/// one, it leaves none there.
pub fn what_is_left()
    ensures opening { JoinedRunsLeaveAnOpening }
    ensures next { JoinedRunsLeaveASoundOpening }
    ensures unparted { JoinedRunsLeaveNoPart }
{}
