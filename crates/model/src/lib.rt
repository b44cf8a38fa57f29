//! Definitions that every theorem of the mirror speaks of: writes, streams and epochs, the history of a primary and of
//! a secondary, their steps, and runs of a pair. They are in `specs/`, and `docs/MODEL.md` walks through them.
//!
//! The functions here do nothing. The contract of each states worked examples that the definitions compute: what a pair
//! replies to a list of events, and what its disks, marks and identifiers then are.
#![tactic(auto)]

ghost use Rattle.model.specs.ClearingRows.{Cleared, ClearedToTheEnd, ClearedUnderWay, ClearedByTheLocalWrite, UnderALaterWrite, FailedClearsNothing};
ghost use Rattle.model.specs.CloseRows.{LostLink, Reconnected, AcknowledgedFirst};
ghost use Rattle.model.specs.DecisionRows.{Decisions, Turns, Freshness, RefusedHello};
ghost use Rattle.model.specs.DiskRows.{Ranges, OneSlot, LocalFault, LateFault, PeerFault, OthersOfTheEpochStay};
ghost use Rattle.model.specs.ForeignRows.{ToSecondary, ToPrimary, AfterOneWrite, AcknowledgedOnce};
ghost use Rattle.model.specs.ResyncRows.{NothingMarked, EmptyPeer, OneBlock, WrittenAlone, Resynced, BrokenEnd, AmongWrites};
ghost use Rattle.model.specs.TestRows.{LogBeforeConflict, PendingBeforeMemory, FaultsInOrder};
ghost use Rattle.model.specs.UsageRows.{Usage, NeverOpened, Settlements, SentAndUnanswered, FailedIsNotWhole};
ghost use Rattle.model.specs.WriteRows.{OneWrite, TwoInTurn, Asynchronous, ReceivedAndLost, Overlapping, TwoEpochs, Full, AtTheStart};

/// States worked examples of writes over an established connection, under each protocol.
pub fn writes()
    ensures one_write { OneWrite }
    ensures two_in_turn { TwoInTurn }
    ensures asynchronous { Asynchronous }
    ensures received_and_lost { ReceivedAndLost }
    ensures overlapping { Overlapping }
    ensures two_epochs { TwoEpochs }
    ensures full { Full }
    ensures at_the_start { AtTheStart }
{}

/// States worked examples of ranges, of the activity log, and of disks that fail.
pub fn disks()
    ensures ranges { Ranges }
    ensures one_slot { OneSlot }
    ensures local_fault { LocalFault }
    ensures late_fault { LateFault }
    ensures peer_fault { PeerFault }
    ensures others_stay { OthersOfTheEpochStay }
{}

/// States worked examples of a lost link, and of the connection after it.
pub fn closes()
    ensures lost_link { LostLink }
    ensures reconnected { Reconnected }
    ensures acknowledged_first { AcknowledgedFirst }
{}

/// States worked examples of the decision over the identifiers, of how they are turned, of fresh words, and of a
/// refused hello.
pub fn decisions()
    ensures decisions { Decisions }
    ensures turns { Turns }
    ensures freshness { Freshness }
    ensures refused_hello { RefusedHello }
{}

/// States worked examples of resynchronisation, alone and among writes.
pub fn resyncs()
    ensures nothing_marked { NothingMarked }
    ensures empty_peer { EmptyPeer }
    ensures one_block { OneBlock }
    ensures written_alone { WrittenAlone }
    ensures resynced { Resynced }
    ensures broken_end { BrokenEnd }
    ensures among_writes { AmongWrites }
{}

/// States worked examples of the marks that a connected write clears when it is released.
pub fn releases()
    ensures cleared { Cleared }
    ensures cleared_to_the_end { ClearedToTheEnd }
    ensures cleared_under_way { ClearedUnderWay }
    ensures cleared_by_the_local_write { ClearedByTheLocalWrite }
    ensures under_a_later_write { UnderALaterWrite }
    ensures failed_clears_nothing { FailedClearsNothing }
{}

/// States worked examples of frames that the other end never makes: each is refused with its number, and closes the
/// end.
pub fn foreign_frames()
    ensures to_secondary { ToSecondary }
    ensures to_primary { ToPrimary }
    ensures after_one_write { AfterOneWrite }
    ensures acknowledged_once { AcknowledgedOnce }
{}

/// States worked examples of the order of a step's tests, if more than one of them holds.
pub fn tests_in_order()
    ensures submit { LogBeforeConflict }
    ensures receive { PendingBeforeMemory }
    ensures peer_fault { FaultsInOrder }
{}

/// States worked examples of what the nodes report of their use, of a connection that a secondary never opened, and of
/// settlements.
pub fn usage()
    ensures usage { Usage }
    ensures never_opened { NeverOpened }
    ensures settlements { Settlements }
    ensures unanswered { SentAndUnanswered }
    ensures failed_is_not_whole { FailedIsNotWhole }
{}
