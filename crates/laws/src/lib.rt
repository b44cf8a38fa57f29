//! Theorems over the definitions of `model`, for every list of events. They name no code of a node.
//!
//! Each function does nothing, and its contract states theorems. `docs/PROOFS.md` says what the statements mean.
#![tactic(auto)]

ghost use Rattle.laws.specs.Statements.{PrimaryWritesOnce, PrimaryStreamsAreLawful, PrimaryExtentsAreFew, PrimaryReleasesInOrder, JournalIsOnDisk};
ghost use Rattle.laws.specs.Statements.{PrimaryStaysClosed, PrimaryReflects, PrimaryMarksAtRest, SecondaryHoldsEarlierEpochs, SecondaryDrainsFirst};
ghost use Rattle.laws.specs.Statements.{SecondaryStaysClosed, JoinedTakesABeginning, JoinedRunsKeepPromises, EveryRunIsJoined, EveryRunTakesABeginning};
ghost use Rattle.laws.specs.Statements.{EveryRunStaysClosed, EveryRunHoldsEarlierEpochs, EveryRunKeepsPromises, EveryRunMarksDifferences, EveryStepIsHonest};
ghost use Rattle.laws.specs.Statements.{RefusedStepsChangeNothing, RefusedFramesClose, RefusedFramesCloseThePrimary, RefusedFramesCloseTheSecondary};
ghost use Rattle.laws.specs.Statements.{RefusedFramesLeaveTheItems, RefusedFramesLoseTheConnection};
ghost use Rattle.laws.specs.Examples.{OpeningsAreMet, OneWriteIsMet, CoverIsMet, ReflectionIsMet, RestIsMet, OrderIsMet, WholeEpochIsMet, RefusedFramesAreMet};
ghost use Rattle.laws.specs.Examples.{ReleasesAreMet};
ghost use Rattle.model.specs.Theorems.{JoinedRunsHaveTheHeadline, JoinedRunsCoverDifferences, JoinedRunsSettle, JoinedRunsSettleAnyhow};
ghost use Rattle.model.specs.Theorems.{JoinedRunsKeepWriteOrder, EveryRunHasTheHeadline, EveryRunCoversDifferences, EveryRunKeepsWriteOrder};

/// States laws by its contract, and does nothing. A primary by itself, for any frames taken: each write has at most one
/// place, on at most one connection; streams are lawful; a closed end stays as it is; the extents of unreleased writes
/// are no more than the activity log has slots; of two writes that share a block, if the later one is released, the
/// earlier one is too; and each entry of the journal of completions is of an accepted write that the local disk has.
pub fn primary_alone()
    ensures once { PrimaryWritesOnce }
    ensures lawful { PrimaryStreamsAreLawful }
    ensures closed { PrimaryStaysClosed }
    ensures extents { PrimaryExtentsAreFew }
    ensures released { PrimaryReleasesInOrder }
    ensures on_disk { JournalIsOnDisk }
{}

/// States laws by its contract, and does nothing. A primary's half of the cover, for any frames taken: a block that is
/// neither marked nor under an unreleased write holds what the last item known to be applied at the peer wrote there,
/// or what it held at the opening; and while no connection is established, every block under an unreleased write is
/// marked.
pub fn primary_reflects()
    ensures streams { PrimaryReflects }
    ensures rest { PrimaryMarksAtRest }
{}

/// States laws by its contract, and does nothing. A secondary by itself, for any frames taken and any faults of its
/// disk: the disk holds every write of earlier epochs and part of one; nothing is pending on a connection before the
/// last one; and a closed end takes and sends nothing more.
pub fn secondary_alone()
    ensures epochs { SecondaryHoldsEarlierEpochs }
    ensures drained { SecondaryDrainsFirst }
    ensures closed { SecondaryStaysClosed }
{}

/// States laws by its contract, and does nothing. Both nodes, if what each took is a beginning of what the other
/// pushed, and no order between their steps is known: what the secondary took on each connection is a beginning of what
/// the primary sent on it; every write completed over the link has what its protocol promises; the whole headline
/// holds, and so does the cover; and once both are at rest, a settlement says so. If the identifiers of the opening are
/// not honest, the settlement says all the rest: `anyhow`.
pub fn joined()
    ensures beginning { JoinedTakesABeginning }
    ensures promises { JoinedRunsKeepPromises }
    ensures headline { JoinedRunsHaveTheHeadline }
    ensures cover { JoinedRunsCoverDifferences }
    ensures settlement { JoinedRunsSettle }
    ensures anyhow { JoinedRunsSettleAnyhow }
{}

/// States a law by its contract, and does nothing. Every list of events of the pair leads to two nodes that ran by
/// themselves and are joined.
pub fn pair_is_joined()
    ensures joined { EveryRunIsJoined }
{}

/// States laws by its contract, and does nothing. The headline of the pair, for every list of events, wherever memory
/// runs out: a clause for each of its parts, and all of them together.
pub fn headline()
    ensures beginning { EveryRunTakesABeginning }
    ensures closed { EveryRunStaysClosed }
    ensures epochs { EveryRunHoldsEarlierEpochs }
    ensures promises { EveryRunKeepsPromises }
    ensures marks { EveryRunMarksDifferences }
    ensures whole { EveryRunHasTheHeadline }
{}

/// States a law by its contract, and does nothing. The cover, at every moment of a grounded history: a block on which
/// the disks differ is marked or under an unreleased write, and those writes lie in no more extents than the activity
/// log has slots.
pub fn cover()
    ensures covered { EveryRunCoversDifferences }
{}

/// States laws by its contract, and does nothing. The order of writes, at every moment at which the secondary calls
/// itself consistent, across any number of connections, if no local write failed and an opening with equal identifiers
/// had nothing to resync: its disk is an ordered set of the accepted writes over the base, and the set has each write
/// of the last connection to whose epoch the secondary is whole.
pub fn write_order()
    ensures joined { JoinedRunsKeepWriteOrder }
    ensures pair { EveryRunKeepsWriteOrder }
{}

/// States a law by its contract, and does nothing. No step of the pair is refused as a protocol error: the link holds
/// only frames that the other end made.
pub fn honest_link()
    ensures honest { EveryStepIsHonest }
{}

/// States laws by its contract, and does nothing. They hold for every refusal, also for want of memory. A refused step
/// of the pair leaves its history as it was, for each of the fourteen events; but if it refuses a frame that was taken,
/// the end that took it is closed then. Whatever frame an end refuses, its step has all effects of a close: `effects`
/// says so of a primary, and `loss` says what they are; `effects_too` says so of a secondary, whose items stay.
pub fn refusals()
    ensures unchanged { RefusedStepsChangeNothing }
    ensures closed { RefusedFramesClose }
    ensures effects { RefusedFramesCloseThePrimary }
    ensures effects_too { RefusedFramesCloseTheSecondary }
    ensures loss { RefusedFramesLoseTheConnection }
    ensures items_stay { RefusedFramesLeaveTheItems }
{}

/// States worked examples by its contract, and does nothing. Histories of a worked write meet the premises, and the
/// conclusions speak of something there: a write completed over the link and applied, a block that differs and is under
/// an unreleased write, and then marked, a block that is clean because its item is known to be applied, two nodes at
/// rest, a secondary that adopted a tuple after a resync and has a write since, in an epoch to which it is whole;
/// frames that are refused at each end; and two writes of a block, released in turn.
pub fn premises_are_met()
    ensures openings { OpeningsAreMet }
    ensures write { OneWriteIsMet }
    ensures cover { CoverIsMet }
    ensures reflection { ReflectionIsMet }
    ensures rest { RestIsMet }
    ensures order { OrderIsMet }
    ensures whole_epoch { WholeEpochIsMet }
    ensures refused { RefusedFramesAreMet }
    ensures releases { ReleasesAreMet }
{}
