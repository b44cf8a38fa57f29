//! What a stop at any moment leaves, as an opening of the next session: theorems over the definitions of `model`, by those of
//! `laws`. They name no code of a node.
//!
//! A *session* is one opening, and the run of each node from it. When either node is killed, or crashes, the session is over for
//! both, and the next one opens from what both disks hold and from what was kept of the identifiers and of the marks. Each
//! function does nothing, and its contract states theorems; `docs/PROOFS.md` says what they mean.
#![tactic(auto)]

ghost use Rattle.stops.specs.Examples.{SessionsAreLeft, ReturnIsMet, GrowthIsMet};
ghost use Rattle.stops.specs.Hooks.{CoverGrowsByHooks, EventsCover};
ghost use Rattle.stops.specs.Returns.{AloneKeepsItsDisk, ReturnsAreSound, ReturnsStaySound};
ghost use Rattle.stops.specs.Stops.{StopsLeaveASoundOpening, StopsLeaveNoPart, ChainsStaySound, PromotionsAreSound, StopsStayJoined};
ghost use Rattle.stops.specs.Windows.{WriteUnderWay, StartOfAResync, EndOfAResync, ResyncUnderWay, ThreeStarts, RolesChange};

/// States laws by its contract, and does nothing. Two nodes that are joined stop at any moment. What a stop may leave is
/// `MayBeLeft`: marks that have every block that is marked or under an unreleased write, and anything on either disk within
/// them. The next opening in the same roles is then sound, with the identifiers that a close of the primary would leave
/// (`opening`), and after a grounded history with any; it has no bitmap identifier where both nodes have the same current
/// one, if the first one had none (`unparted`); and so on along any chain of sessions (`chain`). A secondary that closes or
/// fails what its disk has under way stays joined (`in_flight`).
pub fn next_opening()
    ensures opening { StopsLeaveASoundOpening }
    ensures unparted { StopsLeaveNoPart }
    ensures chain { ChainsStaySound }
    ensures in_flight { StopsStayJoined }
{}

/// States laws by its contract, and does nothing. The secondary's disk becomes the primary's after a stop: the opening is sound
/// with any identifiers, after a grounded history, if its marks are those of the old primary's metadata (`promoted`). The new
/// primary changes no block that it does not mark while nobody is connected (`alone`), so the old one may come back with the
/// marks of both, after one session alone (`returned`) or any number of them (`sessions`).
pub fn changed_roles()
    ensures promoted { PromotionsAreSound }
    ensures alone { AloneKeepsItsDisk }
    ensures returned { ReturnsAreSound }
    ensures sessions { ReturnsStaySound }
{}

/// States laws by its contract, and does nothing. Where the metadata has to be asked before a step: an event of a primary
/// covers no block that was not covered, but those of a write that it accepts, and what is marked as a stream begins
/// (`grows`); by the kind of the event, only a submission, in its extent, or a frame that is taken (`events`).
pub fn cover_grows()
    ensures grows { CoverGrowsByHooks }
    ensures events { EventsCover }
{}

/// States worked examples by its contract, and does nothing. Moments of a session at which a stop needs a rule of what is
/// kept: a write under way, the start and the end of a resync, a block of one under way, three starts in a row, and a change
/// of roles.
pub fn worked_moments()
    ensures under_way { WriteUnderWay }
    ensures start { StartOfAResync }
    ensures end { EndOfAResync }
    ensures block { ResyncUnderWay }
    ensures thrice { ThreeStarts }
    ensures roles { RolesChange }
{}

/// States worked examples by its contract, and does nothing. Histories meet the premises of the other functions' laws: three
/// sessions one after the other: the first ends with a kill of the primary amid writes, the second with a kill of the
/// secondary amid a resync, and the third at rest, and each leaves disks that hold anything within the marks; a new primary
/// that ran two sessions alone, to which the old one comes back; and events that cover blocks.
pub fn premises_are_met()
    ensures sessions { SessionsAreLeft }
    ensures returned { ReturnIsMet }
    ensures growth { GrowthIsMet }
{}
