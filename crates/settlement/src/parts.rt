//! The parts of the next session.
ghost use Rattle.std.specs.Prelude.{◌≡◌, ◌⊎◌, ◌↔◌, false, IsTrue, Err, IfErr, IfOk};
ghost use Rattle.blocks.specs.declared.refusal.Refusal.TheVariants.{BadSetting, NoMemory, NotDrained};
ghost use Rattle.session_api.specs.Opening.{opening_of};
ghost use Rattle.settlement.specs.Next.{IsLeft, identifiers_of};
ghost use Rattle.model.specs.Headline.{IsJoined};
ghost use Rattle.model.specs.Primary.{PrimaryHistory, local_map};
ghost use Rattle.model.specs.Secondary.{SecondaryHistory, secondary_map};
ghost use Rattle.model.specs.Settlement.{is_at_rest};
ghost use Rattle.model.specs.Theorems.{IsSoundOpening};
ghost use Rattle.primary.specs.State.{node as primary_node};
ghost use Rattle.primary_protocol.specs.Node.{NodeHas as PrimaryHas};
ghost use Rattle.secondary.specs.State.{node as secondary_node};
ghost use Rattle.secondary_protocol.specs.Node.{NodeHas as SecondaryHas};
ghost use Rattle.settlement.specs.Settled.{WereHonest};

use crate::settlement::is_at_rest;
use blocks::{ConnectionWords, Refusal, Store, Tuple};
use generations::decide;
use link::{FrameIn, FrameOut};
use primary::Primary;
use secondary::Secondary;
use session_api::SessionStart;
use std::alloc::Global;

/// The identifiers of a disk about which nothing is known.
const UNKNOWN: Tuple = Tuple {
    current: 0,
    bitmap: 0,
    first_historical: 0,
    second_historical: 0,
};

/// Returns what the next session over the disks of these two nodes starts from, under two fresh words: the
/// settings, the primary's identifiers and its marks, and the secondary's identifiers, if its disk is consistent and the
/// primary would take it by them. Else nothing is known of that disk, and it is copied whole: so the primary refuses no
/// disk that it mirrored, as it does (32) when three connections in a row are lost right after a resync began, each under
/// another identifier.
///
/// `NotDrained` (36) unless both ends are closed, nothing is pending at the secondary, and the primary's disk has
/// done or failed every write; else `BadSetting` (15) if the nodes have different settings; else `NoMemory` (7) if
/// there is no room for the bitmap.
pub fn parts_after<
    O: FrameOut + Drop,
    I: FrameIn + Drop,
    S: Store + Drop,
    P: FrameOut + Drop,
    J: FrameIn + Drop,
    T: Store + Drop,
>(
    alloc: Global,
    primary: &Primary<O, I, S>,
    secondary: &Secondary<P, J, T>,
    words: ConnectionWords,
) -> Result<SessionStart, Refusal>
    ensures left { IfOk result (λ parts. (p : PrimaryHistory) (s : SecondaryHistory) → PrimaryHas (primary_node primary.now) p → SecondaryHas (secondary_node secondary.now) s
        → IsLeft parts p s) }
    ensures words { IfOk result (λ parts. parts.words ≡ words) }
    ensures sound { IfOk result (λ parts. (p : PrimaryHistory) (s : SecondaryHistory) → PrimaryHas (primary_node primary.now) p → SecondaryHas (secondary_node secondary.now) s
        → IsJoined p s → WereHonest p s → IsTrue p.faithful → IsSoundOpening (opening_of parts (local_map p) (secondary_map s))) }
    ensures unparted { IfOk result (λ parts. (p : PrimaryHistory) (s : SecondaryHistory) → PrimaryHas (primary_node primary.now) p → SecondaryHas (secondary_node secondary.now) s
        → IsJoined p s → WereHonest p s → (p.opening_tuple.current ≡ s.opening_tuple.current → p.opening_tuple.bitmap ≡ 0)
        → parts.own.current ≡ parts.peer.current → parts.own.bitmap ≡ 0) }
    ensures rest { (p : PrimaryHistory) (s : SecondaryHistory) → PrimaryHas (primary_node primary.now) p → SecondaryHas (secondary_node secondary.now) s
        → (result ≡ Err NotDrained) ↔ (is_at_rest p s ≡ false) }
    ensures same { IfOk result (λ _. (p : PrimaryHistory) (s : SecondaryHistory) → PrimaryHas (primary_node primary.now) p → SecondaryHas (secondary_node secondary.now) s
        → p.settings ≡ s.settings) }
    ensures settings { (p : PrimaryHistory) (s : SecondaryHistory) → PrimaryHas (primary_node primary.now) p → SecondaryHas (secondary_node secondary.now) s
        → result ≡ Err BadSetting → p.settings ≡ s.settings → ⊥ }
    ensures refused { IfErr result (λ e. (e ≡ NotDrained) ⊎ ((e ≡ BadSetting) ⊎ (e ≡ NoMemory))) }
{
    if !is_at_rest(primary, secondary) {
        return Err(Refusal::NotDrained);
    }
    let settings = primary.settings();
    if secondary.settings() != settings {
        return Err(Refusal::BadSetting);
    }
    let marks = primary.bitmap().copy(alloc)?;
    let own = primary.tuple();
    let peer = identifiers_of(secondary.is_consistent(), secondary.tuple(), &own);
    Ok(SessionStart {
        settings,
        own,
        peer,
        marks,
        words,
        is_cut: false,
    })
}

// Returns the identifiers that the peer's disk has in the next session: its own, if it is consistent and the primary, whose
// identifiers are `own`, takes it by them; else none.
fn identifiers_of(is_consistent: bool, peer: Tuple, own: &Tuple) -> Tuple
    ensures { result ≡ identifiers_of is_consistent peer own.now }
{
    if is_consistent && decide(own, &peer).is_ok() {
        peer
    } else {
        UNKNOWN
    }
}
