//! Opening both nodes over a new link.
ghost use Rattle.std.specs.Prelude.{◌≡◌, ◌⊎◌, Some, OnOk, OnErr, IfErr};
ghost use Rattle.blocks.specs.declared.refusal.Refusal.TheVariants.{NoMemory};
ghost use Rattle.endpoint.specs.Calls.{IsNewIn, IsNewOut};
ghost use Rattle.model.specs.Primary.{PrimaryHistory};
ghost use Rattle.model.specs.Refusals.{first_refusal};
ghost use Rattle.model.specs.Secondary.{SecondaryHistory};
ghost use Rattle.primary.specs.State as local_state;
ghost use Rattle.primary_protocol.specs.Node as local_node;
ghost use Rattle.secondary.specs.State as peer_state;
ghost use Rattle.secondary_protocol.specs.Node as peer_node;
ghost use Rattle.mirror.specs.Opened.{BothOpen, connect_tests};

use blocks::{ConnectionWords, Refusal, Store};
use link::{FrameIn, FrameOut};
use primary::Primary;
use secondary::Secondary;

/// Opens both nodes over a new link: the primary sends `there` and takes from `back`, the secondary the other way
/// round. The two words are fresh generation identifiers, one for a resync and one for the loss of the connection.
/// Either both nodes open or neither: the secondary is asked first. No frame is sent: the first turns of `work` do
/// the hello. On a pair that was never connected, a write before that is refused with `NotConnected` (12).
///
/// `NotDrained` (36) if an end is open or the secondary has items pending; `StreamFull` (6) if 4,294,967,295
/// connections were opened; `UsedIdentifier` (33) and `NoMemory` (7) as `Primary::open` returns them. A refused
/// call changes neither node.
pub fn connect<O, I, P, J, S, T>(
    local: &mut Primary<O, I, S>,
    peer: &mut Secondary<P, J, T>,
    there: (O, J),
    back: (P, I),
    words: ConnectionWords,
) -> Result<(), Refusal>
where
    O: FrameOut + Drop,
    I: FrameIn + Drop,
    P: FrameOut + Drop,
    J: FrameIn + Drop,
    S: Store + Drop,
    T: Store + Drop,
    requires there { IsNewOut (O.state there.0) × IsNewIn (J.state there.1) }
    requires back { IsNewOut (P.state back.0) × IsNewIn (I.state back.1) }
    ensures opened { OnOk result (BothOpen words.sync words.loss local.old local.new peer.old peer.new) }
    ensures unchanged { (h : PrimaryHistory) (g : SecondaryHistory) → local_node.NodeHas (local_state.node local.old) h → peer_node.NodeHas (peer_state.node peer.old) g
        → OnErr result ((local.new ≡ local.old) × (peer.new ≡ peer.old)) }
    ensures refused { (h : PrimaryHistory) (g : SecondaryHistory) → local_node.NodeHas (local_state.node local.old) h → peer_node.NodeHas (peer_state.node peer.old) g
        → IfErr result (λ e. (e ≡ NoMemory) ⊎ (first_refusal (connect_tests words.sync words.loss h g) ≡ Some e)) }
{
    peer.may_open()?;
    if peer.connection_number() == u32::MAX {
        return Err(Refusal::StreamFull);
    }
    local.may_open(words.sync, words.loss)?;
    local.open(there.0, back.1, words.sync, words.loss)?;
    peer.open(back.0, there.1)
}
