//! The secondary with its disk and its link.
ghost use Rattle.std.specs.Prelude.{◌≡◌, ◌⊎◌, None, length, slice_get, IfOk, IfErr};
ghost use Rattle.blocks.specs.SettingsRange.{IsInRange};
ghost use Rattle.blocks.specs.declared.refusal.Refusal.TheVariants.{BadSetting, NoMemory};
ghost use Rattle.model.specs.Secondary.{secondary_opening};
ghost use Rattle.secondary_protocol.specs.Node.{NodeHas};
ghost use Rattle.secondary.specs.State.{node};

use blocks::{Refusal, Settings, Store, Tuple};
use endpoint::{PacketReceiver, PacketSender};
use link::{FrameIn, FrameOut};
use secondary_core::SecondaryCore;
use std::alloc::Global;
use std::marker::Model;

/// The secondary node, which owns its disk. It takes the primary's frames in order, has its disk do their items
/// epoch by epoch, and acknowledges them; its core decides what it may do. Invariant: the node refines some model
/// history (`NodeHas`), and a partly sent packet is the one that is due.
#[derive(Drop)]
pub struct Secondary<O: FrameOut + Drop, I: FrameIn + Drop, S: Store + Drop> {
    pub(crate) alloc: Global,
    pub(crate) core: SecondaryCore,
    pub(crate) store: S,
    pub(crate) outgoing: Option<PacketSender<O>>,
    pub(crate) incoming: Option<PacketReceiver<I>>,
}

impl<O: FrameOut + Drop, I: FrameIn + Drop, S: Store + Drop> Model for Secondary<O, I, S> {
    ghost use Rattle.secondary.specs.State.{SecondaryView, IsNode, seen};

    ghost Value = { SecondaryView };

    ghost view = { λ n. seen n.core.state (S.contents n.store) n.outgoing n.incoming (S.faults n.store) (S.steady n.store) (S.faithful n.store) };

    ghost invariant = { λ n. IsNode (seen n.core.state (S.contents n.store) n.outgoing n.incoming (S.faults n.store) (S.steady n.store) (S.faithful n.store)) };
}

impl<O: FrameOut + Drop, I: FrameIn + Drop, S: Store + Drop> Secondary<O, I, S> {
    /// Creates a closed secondary that was never opened, with its disk and that disk's generation identifiers. It
    /// is consistent unless its current identifier is zero.
    ///
    /// `BadSetting` (15) if a setting is out of its range, or if the disk has another size than the settings say;
    /// else `NoMemory` (7) if there is no memory. A refused disk is dropped.
    pub fn new(
        alloc: Global,
        settings: Settings,
        store: S,
        tuple: Tuple,
    ) -> Result<Secondary<O, I, S>, Refusal>
        ensures history { IfOk result (λ n. NodeHas (node n) (secondary_opening settings (slice_get (S.contents store)) tuple)) }
        ensures disk { IfOk result (λ n. (n.faults ≡ S.faults store) × (n.steady ≡ S.steady store) × (n.faithful ≡ S.faithful store)) }
        ensures link { IfOk result (λ n. (n.outgoing ≡ None) × (n.incoming ≡ None)) }
        ensures refused { IfErr result (λ e. ((e ≡ BadSetting) × (IsInRange settings → length (S.contents store) ≡ settings.blocks → ⊥))
            ⊎ ((e ≡ NoMemory) × IsInRange settings × (length (S.contents store) ≡ settings.blocks))) }
    {
        if store.blocks() != settings.blocks {
            return Err(Refusal::BadSetting);
        }
        Ok(Secondary {
            alloc,
            core: SecondaryCore::new(alloc, settings, tuple)?,
            store,
            outgoing: None,
            incoming: None,
        })
    }
}
