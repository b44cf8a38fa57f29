//! The primary with its disk and its link.
ghost use Rattle.std.specs.Prelude.{◌≡◌, ◌⊎◌, false, None, length, slice_get, unwrap_or, IfOk, IfErr};
ghost use Rattle.blocks.specs.declared.refusal.Refusal.TheVariants.{BadSetting, NoMemory};
ghost use Rattle.model.specs.Primary.{primary_opening};
ghost use Rattle.primary_core.specs.State.{CanBegin};
ghost use Rattle.primary_protocol.specs.Node.{NodeHas};
ghost use Rattle.primary.specs.State.{node};

use bitmap::Bitmap;
use blocks::{Refusal, Settings, Store, Tuple};
use endpoint::{PacketReceiver, PacketSender};
use link::{FrameIn, FrameOut};
use primary_core::PrimaryCore;
use std::alloc::Global;
use std::marker::Model;

/// The primary node, which owns its disk. It accepts writes, has its disk do them, sends them to its peer in order,
/// and takes the peer's acknowledgements; its core decides what it may do. Invariant: the node refines some model
/// history (`NodeHas`), and a partly sent packet is the one that is due.
#[derive(Drop)]
pub struct Primary<O: FrameOut + Drop, I: FrameIn + Drop, S: Store + Drop> {
    pub(crate) alloc: Global,
    pub(crate) core: PrimaryCore,
    pub(crate) store: S,
    pub(crate) outgoing: Option<PacketSender<O>>,
    pub(crate) incoming: Option<PacketReceiver<I>>,
}

impl<O: FrameOut + Drop, I: FrameIn + Drop, S: Store + Drop> Model for Primary<O, I, S> {
    ghost use Rattle.primary.specs.State.{PrimaryView, IsNode, seen};

    ghost Value = { PrimaryView };

    ghost view = { λ n. seen n.core.state (S.contents n.store) n.outgoing n.incoming (S.faults n.store) (S.steady n.store) (S.faithful n.store) };

    ghost invariant = { λ n. IsNode (seen n.core.state (S.contents n.store) n.outgoing n.incoming (S.faults n.store) (S.steady n.store) (S.faithful n.store)) };
}

impl<O: FrameOut + Drop, I: FrameIn + Drop, S: Store + Drop> Primary<O, I, S> {
    /// Creates a closed primary that was never opened, with its disk, that disk's generation identifiers, and for
    /// each block whether it is marked.
    ///
    /// `BadSetting` (15) if a setting is out of its range, if the disk or the list of marks has another size than
    /// the settings say, or if the current identifier is zero; else `NoMemory` (7) if there is no memory. A refused
    /// disk is dropped.
    pub fn new(
        alloc: Global,
        settings: Settings,
        store: S,
        tuple: Tuple,
        marks: Vec<bool>,
    ) -> Result<Primary<O, I, S>, Refusal>
        ensures history { IfOk result (λ n. NodeHas (node n) (primary_opening settings (slice_get (S.contents store)) tuple (λ block. unwrap_or (slice_get marks.items block) false))) }
        ensures begun { IfOk result (λ _. CanBegin settings tuple marks.items × (length (S.contents store) ≡ settings.blocks)) }
        ensures disk { IfOk result (λ n. (n.faults ≡ S.faults store) × (n.steady ≡ S.steady store) × (n.faithful ≡ S.faithful store)) }
        ensures link { IfOk result (λ n. (n.outgoing ≡ None) × (n.incoming ≡ None)) }
        ensures refused { IfErr result (λ e. ((e ≡ BadSetting) × (CanBegin settings tuple marks.items → length (S.contents store) ≡ settings.blocks → ⊥))
            ⊎ ((e ≡ NoMemory) × CanBegin settings tuple marks.items × (length (S.contents store) ≡ settings.blocks))) }
    {
        settings.check()?;
        if store.blocks() != settings.blocks
            || marks.len() != settings.blocks as usize
            || tuple.current == 0
        {
            return Err(Refusal::BadSetting);
        }
        let marks = Bitmap::from_marks(alloc, &marks)?;
        Primary::with_bitmap(alloc, settings, store, tuple, marks)
    }

    /// Creates a closed primary like `new`, from the bitmap of its marked blocks: it makes no `bool` for each block.
    ///
    /// `BadSetting` (15) if a setting is out of its range, if the disk or the bitmap has another size than
    /// the settings say, or if the current identifier is zero; else `NoMemory` (7) if there is no memory. A refused
    /// disk is dropped.
    pub fn with_bitmap(
        alloc: Global,
        settings: Settings,
        store: S,
        tuple: Tuple,
        marks: Bitmap,
    ) -> Result<Primary<O, I, S>, Refusal>
        ensures history { IfOk result (λ n. NodeHas (node n) (primary_opening settings (slice_get (S.contents store)) tuple (λ block. unwrap_or (slice_get marks block) false))) }
        ensures begun { IfOk result (λ _. CanBegin settings tuple marks × (length (S.contents store) ≡ settings.blocks)) }
        ensures disk { IfOk result (λ n. (n.faults ≡ S.faults store) × (n.steady ≡ S.steady store) × (n.faithful ≡ S.faithful store)) }
        ensures link { IfOk result (λ n. (n.outgoing ≡ None) × (n.incoming ≡ None)) }
        ensures refused { IfErr result (λ e. ((e ≡ BadSetting) × (CanBegin settings tuple marks → length (S.contents store) ≡ settings.blocks → ⊥))
            ⊎ ((e ≡ NoMemory) × CanBegin settings tuple marks × (length (S.contents store) ≡ settings.blocks))) }
    {
        if store.blocks() != settings.blocks {
            return Err(Refusal::BadSetting);
        }
        Ok(Primary {
            alloc,
            core: PrimaryCore::new(alloc, settings, tuple, marks)?,
            store,
            outgoing: None,
            incoming: None,
        })
    }
}
