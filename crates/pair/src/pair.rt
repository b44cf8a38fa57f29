//! The two nodes and their link.
ghost use Rattle.std.specs.Prelude.{◌≡◌, ◌⊎◌, ◌≤◌, false, slice_get, unwrap_or, IfOk, IfErr};
ghost use Rattle.blocks.specs.SettingsRange.{IsInRange};
ghost use Rattle.blocks.specs.declared.refusal.Refusal.TheVariants.{BadSetting, NoMemory};
ghost use Rattle.model.specs.Headline.{IsGrounded};
ghost use Rattle.model.specs.Pair.{pair_opening};
ghost use Rattle.pair.specs.Openings.{CanPair, zero_filled};
ghost use Rattle.pair.specs.State.{state};
ghost use Rattle.pair_protocol.specs.State.{PairHas, WasHonest};

use blocks::{FaultStore, MAX_BLOCKS, MemStore, Refusal, Settings, Store, Tuple};
use link::{PlainIn, PlainOut};
use primary::Primary;
use secondary::Secondary;
use std::alloc::Global;
use std::marker::Model;

/// The primary of a pair, over a link in one thread and a disk in memory that fails only where it is armed.
pub type PrimaryNode = Primary<PlainOut, PlainIn, FaultStore>;

/// The secondary of a pair.
pub type SecondaryNode = Secondary<PlainOut, PlainIn, FaultStore>;

/// A primary and a secondary over two disks in memory, and the link between them. Invariant: the pair refines some
/// model history (`PairHas`), and the queue of each direction is at its sending end.
#[derive(Drop)]
pub struct Pair {
    pub(crate) alloc: Global,
    pub(crate) primary: PrimaryNode,
    pub(crate) secondary: SecondaryNode,
}

impl Model for Pair {
    ghost use Rattle.pair.specs.State.{PairView, IsPairView};

    ghost Value = { PairView };

    ghost view = { λ p. record { primary = p.primary; secondary = p.secondary } };

    ghost invariant = { λ p. IsPairView (record { primary = p.primary; secondary = p.secondary }) };
}

impl Pair {
    /// Creates a pair of zero-filled disks with the tuple 1,0,0,0 and no marks, both ends closed.
    ///
    /// `BadSetting` (15) if a setting is out of its range, else `NoMemory` (7) if there is no memory.
    pub fn fresh(alloc: Global, settings: Settings) -> Result<Pair, Refusal>
        ensures history { IfOk result (λ p. PairHas (state p) (zero_filled settings)) }
        // Its identifiers say that the disks agree, and they do.
        ensures honest { WasHonest (zero_filled settings) }
        // Its marks cover the differences of its disks: there are none.
        ensures grounded { IsGrounded (zero_filled settings).primary (zero_filled settings).secondary }
        ensures refused { IfErr result (λ e. ((e ≡ BadSetting) × (IsInRange settings → settings.blocks ≤ 262144 → ⊥)) ⊎ ((e ≡ NoMemory) × IsInRange settings)) }
    {
        settings.check()?;
        if settings.blocks > MAX_BLOCKS {
            return Err(Refusal::BadSetting);
        }
        let tuple = Tuple {
            current: 1,
            bitmap: 0,
            first_historical: 0,
            second_historical: 0,
        };
        let local = MemStore::zeroed(alloc, settings.blocks)?;
        let peer = MemStore::zeroed(alloc, settings.blocks)?;
        let marks = Vec::from_elem(alloc, false, settings.blocks as usize)?;
        Pair::from_parts(alloc, settings, local, peer, tuple, tuple, marks)
    }

    /// Creates a pair of these disks, identifiers and marks, both ends closed. The caller has to give honest
    /// identifiers: if the peer's current one is the primary's current or bitmap one, the disks are equal except
    /// for the marked blocks. Otherwise nothing is promised about the marks.
    ///
    /// `BadSetting` (15) if a setting is out of its range, if a disk or the list of marks has another size than the
    /// settings say, or if the primary's current identifier is zero; else `NoMemory` (7) if there is no memory.
    /// What was handed over is dropped then.
    pub fn from_parts(
        alloc: Global,
        settings: Settings,
        local: MemStore,
        peer: MemStore,
        own: Tuple,
        peer_tuple: Tuple,
        marks: Vec<bool>,
    ) -> Result<Pair, Refusal>
        ensures history { IfOk result (λ p. PairHas (state p) (pair_opening settings (slice_get local) (slice_get peer)
            own peer_tuple (λ block. unwrap_or (slice_get marks.items block) false))) }
        ensures refused { IfErr result (λ e. ((e ≡ BadSetting) × (CanPair settings local peer own marks.items → ⊥))
            ⊎ ((e ≡ NoMemory) × CanPair settings local peer own marks.items)) }
    {
        if peer.blocks() != settings.blocks {
            return Err(Refusal::BadSetting);
        }
        Ok(Pair {
            alloc,
            primary: Primary::new(alloc, settings, FaultStore::new(local), own, marks)?,
            secondary: Secondary::new(alloc, settings, FaultStore::new(peer), peer_tuple)?,
        })
    }
}
