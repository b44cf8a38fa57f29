//! The secondary's state.
ghost use Rattle.std.specs.Prelude.{◌≡◌, ◌⊎◌, false, IfOk, IfErr};
ghost use Rattle.blocks.specs.SettingsRange.{IsInRange};
ghost use Rattle.blocks.specs.declared.refusal.Refusal.TheVariants.{BadSetting, NoMemory};
ghost use Rattle.secondary_protocol.specs.Core.{fresh};

use crate::connection::Connection;
use crate::inbox::Inbox;
use crate::item::PendingItem;
use blocks::{Refusal, Settings, Tuple};
use generations::Generations;
use peerdisk::PeerDisk;
use std::alloc::Global;
use std::marker::Model;

/// The secondary without its disk and its link. Invariant: its pending items and its epochs are as the settings say,
/// and an open connection has room for the acknowledgements that these items and the barriers taken ask for.
///
/// An item's life, by calls:
///
/// | the item is | `take` | `done` | `failed` | `close` |
/// |---|---|---|---|---|
/// | a frame | pending; under protocol B a write's RECV_ACK is due | | | |
/// | pending | | applied; RS_WRITE_ACK, or under protocol C WRITE_ACK, is due | dropped | pending, nothing due for it |
/// | a barrier | BARRIER_ACK due if all items before are applied | due with the last of them | never due | never due |
/// | applied, with an answer due | | | no answer | no answer |
#[derive(Drop)]
pub struct SecondaryCore {
    pub(crate) alloc: Global,
    pub(crate) settings: Settings,
    pub(crate) generations: Generations,
    pub(crate) is_consistent: bool,
    pub(crate) number: u32,
    pub(crate) inbox: Inbox,
    pub(crate) disk: PeerDisk<PendingItem>,
    // How many items of the last connection are applied.
    pub(crate) items_applied: u32,
    pub(crate) failed: Option<u32>,
    // None: the end is closed.
    pub(crate) connection: Option<Connection>,
    pub(crate) is_ready: bool,
}

impl Model for SecondaryCore {
    ghost use Rattle.secondary_core.specs.State.{CoreState, core_of, IsCore};

    ghost Value = { CoreState };

    ghost view = { core_of };

    ghost invariant = { IsCore };
}

impl SecondaryCore {
    /// Creates a secondary that was never opened. It is consistent unless its current identifier is zero.
    ///
    /// `BadSetting` (15) if `settings.check()` says so; else `NoMemory` (7) if there is no memory.
    pub fn new(alloc: Global, settings: Settings, tuple: Tuple) -> Result<SecondaryCore, Refusal>
        ensures fresh { IfOk result (λ c. IsInRange settings × (c ≡ record { state = fresh settings tuple; is_ready = false })) }
        ensures refused { IfErr result (λ e. ((e ≡ BadSetting) × (IsInRange settings → ⊥)) ⊎ ((e ≡ NoMemory) × IsInRange settings)) }
    {
        settings.check()?;
        Ok(SecondaryCore {
            alloc,
            settings,
            generations: Generations { tuple },
            is_consistent: tuple.current != 0,
            number: 0,
            inbox: Inbox::new(alloc, settings.blocks)?,
            disk: PeerDisk::new(alloc, settings.pending)?,
            items_applied: 0,
            failed: None,
            connection: None,
            is_ready: false,
        })
    }
}
