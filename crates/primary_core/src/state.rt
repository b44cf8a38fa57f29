//! The primary's state.
ghost use Rattle.std.specs.Prelude.{◌≡◌, ◌⊎◌, IfOk, IfErr};
ghost use Rattle.blocks.specs.declared.refusal.Refusal.TheVariants.{BadSetting, NoMemory};
ghost use Rattle.primary_protocol.specs.Core.{fresh};
ghost use Rattle.primary_core.specs.State.{CanBegin};

use crate::connection::Connection;
use crate::entry::JournalEntry;
use activitylog::ActivityLog;
use bitmap::Bitmap;
use blocks::{Refusal, Settings, Tuple};
use generations::Generations;
use overlap::Held;
use std::alloc::Global;
use std::marker::Model;
use transferlog::TransferLog;

/// The primary without its disk and its link. Invariant: its log, its marks and its open ranges are of one device, and
/// there is room for the barrier and the closing UUIDS that may still come to its stream.
/// The life of a write stands as a table in `transferlog` (write.rt).
#[derive(Drop)]
pub struct PrimaryCore {
    pub(crate) alloc: Global,
    pub(crate) settings: Settings,
    pub(crate) generations: Generations,
    pub(crate) peer: Option<Tuple>,
    pub(crate) connections: u32,
    pub(crate) log: TransferLog,
    pub(crate) entries: Vec<JournalEntry>,
    // For each entry, whether the settlement under way has confirmed its receipt. No history contains it.
    pub(crate) confirmed: Vec<bool>,
    pub(crate) marks: Bitmap,
    // The ranges of the open writes. The block under way is kept at its resync.
    pub(crate) held: Held,
    pub(crate) activity: ActivityLog,
    pub(crate) connection: Option<Connection>,
}

impl Model for PrimaryCore {
    ghost use Rattle.primary_core.specs.State.{CoreState, core_of, IsCore};

    ghost Value = { CoreState };

    ghost view = { core_of };

    ghost invariant = { IsCore };
}

impl PrimaryCore {
    /// Creates a primary that was never opened, with these identifiers and marks, one mark for each block.
    ///
    /// `BadSetting` (15) if `settings.check()` says so, if there are not as many marks as blocks, or if the current
    /// identifier is zero; else `NoMemory` (7) if there is no memory.
    pub fn new(
        alloc: Global,
        settings: Settings,
        tuple: Tuple,
        marks: Bitmap,
    ) -> Result<PrimaryCore, Refusal>
        ensures fresh { IfOk result (λ c. CanBegin settings tuple marks × (c.state ≡ fresh settings tuple marks)) }
        ensures refused { IfErr result (λ e. ((e ≡ BadSetting) × (CanBegin settings tuple marks → ⊥)) ⊎ ((e ≡ NoMemory) × CanBegin settings tuple marks)) }
    {
        settings.check()?;
        if marks.len() != u64::from(settings.blocks) || tuple.current == 0 {
            return Err(Refusal::BadSetting);
        }
        Ok(PrimaryCore {
            alloc,
            settings,
            generations: Generations { tuple },
            peer: None,
            connections: 0,
            log: TransferLog::new(
                alloc,
                settings.protocol,
                settings.blocks,
                settings.max_epoch,
                settings.backlog,
            )?,
            entries: Vec::new(alloc),
            confirmed: Vec::new(alloc),
            marks,
            held: Held::new(alloc),
            activity: ActivityLog::new(alloc, settings.slots)?,
            connection: None,
        })
    }
}
