//! The active extents, by their last use.
ghost use Rattle.std.specs.Prelude.{◌≡◌, ◌+◌, ◌<◌, ◌≤◌, ◌^◌, ◌⊎◌, ◌↔◌, [], ◌∷◌, false, true, length, nat_eq, Err, IfOk, IfErr, IfSome, MatchOption, OnOk};
ghost use Rattle.std.specs.Prelude.{OnErr};
ghost use Rattle.std.specs.Map.{lookup, remove_entry};
ghost use Rattle.lru.specs.LruCache.{lru_cache};
ghost use Rattle.activitylog.specs.Activity.{begun, can_begin, ended, writes_of};
ghost use Rattle.activitylog.specs.Entries.{active_of, oldest_idle};
ghost use Rattle.blocks.specs.declared.refusal.Refusal.TheVariants.{ActivityFull, NoMemory};

use blocks::{Extent, Refusal};
use lru::LruCache;
use std::alloc::Global;
use std::marker::Model;
use std::num::NonZeroUsize;

/// The activity log (DRBD User's Guide, "The activity log"): at most `slots` extents are active, each with the number
/// of its unreleased writes. If all slots are taken, the least recently begun extent among those with no unreleased
/// write makes room (DRBD's `lru_cache`).
///
/// `end` takes constant time, and so does `begin` unless an extent has to make room. Then `begin` may go over all
/// active extents, 1,024 at most, and so may `can_begin`.
#[derive(Drop)]
pub struct ActivityLog {
    slots: usize,
    // The number of unreleased writes of each active extent. It has room for one extent above `slots`: a new extent
    // comes in before another goes, so that nothing changes if there is no memory.
    active: LruCache<u64, u32>,
}

impl Model for ActivityLog {
    ghost use Rattle.std.specs.Prelude.{◌≡◌, ◌+◌, ◌<◌, ◌≤◌, length};
    ghost use Rattle.activitylog.specs.Activity.{ActivityState};

    ghost Value = { ActivityState };

    ghost use Rattle.activitylog.specs.Entries.{active_of};

    ghost view = { λ a. record { slots = a.slots; active = active_of a.active.entries } };

    ghost invariant = { λ a. (a.slots < 2000) × (a.active.cap ≡ a.slots + 1) × (length a.active.entries ≤ a.slots) };
}

impl ActivityLog {
    /// Returns a log of 1 to 1024 slots, with nothing active.
    ///
    /// `NoMemory` (7) if there is no memory.
    pub fn new(alloc: Global, slots: u32) -> Result<ActivityLog, Refusal>
        requires some { 0 < slots }
        requires few { slots ≤ 1024 }
        ensures fresh { IfOk result (λ log. log ≡ record { slots = slots; active = [] }) }
        ensures refused { IfErr result (λ e. e ≡ NoMemory) }
    {
        let slots = slots as usize;
        let room = NonZeroUsize::MIN.saturating_add(slots);
        let active = LruCache::new(alloc, room)?;
        Ok(ActivityLog { slots, active })
    }

    /// Returns whether a write may begin in the extent: it is active, or a slot is free, or some active extent has no
    /// unreleased write.
    pub fn can_begin(&self, extent: Extent) -> bool
        ensures { result ≡ can_begin extent.0 self.now }
    {
        self.active.contains(&extent.0)
            || self.active.len() < self.slots
            || oldest_idle(&self.active).is_some()
    }

    /// Begins a write in the extent. The extent is now active, stays so until the write is released, and is the last
    /// to make room for another.
    ///
    /// `ActivityFull` (4) if the extent is not active, no slot is free, and every active extent has an unreleased
    /// write; else `NoMemory` (7) if there is no memory. In both cases nothing changes.
    pub fn begin(&mut self, extent: Extent) -> Result<(), Refusal>
        requires { writes_of extent.0 self.old.active + 1 < 2 ^ 32 }
        ensures begun { OnOk result (self.new ≡ begun extent.0 self.old) }
        ensures unchanged { OnErr result (self.new ≡ self.old) }
        ensures full { (result ≡ Err ActivityFull) ↔ (can_begin extent.0 self.old ≡ false) }
        ensures refused { IfErr result (λ e. (e ≡ ActivityFull) ⊎ (e ≡ NoMemory)) }
    {
        if one_more(&mut self.active, extent.0) {
            return Ok(());
        }
        if self.active.len() < self.slots {
            self.active.put(extent.0, 1)?;
            return Ok(());
        }
        let Some(idle) = oldest_idle(&self.active) else {
            return Err(Refusal::ActivityFull);
        };
        self.active.put(extent.0, 1)?;
        self.active.pop(&idle);
        Ok(())
    }

    /// Records the release of a write of the extent. It takes no memory.
    pub fn end(&mut self, extent: Extent)
        requires { 0 < writes_of extent.0 self.old.active }
        ensures { self.new ≡ ended extent.0 self.old }
    {
        if let Some(writes) = self.active.peek_mut(&extent.0) {
            *writes -= 1;
        }
    }

    /// Returns how many unreleased writes the extent has. It takes constant time.
    pub fn writes(&self, extent: Extent) -> u32
        ensures { result ≡ writes_of extent.0 self.now.active }
    {
        self.active.peek(&extent.0).copied().unwrap_or(0)
    }

    /// Returns how many extents are active: no more than there are slots.
    pub fn active(&self) -> usize
        ensures count { result ≡ length self.now.active }
        ensures few { result ≤ self.now.slots }
    {
        self.active.len()
    }
}

/// Counts another unreleased write of the extent and makes it the most recently begun, if it is active. Returns
/// whether it is.
fn one_more(active: &mut LruCache<u64, u32>, extent: u64) -> bool
    requires { IfSome (lookup (nat_eq extent) active.old.entries) (λ writes. writes + 1 < 2 ^ 32) }
    ensures { MatchOption (lookup (nat_eq extent) active.old.entries)
        ((result ≡ false) × (active.new ≡ active.old))
        (λ writes. (result ≡ true) × (active.new ≡ lru_cache ((extent, writes + 1) ∷ remove_entry (nat_eq extent) active.old.entries) active.old.cap)) }
{
    let Some(writes) = active.get_mut(&extent) else {
        return false;
    };
    *writes += 1;
    true
}

/// Returns the least recently begun extent among those with no unreleased write, if there is one.
fn oldest_idle(active: &LruCache<u64, u32>) -> Option<u64>
    ensures { result ≡ oldest_idle (active_of active.now.entries) }
{
    let mut idle = None;
    for (extent, writes) in active.iter() {
        if *writes == 0 {
            idle = Some(*extent);
        }
    }
    idle
}
