//! The two slots of the identifiers.
ghost use Rattle.std.specs.Prelude.{◌≡◌, ◌<◌, ◌≤◌, ℕ, List, length, OnOk, OnErr};
ghost use Rattle.metadata.specs.declared.layout.TheConstants.{SLOT_BYTES};
ghost use Rattle.metadata.specs.Calls.{Leaves, Only};
ghost use Rattle.metadata.specs.Says.{slot_at};
ghost use Rattle.metadata.specs.Steps.{OnlySlot, HasOther, IsReplaced};

use crate::layout::{FIRST_SLOT_AT, SECOND_SLOT_AT, SELECTOR_AT};
use crate::{FileFault, StableFile};

/// Returns where slot 0 or 1 begins.
pub(crate) fn slot_at(slot: u8) -> u64
    ensures { result ≡ slot_at slot }
{
    if slot == 0 {
        FIRST_SLOT_AT
    } else {
        SECOND_SLOT_AT
    }
}

/// Puts these bytes into slot `other`, which does not count, and has it count.
pub(crate) fn replace_slot<F: StableFile>(
    file: &mut F,
    other: u8,
    slot: &[u8],
) -> Result<(), FileFault>
    requires size { length slot.now ≡ SLOT_BYTES }
    requires few { other ≤ 1 }

    ensures durable { OnOk result (Only (F.seen file.new) (F.may_leave file.new)) }
    ensures replaced { OnOk result (HasOther other (F.seen file.old) → IsReplaced other slot.now (F.seen file.old) (F.seen file.new)) }
    ensures any_moment { ((d : List ℕ) → F.may_leave file.old d → HasOther other d)
        → Leaves F.moment F.left_since F.may_leave (OnlySlot slot.now) file.old file.new }
    ensures still_faithful { F.faithful file.new ≡ F.faithful file.old }
    ensures cause { OnErr result (F.faults file.old < F.faults file.new) }
{
    file.write_at(slot_at(other), slot)?;
    file.sync()?;
    file.write_at(SELECTOR_AT, &[other])?;
    file.sync()
}
