//! The settings of a pair, with their ranges.
ghost use Rattle.std.specs.Prelude.{◌≡◌, ◌<◌, ◌≤◌, ◌↔◌, IsTrue, IsOk, IfErr};
ghost use Rattle.blocks.specs.SettingsRange.{IsInRange, standard};
ghost use Rattle.blocks.specs.declared.refusal.Refusal.TheVariants.{BadSetting};

use crate::{MAX_DEVICE_BLOCKS, Refusal};
use std::fmt;

/// When a write counts as completed (DRBD User's Guide, "Replication modes").
#[derive(Clone, Copy, Debug, PartialEq, Eq)]
pub enum Protocol {
    /// Asynchronous: once it is in the link's queue.
    A,
    /// Memory synchronous: once the peer has received it.
    B,
    /// Synchronous: once it is on the peer's disk.
    C,
}

impl fmt::Display for Protocol {
    fn fmt<W: fmt::Write>(&self, f: &mut fmt::Formatter<W>) -> fmt::Result {
        f.write_str(match self {
            Protocol::A => "A",
            Protocol::B => "B",
            Protocol::C => "C",
        })
    }
}

/// The settings of a pair, the same for both nodes (this project's limits).
#[derive(Clone, Copy, Debug, PartialEq, Eq)]
pub struct Settings {
    /// When a write counts as completed.
    pub protocol: Protocol,
    /// Blocks of the device, 1 to 2,147,483,648. A pair, a script and a run take at most 262,144.
    pub blocks: u32,
    /// The most writes of an epoch, 1 to 20,000.
    pub max_epoch: u32,
    /// Active extents, 1 to 1,024.
    pub slots: u32,
    /// Unreleased writes, 1 to 4,096.
    pub backlog: u32,
    /// Frames that a link holds in each direction, 1 to 1,024.
    pub link: u32,
    /// Items that the secondary has taken and not applied, 1 to 4,096.
    pub pending: u32,
}

impl Settings {
    /// Protocol C over 8 blocks, 2,048 writes an epoch, 64 active extents, 1,024 unreleased writes, 64
    /// frames each way and 1,024 pending items.
    pub const STANDARD: Settings = Settings {
        protocol: Protocol::C,
        blocks: 8,
        max_epoch: 2048,
        slots: 64,
        backlog: 1024,
        link: 64,
        pending: 1024,
    };

    /// Checks that each setting is in its range. `BadSetting` (15) if one is not. It takes no memory.
    pub fn check(&self) -> Result<(), Refusal>
        ensures accepted { IsOk result ↔ IsInRange self.now }
        ensures refused { IfErr result (λ e. e ≡ BadSetting) }
    {
        if is_within(self.blocks, MAX_DEVICE_BLOCKS)
            && is_within(self.max_epoch, 20_000)
            && is_within(self.slots, 1024)
            && is_within(self.backlog, 4096)
            && is_within(self.link, 1024)
            && is_within(self.pending, 4096)
        {
            Ok(())
        } else {
            Err(Refusal::BadSetting)
        }
    }
}

fn is_within(value: u32, most: u32) -> bool
    ensures { IsTrue result ↔ ((0 < value) × (value ≤ most)) }
{
    0 < value && value <= most
}

impl Default for Settings {
    ghost use Rattle.std.specs.Prelude.{◌≡◌};
    ghost use Rattle.blocks.specs.SettingsRange.{standard};

    ghost is_default = { λ s. s ≡ standard };

    fn default() -> Settings {
        Settings::STANDARD
    }
}
