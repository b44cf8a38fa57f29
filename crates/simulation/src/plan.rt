//! What a seed simulates.
use crate::random::Random;
use blocks::{EXTENT_BLOCKS, Protocol, Settings};
use std::fmt;

/// Numbers that spell a plan; an event has fewer.
pub(crate) const WORDS: usize = 8;

/// The most blocks of a tiny device.
const TINY_BLOCKS: u64 = 160;

/// Extents of a small device. The last one is shorter.
const SMALL_EXTENTS: u64 = 4;

/// Extents of a large device: more than stay entered in the metadata.
const LARGE_EXTENTS: u64 = 70;

/// What a seed simulates: the settings of the pair, and how many machines there are.
#[derive(Clone, Copy)]
pub(crate) struct Plan {
    pub(crate) settings: Settings,
    /// Whether both nodes are in one process on one machine, as those of a server.
    pub(crate) is_one_machine: bool,
}

impl Plan {
    /// Returns the plan of a seed: one device in twelve is large, and most are tiny, so that all is copied soon.
    pub(crate) fn of_seed(random: &mut Random) -> Plan {
        let protocol = match random.below(4) {
            0 => Protocol::A,
            1 => Protocol::B,
            _ => Protocol::C,
        };
        let is_large = random.one_in(12);
        let blocks = if is_large {
            blocks_of(LARGE_EXTENTS, random)
        } else if random.one_in(4) {
            blocks_of(SMALL_EXTENTS, random)
        } else {
            random.between(40, TINY_BLOCKS)
        };
        Plan {
            settings: Settings {
                protocol,
                blocks: narrowed(blocks),
                max_epoch: narrowed(random.between(1, 12)),
                slots: narrowed(if is_large { 128 } else { random.between(1, 6) }),
                backlog: narrowed(random.between(2, 40)),
                link: narrowed(random.between(1, 10)),
                pending: narrowed(random.between(1, 16)),
            },
            is_one_machine: random.one_in(3),
        }
    }

    /// Returns the number of blocks of the device.
    pub(crate) fn blocks(&self) -> u64 {
        u64::from(self.settings.blocks)
    }

    /// Returns the number of extents of the device.
    pub(crate) fn extents(&self) -> u64 {
        self.blocks().div_ceil(EXTENT_BLOCKS)
    }

    /// Returns whether more extents may be entered than stay.
    pub(crate) fn is_large(&self) -> bool {
        self.extents() > 64
    }

    /// Returns the plan that the numbers of a line spell, as `Display` writes them.
    pub(crate) fn of_words(words: [u64; WORDS]) -> Option<Plan> {
        let [
            protocol,
            machines,
            blocks,
            max_epoch,
            slots,
            backlog,
            link,
            pending,
        ] = words;
        Some(Plan {
            settings: Settings {
                protocol: protocol_of(protocol)?,
                blocks: narrowed(blocks),
                max_epoch: narrowed(max_epoch),
                slots: narrowed(slots),
                backlog: narrowed(backlog),
                link: narrowed(link),
                pending: narrowed(pending),
            },
            is_one_machine: machines == 1,
        })
    }
}

// Returns the blocks of a device of `extents` extents, whose last one is shorter.
fn blocks_of(extents: u64, random: &mut Random) -> u64 {
    extents
        .saturating_mul(EXTENT_BLOCKS)
        .saturating_sub(random.below(64))
}

// Returns the protocol of a number.
fn protocol_of(number: u64) -> Option<Protocol> {
    match number {
        0 => Some(Protocol::A),
        1 => Some(Protocol::B),
        2 => Some(Protocol::C),
        _ => None,
    }
}

// Returns a number as a setting.
fn narrowed(number: u64) -> u32 {
    u32::try_from(number).unwrap_or(u32::MAX)
}

impl fmt::Display for Plan {
    fn fmt<W: fmt::Write>(&self, f: &mut fmt::Formatter<W>) -> fmt::Result {
        let Settings {
            protocol,
            blocks,
            max_epoch,
            slots,
            backlog,
            link,
            pending,
        } = self.settings;
        let protocol = match protocol {
            Protocol::A => 0,
            Protocol::B => 1,
            Protocol::C => 2,
        };
        let machines = if self.is_one_machine { 1 } else { 2 };
        write!(
            f,
            "plan {protocol} {machines} {blocks} {max_epoch} {slots} {backlog} {link} {pending}"
        )
    }
}
