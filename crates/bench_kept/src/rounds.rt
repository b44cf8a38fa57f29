//! Two rounds of writes of a primary.
ghost use Rattle.std.specs.Prelude.{◌<◌};

use crate::measured::MeasuredPrimary;
use blocks::BLOCK_BYTES;
use bytes::Bytes;
use std::fmt;
use std::time::Instant;

/// The distance from one write's block to the next one's, at random: odd, so that each block of a device whose size is a power of two has
/// its turn, and far.
const STRIDE: u64 = 40_503;

/// In which order the blocks are written.
#[derive(Clone, Copy, Debug, PartialEq, Eq)]
pub(crate) enum Order {
    InTurn,
    AtRandom,
}

impl fmt::Display for Order {
    fn fmt<W: fmt::Write>(&self, f: &mut fmt::Formatter<W>) -> fmt::Result {
        f.write_str(match self {
            Order::InTurn => "in order",
            Order::AtRandom => "at random",
        })
    }
}

/// Two rounds of as many writes as the device has blocks.
#[derive(Clone, Copy, Debug)]
pub(crate) struct Rounds {
    pub(crate) blocks: u32,
    pub(crate) order: Order,
}

impl Rounds {
    /// Measures a primary of this many blocks, prints what was done, and how fast each round was.
    pub(crate) fn measure<P: MeasuredPrimary>(
        self,
        host: &HostRuntime,
        name: &str,
        primary: &mut P,
    ) -> anyhow::Result<()>
        requires some { 0 < self.blocks }
    {
        let contents = Bytes::from_vec(Vec::from_elem(host.alloc(), 0x5Au8, BLOCK_BYTES)?)?;
        let first = self.round(host, primary, &contents)?;
        let entered = primary.entered_extents();
        let again = self.round(host, primary, &contents)?;
        let Rounds { blocks, order } = self;
        let writes = u64::from(blocks) * 2;
        println!(host; "{name}, {order}: {writes} writes, {entered} extents entered")?;
        eprintln!(host; "{name}, {order}: {first} writes/s, again {again} writes/s")?;
        Ok(())
    }

    // Writes each block once. Returns how many writes there were in a second.
    fn round<P: MeasuredPrimary>(
        self,
        host: &HostRuntime,
        primary: &mut P,
        contents: &Bytes,
    ) -> anyhow::Result<u128>
        requires some { 0 < self.blocks }
    {
        let start = Instant::now(host)?;
        for turn in 0..self.blocks {
            primary.write(self.block_of(turn), contents)?;
        }
        let micros = start.elapsed(host)?.as_micros().max(1);
        Ok(u128::from(self.blocks) * 1_000_000 / micros)
    }

    // Returns the block of a write.
    fn block_of(self, turn: u32) -> u64
        requires some { 0 < self.blocks }
    {
        match self.order {
            Order::InTurn => u64::from(turn),
            Order::AtRandom => u64::from(turn) * STRIDE % u64::from(self.blocks),
        }
    }
}
