//! The plan of a run's writes.
ghost use Rattle.std.specs.Prelude.{◌≡◌, ◌+◌, ◌*◌, ◌%◌, ◌<◌};
ghost use Rattle.blocks.specs.SettingsRange.{standard};

use crate::RunOptions;
use blocks::{ConnectionWords, Settings};

impl RunOptions {
    /// Returns the settings of both nodes.
    pub fn settings(&self) -> Settings
        ensures { result ≡ record standard { protocol = self.now.protocol; blocks = self.now.blocks } }
    {
        Settings {
            protocol: self.protocol,
            blocks: self.blocks,
            ..Settings::STANDARD
        }
    }

    /// Returns how many writes all writers make.
    pub fn all_writes(&self) -> u64
        ensures { result ≡ self.now.writers * self.now.writes }
    {
        u64::from(self.writers) * u64::from(self.writes)
    }

    /// Returns the block that a writer writes in a turn, both counted from 0.
    pub fn block(&self, writer: u32, turn: u32) -> u64
        requires { 0 < self.now.blocks }
        ensures { result ≡ (writer * self.now.writes + turn) % self.now.blocks }
    {
        let place = u64::from(writer) * u64::from(self.writes) + u64::from(turn);
        place % u64::from(self.blocks)
    }
}

/// Returns the byte that fills the block which a writer writes in a turn, both counted from 0.
pub fn byte_of_turn(writer: u32, turn: u32) -> u8
    ensures { result ≡ (writer + turn + 1) % 256 }
{
    ((u64::from(writer) + u64::from(turn) + 1) % 256) as u8
}

/// Returns the words of a reconnect, the first round being 1: the identifiers of its resync and of its loss.
pub fn reconnect_words(round: u32) -> ConnectionWords
    ensures { (result.sync ≡ 2 * round + 2) × (result.loss ≡ 2 * round + 3) }
{
    let round = u64::from(round);
    ConnectionWords {
        sync: 2 * round + 2,
        loss: 2 * round + 3,
    }
}
