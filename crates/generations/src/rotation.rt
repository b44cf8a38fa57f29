//! The changes of a node's tuple.
ghost use Rattle.std.specs.Prelude.{◌≡◌};
ghost use Rattle.blocks.specs.Identifiers.{into_history, lost, sync_end, sync_start};

use blocks::Tuple;

/// The generation identifiers of a node (DRBD User's Guide, "Generation identifiers"). No call takes
/// memory, and each takes constant time.
#[derive(Clone, Copy, Debug, PartialEq, Eq)]
pub struct Generations {
    /// The current, the bitmap and the two historical identifiers.
    pub tuple: Tuple,
}

impl Generations {
    /// Starts a new data generation under `word`, as the primary has lost its peer: the bitmap records from the old
    /// identifier on. If it records already, nothing changes.
    pub fn lost(&mut self, word: u64)
        ensures { self.new.tuple ≡ lost word self.old.tuple }
    {
        if self.tuple.bitmap == 0 {
            self.tuple.bitmap = self.tuple.current;
            self.tuple.current = word;
        }
    }

    /// Records that a resync starts at its source: makes `word` the bitmap identifier, and moves the previous one
    /// into the history.
    pub fn sync_start(&mut self, word: u64)
        ensures { self.new.tuple ≡ sync_start word self.old.tuple }
    {
        self.into_history(word);
    }

    /// Records that a resync ends at its source: moves the bitmap identifier into the history, and leaves none.
    pub fn sync_end(&mut self)
        ensures { self.new.tuple ≡ sync_end self.old.tuple }
    {
        self.into_history(0);
    }

    /// Records that a resync starts at its target, which SYNC_UUID tells: makes `word` the current identifier. The
    /// data are of no generation until the resync ends.
    pub fn sync_target_start(&mut self, word: u64)
        ensures { self.new.tuple ≡ record self.old.tuple { current = word } }
    {
        self.tuple = Tuple {
            current: word,
            ..self.tuple
        };
    }

    /// Takes over the source's tuple, as the target's resync has ended.
    pub fn adopt(&mut self, tuple: Tuple)
        ensures { self.new.tuple ≡ tuple }
    {
        self.tuple = tuple;
    }

    // Makes the bitmap identifier the newest of the history, if there is one, and replaces it by `bitmap`.
    fn into_history(&mut self, bitmap: u64)
        ensures { self.new.tuple ≡ into_history bitmap self.old.tuple }
    {
        if self.tuple.bitmap != 0 {
            self.tuple.second_historical = self.tuple.first_historical;
            self.tuple.first_historical = self.tuple.bitmap;
        }
        self.tuple.bitmap = bitmap;
    }
}
