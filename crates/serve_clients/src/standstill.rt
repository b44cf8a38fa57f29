//! When the link is cut because no marked block is copied.
ghost use Rattle.std.specs.Prelude.{◌≡◌};

/// Looks without progress after which the link is cut for the first time: five seconds.
const FIRST_LOOKS: u32 = 250;

/// Looks between two cuts at most: a minute.
const MOST_LOOKS: u32 = 3000;

/// How long blocks are marked without progress, in looks of the thread that keeps the link up. That is so after a write that the
/// local disk failed with the link up: only a resync copies its blocks, and one begins with a connection. Progress is that fewer
/// blocks are marked or, while a resync goes on, that the peer's disk has done an item: a slow one has many writes to do before
/// it copies a block.
#[derive(Clone, Copy, Debug, PartialEq, Eq)]
pub(crate) struct Standstill {
    marks: u32,
    applied: u32,
    looks: u32,
    // Looks after which the link is cut. Twice as many after each cut, since a disk that keeps failing is not helped.
    limit: u32,
}

impl Standstill {
    /// Creates one with no block marked.
    pub(crate) fn new() -> Standstill {
        Standstill {
            marks: 0,
            applied: 0,
            looks: 0,
            limit: FIRST_LOOKS,
        }
    }

    /// Counts looks from none again, after a connection: its resync has only begun. The limit stays.
    pub(crate) fn restart(&mut self)
        ensures { self.new ≡ record self.old { looks = 0; applied = 0 } }
    {
        self.looks = 0;
        // The count of items starts anew with each connection.
        self.applied = 0;
    }

    /// Takes the number of marked blocks at a look and, if a resync goes on, how many items of the connection the peer's disk has
    /// done. Returns whether the link is to be cut now.
    pub(crate) fn look(&mut self, marks: u32, applied: Option<u32>) -> bool {
        if marks == 0 {
            *self = Standstill::new();
            return false;
        }
        let is_less = marks < self.marks;
        let is_applied = applied.is_some_and(|count| count > self.applied);
        self.marks = marks;
        self.applied = applied.unwrap_or(self.applied);
        self.looks = if is_less || is_applied {
            0
        } else {
            self.looks.saturating_add(1)
        };
        if self.looks < self.limit {
            return false;
        }
        self.looks = 0;
        self.limit = self.limit.saturating_mul(2).min(MOST_LOOKS);
        true
    }
}
