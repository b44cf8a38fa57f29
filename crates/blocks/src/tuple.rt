//! The generation identifiers of a disk.
ghost use Rattle.std.specs.Prelude.{◌≡◌};

use std::fmt;

/// The four generation identifiers of a node's disk (DRBD User's Guide, "Generation identifiers"). Zero means none.
#[derive(Clone, Copy, Debug, PartialEq, Eq)]
pub struct Tuple {
    /// The present generation of the data.
    pub current: u64,
    /// The generation from which on the bitmap has recorded changes.
    pub bitmap: u64,
    /// The generation before.
    pub first_historical: u64,
    /// The generation before that.
    pub second_historical: u64,
}

impl Tuple {
    /// Returns the tuple of these words, from the newest to the oldest; zero means none.
    pub fn new(current: u64, bitmap: u64, first: u64, second: u64) -> Tuple
        ensures current { result.current ≡ current }
        ensures bitmap { result.bitmap ≡ bitmap }
        ensures first { result.first_historical ≡ first }
        ensures second { result.second_historical ≡ second }
    {
        Tuple {
            current,
            bitmap,
            first_historical: first,
            second_historical: second,
        }
    }
}

/// The tuple's four words, separated by commas.
impl fmt::Display for Tuple {
    fn fmt<W: fmt::Write>(&self, f: &mut fmt::Formatter<W>) -> fmt::Result {
        let Tuple {
            current,
            bitmap,
            first_historical,
            second_historical,
        } = *self;
        write!(
            f,
            "{current},{bitmap},{first_historical},{second_historical}"
        )
    }
}
