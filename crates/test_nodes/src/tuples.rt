//! Generation identifiers of the worked rows.
use blocks::Tuple;

/// What every disk begins with, if a row names nothing else.
pub(crate) const OWN: Tuple = Tuple {
    current: 1,
    bitmap: 0,
    first_historical: 0,
    second_historical: 0,
};

/// What a primary has after its first connection is lost, whose words are 5 and 7.
pub(crate) const PARTED: Tuple = Tuple {
    current: 7,
    bitmap: 1,
    first_historical: 0,
    second_historical: 0,
};

/// What it has while a second connection copies the marked blocks, whose words are 9 and 11.
pub(crate) const RESYNCING: Tuple = Tuple {
    current: 7,
    bitmap: 9,
    first_historical: 1,
    second_historical: 0,
};

/// What the peer has in that resync.
pub(crate) const TARGET: Tuple = Tuple {
    current: 9,
    bitmap: 0,
    first_historical: 0,
    second_historical: 0,
};

/// What both have after the resync.
pub(crate) const SYNCED: Tuple = Tuple {
    current: 7,
    bitmap: 0,
    first_historical: 9,
    second_historical: 1,
};
