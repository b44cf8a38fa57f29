//! What a metadata file says, read by no part of the product.
use crate::file::TornFile;
use blocks::EXTENT_BLOCKS;
use metadata::BootId;

/// Where the selector of the slots lies.
const SELECTOR_AT: u64 = 512;

/// Where the slots of the identifiers begin.
const SLOTS_AT: [u64; 2] = [1024, 1536];

/// Where the entries of the extents begin.
const EXTENTS_AT: u64 = 4096;

/// Where the marks of the blocks begin.
const MARKS_AT: u64 = 2_101_248;

/// The identifiers that a file says.
#[derive(Clone, Copy)]
pub(crate) struct Saved {
    pub(crate) current: u64,
    pub(crate) bitmap: u64,
    pub(crate) is_consistent: bool,
    pub(crate) boot: BootId,
}

impl Saved {
    /// Returns the identifiers that count in a file.
    pub(crate) fn of_file(file: &TornFile) -> Saved {
        let [first, second] = SLOTS_AT;
        let slot = if file.told(SELECTOR_AT) == 0 {
            first
        } else {
            second
        };
        Saved {
            current: word(file, slot, 0),
            bitmap: word(file, slot, 1),
            is_consistent: word(file, slot, 5) != 0,
            boot: BootId {
                high: word(file, slot, 6),
                low: word(file, slot, 7),
            },
        }
    }
}

/// Returns whether a file has the block: marked, or in an extent that is entered, now and whatever a power cut leaves.
pub(crate) fn has_block(file: &TornFile, block: u64) -> bool {
    file.is_set_for_sure(EXTENTS_AT.saturating_add(block / EXTENT_BLOCKS))
        || file.is_set_for_sure(MARKS_AT.saturating_add(block))
}

// Returns a word of a slot.
fn word(file: &TornFile, slot: u64, number: u64) -> u64 {
    let mut word = 0u64;
    for place in 0..8 {
        let at = slot
            .saturating_add(number.saturating_mul(8))
            .saturating_add(place);
        word = word << 8 | u64::from(file.told(at));
    }
    word
}
