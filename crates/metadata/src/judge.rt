//! What the bytes of a header and of a slot say, and whether they are refused.
ghost use Rattle.std.specs.Prelude.{◌≡◌, length};
ghost use Rattle.metadata.specs.Judged.{header_words, header_judged, slot_words, slot_judged, identifiers_of, end_of};

use crate::codec::{sum_of, word};
use crate::layout::{
    FORMAT, HEADER_BYTES, HEADER_WORDS, MAGIC, MARKS_AT, SLOT_BYTES, SLOT_WORDS, VERSION,
    WORD_BYTES,
};
use crate::{BootId, CleanEnd, Header, Identifiers, MetadataFault};
use blocks::{MAX_DEVICE_BLOCKS, Tuple};

/// Returns the words of a header, without its sum.
pub(crate) fn header_words(header: &Header) -> [u64; HEADER_WORDS]
    ensures { result ≡ header_words header.now }
{
    [MAGIC, FORMAT, header.blocks, header.pair, header.node]
}

/// Returns what a header says, in a file of `len` bytes, or why the file is refused. `asked` is how many blocks the device has to
/// have, if the caller knows it.
pub(crate) fn judge_header(
    asked: Option<u64>,
    len: u64,
    bytes: &[u8],
) -> Result<Header, MetadataFault>
    requires { length bytes.now ≡ HEADER_BYTES }
    ensures { result ≡ header_judged asked len bytes.now }
{
    let magic = MAGIC.to_be_bytes();
    if bytes[..WORD_BYTES] != magic[..] {
        return Err(MetadataFault::NotMetadata);
    }
    if word(bytes, 1) / (1 << 32) != VERSION {
        return Err(MetadataFault::OtherVersion);
    }
    let blocks = word(bytes, 2);
    let sum = sum_of(&bytes[..HEADER_WORDS * WORD_BYTES]);
    let can_be = 0 < blocks && blocks <= u64::from(MAX_DEVICE_BLOCKS);
    if word(bytes, 1) != FORMAT || !can_be || word(bytes, HEADER_WORDS) != sum {
        return Err(MetadataFault::HeaderDamaged);
    }
    if len != MARKS_AT + blocks {
        return Err(MetadataFault::OtherLength);
    }
    if let Some(asked) = asked
        && asked != blocks
    {
        return Err(MetadataFault::OtherBlocks);
    }
    Ok(Header {
        blocks,
        pair: word(bytes, 3),
        node: word(bytes, 4),
    })
}

/// Returns the words of a slot, without its sum.
pub(crate) fn slot_words(identifiers: &Identifiers) -> [u64; SLOT_WORDS]
    ensures { result ≡ slot_words identifiers.now }
{
    let tuple = identifiers.tuple;
    let boot = identifiers.boot;
    let (ended, end) = match identifiers.clean_end {
        Some(end) => (true, end),
        None => (false, NO_END),
    };
    [
        tuple.current,
        tuple.bitmap,
        tuple.first_historical,
        tuple.second_historical,
        u64::from(identifiers.is_primary),
        u64::from(identifiers.is_consistent),
        boot.high,
        boot.low,
        identifiers.secondary_of,
        u64::from(ended),
        end.device,
        end.inode,
        end.size,
        end.seconds,
        end.nanoseconds,
    ]
}

const NO_END: CleanEnd = CleanEnd {
    device: 0,
    inode: 0,
    size: 0,
    seconds: 0,
    nanoseconds: 0,
};

/// Returns what a slot says, or that it is damaged.
pub(crate) fn judge_slot(bytes: &[u8]) -> Result<Identifiers, MetadataFault>
    requires { length bytes.now ≡ SLOT_BYTES }
    ensures { result ≡ slot_judged bytes.now }
{
    if word(bytes, SLOT_WORDS) != sum_of(&bytes[..SLOT_WORDS * WORD_BYTES]) {
        return Err(MetadataFault::IdentifiersDamaged);
    }
    Ok(Identifiers {
        tuple: Tuple::new(
            word(bytes, 0),
            word(bytes, 1),
            word(bytes, 2),
            word(bytes, 3),
        ),
        is_primary: word(bytes, 4) != 0,
        is_consistent: word(bytes, 5) != 0,
        boot: BootId {
            high: word(bytes, 6),
            low: word(bytes, 7),
        },
        secondary_of: word(bytes, 8),
        clean_end: end_of(bytes),
    })
}

/// Returns what a slot says of the end.
fn end_of(bytes: &[u8]) -> Option<CleanEnd>
    requires { length bytes.now ≡ SLOT_BYTES }
    ensures { result ≡ end_of bytes.now }
{
    if word(bytes, 9) == 0 {
        return None;
    }
    Some(CleanEnd {
        device: word(bytes, 10),
        inode: word(bytes, 11),
        size: word(bytes, 12),
        seconds: word(bytes, 13),
        nanoseconds: word(bytes, 14),
    })
}
