//! What callers are told.
use ghost_log::{Log, Seen};
use primary::Receipt;
use std::collections::LinkedList;

/// Something that a caller was told. No value of it is made: it stands in logs, which take no byte of the running program.
pub enum Told {
    /// Under this number a write was accepted, from this block on, of these bytes.
    Accepted(u64, u64, LinkedList<u8>),
    /// Under this number a write of one block was accepted, which has these bytes from this byte of the block on, and around them what the
    /// local disk held there.
    Patched(u64, u64, u32, LinkedList<u8>),
    /// This receipt was given.
    Given(Receipt),
    /// From this block on, this many blocks of the local disk held these bytes.
    Held(u64, u64, LinkedList<u8>),
}

/// All that was told of a session's primary. Whoever has it may add to it.
pub type ToldLog<J> = Log<Told, J>;

/// A beginning of what was told.
pub type ToldSeen<J> = Seen<Told, J>;
