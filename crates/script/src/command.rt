//! The commands of a script.
use crate::keys::Keys;
use pair::Side;
use program_values::decimal;

/// The most blocks that a command submits: twice those of the largest write, so that a script can ask for too
/// many.
const MOST_BLOCKS: u64 = 64;

/// A command of a script.
#[derive(Clone, Copy)]
pub(crate) enum Command {
    /// Makes the pair, with zero-filled disks.
    Pair(Keys),
    /// Opens both ends of a new link.
    Open { sync: u64, loss: u64 },
    /// Opens both ends, and exchanges the three frames of each end's hello.
    Connect { sync: u64, loss: u64 },
    /// Submits a write of `count` blocks, filled with a byte.
    Submit { first: u64, count: u8, byte: u8 },
    /// Writes a write to the primary's disk.
    Local(u64),
    /// The primary's disk fails a write, and keeps this number of its first blocks.
    LocalFault(u64, u64),
    /// The primary sends a frame.
    Send,
    /// The secondary takes a frame.
    Receive,
    /// Writes the item of a place to the secondary's disk.
    Peer(u64),
    /// The secondary's disk fails the item of a place, and keeps this number of its first blocks.
    PeerFault(u64, u64),
    /// The secondary sends a frame.
    AckOut,
    /// The primary takes a frame.
    AckIn,
    /// The primary reads a block for the resync.
    Resync,
    /// Its disk fails that read.
    ResyncFault,
    /// Closes a node's end.
    Close(Side),
    /// Prints the marked blocks.
    Marks,
    /// Prints the blocks in which the two disks differ.
    Diff,
    /// Prints both nodes' generation identifiers.
    Tuples,
    /// Prints what a block of a node's disk is filled with.
    Read { side: Side, block: u64 },
    /// Prints both nodes' status lines.
    Status,
}

impl Command {
    /// Returns the command that a line spells. Its words are separated by one space.
    pub(crate) fn parse(line: &str) -> Option<Command> {
        match line.split_once(' ') {
            None => Command::alone(line),
            Some((name, rest)) => Command::with_words(name, rest),
        }
    }

    /// Returns the command of one word.
    fn alone(name: &str) -> Option<Command> {
        match name {
            "pair" => Some(Command::Pair(Keys::standard())),
            "send" => Some(Command::Send),
            "receive" => Some(Command::Receive),
            "ackout" => Some(Command::AckOut),
            "ackin" => Some(Command::AckIn),
            "resync" => Some(Command::Resync),
            "resyncfail" => Some(Command::ResyncFault),
            "marks" => Some(Command::Marks),
            "diff" => Some(Command::Diff),
            "tuples" => Some(Command::Tuples),
            "status" => Some(Command::Status),
            _ => None,
        }
    }

    /// Returns the command with words after its name.
    fn with_words(name: &str, rest: &str) -> Option<Command> {
        match name {
            "pair" => Some(Command::Pair(Keys::parse(rest)?)),
            "open" => {
                let (sync, loss) = two_numbers(rest)?;
                Some(Command::Open { sync, loss })
            }
            "connect" => {
                let (sync, loss) = two_numbers(rest)?;
                Some(Command::Connect { sync, loss })
            }
            "submit" => Command::submit(rest),
            "local" => Some(Command::Local(decimal(rest)?)),
            "localfail" => {
                let (write, kept) = two_numbers(rest)?;
                Some(Command::LocalFault(write, kept))
            }
            "peer" => Some(Command::Peer(decimal(rest)?)),
            "peerfail" => {
                let (place, kept) = two_numbers(rest)?;
                Some(Command::PeerFault(place, kept))
            }
            "close" => Some(Command::Close(side(rest)?)),
            "read" => Command::read(rest),
            _ => None,
        }
    }

    /// Parses `FIRST COUNT HH`, with at most 64 blocks.
    fn submit(words: &str) -> Option<Command> {
        let (first, words) = words.split_once(' ')?;
        let (count, byte) = words.split_once(' ')?;
        let first = decimal(first)?;
        let count = decimal(count)?;
        let byte = program_values::byte(byte)?;
        if count > MOST_BLOCKS {
            return None;
        }
        let count = count as u8;
        Some(Command::Submit { first, count, byte })
    }

    /// Parses `primary B` or `secondary B`.
    fn read(words: &str) -> Option<Command> {
        let (node, block) = words.split_once(' ')?;
        let side = side(node)?;
        let block = decimal(block)?;
        Some(Command::Read { side, block })
    }
}

/// Returns the node with this name.
fn side(word: &str) -> Option<Side> {
    match word {
        "primary" => Some(Side::Primary),
        "secondary" => Some(Side::Secondary),
        _ => None,
    }
}

fn two_numbers(words: &str) -> Option<(u64, u64)> {
    let (first, second) = words.split_once(' ')?;
    Some((decimal(first)?, decimal(second)?))
}
