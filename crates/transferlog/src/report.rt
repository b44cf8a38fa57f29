//! The reports of the log's calls.
ghost use Rattle.std.specs.Prelude.{◌≡◌, ◌<◌, ◌++◌, vec_len, vec_capacity, IsSome};
ghost use Rattle.std.specs.Option.{option_to_list};

use blocks::StreamPosition;

/// An accepted write.
#[derive(Clone, Copy, Debug, PartialEq, Eq)]
pub struct Accepted {
    /// Its number.
    pub number: u64,
    /// Its place in the connection's stream, if a stream is open.
    pub place: Option<u32>,
    /// The number of the barrier that follows it, if its epoch is full now.
    pub barrier: Option<u32>,
}

/// A completed write.
#[derive(Clone, Copy, Debug, PartialEq, Eq)]
pub struct Completed {
    /// Its number.
    pub number: u64,
    /// Its first block.
    pub first: u64,
    /// How many blocks it has.
    pub count: u64,
    /// Whether it is answered as the protocol asks; if not, it was completed without the peer.
    pub linked: bool,
    /// Its position in a connection's stream, if it has one.
    pub home: Option<StreamPosition>,
}

/// A released write, which has left the log.
#[derive(Clone, Copy, Debug, PartialEq, Eq)]
pub struct Released {
    /// Its number.
    pub number: u64,
    /// Its first block.
    pub first: u64,
    /// How many blocks it has.
    pub count: u64,
    /// Whether both disks have it, so that its blocks' marks may be cleared. A failed write and one without a
    /// connection clear none.
    pub clears: bool,
}

/// The kind of a peer's answer to a write.
#[derive(Clone, Copy, Debug, PartialEq, Eq)]
pub enum PeerAck {
    /// The peer has received it (RECV_ACK).
    Received,
    /// The peer's disk has it (WRITE_ACK).
    Written,
}

/// The write that an answer names.
#[derive(Clone, Copy, Debug, PartialEq, Eq)]
pub struct AckedWrite {
    /// Its number.
    pub number: u64,
    /// Its place in the connection's stream.
    pub place: u32,
    /// Its first block.
    pub first: u64,
    /// How many blocks it has.
    pub count: u64,
}

/// The effect of a change on a write.
#[derive(Clone, Copy)]
pub(crate) struct ChangeReport {
    /// Whether the write left the open state.
    pub(crate) closes: bool,
    /// Its completion, if the change completed it.
    pub(crate) completion: Option<Completed>,
}

/// Adds a completion, if there is one, to a list that has room for it.
pub(crate) fn note_completed(list: &mut Vec<Completed>, entry: Option<Completed>)
    requires { IsSome entry → vec_len list.old < vec_capacity list.old }
    ensures items { list.new.items ≡ list.old.items ++ option_to_list entry }
    ensures capacity { vec_capacity list.new ≡ vec_capacity list.old }
{
    // Not by `note`: docs/DECISIONS.md, "Positions".
    if let Some(
        Completed {
            number,
            first,
            count,
            linked,
            home,
        },
    ) = entry
    {
        list.push_reserved(Completed {
            number,
            first,
            count,
            linked,
            home,
        });
    }
}

/// Adds an entry, if there is one, to a list that has room for it.
pub(crate) fn note<T>(list: &mut Vec<T>, entry: Option<T>)
    requires { IsSome entry → vec_len list.old < vec_capacity list.old }
    ensures items { list.new.items ≡ list.old.items ++ option_to_list entry }
    ensures capacity { vec_capacity list.new ≡ vec_capacity list.old }
{
    if let Some(entry) = entry {
        list.push_reserved(entry);
    }
}
