//! What happens to a server, and the words for it.
ghost use Rattle.std.specs.Prelude.{◌≡◌, Some};
ghost use Rattle.server_log.specs.Events.{event_text, priority_of, copied_text};

use std::fmt;

/// How far a copy of marked blocks has come.
#[derive(Clone, Copy, Debug, PartialEq, Eq)]
pub struct Copied {
    /// How much of it is done, in hundredths.
    pub percent: u64,
    /// KiB that are left.
    pub left_kib: u64,
    /// KiB that it copies in a second.
    pub kib_per_second: u64,
    /// Seconds until it is done at that rate.
    pub seconds_left: u64,
}

/// What happens to a server.
#[derive(Clone, Copy, Debug, PartialEq, Eq)]
pub enum Event {
    /// The link is up.
    Connected,
    /// The link is down.
    Lost,
    /// A copy of so many KiB of marked blocks has begun.
    ResyncBegun(u64),
    /// It goes on.
    Resyncing(Copied),
    /// It is done after so many seconds, and no block is marked.
    ResyncDone(u64),
    /// A sync of the peer's image has failed.
    PeerSyncFailed,
    /// A metadata file could not be written.
    MetadataFailed,
    /// The server has ended.
    Stopped,
}

impl Event {
    /// Returns the priority of the event for the system's log: 3 for an error, 4 for a warning, and 6 for a message.
    pub fn priority(self) -> u8
        ensures { result ≡ priority_of self }
    {
        match self {
            Event::PeerSyncFailed | Event::MetadataFailed => ERROR,
            Event::Lost => WARNING,
            _ => MESSAGE,
        }
    }
}

/// The priority of an error.
pub(crate) const ERROR: u8 = 3;

/// The priority of a warning.
const WARNING: u8 = 4;

/// The priority of a message.
const MESSAGE: u8 = 6;

impl fmt::Display for Event {
    ghost output = { λ event. Some (event_text event) };

    fn fmt<W: fmt::Write>(&self, f: &mut fmt::Formatter<W>) -> fmt::Result {
        match *self {
            Event::Connected => f.write_str("connected"),
            Event::Lost => f.write_str("lost"),
            Event::ResyncBegun(kib) => write!(f, "resync-begun {kib} KiB to copy"),
            Event::Resyncing(copied) => write!(f, "{copied}"),
            Event::ResyncDone(seconds) => write!(f, "resync-done after {seconds} s"),
            Event::PeerSyncFailed => f.write_str(
                "disk-failed a sync of the peer's image: the link stays down until the server ends",
            ),
            Event::MetadataFailed => f.write_str(
                "disk-failed a write of a metadata file: the link stays down until the server ends",
            ),
            Event::Stopped => f.write_str("stopped"),
        }
    }
}

impl fmt::Display for Copied {
    ghost output = { λ copied. Some (copied_text copied) };

    fn fmt<W: fmt::Write>(&self, f: &mut fmt::Formatter<W>) -> fmt::Result {
        let Copied {
            percent,
            left_kib,
            kib_per_second,
            seconds_left,
        } = *self;
        write!(
            f,
            "resyncing {percent}% done, {left_kib} KiB left, {kib_per_second} KiB/s, {seconds_left} s to go"
        )
    }
}
