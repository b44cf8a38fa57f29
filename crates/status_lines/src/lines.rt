//! What the line of each node shows, and how it is printed.
ghost use Rattle.std.specs.Prelude.{◌≡◌, Some};
ghost use Rattle.status_lines.specs.Text.{counts_text, primary_text, protocol_text, secondary_text, usable_text, usage_text};
ghost use Rattle.status_lines.specs.Lines.{primary_line_of, secondary_line_of};

use crate::words::Words;
use blocks::Protocol;
use std::fmt;

/// What the primary's line shows (DRBD User's Guide, "Performance indicators").
#[derive(Clone, Copy, Debug, PartialEq, Eq)]
pub struct PrimaryLine {
    pub words: Words,
    pub protocol: Protocol,
    /// Writes that wait for the peer's answer.
    pub pe: u64,
    /// Writes that are neither completed nor failed.
    pub ap: u64,
    /// Epochs that are not acknowledged.
    pub ep: u64,
    /// KiB that are out of sync.
    pub oos: u64,
}

/// What the secondary's line shows.
#[derive(Clone, Copy, Debug, PartialEq, Eq)]
pub struct SecondaryLine {
    pub words: Words,
    pub protocol: Protocol,
    /// Items that wait for the disk.
    pub pending: u64,
    /// Whether the data may be used as they are.
    pub usable: bool,
    /// The epoch of the connection up to which the data are whole.
    pub whole: u64,
}

impl fmt::Display for PrimaryLine {
    ghost output = { λ line. Some (primary_text (primary_line_of line)) };

    fn fmt<W: fmt::Write>(&self, f: &mut fmt::Formatter<W>) -> fmt::Result {
        let words = self.words;
        let protocol = protocol_name(self.protocol);
        let counts = Counts(*self);
        write!(f, "{words} pr:{protocol}{counts}")
    }
}

impl fmt::Display for SecondaryLine {
    ghost output = { λ line. Some (secondary_text (secondary_line_of line)) };

    fn fmt<W: fmt::Write>(&self, f: &mut fmt::Formatter<W>) -> fmt::Result {
        let words = self.words;
        let protocol = protocol_name(self.protocol);
        let usage = Usage(*self);
        write!(f, "{words} pr:{protocol}{usage}")
    }
}

/// The numbers of the primary's line.
#[derive(Clone, Copy)]
struct Counts(PrimaryLine);

impl fmt::Display for Counts {
    ghost output = { λ counts. Some (counts_text (primary_line_of counts.0)) };

    fn fmt<W: fmt::Write>(&self, f: &mut fmt::Formatter<W>) -> fmt::Result {
        let PrimaryLine {
            pe,
            ap,
            ep,
            oos,
            ..
        } = self.0;
        write!(f, " pe:{pe} ap:{ap} ep:{ep} oos:{oos}")
    }
}

/// The numbers of the secondary's line, and whether its data may be used.
#[derive(Clone, Copy)]
struct Usage(SecondaryLine);

impl fmt::Display for Usage {
    ghost output = { λ usage. Some (usage_text (secondary_line_of usage.0)) };

    fn fmt<W: fmt::Write>(&self, f: &mut fmt::Formatter<W>) -> fmt::Result {
        let SecondaryLine {
            pending,
            usable,
            whole,
            ..
        } = self.0;
        let usable = usable_word(usable);
        write!(f, " pending:{pending} use:{usable} whole:{whole}")
    }
}

/// Returns the letter of a replication protocol.
pub fn protocol_name(protocol: Protocol) -> &'static str
    ensures { result.now ≡ protocol_text protocol }
{
    match protocol {
        Protocol::A => "A",
        Protocol::B => "B",
        Protocol::C => "C",
    }
}

// Returns the word for whether the data may be used.
fn usable_word(usable: bool) -> &'static str
    ensures { result.now ≡ usable_text usable }
{
    if usable { "Yes" } else { "No" }
}
