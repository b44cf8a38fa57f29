//! What a server tells of itself.
ghost use Rattle.std.specs.Prelude.{◌≡◌, ◌↔◌, IsTrue, IfOk, IfSome};
ghost use Rattle.status_lines.specs.Lines.{primary_line_of};
ghost use Rattle.status_lines.specs.Text.{primary_text};
ghost use Rattle.status_commands.specs.Awaited.{IsReached};

use blocks::Protocol;
use program_values::{Awaited, decimal};
use status_lines::{DiskState, LinkState, PrimaryLine, Role, Words, protocol_name};
use std::alloc::{AllocError, Global};

/// The states of an end.
const LINKS: [LinkState; 5] = [
    LinkState::StandAlone,
    LinkState::WFReportParams,
    LinkState::Connected,
    LinkState::SyncSource,
    LinkState::SyncTarget,
];

/// The roles of a node.
const ROLES: [Role; 3] = [Role::Primary, Role::Secondary, Role::Unknown];

/// The states of a disk.
const DISKS: [DiskState; 4] = [
    DiskState::UpToDate,
    DiskState::Consistent,
    DiskState::Inconsistent,
    DiskState::DUnknown,
];

/// The protocols.
const PROTOCOLS: [Protocol; 3] = [Protocol::A, Protocol::B, Protocol::C];

/// What a server tells: the lines of its status page, and what the first of them and that of the size say.
#[derive(Drop)]
pub(crate) struct Told {
    pub(crate) lines: String,
    pub(crate) primary: PrimaryLine,
    pub(crate) size_kib: u64,
}

impl Told {
    /// Reads the lines of a status page. Returns `None` if they are none: each is of printable ASCII and ends with a newline, the first is
    /// the status line of a primary, and one has the size.
    pub(crate) fn read(alloc: Global, lines: &str) -> Result<Option<Told>, AllocError> {
        if !is_printable(lines) {
            return Ok(None);
        }
        let Some((first, rest)) = lines.split_once('\n') else {
            return Ok(None);
        };
        let Some(primary) = primary_line(alloc, first)? else {
            return Ok(None);
        };
        let Some(size_kib) = size_of(rest) else {
            return Ok(None);
        };
        Ok(Some(Told {
            lines: String::from_str(alloc, lines)?,
            primary,
            size_kib,
        }))
    }
}

/// Returns whether what is waited for has come, where this is the primary's status line.
pub(crate) fn is_reached(awaited: Awaited, line: &PrimaryLine) -> bool
    ensures { IsTrue result ↔ IsReached awaited line.now }
{
    let words = line.words;
    match awaited {
        Awaited::Connection => matches!(
            words.link,
            LinkState::Connected | LinkState::SyncSource | LinkState::SyncTarget
        ),
        Awaited::Sync => {
            words.link == LinkState::Connected
                && words.own_disk == DiskState::UpToDate
                && words.other_disk == DiskState::UpToDate
                && line.oos == 0
        }
    }
}

/// Reads the status line of a primary: what it returns is printed as that very line. Returns `None` for any other text.
fn primary_line(alloc: Global, text: &str) -> Result<Option<PrimaryLine>, AllocError>
    ensures { IfOk result (λ read. IfSome read (λ line. text.now ≡ primary_text (primary_line_of line))) }
{
    let Some(line) = words_of(text) else {
        return Ok(None);
    };
    let printed = format!(in alloc; "{line}")?;
    if printed.as_str() == text {
        Ok(Some(line))
    } else {
        Ok(None)
    }
}

// Reads the words of a line, in any order and with others beside them.
fn words_of(text: &str) -> Option<PrimaryLine> {
    let (own_role, other_role) = value_of(text, "ro:")?.split_once('/')?;
    let (own_disk, other_disk) = value_of(text, "ds:")?.split_once('/')?;
    let link = value_of(text, "cs:")?;
    let protocol = value_of(text, "pr:")?;
    Some(PrimaryLine {
        words: Words {
            link: LINKS.into_iter().find(|state| state.name() == link)?,
            own_role: role_of(own_role)?,
            other_role: role_of(other_role)?,
            own_disk: disk_of(own_disk)?,
            other_disk: disk_of(other_disk)?,
        },
        protocol: PROTOCOLS
            .into_iter()
            .find(|letter| protocol_name(*letter) == protocol)?,
        pe: decimal(value_of(text, "pe:")?)?,
        ap: decimal(value_of(text, "ap:")?)?,
        ep: decimal(value_of(text, "ep:")?)?,
        oos: decimal(value_of(text, "oos:")?)?,
    })
}

// Returns the value of the first word with this name.
fn value_of<'a>(text: &'a str, name: &str) -> Option<&'a str> {
    for word in text.split(' ') {
        if let Some(value) = word.strip_prefix(name) {
            return Some(value);
        }
    }
    None
}

// Returns the role of this name.
fn role_of(word: &str) -> Option<Role> {
    ROLES.into_iter().find(|role| role.name() == word)
}

// Returns the state of a disk of this name.
fn disk_of(word: &str) -> Option<DiskState> {
    DISKS.into_iter().find(|state| state.name() == word)
}

// Returns the size that one of the lines tells, in KiB.
fn size_of(lines: &str) -> Option<u64> {
    for line in lines.split('\n') {
        if let Some(size) = line.strip_prefix("size: ") {
            return decimal(size.strip_suffix(" KiB")?);
        }
    }
    None
}

// Returns whether a text has lines of printable ASCII alone, each with its newline.
fn is_printable(text: &str) -> bool {
    text.ends_with('\n')
        && text
            .as_bytes()
            .iter()
            .all(|byte| matches!(*byte, b'\n' | b' '..=b'~'))
}
