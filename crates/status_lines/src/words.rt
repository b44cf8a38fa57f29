//! The words of a status line (DRBD User's Guide, "Connection states", "Roles", "Disk states").
ghost use Rattle.std.specs.Prelude.{◌≡◌, Some};
ghost use Rattle.status_lines.specs.Text.{disk_text, link_text, role_text, words_text};
ghost use Rattle.status_lines.specs.Words.{disk_of, link_of, role_of, words_of};

use std::fmt;

/// The state of an end.
#[derive(Clone, Copy, Debug, PartialEq, Eq)]
pub enum LinkState {
    /// The end is closed.
    StandAlone,
    /// The end is open, and its hello is not done.
    WFReportParams,
    /// The hello is done.
    Connected,
    /// A resync runs, from this node.
    SyncSource,
    /// A resync runs, to this node.
    SyncTarget,
}

/// A node's role.
#[derive(Clone, Copy, Debug, PartialEq, Eq)]
pub enum Role {
    Primary,
    Secondary,
    Unknown,
}

/// The state of a node's data.
#[derive(Clone, Copy, Debug, PartialEq, Eq)]
pub enum DiskState {
    UpToDate,
    Consistent,
    Inconsistent,
    DUnknown,
}

/// The words of a line: the end, the roles of this node and of the other, and the disks of both.
#[derive(Clone, Copy, Debug, PartialEq, Eq)]
pub struct Words {
    pub link: LinkState,
    pub own_role: Role,
    pub other_role: Role,
    pub own_disk: DiskState,
    pub other_disk: DiskState,
}

impl LinkState {
    /// Returns the word for it.
    pub fn name(self) -> &'static str
        ensures { result.now ≡ link_text (link_of self) }
    {
        match self {
            LinkState::StandAlone => "StandAlone",
            LinkState::WFReportParams => "WFReportParams",
            LinkState::Connected => "Connected",
            LinkState::SyncSource => "SyncSource",
            LinkState::SyncTarget => "SyncTarget",
        }
    }
}

impl fmt::Display for LinkState {
    ghost output = { λ s. Some (link_text (link_of s)) };

    fn fmt<W: fmt::Write>(&self, f: &mut fmt::Formatter<W>) -> fmt::Result {
        f.write_str(self.name())
    }
}

impl Role {
    /// Returns the word for it.
    pub fn name(self) -> &'static str
        ensures { result.now ≡ role_text (role_of self) }
    {
        match self {
            Role::Primary => "Primary",
            Role::Secondary => "Secondary",
            Role::Unknown => "Unknown",
        }
    }
}

impl fmt::Display for Role {
    ghost output = { λ r. Some (role_text (role_of r)) };

    fn fmt<W: fmt::Write>(&self, f: &mut fmt::Formatter<W>) -> fmt::Result {
        f.write_str(self.name())
    }
}

impl DiskState {
    /// Returns the word for it.
    pub fn name(self) -> &'static str
        ensures { result.now ≡ disk_text (disk_of self) }
    {
        match self {
            DiskState::UpToDate => "UpToDate",
            DiskState::Consistent => "Consistent",
            DiskState::Inconsistent => "Inconsistent",
            DiskState::DUnknown => "DUnknown",
        }
    }
}

impl fmt::Display for DiskState {
    ghost output = { λ d. Some (disk_text (disk_of d)) };

    fn fmt<W: fmt::Write>(&self, f: &mut fmt::Formatter<W>) -> fmt::Result {
        f.write_str(self.name())
    }
}

impl fmt::Display for Words {
    ghost output = { λ w. Some (words_text (words_of w)) };

    fn fmt<W: fmt::Write>(&self, f: &mut fmt::Formatter<W>) -> fmt::Result {
        let Words {
            link,
            own_role,
            other_role,
            own_disk,
            other_disk,
        } = *self;
        write!(
            f,
            "cs:{link} ro:{own_role}/{other_role} ds:{own_disk}/{other_disk}"
        )
    }
}
