//! The options of the commands that ask servers for their status.

/// The servers that are asked.
#[derive(Clone, Copy)]
pub struct Asked<'a> {
    /// The folder in which named servers have one each.
    pub run_folder: &'a str,
    /// The server of this name, or all that have a status socket.
    pub name: Option<&'a str>,
}

/// What is asked.
#[derive(Clone, Copy)]
pub enum Question {
    /// The status lines.
    Status,
    /// The status as JSON, as `drbdsetup status --json` has it.
    Json,
    /// The state of the link.
    Connection,
    /// The states of both disks.
    Disks,
}

/// What is waited for.
#[derive(Clone, Copy)]
pub enum Awaited {
    /// Both nodes are connected.
    Connection,
    /// The peer's disk has all that the local one has.
    Sync,
}

/// How a command waits for a server.
#[derive(Clone, Copy)]
pub struct WaitOptions<'a> {
    /// The folder in which named servers have one each.
    pub run_folder: &'a str,
    /// The name of the server.
    pub name: &'a str,
    pub awaited: Awaited,
    /// The seconds after which the command gives up, if it does.
    pub limit: Option<u32>,
}
