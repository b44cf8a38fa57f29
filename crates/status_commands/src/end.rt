//! The ends of a command that asks servers.
ghost use Rattle.std.specs.Prelude.{◌≡◌, ◌≤◌, ◌⊎◌};
ghost use Rattle.status_commands.specs.Ends.{code_of};

/// The end of a command that asks servers, which the exit status reports.
#[derive(Clone, Copy)]
pub enum QueryEnd {
    /// It did what it was to do.
    Done,
    /// A folder, memory or the output failed.
    Failed,
    /// What it waited for had not come in time.
    TimedOut,
    /// A server did not answer, or gave no status.
    NoServer,
}

impl QueryEnd {
    /// Returns the exit status: 0, 1, 5 or 10.
    pub fn code(self) -> u8
        ensures value { result ≡ code_of self }
        ensures few { (result ≤ 3) ⊎ (result ≡ 5) ⊎ (result ≡ 10) }
    {
        match self {
            QueryEnd::Done => 0,
            QueryEnd::Failed => 1,
            QueryEnd::TimedOut => 5,
            QueryEnd::NoServer => 10,
        }
    }
}
