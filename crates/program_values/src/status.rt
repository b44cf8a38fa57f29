//! The ends of a script's run and of a session.
ghost use Rattle.std.specs.Prelude.{◌≡◌};
ghost use Rattle.program_values.specs.Statuses.{code_of, session_code_of, status_of};

use blocks::Refusal;

/// The end of a script's run, or of reading the program's arguments, which the exit status reports (this project's
/// rule).
#[derive(Clone, Copy)]
pub enum Status {
    /// It did all that it was to do, though some of it may have been refused.
    Done,
    /// A file, the output or memory failed, or the script is not UTF-8.
    Failed,
    /// The arguments were wrong, or a line stopped the script.
    Misused,
}

impl Status {
    /// Returns the exit status: 0, 1 or 2.
    pub fn code(&self) -> u8
        ensures { result ≡ code_of self.now }
    {
        match self {
            Status::Done => 0,
            Status::Failed => 1,
            Status::Misused => 2,
        }
    }
}

/// The end of a session, or of one after another, which the exit status reports (this project's rule).
#[derive(Clone, Copy)]
pub enum SessionStatus {
    /// It did all that it was to do.
    Done,
    /// A file, a socket, a thread, the output or memory failed.
    Failed,
    /// It was refused.
    Refused,
}

impl SessionStatus {
    /// Returns the end of a session that this refusal ended: `Failed` if memory ran out (7), else `Refused`.
    pub fn of(refusal: Refusal) -> SessionStatus
        ensures { result ≡ status_of refusal }
    {
        match refusal {
            Refusal::NoMemory => SessionStatus::Failed,
            _ => SessionStatus::Refused,
        }
    }

    /// Returns the exit status: 0, 1 or 3.
    pub fn code(&self) -> u8
        ensures { result ≡ session_code_of self.now }
    {
        match self {
            SessionStatus::Done => 0,
            SessionStatus::Failed => 1,
            SessionStatus::Refused => 3,
        }
    }
}
