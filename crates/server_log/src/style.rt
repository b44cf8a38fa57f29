//! What stands before the lines of a log.
ghost use Rattle.std.specs.Prelude.{◌≡◌};
ghost use Rattle.server_log.specs.Lines.{before_fault};

use std::env;
use std::env::Env;

/// The variable of the environment that systemd sets for a service whose output goes to its journal.
const JOURNAL: &str = "JOURNAL_STREAM";

/// What stands before a line.
#[derive(Clone, Copy, Debug, PartialEq, Eq)]
pub enum Style {
    /// The date and the time, in seconds of universal time.
    Dated,
    /// The priority, as `<4>`: the journal has the date.
    Graded,
    /// The date and the time, on a terminal, where a bar shows the progress of a copy.
    Barred,
}

impl Style {
    /// Returns the style for where the log of this program goes: `Graded` if the environment says that it is systemd's journal, else `Barred`
    /// if it is a terminal.
    pub fn of_environment<R: Env + AllocGlobal>(rt: &R, is_terminal: bool) -> Style {
        match env::var(rt, JOURNAL) {
            Ok(_) => Style::Graded,
            Err(_) if is_terminal => Style::Barred,
            Err(_) => Style::Dated,
        }
    }

    /// Returns what stands before a line that tells of a fault: its priority, or nothing, since such lines begin with their words.
    pub fn before_fault(self) -> &'static str
        ensures { result.now ≡ before_fault self }
    {
        match self {
            Style::Graded => "<3>",
            Style::Dated | Style::Barred => "",
        }
    }
}
