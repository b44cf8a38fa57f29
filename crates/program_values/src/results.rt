//! What became of the writes of a run or of a server, and the three lines that say so.
ghost use Rattle.std.specs.Prelude.{OnOk, Some};
ghost use Rattle.std.specs.Io.KnownBytes.{Appends};
ghost use Rattle.program_values.specs.Text.{results_text};

use crate::Comparison;
use std::io::Write;
use std::{fmt, io};

/// What became of the writes of a run or of a server.
#[derive(Clone, Copy, Debug, PartialEq, Eq)]
pub struct Results {
    /// Writes that were completed.
    pub completed: u64,
    /// Those of them that the primary's journal confirms.
    pub settled: u64,
    /// Blocks on which the disks differ without a mark, if the disks were compared.
    pub unmarked: Option<u32>,
}

impl fmt::Display for Results {
    ghost output = { λ results. Some (results_text results) };

    fn fmt<W: fmt::Write>(&self, f: &mut fmt::Formatter<W>) -> fmt::Result {
        let Results {
            completed,
            settled,
            unmarked,
        } = *self;
        let comparison = Comparison { unmarked };
        write!(
            f,
            "completed {completed}\nsettled {settled}\nunmarked {comparison}\n"
        )
    }
}

impl Results {
    /// Prints the three lines, each ended by a newline, and flushes them.
    pub fn print<W: Write>(&self, out: &mut W) -> io::Result<()>
        ensures printed { OnOk result (Appends (W.contents out.old) (W.contents out.new) (results_text self.now)) }
    {
        write!(out, "{self}")?;
        out.flush()
    }
}
