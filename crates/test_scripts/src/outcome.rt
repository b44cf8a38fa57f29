//! The outcome of a script: standard output, standard error and exit status.
use crate::difference::Difference;
use script::script_on;
use std::alloc::Global;
use std::io;
use std::io::Write;

/// What a script writes to standard output and to standard error, and its exit status.
#[derive(Drop)]
pub(crate) struct Outcome {
    pub(crate) out: Vec<u8>,
    pub(crate) err: Vec<u8>,
    pub(crate) status: u8,
}

impl Outcome {
    /// Runs a script. Returns its outcome.
    pub(crate) fn of(alloc: Global, commands: &[u8]) -> Outcome {
        let mut out = Vec::new(alloc);
        let mut err = Vec::new(alloc);
        let mut input = commands;
        let status = script_on(alloc, &mut input, &mut out, &mut err);
        Outcome { out, err, status }
    }

    /// Compares this outcome with the expected one. Prints `NAME ok`, or a line for each of the three parts that
    /// differs. Returns whether it is ok.
    pub(crate) fn compare<W: Write>(
        &self,
        expected: &Outcome,
        name: &str,
        out: &mut W,
    ) -> io::Result<bool> {
        let out_difference = Difference::first(&expected.out, &self.out);
        let err_difference = Difference::first(&expected.err, &self.err);
        if out_difference.is_none() && err_difference.is_none() && self.status == expected.status {
            writeln!(out, "{name} ok")?;
            return Ok(true);
        }
        if let Some(difference) = out_difference {
            writeln!(out, "{name}: standard output, {difference}")?;
        }
        if let Some(difference) = err_difference {
            writeln!(out, "{name}: standard error, {difference}")?;
        }
        if self.status != expected.status {
            writeln!(
                out,
                "{name}: status: wanted {}, got {}",
                expected.status, self.status
            )?;
        }
        Ok(false)
    }
}
