//! A worked script and its files.
use crate::fault::ScriptFault;
use crate::outcome::Outcome;
use program_values::decimal;
use std::alloc::Global;
use std::io::ErrorKind;
use std::rt::Files;
use std::{fs, io};

/// The commands of a script, and their expected outcome.
#[derive(Drop)]
pub(crate) struct WorkedScript {
    commands: Vec<u8>,
    expected: Outcome,
}

impl WorkedScript {
    /// Reads `NAME.script` and `NAME.out`, and if they exist `NAME.err` and `NAME.status`. Without `NAME.err` the
    /// expected standard error is empty, and without `NAME.status` the expected status is 0. The name is plain: its
    /// files lie in the current folder.
    pub(crate) fn read<'a, H: Files + AllocGlobal>(
        rt: &H,
        name: &'a str,
    ) -> Result<WorkedScript, ScriptFault<'a>> {
        if !is_plain(name) {
            return Err(ScriptFault::NotPlain(name));
        }
        let commands = required(rt, name, "script")?;
        let expected = expected(rt, name)?;
        Ok(WorkedScript { commands, expected })
    }

    /// Runs the commands.
    pub(crate) fn run(&self, alloc: Global) -> Outcome {
        Outcome::of(alloc, &self.commands)
    }

    /// Returns the outcome that its files expect.
    pub(crate) fn expected(&self) -> &Outcome {
        &self.expected
    }
}

/// Returns whether the files of a name lie in the current folder, and are not hidden.
fn is_plain(name: &str) -> bool {
    !name.is_empty() && !name.starts_with('.') && !name.contains('/')
}

/// Reads the outcome that the files of a script expect.
fn expected<'a, H: Files + AllocGlobal>(rt: &H, name: &'a str) -> Result<Outcome, ScriptFault<'a>> {
    let out = required(rt, name, "out")?;
    let err = optional(rt, name, "err")?.unwrap_or_else(|| Vec::new(rt.alloc()));
    let status = status(rt, name)?;
    Ok(Outcome { out, err, status })
}

/// Reads the exit status that they expect.
fn status<'a, H: Files + AllocGlobal>(rt: &H, name: &'a str) -> Result<u8, ScriptFault<'a>> {
    match optional(rt, name, "status")? {
        Some(digits) => number(&digits).ok_or(ScriptFault::NoStatus(name)),
        None => Ok(0),
    }
}

/// Reads the bytes of a file.
fn required<'a, H: Files + AllocGlobal>(
    rt: &H,
    name: &'a str,
    ending: &'static str,
) -> Result<Vec<u8>, ScriptFault<'a>> {
    match bytes_of(rt, name, ending) {
        Ok(bytes) => Ok(bytes),
        Err(error) => Err(ScriptFault::Unread(name, ending, error)),
    }
}

/// Reads the bytes of a file, if it exists.
fn optional<'a, H: Files + AllocGlobal>(
    rt: &H,
    name: &'a str,
    ending: &'static str,
) -> Result<Option<Vec<u8>>, ScriptFault<'a>> {
    match bytes_of(rt, name, ending) {
        Ok(bytes) => Ok(Some(bytes)),
        Err(error) if error.kind() == ErrorKind::NotFound => Ok(None),
        Err(error) => Err(ScriptFault::Unread(name, ending, error)),
    }
}

fn bytes_of<H: Files + AllocGlobal>(rt: &H, name: &str, ending: &str) -> io::Result<Vec<u8>> {
    let file = format!(in rt.alloc(); "{name}.{ending}")?;
    fs::read(rt, file.as_str())
}

/// Returns the number from 0 to 255 that a line spells.
fn number(line: &[u8]) -> Option<u8> {
    let text = std::str::from_utf8(line).ok()?;
    let digits = text.strip_suffix('\n').unwrap_or(text);
    u8::try_from(decimal(digits)?).ok()
}
