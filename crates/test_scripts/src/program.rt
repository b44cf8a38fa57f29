//! The program: the scripts that its standard input names, one after another.
ghost use Rattle.std.specs.Prelude.{◌≤◌};

use crate::stop::Stop;
use crate::worked_script::WorkedScript;
use program_values::Status;
use std::io;
use std::io::{Read, Write};
use std::rt::Files;

/// Runs the scripts that `input` names, one a line, from files in the current folder. Prints for each script whether
/// its outcome is as its files expect. Returns the exit status: 0 if all outcomes are; 1 if one is not, a name is not
/// plain, a file cannot be read or the output cannot be written; 2 if there is no name.
pub fn run_on<H: Files + AllocGlobal, R: Read, W: Write, E: Write>(
    rt: &H,
    input: &mut R,
    out: &mut W,
    err: &mut E,
) -> u8
    ensures { result ≤ 2 }
{
    match run(rt, input, out) {
        Ok(status) => status.code(),
        Err(stop) => {
            let _ = writeln!(err, "{stop}");
            stop.status().code()
        }
    }
}

/// Reads all names before the first script runs.
fn run<H: Files + AllocGlobal, R: Read, W: Write>(
    rt: &H,
    input: &mut R,
    out: &mut W,
) -> Result<Status, Stop> {
    let mut bytes = Vec::new(rt.alloc());
    input.read_to_end(&mut bytes).map_err(Stop::Unread)?;
    run_named(rt, &bytes, out)
}

/// Runs the scripts of these names, one a line.
fn run_named<H: Files + AllocGlobal, W: Write>(
    rt: &H,
    names: &[u8],
    out: &mut W,
) -> Result<Status, Stop> {
    let Ok(text) = std::str::from_utf8(names) else {
        return Err(Stop::NotUtf8);
    };
    if text.is_empty() {
        return Err(Stop::NoNames);
    }
    run_each(rt, text, out).map_err(Stop::Unwritten)
}

/// Runs the scripts of these names, and then prints how many of them are as expected.
fn run_each<H: Files + AllocGlobal, W: Write>(
    rt: &H,
    names: &str,
    out: &mut W,
) -> io::Result<Status> {
    let mut all = 0usize;
    let mut as_expected = 0usize;
    for name in names.lines() {
        all = all.saturating_add(1);
        if is_as_expected(rt, name, out)? {
            as_expected = as_expected.saturating_add(1);
        }
    }
    writeln!(out, "{as_expected} of {all} scripts as expected")?;
    if as_expected == all {
        Ok(Status::Done)
    } else {
        Ok(Status::Failed)
    }
}

/// Runs one script. Prints `NAME ok`, what differs, or why it is not run. Returns whether it is ok.
fn is_as_expected<H: Files + AllocGlobal, W: Write>(
    rt: &H,
    name: &str,
    out: &mut W,
) -> io::Result<bool> {
    match WorkedScript::read(rt, name) {
        Ok(script) => {
            let outcome = script.run(rt.alloc());
            outcome.compare(script.expected(), name, out)
        }
        Err(fault) => {
            writeln!(out, "{fault}")?;
            Ok(false)
        }
    }
}
