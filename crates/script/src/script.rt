//! Running a whole script.
ghost use Rattle.std.specs.Prelude.{◌≤◌};

use crate::command::Command;
use crate::interpreter::perform;
use crate::keys::Keys;
use crate::print;
use blocks::{MAX_BLOCKS, MemStore, Refusal};
use pair::Pair;
use program_values::Status;
use std::alloc::Global;
use std::fmt;
use std::io::{self, BufWriter, Read, Write};

/// Why a script stopped. A line is named by its number, from 1.
#[derive(Drop)]
enum Stop {
    NotACommand(usize),
    NoPair(usize),
    SecondPair(usize),
    Unwritten(io::Error),
}

impl Stop {
    fn status(&self) -> Status {
        match self {
            Stop::Unwritten(_) => Status::Failed,
            _ => Status::Misused,
        }
    }
}

impl fmt::Display for Stop {
    fn fmt<W: fmt::Write>(&self, f: &mut fmt::Formatter<W>) -> fmt::Result {
        match self {
            Stop::NotACommand(line) => write!(f, "line {line}: not a command"),
            Stop::NoPair(line) => write!(f, "line {line}: no pair"),
            Stop::SecondPair(line) => write!(f, "line {line}: second pair"),
            Stop::Unwritten(error) => write!(f, "the output could not be written: {error}"),
        }
    }
}

impl From<io::Error> for Stop {
    fn from(error: io::Error) -> Stop {
        Stop::Unwritten(error)
    }
}

/// Runs a script: reads all of it, and prints a line for each command. Returns the status: 0; 1 if the script cannot be
/// read or is not UTF-8 or the output fails; 2 for a line that stops it. For 1 and 2 a line on `err` says why. A
/// refusal is a result, and what was printed before an error stays.
pub fn script_on<R: Read, W: Write, E: Write>(
    alloc: Global,
    input: &mut R,
    out: &mut W,
    err: &mut E,
) -> u8
    ensures { result ≤ 2 }
{
    let mut bytes = Vec::new(alloc);
    if let Err(error) = input.read_to_end(&mut bytes) {
        let _ = writeln!(err, "the script could not be read: {error}");
        return Status::Failed.code();
    }
    let Ok(text) = std::str::from_utf8(&bytes) else {
        let _ = writeln!(err, "the script is not UTF-8");
        return Status::Failed.code();
    };
    match run_text(alloc, text, out) {
        Ok(()) => Status::Done.code(),
        Err(stop) => {
            let _ = writeln!(err, "{stop}");
            stop.status().code()
        }
    }
}

/// Runs the lines, and writes what they print in large pieces: all of it, also if a line stops the script.
fn run_text<W: Write>(alloc: Global, text: &str, out: &mut W) -> Result<(), Stop> {
    let mut pieces = BufWriter::new(alloc, out)?;
    let ran = run_lines(alloc, text, &mut pieces);
    pieces.flush()?;
    ran
}

/// Runs the lines up to the first command, which makes the pair, and then the rest over it.
fn run_lines<W: Write>(alloc: Global, text: &str, out: &mut W) -> Result<(), Stop> {
    for (index, line) in text.split('\n').enumerate() {
        let number = index + 1;
        match command_of(number, line)? {
            None => {}
            Some(Command::Pair(keys)) => return run_with_pair(alloc, keys, text, number, out),
            Some(_) => return Err(Stop::NoPair(number)),
        }
    }
    Ok(())
}

/// Returns the command of a line. An empty line and a comment have none.
fn command_of(number: usize, line: &str) -> Result<Option<Command>, Stop> {
    if line.is_empty() || line.starts_with('#') {
        return Ok(None);
    }
    match Command::parse(line) {
        Some(command) => Ok(Some(command)),
        None => Err(Stop::NotACommand(number)),
    }
}

/// Makes the pair, with zero-filled disks, and runs the lines after the first `done` over it.
fn run_with_pair<W: Write>(
    alloc: Global,
    keys: Keys,
    text: &str,
    done: usize,
    out: &mut W,
) -> Result<(), Stop> {
    match zeroed(alloc, keys) {
        Ok(mut pair) => run_commands(alloc, &mut pair, text, done, out),
        Err(refusal) => end_without_pair(refusal, text, done, out),
    }
}

/// Prints that the pair was made, and runs the lines after the first `done` over it.
fn run_commands<W: Write>(
    alloc: Global,
    pair: &mut Pair,
    text: &str,
    done: usize,
    out: &mut W,
) -> Result<(), Stop> {
    writeln!(out, "pair ok")?;
    for (index, line) in text.split('\n').enumerate().skip(done) {
        let number = index + 1;
        match command_of(number, line)? {
            None => {}
            Some(Command::Pair(_)) => return Err(Stop::SecondPair(number)),
            Some(command) => perform(alloc, pair, command, out)?,
        }
    }
    Ok(())
}

/// Prints why no pair was made. No command can follow it.
fn end_without_pair<W: Write>(
    refusal: Refusal,
    text: &str,
    done: usize,
    out: &mut W,
) -> Result<(), Stop> {
    print::refused(out, "pair", refusal)?;
    for (index, line) in text.split('\n').enumerate().skip(done) {
        let number = index + 1;
        if command_of(number, line)?.is_some() {
            return Err(Stop::NoPair(number));
        }
    }
    Ok(())
}

/// Creates a pair with zero-filled disks and no marks.
fn zeroed(alloc: Global, keys: Keys) -> Result<Pair, Refusal> {
    let settings = keys.settings;
    settings.check()?;
    if settings.blocks > MAX_BLOCKS {
        return Err(Refusal::BadSetting);
    }
    let local = MemStore::zeroed(alloc, settings.blocks)?;
    let peer = MemStore::zeroed(alloc, settings.blocks)?;
    let marks = Vec::from_elem(alloc, false, settings.blocks as usize)?;
    Pair::from_parts(alloc, settings, local, peer, keys.own, keys.peer, marks)
}
