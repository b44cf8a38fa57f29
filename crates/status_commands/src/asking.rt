//! The commands that print what servers tell.
use crate::drbd_json;
use crate::end::QueryEnd;
use crate::names::names_in;
use crate::server::{NoAnswer, PATIENCE_S, ask_server};
use crate::told::Told;
use program_values::{Asked, Question};
use std::alloc::{AllocError, Global};
use std::io;
use std::io::{ErrorKind, Write};
use std::net::Net;
use std::rt::Files;
use std::sync::Wait;
use std::time::{Clock, Duration};

/// Asks one server or all, and prints what it tells on `out`: for all of them in the order of their names. A line on `err` tells of each
/// that gives no status. Returns how it ended:
///
/// - `Done`: each server gave its status. Where all are asked and there is none, a line on `err` says so.
/// - `NoServer`: one did not answer, or gave no status.
/// - `Failed`, with a line on `err`: the folder could not be read, or memory or the output failed.
pub fn ask<R: Net + Files + Clock + Wait + AllocGlobal + Clone + Drop, W: Write, E: Write>(
    rt: &R,
    asked: &Asked<'_>,
    question: Question,
    out: &mut W,
    err: &mut E,
) -> QueryEnd {
    match ask_all(rt, asked, question, err) {
        Ok((text, end)) => match out.write_all(text.as_bytes()) {
            Ok(()) => end,
            Err(error) => {
                let _ = writeln!(err, "the output could not be written: {error}");
                QueryEnd::Failed
            }
        },
        Err(error) => {
            let run_folder = asked.run_folder;
            let _ = writeln!(err, "{run_folder} could not be read: {error}");
            QueryEnd::Failed
        }
    }
}

// Asks one server or all. Returns what is printed, and how the command ends.
fn ask_all<R: Net + Files + Clock + Wait + AllocGlobal + Clone + Drop, E: Write>(
    rt: &R,
    asked: &Asked<'_>,
    question: Question,
    err: &mut E,
) -> io::Result<(String, QueryEnd)> {
    let alloc = rt.alloc();
    let names = match asked.name {
        Some(name) => {
            let mut names = Vec::new(alloc);
            names.push(String::from_str(alloc, name)?)?;
            names
        }
        None => names_in(rt, asked.run_folder)?,
    };
    if names.is_empty() {
        let run_folder = asked.run_folder;
        let _ = writeln!(err, "# No server found in {run_folder}.");
    }
    let mut end = QueryEnd::Done;
    let mut parts = Vec::new(alloc);
    for name in names.iter() {
        match part_of(rt, asked.run_folder, name.as_str(), question) {
            Ok(part) => parts.push(part)?,
            Err(NoAnswer::NoMemory) => return Err(io::Error::from(ErrorKind::OutOfMemory)),
            Err(fault) => {
                let _ = writeln!(err, "{name}: {fault}");
                end = QueryEnd::NoServer;
            }
        }
    }
    Ok((joined(alloc, question, parts.as_slice())?, end))
}

// Returns what is printed of a server.
fn part_of<R: Net + Clock + Wait + AllocGlobal>(
    rt: &R,
    run_folder: &str,
    name: &str,
    question: Question,
) -> Result<String, NoAnswer> {
    let patience = Duration::from_secs(PATIENCE_S);
    let told = ask_server(rt, rt.alloc(), run_folder, name, patience)?;
    Ok(shown(rt.alloc(), question, name, &told)?)
}

// Returns what is printed of a server that told this.
fn shown(alloc: Global, question: Question, name: &str, told: &Told) -> Result<String, AllocError> {
    let words = told.primary.words;
    match question {
        Question::Status => indented(alloc, name, told.lines.as_str()),
        Question::Json => drbd_json::object(alloc, name, told),
        Question::Connection => format!(in alloc; "{}\n", words.link),
        Question::Disks => format!(in alloc; "{}/{}\n", words.own_disk, words.other_disk),
    }
}

// Returns the name, and these lines below it.
fn indented(alloc: Global, name: &str, lines: &str) -> Result<String, AllocError> {
    let mut text = format!(in alloc; "{name}\n")?;
    for line in lines.lines() {
        text.push_str("  ")?;
        text.push_str(line)?;
        text.push('\n')?;
    }
    Ok(text)
}

// Joins the parts of all servers: as they are, or as the array that they are objects of.
fn joined(alloc: Global, question: Question, parts: &[String]) -> Result<String, AllocError> {
    let (before, between, after) = match question {
        Question::Json => ("[", ",\n", "]\n"),
        _ => ("", "", ""),
    };
    let mut text = String::from_str(alloc, before)?;
    for (index, part) in parts.iter().enumerate() {
        if index > 0 {
            text.push_str(between)?;
        }
        text.push_str(part.as_str())?;
    }
    text.push_str(after)?;
    Ok(text)
}
