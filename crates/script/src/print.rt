//! Printing the results of a script's commands.
use blocks::{Done, Refusal, Reply, What};
use std::io::{self, Write};

/// Prints the line of a command with its reply.
pub(crate) fn reply<W: Write>(out: &mut W, name: &str, reply: &Reply) -> io::Result<()> {
    match reply {
        Reply::Ok(done) => step(out, name, done),
        Reply::Closed(completed) => {
            let completed = *completed;
            writeln!(out, "{name} ok {completed}")
        }
        Reply::Refused(refusal) => refused(out, name, *refusal),
    }
}

/// Prints a refusal: its number and, if it is a conflict, the number of the conflicting write.
pub(crate) fn refused<W: Write>(out: &mut W, name: &str, refusal: Refusal) -> io::Result<()> {
    let number = refusal.number();
    match refusal {
        Refusal::Conflict(other) => writeln!(out, "{name} refused {number} {other}"),
        _ => writeln!(out, "{name} refused {number}"),
    }
}

fn step<W: Write>(out: &mut W, name: &str, done: &Done) -> io::Result<()> {
    write!(out, "{name} ok")?;
    subject(out, &done.what)?;
    if let Some(number) = done.completed {
        write!(out, " completed {number}")?;
    }
    if let Some(number) = done.barrier {
        write!(out, " barrier {number}")?;
    }
    if done.synced {
        write!(out, " synced")?;
    }
    writeln!(out)
}

/// Prints what a step was about.
fn subject<W: Write>(out: &mut W, what: &What) -> io::Result<()> {
    match *what {
        What::Nothing => Ok(()),
        What::Write(number) => write!(out, " {number}"),
        What::Block(block, place) => write!(out, " {block} {place}"),
        What::Decided(decision) => write!(out, " UUIDS {decision}"),
        What::Frame(command, None) => write!(out, " {command}"),
        What::Frame(command, Some(place)) => write!(out, " {command} {place}"),
    }
}
