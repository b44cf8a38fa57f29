//! The lines of a log.
ghost use Rattle.std.specs.Prelude.{◌≡◌, string_bytes, IfOk, OnOk};
ghost use Rattle.server_log.specs.Lines.{dated_text, graded_text, HasTold, IsLine};

use crate::event::Event;
use crate::moment::Moment;
use crate::style::Style;
use std::alloc::{AllocError, Global};
use std::io;
use std::io::Write;
use std::time::Clock;

/// Returns the line of an event, ended by a newline: before its words stand its priority, or the date that is so many seconds after the
/// first of 1970 (a later year than 9999 is not shown).
pub fn line(alloc: Global, style: Style, seconds: u64, event: Event) -> Result<String, AllocError>
    ensures { IfOk result (λ text. IsLine style seconds event (string_bytes text)) }
{
    match style {
        Style::Dated => dated_line(alloc, Moment::after(seconds), event),
        Style::Graded => graded_line(alloc, event),
        Style::Barred => dated_line(alloc, Moment::after(seconds), event),
    }
}

// Returns the line of an event with a date.
fn dated_line(alloc: Global, moment: Moment, event: Event) -> Result<String, AllocError>
    ensures { IfOk result (λ text. string_bytes text ≡ dated_text moment event) }
{
    format!(in alloc; "{moment} {event}\n")
}

// Returns the line of an event with its priority.
fn graded_line(alloc: Global, event: Event) -> Result<String, AllocError>
    ensures { IfOk result (λ text. string_bytes text ≡ graded_text event) }
{
    let priority = event.priority();
    format!(in alloc; "<{priority}>{event}\n")
}

/// Writes the line of an event that happens now. An error if there is no memory for it, or it could not be written.
pub fn tell<R: Clock, E: Write>(
    rt: &R,
    alloc: Global,
    style: Style,
    err: &mut E,
    event: Event,
) -> io::Result<()>
    ensures { OnOk result (HasTold style event (E.contents err.old) (E.contents err.new)) }
{
    let seconds = rt.since_1970()?.as_secs();
    let line = line(alloc, style, seconds, event)?;
    err.write_all(line.as_bytes())
}
