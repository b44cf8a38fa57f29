//! The commands that wait for a server.
ghost use Rattle.std.specs.Prelude.{◌≡◌, Some, None, IfOk};
ghost use Rattle.status_commands.specs.Awaited.{IsReached};
ghost use Rattle.status_commands.specs.declared.end.QueryEnd.TheVariants as end;

use crate::end::QueryEnd;
use crate::server::{NoAnswer, PATIENCE_S, ask_server};
use crate::told::{Told, is_reached};
use program_values::{Awaited, WaitOptions};
use std::io::Write;
use std::net::Net;
use std::sync::Wait;
use std::thread;
use std::time::{Clock, Duration, Instant};

/// The time between two questions, in milliseconds.
const PAUSE_MS: u64 = 200;

/// Waits until a server has come to what is waited for, and asks it five times a second. A server that gives no status for a time, as while
/// it compares its images, is asked again; a line on `err` says so the first time. Returns how it ended:
///
/// - `Done`: it has come to that.
/// - `TimedOut`, with a line on `err`: it had not when the time was up; without a limit the wait has no end.
/// - `NoServer`, with a line on `err`: no server answers.
/// - `Failed`, with a line on `err`: memory or the clock failed.
pub fn wait<R: Net + Clock + Wait + AllocGlobal, E: Write>(
    rt: &R,
    options: &WaitOptions<'_>,
    err: &mut E,
) -> QueryEnd {
    let name = options.name;
    let Ok(start) = Instant::now(rt) else {
        let _ = writeln!(err, "{name}: there is no clock");
        return QueryEnd::Failed;
    };
    let mut is_told = false;
    for _ in rt.forever() {
        let patience = patience_of(rt, start, options.limit);
        if patience.is_zero() {
            let _ = writeln!(err, "{name}: the time is up");
            return QueryEnd::TimedOut;
        }
        let answer = ask_server(rt, rt.alloc(), options.run_folder, name, patience);
        let end = end_with(options.awaited, &answer);
        if let Err(fault) = &answer {
            if end.is_some() || !is_told {
                let _ = writeln!(err, "{name}: {fault}");
                is_told = true;
            }
        }
        if let Some(end) = end {
            return end;
        }
        thread::sleep(rt, Duration::from_millis(PAUSE_MS));
    }
    unreachable!()
}

// Returns how a wait ends with this answer. It goes on if there is no end.
fn end_with(awaited: Awaited, answer: &Result<Told, NoAnswer>) -> Option<QueryEnd>
    ensures done { result ≡ Some end.Done → IfOk answer.now (λ told. IsReached awaited told.primary) }
    ensures goes_on { result ≡ None → IfOk answer.now (λ told. IsReached awaited told.primary → ⊥) }
{
    match answer {
        Ok(told) if is_reached(awaited, &told.primary) => Some(QueryEnd::Done),
        Err(NoAnswer::Unreached(_)) => Some(QueryEnd::NoServer),
        Err(NoAnswer::NoMemory) => Some(QueryEnd::Failed),
        Ok(_) | Err(_) => None,
    }
}

// Returns how long the next answer may take, in a wait that began at `start`: not at all if its time is up.
fn patience_of<R: Clock>(rt: &R, start: Instant, limit: Option<u32>) -> Duration {
    let Some(seconds) = limit else {
        return Duration::from_secs(PATIENCE_S);
    };
    match start.elapsed(rt) {
        Ok(elapsed) => Duration::from_secs(u64::from(seconds))
            .saturating_sub(elapsed)
            .min(Duration::from_secs(PATIENCE_S)),
        Err(_) => Duration::ZERO,
    }
}
