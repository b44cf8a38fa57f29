//! Progress lines of a run.
use program_values::RunOptions;
use session_api::Device;
use status_lines::{PrimaryLine, SecondaryLine};
use std::io;
use std::io::Write;
use std::sync::atomic::{AtomicU64, Ordering};
use std::sync::{Condvar, Mutex, Wait};
use std::time::{Clock, Duration};

/// The time between two reports of a run, in seconds.
const PERIOD_S: u64 = 1;

/// The bytes by which a terminal empties the line.
const EMPTY_LINE: &str = "\r\x1b[K";

/// The progress of a run's threads.
#[derive(Drop)]
pub(crate) struct Progress {
    completed: AtomicU64,
    is_over: Mutex<bool>,
    over: Condvar,
}

impl Progress {
    /// Creates the progress of a run that has written nothing yet.
    pub(crate) fn new() -> Progress {
        Progress {
            completed: AtomicU64::new(0),
            is_over: Mutex::new(false),
            over: Condvar::new(),
        }
    }

    /// Counts a completed write.
    pub(crate) fn count(&self) {
        self.completed.fetch_add(1, Ordering::SeqCst);
    }

    /// Ends the reports.
    pub(crate) fn end<R: Wait>(&self, rt: &R) {
        *self.is_over.lock(rt) = true;
        self.over.notify_all();
    }

    // Waits for a period, or until the end. Returns whether the end has come.
    fn wait<R: Wait + Clock>(&self, rt: &R) -> bool {
        let is_over = self.is_over.lock(rt);
        if *is_over {
            return true;
        }
        let (is_over, _) = self
            .over
            .wait_timeout(rt, is_over, Duration::from_secs(PERIOD_S));
        *is_over
    }
}

/// Prints what the options ask for, until the end. A failed write to `err` is no fault of the run.
pub(crate) fn report<R: Wait + Clock, E: Write>(
    rt: &R,
    device: &impl Device,
    options: &RunOptions,
    progress: &Progress,
    err: &mut E,
) {
    let mut has_line = false;
    for _ in rt.forever() {
        if progress.wait(rt) {
            break;
        }
        let _ = print_progress(device, options, progress, err);
        has_line = options.live.progress;
    }
    if has_line {
        let _ = write!(err, "{EMPTY_LINE}");
    }
}

fn print_progress<E: Write>(
    device: &impl Device,
    options: &RunOptions,
    progress: &Progress,
    err: &mut E,
) -> io::Result<()> {
    if options.live.progress {
        write!(err, "{EMPTY_LINE}")?;
    }
    let now = device.progress();
    if options.live.status {
        print_status((now.primary.line, now.secondary.line), err)?;
    }
    if options.live.progress {
        let completed = progress.completed.load(Ordering::SeqCst);
        let all = options.all_writes();
        let marks = now.primary.marks;
        write!(
            err,
            "{completed} of {all} writes are completed, {marks} blocks are out of sync"
        )?;
    }
    err.flush()
}

/// Writes the status lines of both nodes, each with a newline.
pub(crate) fn print_status<E: Write>(
    (primary, secondary): (PrimaryLine, SecondaryLine),
    err: &mut E,
) -> io::Result<()> {
    writeln!(err, "{primary}")?;
    writeln!(err, "{secondary}")
}
