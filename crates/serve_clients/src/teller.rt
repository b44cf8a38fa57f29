//! The thread that writes the log.
use crate::service::Service;
use server_log::{Event, Style, bar, tell};
use session_api::Device;
use std::io::Write;
use std::sync::Wait;
use std::sync::atomic::{AtomicBool, Ordering};
use std::thread;
use std::time::{Clock, Duration};

/// The time between two looks, in milliseconds. A link that comes and goes without end makes no more lines than these allow.
const LOOK_MS: u64 = 250;

/// Writes a line on `err` for each event of the link and of the disks, until the session is over; on a terminal the progress of a copy is a
/// bar, whose line ends before the next event and at the end. It is a thread of its own, so that an `err` that takes nothing holds up no other.
pub(crate) fn tell_events<R: Wait + Clock, E: Write>(
    rt: &R,
    service: &Service,
    device: &impl Device,
    over: &AtomicBool,
    err: &mut E,
) {
    service
        .watch
        .lock(rt)
        .begin_session(service.start().to_copy);
    let mut is_in_bar = false;
    for _ in rt.forever() {
        // The last look comes after the end.
        let is_over = over.load(Ordering::SeqCst);
        look(rt, service, device, err, &mut is_in_bar);
        if is_over {
            break;
        }
        thread::sleep(rt, Duration::from_millis(LOOK_MS));
    }
    end_bar(err, &mut is_in_bar);
}

// Writes what has happened since the last look. `is_in_bar`: the last line is a bar that has no end yet.
fn look<R: Wait + Clock, E: Write>(
    rt: &R,
    service: &Service,
    device: &impl Device,
    err: &mut E,
    is_in_bar: &mut bool,
) {
    let Ok(now) = rt.monotonic() else {
        return;
    };
    let now_ms = u64::try_from(now.as_millis()).unwrap_or(u64::MAX);
    let progress = device.progress();
    let is_peer_failed = service.requests.is_peer_failed();
    let events = service
        .watch
        .lock(rt)
        .look(&progress, is_peer_failed, now_ms);
    for event in events {
        if let Some(event) = event {
            write_event(rt, service, event, err, is_in_bar);
        }
    }
}

// Writes the line of an event, or on a terminal the bar of a copy. What cannot be written is left out.
fn write_event<R: Clock, E: Write>(
    rt: &R,
    service: &Service,
    event: Event,
    err: &mut E,
    is_in_bar: &mut bool,
) {
    match event {
        Event::Resyncing(copied) if service.style == Style::Barred => {
            if let Ok(text) = bar(service.alloc, copied) {
                *is_in_bar = true;
                let _ = err.write_all(text.as_bytes());
            }
        }
        event => {
            end_bar(err, is_in_bar);
            let _ = tell(rt, service.alloc, service.style, err, event);
        }
    }
}

// Ends the line of a bar, if there is one.
fn end_bar<E: Write>(err: &mut E, is_in_bar: &mut bool) {
    if *is_in_bar {
        *is_in_bar = false;
        let _ = err.write_all(b"\n");
    }
}
