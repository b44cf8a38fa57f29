//! The threads of the status page: one for each address, and one for each client.
use crate::listener::Socket;
use crate::service::Service;
use blocks::Refusal;
use client_socket::{ClientStream, LimitedStream};
use serve_page::{DeviceMap, ReportSource, StatusReport, answer_one};
use session_api::Runtime;
use std::alloc::Global;
use std::hash::RandomState;
use std::sync::{Arc, Wait};
use std::time::{Clock, Duration, Instant};
use std::{io, thread};

/// The most clients of the page at a time. Further ones are closed at once.
const MAX_CLIENTS: u32 = 64;

/// How long a client of the page may take to ask, in seconds.
const QUESTION_S: u64 = 2;

/// How long after it came it may still read the answer, in seconds: it has two to ask and two to read, and a report may take two.
const ANSWER_S: u64 = 6;

/// How long the thread waits after a failure, in milliseconds.
const PAUSE_MS: u64 = 100;

/// Answers the clients of the page at an address, each in a thread of its own, until the server ends.
pub(crate) fn serve_page<R: Runtime>(
    rt: R,
    service: &Arc<Service, Global>,
    keys: RandomState,
    listener: &Socket,
) {
    for _ in rt.forever() {
        let accepted = listener.accept();
        if service.is_over() {
            break;
        }
        match accepted {
            Ok(stream) => {
                let _ = welcome(rt, service, keys, stream);
            }
            Err(_) => thread::sleep(&rt, Duration::from_millis(PAUSE_MS)),
        }
    }
}

// Starts the thread of a client.
fn welcome<R: Runtime>(
    rt: R,
    service: &Arc<Service, Global>,
    keys: RandomState,
    stream: ClientStream,
) -> Result<(), Refusal> {
    let shared = Arc::try_clone(service)?;
    if shared.enter_page() >= MAX_CLIENTS {
        shared.leave_page();
        return Ok(());
    }
    let started = thread::spawn(&rt, move || {
        let _ = answer_client(&rt, &shared, keys, &stream);
        shared.leave_page();
    });
    if started.is_err() {
        service.leave_page();
        return Err(Refusal::NoMemory);
    }
    Ok(())
}

/// What a client of the page is told: a report of the moment at which its question is there.
#[derive(Drop)]
struct Asking<'a, R> {
    rt: &'a R,
    service: &'a Service,
}

impl<R: Wait + Clock> ReportSource for Asking<'_, R> {
    fn report(&self) -> Option<StatusReport> {
        self.service.reports.ask(self.rt)
    }

    fn name(&self) -> Option<&str> {
        self.service.shown.name.as_ref().map(|name| name.as_str())
    }

    fn map(&self) -> Option<io::Result<DeviceMap>> {
        let file = self.service.shown.map.as_ref()?;
        Some(file.read(self.service.alloc, self.service.blocks))
    }
}

// Answers one client.
fn answer_client<R: Wait + Clock>(
    rt: &R,
    service: &Service,
    keys: RandomState,
    stream: &ClientStream,
) -> io::Result<()> {
    let start = Instant::now(rt)?;
    let mut reader = LimitedStream::new(rt, stream, start, Duration::from_secs(QUESTION_S));
    let mut writer = LimitedStream::new(rt, stream, start, Duration::from_secs(ANSWER_S));
    let source = Asking { rt, service };
    answer_one(service.alloc, keys, source, &mut reader, &mut writer)
}
