//! The thread that keeps the link up.
use crate::copying::Copying;
use crate::service::Service;
use crate::standstill::Standstill;
use blocks::ConnectionWords;
use serve_page::{Resync, StatusReport};
use session_api::{Device, Progress};
use status_lines::LinkState;
use std::sync::Wait;
use std::sync::atomic::{AtomicBool, Ordering};
use std::thread;
use std::time::{Clock, Duration};

/// The time between two looks, in milliseconds.
const LOOK_MS: u64 = 20;

/// Looks in a second.
const LOOKS_A_SECOND: u64 = 50;

/// Reconnects the link whenever it is down, and gives reports when they are asked for, until the session is over. If
/// `cut_every` is set, cuts the link each time that this many seconds have passed. Also cuts it when blocks are marked and none
/// is copied for some time, so that a resync begins with the next connection. Once a sync of the peer's image has failed, keeps
/// the link down.
pub(crate) fn keep<R: Wait + Clock>(
    rt: &R,
    service: &Service,
    device: &impl Device,
    cut_every: Option<u32>,
    over: &AtomicBool,
) {
    // A session starts with an open link, unless a sync of the peer's image had failed before.
    let mut link = KeptLink {
        words: service.words(),
        standstill: Standstill::new(),
        is_up: !service.requests.is_peer_failed(),
        looks: 0,
        copying: None,
    };
    for _ in rt.forever() {
        if over.load(Ordering::SeqCst) {
            break;
        }
        link.tend(service, device, cut_every);
        let progress = device.progress();
        link.note_copying(rt, &progress);
        link.cut_if_still(device, &progress);
        let most = service.note_marks(progress.primary.marks);
        if service.reports.is_asked(rt) {
            service
                .reports
                .give(rt, link.report(rt, service, &device.progress(), most));
        }
        thread::sleep(rt, Duration::from_millis(LOOK_MS));
        link.looks = link.looks.saturating_add(1);
    }
}

/// The link of a session, as the thread that keeps it up knows it.
#[derive(Drop)]
struct KeptLink {
    // The words of the next connection.
    words: ConnectionWords,
    standstill: Standstill,
    // No block is copied from a cut by this thread to the next connection.
    is_up: bool,
    // Looks since a cut was last due.
    looks: u64,
    // The resync that goes on.
    copying: Option<Copying>,
}

impl KeptLink {
    // Cuts the link if that is due, and opens it if it is down. Once a sync of the peer's image has failed, only cuts it.
    fn tend(&mut self, service: &Service, device: &impl Device, cut_every: Option<u32>) {
        if is_cut_due(cut_every, self.looks) {
            self.cut(device);
            self.looks = 0;
        }
        // While an end is open, or a disk has items to do, a reconnection is refused and changes nothing.
        if !service.requests.is_peer_failed() && device.reconnect(self.words).is_ok() {
            self.words = service.words();
            self.standstill.restart();
            self.is_up = true;
        }
        // Asked once more: a sync may have failed while the link was opened, and cut the connection before.
        if self.is_up && service.requests.is_peer_failed() {
            self.cut(device);
        }
    }

    // Cuts the link if blocks are marked, and none was copied for some time.
    fn cut_if_still(&mut self, device: &impl Device, progress: &Progress) {
        if !self.is_up {
            return;
        }
        let copied = if is_resyncing(progress) {
            Some(progress.secondary.applied)
        } else {
            None
        };
        if self.standstill.look(progress.primary.marks, copied) {
            self.cut(device);
        }
    }

    fn cut(&mut self, device: &impl Device) {
        device.cut();
        self.is_up = false;
    }

    // Takes the number of marked blocks while a resync goes on, and forgets it once none does.
    fn note_copying<R: Clock>(&mut self, rt: &R, progress: &Progress) {
        self.copying = match self.copying {
            _ if !is_resyncing(progress) => None,
            None => Copying::begin(rt, progress.primary.marks),
            Some(copying) => Some(copying.look(rt, progress.primary.marks)),
        };
    }

    // Returns the session's report on its nodes.
    fn report<R: Clock>(
        &self,
        rt: &R,
        service: &Service,
        progress: &Progress,
        most: u32,
    ) -> StatusReport {
        let Progress { primary, secondary } = *progress;
        let marks = primary.marks;
        let resync = match primary.line.words.link {
            LinkState::SyncSource => Some(Resync {
                left: marks,
                all: most,
                copied: self.copying.map_or(0, |copying| copying.copied(marks)),
                elapsed_ms: self.copying.map_or(0, |copying| copying.elapsed_ms(rt)),
            }),
            _ => None,
        };
        StatusReport {
            primary,
            secondary,
            blocks: service.blocks,
            start: service.start(),
            resync,
            is_peer_failed: service.requests.is_peer_failed(),
            clients: service.clients(),
            receipts: service.counts.receipts(),
            latencies: service.counts.latencies.latencies(),
            local_metadata: service.shown.local_metadata.now(),
            peer_metadata: service.shown.peer_metadata.now(),
        }
    }
}

// Returns whether marked blocks are being copied.
fn is_resyncing(progress: &Progress) -> bool {
    let primary = &progress.primary;
    primary.marks > 0 && primary.line.words.link == LinkState::SyncSource
}

// Returns whether the link is to be cut, this many looks after it was last.
fn is_cut_due(cut_every: Option<u32>, looks: u64) -> bool {
    match cut_every {
        Some(seconds) => looks >= u64::from(seconds).saturating_mul(LOOKS_A_SECOND),
        None => false,
    }
}
