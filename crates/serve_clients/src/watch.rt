//! What the log tells of a server's nodes.
use serve_page::Resync;
use server_log::{Copied, Event, Style};
use session_api::Progress;
use status_lines::LinkState;

/// The most events of one look.
const MOST_EVENTS: usize = 6;

/// KiB in a block.
const BLOCK_KIB: u64 = 4;

/// The time between two lines on the progress of a copy, in milliseconds.
const PROGRESS_MS: u64 = 10_000;

/// Looks for which the first connection of a session may not be up yet.
const PATIENCE: u32 = 4;

/// A copy of marked blocks that was told.
#[derive(Clone, Copy)]
struct ToldCopy {
    // The blocks that were marked when it was first seen.
    all: u32,
    // When that was, and when its progress was last told, in milliseconds of the clock.
    begun_ms: u64,
    told_ms: u64,
}

/// What the log has told so far, through all sessions of a server. Where one session gives way to the next, the link does not count as lost.
#[derive(Drop)]
pub(crate) struct Watch {
    // The last word on the link was that it is up.
    is_up: bool,
    // The last connection that was seen of the mirror's session, and for how many looks its first one may still be on its way.
    connection: Option<u32>,
    patience: u32,
    copy: Option<ToldCopy>,
    // The blocks that were marked at the last look, if there was one.
    marks: Option<u32>,
    is_peer_failed: bool,
    is_metadata_broken: bool,
    // The time between two words on the progress of a copy, in milliseconds. A bar is drawn at each look.
    progress_ms: u64,
}

impl Watch {
    /// Creates one that has told nothing, for a log of this style.
    pub(crate) fn new(style: Style) -> Watch {
        Watch {
            progress_ms: if style == Style::Barred {
                0
            } else {
                PROGRESS_MS
            },
            is_up: false,
            connection: None,
            patience: PATIENCE,
            copy: None,
            marks: None,
            is_peer_failed: false,
            is_metadata_broken: false,
        }
    }

    /// Begins a session, whose connections are counted anew. The first one has so many blocks to copy.
    pub(crate) fn begin_session(&mut self, to_copy: u32) {
        self.connection = None;
        self.patience = PATIENCE;
        self.marks = self.marks.or(Some(to_copy));
    }

    /// Takes how far the nodes have come and whether a sync of the peer's image has failed, at so many milliseconds of the clock. Returns
    /// what has happened since the last look.
    pub(crate) fn look(
        &mut self,
        progress: &Progress,
        is_peer_failed: bool,
        now_ms: u64,
    ) -> [Option<Event>; MOST_EVENTS] {
        let is_metadata_broken = progress.is_metadata_broken();
        let metadata = is_metadata_broken && !self.is_metadata_broken;
        self.is_metadata_broken = is_metadata_broken;
        let peer = is_peer_failed && !self.is_peer_failed;
        self.is_peer_failed = is_peer_failed;
        let (is_lost, is_connected) = self.look_at_link(connection_of(progress));
        if is_lost {
            self.copy = None;
        }
        let (begun, further) = self.look_at_copy(progress, is_connected, now_ms);
        [
            metadata.then_some(Event::MetadataFailed),
            peer.then_some(Event::PeerSyncFailed),
            is_lost.then_some(Event::Lost),
            is_connected.then_some(Event::Connected),
            begun,
            further,
        ]
    }

    // Takes the connection that is up. Returns whether one was lost since the last look, and whether one came up.
    fn look_at_link(&mut self, connection: Option<u32>) -> (bool, bool) {
        let was_up = self.is_up;
        if connection.is_none() && self.connection.is_none() && self.patience > 0 {
            self.patience -= 1;
            return (false, false);
        }
        self.is_up = connection.is_some();
        if connection.is_none() || connection == self.connection {
            return (was_up && !self.is_up, self.is_up && !was_up);
        }
        // Another one than at the last look is up, so one of the mirror's session was lost meanwhile.
        let is_lost = was_up && self.connection.is_some();
        self.connection = connection;
        (is_lost, is_lost || !was_up)
    }

    // Takes how far a copy has come. Returns whether one began since the last look, and whether it is done or how far it has come.
    fn look_at_copy(
        &mut self,
        progress: &Progress,
        is_connected: bool,
        now_ms: u64,
    ) -> (Option<Event>, Option<Event>) {
        let marks = progress.primary.marks;
        let before = self.marks.unwrap_or(0);
        self.marks = Some(marks);
        let Some(copy) = self.copy else {
            return self.begin_copy(progress, is_connected, before, now_ms);
        };
        if connection_of(progress).is_none() {
            return (None, None);
        }
        if marks == 0 {
            self.copy = None;
            let seconds = now_ms.saturating_sub(copy.begun_ms) / 1000;
            return (None, Some(Event::ResyncDone(seconds)));
        }
        if !is_source(progress) {
            self.copy = None;
            return (None, None);
        }
        if now_ms.saturating_sub(copy.told_ms) < self.progress_ms {
            return (None, None);
        }
        self.copy = Some(ToldCopy {
            told_ms: now_ms,
            ..copy
        });
        (None, progress_of(copy, marks, now_ms))
    }

    // Takes what is marked while no copy is told. Returns whether one began, and whether it was over before this look.
    fn begin_copy(
        &mut self,
        progress: &Progress,
        is_connected: bool,
        before: u32,
        now_ms: u64,
    ) -> (Option<Event>, Option<Event>) {
        let marks = progress.primary.marks;
        if marks > 0 && is_source(progress) {
            // Some of it may be copied since the last look.
            let all = marks.max(before);
            self.copy = Some(ToldCopy {
                all,
                begun_ms: now_ms,
                told_ms: now_ms,
            });
            return (Some(begun(all)), None);
        }
        if is_connected && marks == 0 && before > 0 {
            return (Some(begun(before)), Some(Event::ResyncDone(0)));
        }
        (None, None)
    }
}

// Returns the event of a copy of so many blocks that begins.
fn begun(blocks: u32) -> Event {
    Event::ResyncBegun(BLOCK_KIB * u64::from(blocks))
}

// Returns how far a copy has come where so many blocks are marked, if it has copied something.
fn progress_of(copy: ToldCopy, marks: u32, now_ms: u64) -> Option<Event> {
    let resync = Resync {
        left: marks,
        all: copy.all,
        copied: copy.all.saturating_sub(marks),
        elapsed_ms: now_ms.saturating_sub(copy.begun_ms),
    };
    let kib_per_second = resync.kib_per_second()?;
    let seconds_left = resync.seconds_left()?;
    Some(Event::Resyncing(Copied {
        percent: resync.percent(),
        left_kib: resync.left_kib(),
        kib_per_second,
        seconds_left,
    }))
}

// Returns whether the primary copies marked blocks.
fn is_source(progress: &Progress) -> bool {
    progress.primary.line.words.link == LinkState::SyncSource
}

// Returns the number of the connection that is up, if one is.
fn connection_of(progress: &Progress) -> Option<u32> {
    match progress.primary.line.words.link {
        LinkState::Connected | LinkState::SyncSource => Some(progress.primary.sent.connection),
        _ => None,
    }
}
