//! The state that all threads of a server share.
ghost use Rattle.std.specs.Prelude.{◌≡◌, IfOk};

use crate::conversation::Conversation;
use crate::conversations::Conversations;
use crate::counts::Counts;
use crate::payload_room::PAYLOAD_PLACES;
use crate::reports::Reports;
use crate::request_budget::RequestBudget;
use crate::senders::Senders;
use crate::shown::Shown;
use crate::sync_queue::SyncQueue;
use crate::watch::Watch;
use blocks::{ConnectionWords, Protocol, Refusal};
use serve_page::{ServerStart, StartedAfter};
use serve_requests::Requests;
use server_log::Style;
use std::alloc::Global;
use std::sync::Mutex;
use std::sync::atomic::{AtomicBool, AtomicU32, AtomicU64, Ordering};

/// The most clients at a time. Further ones are closed at once.
pub(crate) const MAX_CLIENTS: u32 = 256;

/// The long requests of all clients that are done at a time.
const LONG_REQUESTS: u32 = 2;

/// The writes after which a session ends, and the next one begins. A session has room for 1,048,576, and each client's thread may begin
/// more when the count gets there: short requests with at most 32 ranges together, and two of them one of up to 32,768 ranges, a
/// WRITE_ZEROES of 4 GiB. Together these are 73,728.
const SESSION_WRITES: u64 = 960_000;

/// The state that all threads of a server share, through all of its sessions.
#[derive(Drop)]
pub struct Service {
    /// The allocator of all of its memory.
    pub alloc: Global,
    /// Blocks of the device.
    pub blocks: u32,
    /// When a write is completed.
    pub protocol: Protocol,
    pub(crate) conversations: Conversations,
    // One place for each long request that may be done now.
    pub(crate) long_requests: RequestBudget,
    // Places for the payloads of long WRITEs.
    pub(crate) payload_room: RequestBudget,
    pub(crate) senders: Senders,
    pub(crate) reports: Reports,
    pub(crate) counts: Counts,
    pub(crate) watch: Mutex<Watch>,
    pub(crate) syncs: SyncQueue,
    /// Does what clients ask of the device.
    pub requests: Requests,
    /// What stands before the lines of its log.
    pub style: Style,
    pub(crate) shown: Shown,
    stop: AtomicBool,
    clients: AtomicU32,
    // The number of the next client.
    next_client: AtomicU64,
    // Clients of the status page.
    askers: AtomicU32,
    next_word: AtomicU64,
    // The most blocks that were marked since none was.
    most_marks: AtomicU32,
    after: StartedAfter,
    // Blocks that the first session had to copy.
    to_copy: AtomicU32,
}

impl Service {
    /// Creates the state of a server of a device of `blocks` blocks, which gives its connections the words from `first_word` on: none of
    /// them may be an identifier of a disk at the start; `after` says what the server found at its start, `style` what stands before the
    /// lines of its log, and `shown` what its page shows beside the reports. `NoMemory` (7) if there is no memory.
    pub fn new(
        alloc: Global,
        blocks: u32,
        protocol: Protocol,
        requests: Requests,
        first_word: u64,
        after: StartedAfter,
        style: Style,
        shown: Shown,
    ) -> Result<Service, Refusal>
        ensures { IfOk result (λ service. (service.protocol ≡ protocol) × (service.blocks ≡ blocks)) }
    {
        Ok(Service {
            alloc,
            blocks,
            protocol,
            conversations: Conversations::new(alloc, MAX_CLIENTS as usize)?,
            long_requests: RequestBudget::new(LONG_REQUESTS),
            payload_room: RequestBudget::new(PAYLOAD_PLACES),
            senders: Senders::new(alloc)?,
            reports: Reports::new(),
            counts: Counts::new(),
            watch: Mutex::new(Watch::new(style)),
            syncs: SyncQueue::new(alloc),
            requests,
            style,
            shown,
            stop: AtomicBool::new(false),
            clients: AtomicU32::new(0),
            next_client: AtomicU64::new(0),
            askers: AtomicU32::new(0),
            next_word: AtomicU64::new(first_word),
            most_marks: AtomicU32::new(0),
            after,
            to_copy: AtomicU32::new(0),
        })
    }

    /// Returns whether the server is to end.
    pub fn is_over(&self) -> bool {
        self.stop.load(Ordering::SeqCst)
    }

    /// Returns whether the session ends: it was asked for 960,000 writes, and a thread begins no further request.
    pub(crate) fn is_session_over(&self) -> bool {
        self.requests.writes() >= SESSION_WRITES
    }

    /// Returns whether the session of the mirror serves no client any more.
    pub(crate) fn has_session_ended(&self) -> bool {
        self.is_session_over() || (self.is_over() && self.clients() == 0)
    }

    /// Ends the server: no further requests are taken.
    pub(crate) fn end(&self) {
        self.stop.store(true, Ordering::SeqCst);
    }

    /// Counts a client that comes. Returns how many there were before.
    pub(crate) fn enter(&self) -> u32 {
        self.clients.fetch_add(1, Ordering::SeqCst)
    }

    /// Returns a number for a client, which no other one has.
    pub(crate) fn client_number(&self) -> u64 {
        self.next_client.fetch_add(1, Ordering::SeqCst)
    }

    /// Counts a client that goes.
    pub(crate) fn leave(&self) {
        self.clients.fetch_sub(1, Ordering::SeqCst);
    }

    /// Closes the connection of a client at once, and counts it as gone.
    pub(crate) fn drop_conversation(&self, conversation: Conversation) {
        conversation.client.close();
        drop(conversation);
        self.leave();
    }

    /// Returns how many clients there are.
    pub fn clients(&self) -> u32 {
        self.clients.load(Ordering::SeqCst)
    }

    /// Counts a client of the status page that comes. Returns how many there were before.
    pub(crate) fn enter_page(&self) -> u32 {
        self.askers.fetch_add(1, Ordering::SeqCst)
    }

    /// Counts a client of the status page that goes.
    pub(crate) fn leave_page(&self) {
        self.askers.fetch_sub(1, Ordering::SeqCst);
    }

    /// Takes the number of marked blocks at a moment. Returns the most that were marked since none was, over all sessions.
    pub(crate) fn note_marks(&self, marks: u32) -> u32 {
        if marks == 0 {
            self.most_marks.store(0, Ordering::SeqCst);
            return 0;
        }
        self.most_marks
            .fetch_max(marks, Ordering::SeqCst)
            .max(marks)
    }

    /// Notes how many blocks the first session has to copy.
    pub fn note_start(&self, to_copy: u32) {
        self.to_copy.store(to_copy, Ordering::SeqCst);
    }

    /// Returns how the server began.
    pub(crate) fn start(&self) -> ServerStart {
        ServerStart {
            after: self.after,
            to_copy: self.to_copy.load(Ordering::SeqCst),
        }
    }

    /// Returns two fresh words, for a connection.
    pub fn words(&self) -> ConnectionWords {
        let word = self.next_word.fetch_add(2, Ordering::SeqCst);
        ConnectionWords {
            sync: word,
            loss: word.wrapping_add(1),
        }
    }
}
