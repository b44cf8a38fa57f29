//! Where clients wait between the threads that serve them.
use crate::conversation::Conversation;
use crate::service::Service;
use blocks::Refusal;
use crossbeam_channel::{Receiver, Sender, bounded};
use session_api::Runtime;
use std::alloc::Global;
use std::sync::{Arc, Wait};
use std::thread;
use std::time::{Clock, Duration};

/// How long a thread waits for a client before it looks whether the server ends, in milliseconds.
const LOOK_MS: u64 = 100;

/// What a thread does for a client outside of all sessions.
#[derive(Drop)]
struct Errand {
    conversation: Conversation,
    // Whether the client goes afterwards. Else it is served again.
    is_last: bool,
}

/// The clients that no thread has: those that wait for a session, and those that take their replies slowly or go. A session ends only once
/// its threads have handed on their clients, so none of them waits for a client.
#[derive(Drop)]
pub(crate) struct Conversations {
    entrance: Sender<Conversation>,
    waiting: Receiver<Conversation>,
    orders: Sender<Errand>,
    errands: Receiver<Errand>,
}

impl Conversations {
    /// Creates both queues, with room for so many clients.
    pub(crate) fn new(alloc: Global, room: usize) -> Result<Conversations, Refusal> {
        let (entrance, waiting) = bounded(alloc, room)?;
        let (orders, errands) = bounded(alloc, room)?;
        Ok(Conversations {
            entrance,
            waiting,
            orders,
            errands,
        })
    }

    /// Has a client wait for a session.
    pub(crate) fn put<R: Wait>(&self, rt: &R, conversation: Conversation, service: &Service) {
        if let Err(error) = self.entrance.send(rt, conversation) {
            service.drop_conversation(error.into_inner());
        }
    }

    /// Has a thread write the replies that a client takes slowly. Then it waits for a session.
    pub(crate) fn write_late<R: Wait>(
        &self,
        rt: &R,
        conversation: Conversation,
        service: &Service,
    ) {
        self.order(rt, conversation, false, service);
    }

    /// Has a thread write a client's last replies, and end its connection.
    pub(crate) fn end<R: Wait>(&self, rt: &R, conversation: Conversation, service: &Service) {
        self.order(rt, conversation, true, service);
    }

    fn order<R: Wait>(&self, rt: &R, conversation: Conversation, is_last: bool, service: &Service) {
        if let Err(error) = self.orders.send(
            rt,
            Errand {
                conversation,
                is_last,
            },
        ) {
            let Errand { conversation, .. } = error.into_inner();
            service.drop_conversation(conversation);
        }
    }

    /// Returns a client that waits for a session. `None` if none comes in a moment.
    pub(crate) fn next<R: Wait + Clock>(&self, rt: &R) -> Option<Conversation> {
        self.waiting
            .recv_timeout(rt, Duration::from_millis(LOOK_MS))
            .ok()
    }
}

/// Runs the errands of a server's clients, each in a thread of its own, until the server ends and has no client left.
pub(crate) fn run_errands<R: Runtime>(rt: R, service: &Arc<Service, Global>) {
    for _ in rt.forever() {
        let look = Duration::from_millis(LOOK_MS);
        match service.conversations.errands.recv_timeout(&rt, look) {
            Ok(errand) => {
                let _ = start_errand(rt, service, errand);
            }
            Err(_) if service.is_over() && service.clients() == 0 => break,
            Err(_) => {}
        }
    }
}

// Starts the thread of an errand. Where none can be started, the client's connection is closed.
fn start_errand<R: Runtime>(
    rt: R,
    service: &Arc<Service, Global>,
    errand: Errand,
) -> Result<(), Refusal> {
    let Errand {
        conversation,
        is_last,
    } = errand;
    let shared = match Arc::try_clone(service) {
        Ok(shared) => shared,
        Err(error) => {
            service.drop_conversation(conversation);
            return Err(error.into());
        }
    };
    let started = thread::spawn(&rt, move || run_errand(&rt, &shared, conversation, is_last));
    match started {
        Ok(_) => Ok(()),
        Err(_) => {
            service.leave();
            Err(Refusal::NoMemory)
        }
    }
}

// Writes what was left to a client. Then it goes, once no request of it is under way and all replies are written, or waits for a session.
fn run_errand<R: Wait + Clock>(
    rt: &R,
    service: &Service,
    conversation: Conversation,
    is_last: bool,
) {
    conversation.client.send_late(rt);
    if !is_last {
        service.conversations.put(rt, conversation, service);
        return;
    }
    conversation.client.wait_for_requests(rt);
    conversation.client.wait_for_replies(rt);
    conversation.client.end(rt);
    drop(conversation);
    service.leave();
}
