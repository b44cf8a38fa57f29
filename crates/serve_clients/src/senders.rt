//! Threads that send replies for clients' threads that have more to do.
use crate::client::Client;
use crate::service::Service;
use blocks::Refusal;
use crossbeam_channel::{Receiver, Sender, bounded};
use std::alloc::Global;
use std::sync::atomic::{AtomicU32, Ordering};
use std::sync::{Arc, Wait};
use std::time::{Clock, Duration};

/// The threads that send.
pub(crate) const SENDERS: usize = 2;

/// How long one waits for an order before it looks whether the session ends, in milliseconds.
const LOOK_MS: u64 = 100;

/// The orders to send what a client's replies are. They are hints: a client's thread sends what is held before it reads again.
#[derive(Drop)]
pub(crate) struct Senders {
    orders: Sender<Arc<Client, Global>>,
    waiting: Receiver<Arc<Client, Global>>,
    // Threads that wait for an order and have none yet.
    idle: AtomicU32,
}

impl Senders {
    /// Creates the orders, with no thread that waits for one.
    pub(crate) fn new(alloc: Global) -> Result<Senders, Refusal> {
        let (orders, waiting) = bounded(alloc, SENDERS)?;
        Ok(Senders {
            orders,
            waiting,
            idle: AtomicU32::new(0),
        })
    }

    /// Has a thread that has nothing to do send what is held for a client. Returns whether there is one.
    pub(crate) fn send<R: Wait>(&self, rt: &R, client: &Arc<Client, Global>) -> bool {
        let idle = self.idle.load(Ordering::SeqCst);
        if idle == 0 {
            return false;
        }
        let fewer = idle - 1;
        if self
            .idle
            .compare_exchange(idle, fewer, Ordering::SeqCst, Ordering::SeqCst)
            .is_err()
        {
            return false;
        }
        let is_ordered = match Arc::try_clone(client) {
            Ok(client) => self.orders.try_send(rt, client).is_ok(),
            Err(_) => false,
        };
        if !is_ordered {
            self.idle.fetch_add(1, Ordering::SeqCst);
        }
        is_ordered
    }

    /// Sends what is held for clients, as it is ordered, until the session ends.
    pub(crate) fn work<R: Wait + Clock>(&self, rt: &R, service: &Service) {
        self.idle.fetch_add(1, Ordering::SeqCst);
        for _ in rt.forever() {
            match self
                .waiting
                .recv_timeout(rt, Duration::from_millis(LOOK_MS))
            {
                Ok(client) => {
                    client.send_held(rt);
                    self.idle.fetch_add(1, Ordering::SeqCst);
                }
                Err(_) if service.has_session_ended() => break,
                Err(_) => {}
            }
        }
    }

    /// Forgets the threads of the last session.
    pub(crate) fn begin_session(&self) {
        self.idle.store(0, Ordering::SeqCst);
    }
}
