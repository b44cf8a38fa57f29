//! A READ whose reply is told in portions.
use crate::conversation::Conversation;
use crate::service::Service;
use nbd::{Errno, NbdCommand, Request};
use serve_requests::{Answer, Reading};
use session_api::Device;
use std::sync::Wait;
use std::time::{Clock, Instant};
use told::Caller;

/// A READ whose reply is told in portions, so that who takes none of it has one portion in memory, and others have their turns between two.
#[derive(Drop)]
pub(crate) struct LongRead {
    reading: Reading,
    // When it was begun, if there is a clock.
    begun: Option<Instant>,
}

impl LongRead {
    /// Begins to tell a request in portions. Gives back one that may not be told so.
    pub(crate) fn begin<R: Clock>(rt: &R, request: Request) -> Result<LongRead, Request> {
        let begun = Instant::now(rt).ok();
        match Reading::begin(request) {
            Ok(reading) => Ok(LongRead { reading, begun }),
            Err(request) => Err(request),
        }
    }

    /// Returns the answer that ends its reply with an error.
    pub(crate) fn break_off(self, service: &Service, errno: Errno) -> Answer {
        service.requests.break_off(self.reading, errno)
    }
}

/// Tells the next portion of a client's long READ, and sends it. Tells none if replies before it are not written yet, if as many long
/// requests of other clients are done already as may be at a time, or if the session is over; the caller then calls again.
pub(crate) fn tell_portion<R: Wait + Clock, D: Device>(
    rt: &R,
    service: &Service,
    device: &D,
    me: &mut Caller<D::Name>,
    conversation: &mut Conversation,
) {
    // So no more than one portion waits, also where another thread writes to the client.
    if !conversation.client.has_sent_all(rt) || !service.long_requests.take(rt, 1) {
        return;
    }
    // It may have waited for its turn.
    if !service.is_session_over() {
        if let Some(long_read) = conversation.take_long_read() {
            let LongRead { reading, begun } = long_read;
            let (answer, rest) = service.requests.read_on(device, me, reading);
            if rest.is_none() {
                service.counts.latencies.note(rt, NbdCommand::Read, begun);
            }
            conversation.keep_long_read(rest.map(|reading| LongRead { reading, begun }));
            conversation.client.reply(rt, answer, 0);
        }
    }
    service.long_requests.free(rt, 1);
    conversation.client.send_held(rt);
}
