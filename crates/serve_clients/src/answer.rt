//! Requests of a client done together.
use crate::client::Client;
use crate::conversation::Conversation;
use crate::request_budget::{blocks_of, places_of};
use crate::service::Service;
use crate::sync_queue::Unsynced;
use blocks::{MAX_RANGE, Refusal};
use ghost_log::LogName;
use nbd::{NbdCommand, Request};
use serve_requests::{Answered, BegunRequest, asks_for_sync};
use session_api::Device;
use std::alloc::Global;
use std::sync::atomic::{AtomicBool, Ordering};
use std::sync::{Arc, Wait};
use std::time::{Clock, Instant};
use told::Caller;

/// The most requests that are done together.
const TOGETHER: usize = 16;

/// The most blocks of the requests that are done together: 2 MiB of data. A longer request is done by itself. A WRITE_ZEROES of 4 GiB
/// begins 32,768 ranges, and shorter requests that began with it would wait for seconds until all of them have.
const SHORT_BLOCKS: u32 = 512;

/// The most receipts of the requests that are done together: one for each 32 blocks, and four more for each request, whose first and last
/// ranges may be shorter, and which may begin and end within a block.
const SHORT_RECEIPTS: usize = 80;

/// The most blocks of data of a reply that is never sent by another thread: 32 KiB.
const HELD_BLOCKS: u32 = 8;

/// Requests of a client that were begun.
#[derive(Drop)]
struct Batch<J: LogName> {
    // Those that do not wait for stable storage, and those that do, first under way and then ended. Each has room for all, so that what was
    // begun is also ended.
    quick: Vec<BegunRequest<J>>,
    syncing: Vec<BegunRequest<J>>,
    unsynced: Vec<Unsynced>,
    // When they were taken, if there is a clock.
    begun: Option<Instant>,
    // Whether it is one long request, whose reply the caller sends.
    is_long: bool,
}

/// Does the next requests of a client: begins as many as are done together, then ends one after another, and sends their replies in one
/// piece. Those that wait for stable storage come last, and are left to the thread that syncs for all clients. Keeps the receipts of
/// their writes. Does none if the next request has to wait, or is a READ that is told in portions; the caller then calls again.
pub(crate) fn answer_some<R: Wait + Clock, D: Device>(
    rt: &R,
    service: &Service,
    device: &D,
    me: &mut Caller<D::Name>,
    conversation: &mut Conversation,
    answered: &mut Answered<D::Name>,
) -> Result<(), Refusal> {
    if conversation.next_blocks().unwrap_or(0) <= SHORT_BLOCKS {
        let batch = begin_short(rt, service, device, me, conversation, answered)?;
        return end_all(
            rt,
            service,
            device,
            me,
            &conversation.client,
            batch,
            answered,
        );
    }
    if conversation.begin_long_read(rt)? {
        return Ok(());
    }
    // Few long requests are done at a time, so that they leave the device to the short ones of other clients. How long a client takes to
    // read its reply is another matter.
    if !service.long_requests.take(rt, 1) {
        return Ok(());
    }
    let done = answer_long(rt, service, device, me, conversation, answered);
    service.long_requests.free(rt, 1);
    conversation.client.send_held(rt);
    done
}

// Does a long request by itself, with room for its receipts made before. It may have waited for its turn, so the session may be over.
fn answer_long<R: Wait + Clock, D: Device>(
    rt: &R,
    service: &Service,
    device: &D,
    me: &mut Caller<D::Name>,
    conversation: &mut Conversation,
    answered: &mut Answered<D::Name>,
) -> Result<(), Refusal> {
    if service.is_session_over() {
        return Ok(());
    }
    answered.reserve(most_receipts(conversation.next_blocks().unwrap_or(0)))?;
    let mut batch = Batch::<D::Name>::new(rt, service)?;
    batch.is_long = true;
    batch.begin_next(rt, service, device, me, conversation)?;
    end_all(
        rt,
        service,
        device,
        me,
        &conversation.client,
        batch,
        answered,
    )
}

// Begins the next short requests, until as many are begun as are done together, a long one comes, or one has to wait for places. Room for
// all their receipts is made before, so that want of memory ends the connection before anything is written, and no begun write stays
// without its receipt.
fn begin_short<R: Wait + Clock, D: Device>(
    rt: &R,
    service: &Service,
    device: &D,
    me: &mut Caller<D::Name>,
    conversation: &mut Conversation,
    answered: &mut Answered<D::Name>,
) -> Result<Batch<D::Name>, Refusal> {
    answered.reserve(SHORT_RECEIPTS)?;
    let mut batch = Batch::<D::Name>::new(rt, service)?;
    let mut blocks = 0u32;
    for _ in 0..TOGETHER {
        let Some(more) = conversation.next_blocks() else {
            break;
        };
        blocks = blocks.saturating_add(more);
        if blocks > SHORT_BLOCKS || !batch.begin_next(rt, service, device, me, conversation)? {
            break;
        }
    }
    Ok(batch)
}

// Returns how many receipts a request of this many blocks has at the most: one for each of its pieces. The first and the last of its
// ranges may have fewer blocks than the others, and it may begin and end within a block.
fn most_receipts(blocks: u32) -> usize {
    (u64::from(blocks) / MAX_RANGE) as usize + 4
}

impl<J: LogName> Batch<J> {
    // Creates a batch with no request.
    fn new<R: Clock>(rt: &R, service: &Service) -> Result<Batch<J>, Refusal> {
        Ok(Batch {
            quick: Vec::with_capacity(service.alloc, TOGETHER)?,
            syncing: Vec::with_capacity(service.alloc, TOGETHER)?,
            unsynced: Vec::with_capacity(service.alloc, TOGETHER)?,
            begun: Instant::now(rt).ok(),
            is_long: false,
        })
    }

    // Begins the next request of a client. Returns whether it did: not if its reply may wait and it gets no places.
    fn begin_next<R: Wait + Clock, D: Device<Name = J>>(
        &mut self,
        rt: &R,
        service: &Service,
        device: &D,
        me: &mut Caller<J>,
        conversation: &mut Conversation,
    ) -> Result<bool, Refusal> {
        let Some(next) = conversation.next() else {
            return Ok(false);
        };
        let syncs = asks_for_sync(next);
        // Those that were begun do not wait for it.
        let waits = self.quick.is_empty() && self.syncing.is_empty();
        if needs_places(next) && !conversation.client.take_places(rt, places_of(next), waits) {
            return Ok(false);
        }
        let Some(request) = conversation.take_next() else {
            return Ok(false);
        };
        let begun = BegunRequest::begin(&service.requests, device, me, request);
        if syncs {
            self.syncing.push(begun)?;
        } else {
            self.quick.push(begun)?;
        }
        Ok(true)
    }
}

// Returns whether the reply to a request may wait while its client's thread goes on: it waits for stable storage, or another thread sends
// its data.
fn needs_places(request: &Request) -> bool {
    asks_for_sync(request)
        || (request.command() == NbdCommand::Read && blocks_of(request) > HELD_BLOCKS)
}

// Sends the replies that are held if they are many bytes, by another thread if one has nothing to do: this one has more.
fn send_if_full<R: Wait + Clock>(rt: &R, service: &Service, client: &Arc<Client, Global>) {
    if client.is_full(rt) && !service.senders.send(rt, client) {
        client.send_held(rt);
    }
}

// Ends the requests of a batch, and sends their replies. Those that wait for stable storage have all ended before the first of them is
// finished, so that one sync does for them.
fn end_all<R: Wait + Clock, D: Device>(
    rt: &R,
    service: &Service,
    device: &D,
    me: &mut Caller<D::Name>,
    client: &Arc<Client, Global>,
    batch: Batch<D::Name>,
    answered: &mut Answered<D::Name>,
) -> Result<(), Refusal> {
    let Batch {
        quick,
        syncing,
        mut unsynced,
        begun,
        is_long,
    } = batch;
    for begun_request in quick {
        let ended = answered.end(&service.requests, device, me, begun_request);
        let command = ended.request().command();
        let places = if needs_places(ended.request()) {
            places_of(ended.request())
        } else {
            0
        };
        let answer = service.requests.finish(rt, device, ended);
        service.counts.latencies.note(rt, command, begun);
        client.reply(rt, answer, places);
        if !is_long {
            send_if_full(rt, service, client);
        }
    }
    if !is_long {
        client.send_held(rt);
    }
    for begun_request in syncing {
        let ended = answered.end(&service.requests, device, me, begun_request);
        let client = Arc::try_clone(client)?;
        unsynced.push(Unsynced {
            ended,
            client,
            begun,
        })?;
    }
    if !unsynced.is_empty() && !service.syncs.put(rt, &mut unsynced) {
        finish_all(rt, service, device, unsynced);
    }
    Ok(())
}

/// Finishes the requests of all clients that wait for stable storage as they come, until the session is over and none is left.
pub(crate) fn finish_waiting<R: Wait + Clock>(
    rt: &R,
    service: &Service,
    device: &impl Device,
    over: &AtomicBool,
) {
    service.syncs.attend(rt);
    for _ in rt.forever() {
        let is_over = over.load(Ordering::SeqCst);
        let waiting = service.syncs.take(rt);
        finish_all(rt, service, device, waiting);
        if is_over && service.syncs.retire(rt) {
            break;
        }
    }
}

// Finishes requests, and sends their replies. They had all ended before, so the sync of the first does for the others.
fn finish_all<R: Wait + Clock>(
    rt: &R,
    service: &Service,
    device: &impl Device,
    unsynced: Vec<Unsynced>,
) {
    for ended in unsynced {
        let Unsynced {
            ended,
            client,
            begun,
        } = ended;
        let command = ended.request().command();
        let places = places_of(ended.request());
        let answer = service.requests.finish(rt, device, ended);
        service.counts.latencies.note(rt, command, begun);
        client.reply(rt, answer, places);
        client.send_held(rt);
    }
}
