//! A client's thread of one session, which takes its requests and does them.
use crate::answer::answer_some;
use crate::conversation::Conversation;
use crate::long_read::tell_portion;
use crate::service::Service;
use blocks::Refusal;
use client_socket::is_passing;
use serve_requests::Answered;
use session_api::Device;
use std::sync::{Mutex, Wait};
use std::thread;
use std::time::{Clock, Duration, Instant};
use told::Caller;

/// The most bytes that are read at once: a request for the longest range and its payload.
const BUFFER_BYTES: usize = 132 * 1024;

/// How long a thread waits for more READs for each but the first of those that came together, in microseconds, and at most for how many.
const WAIT_US: u64 = 5;

const MOST_WAITED: usize = 4;

/// How often it gives up its processor meanwhile at the most.
const MOST_YIELDS: u32 = 200;

/// What becomes of a client once its thread of a session leaves it.
#[derive(Clone, Copy, Debug, PartialEq, Eq)]
enum Next {
    /// The next session serves it.
    Serve,
    /// It takes its replies slowly: another thread writes them, and then it is served again.
    Write,
    /// It has its last replies, and goes.
    End,
}

/// Serves a client over one session, as this caller of it, until it leaves, takes its replies slowly, or the session or the server ends,
/// and hands it on. Puts the receipts of its writes into `gathered`, with what was told of them.
pub(crate) fn serve_client<R: Wait + Clock, D: Device>(
    rt: &R,
    service: &Service,
    device: &D,
    caller: Caller<D::Name>,
    conversation: Conversation,
    gathered: &Mutex<Answered<D::Name>>,
) {
    let mut me = caller;
    let mut conversation = conversation;
    let next = converse(rt, service, device, &mut me, &mut conversation, gathered);
    if matches!(next, Ok(Next::End) | Err(_)) {
        conversation.free_room(rt, service);
    }
    match next {
        Ok(Next::Serve) => service.conversations.put(rt, conversation, service),
        Ok(Next::Write) => service.conversations.write_late(rt, conversation, service),
        Ok(Next::End) => service.conversations.end(rt, conversation, service),
        Err(_) => service.drop_conversation(conversation),
    }
}

// Serves a client until it is handed on. A refusal ends its connection at once.
fn converse<R: Wait + Clock, D: Device>(
    rt: &R,
    service: &Service,
    device: &D,
    me: &mut Caller<D::Name>,
    conversation: &mut Conversation,
    gathered: &Mutex<Answered<D::Name>>,
) -> Result<Next, Refusal> {
    let mut buffer = Vec::from_elem(service.alloc, 0u8, BUFFER_BYTES)?;
    conversation.greet(rt)?;
    for _ in rt.forever() {
        do_requests(rt, service, device, me, conversation, gathered)?;
        if let Some(next) = next_of(rt, service, conversation) {
            return Ok(next);
        }
        if !conversation.has_room(rt, service) {
            continue;
        }
        let_more_come(rt, conversation.reads());
        let count = match conversation.client.read(&mut buffer) {
            Ok(0) => return Ok(Next::End),
            Ok(count) => count,
            Err(error) if is_passing(error.kind()) => {
                if conversation.has_stalled(rt) {
                    return Ok(Next::End);
                }
                continue;
            }
            Err(_) => return Ok(Next::End),
        };
        conversation.take(rt, &buffer[..count])?;
    }
    unreachable!()
}

// Lets a client send more READs, if several came together: they are done together then, and their replies, which are long, are sent in one
// piece, which the client takes in less time. It has as many replies to take meanwhile, so it does not wait.
fn let_more_come<R: Clock>(rt: &R, reads: usize) {
    let more = reads.saturating_sub(1).min(MOST_WAITED) as u64;
    if more == 0 {
        return;
    }
    let wait = Duration::from_micros(more * WAIT_US);
    let Ok(start) = Instant::now(rt) else {
        return;
    };
    for _ in 0..MOST_YIELDS {
        match start.elapsed(rt) {
            Ok(elapsed) if elapsed < wait => thread::yield_now(),
            _ => break,
        }
    }
}

// Returns what becomes of a client, or `None` if its thread goes on.
fn next_of<R: Wait + Clock>(
    rt: &R,
    service: &Service,
    conversation: &Conversation,
) -> Option<Next> {
    if conversation.client.is_left(rt) {
        return Some(Next::Write);
    }
    if !conversation.is_idle() {
        return Some(Next::Serve);
    }
    if service.is_over() || conversation.has_ended() || conversation.is_late(rt) {
        return Some(Next::End);
    }
    service.is_session_over().then_some(Next::Serve)
}

// Does the requests that a client has sent, until none is left, the session ends, or the client takes its replies slowly. One read may
// have thousands of them, so those that are left once the server ends are refused: it would wait for a slow client as long as for all.
fn do_requests<R: Wait + Clock, D: Device>(
    rt: &R,
    service: &Service,
    device: &D,
    me: &mut Caller<D::Name>,
    conversation: &mut Conversation,
    gathered: &Mutex<Answered<D::Name>>,
) -> Result<(), Refusal> {
    if conversation.is_idle() {
        // It keeps its room: the payload that this is for has not come whole.
        return Ok(());
    }
    let mut own = Answered::new(service.alloc, me);
    for _ in rt.forever() {
        if conversation.is_idle() {
            conversation.free_room(rt, service);
            break;
        }
        if service.is_over() || conversation.client.is_closed() {
            conversation.refuse_all(rt, service);
            break;
        }
        if service.is_session_over() || conversation.client.is_left(rt) {
            break;
        }
        if conversation.is_telling() {
            tell_portion(rt, service, device, me, conversation);
            continue;
        }
        let answered = answer_some(rt, service, device, me, conversation, &mut own);
        service.counts.note_receipts(own.receipts());
        gathered.lock(rt).take(&mut own)?;
        answered?;
    }
    Ok(())
}
