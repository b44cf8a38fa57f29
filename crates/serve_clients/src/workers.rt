//! The threads that do requests over one session.
use crate::answer::finish_waiting;
use crate::housekeeper::keep_house;
use crate::keeper::keep;
use crate::reader::serve_client;
use crate::senders::SENDERS;
use crate::service::Service;
use crate::teller::tell_events;
use blocks::Refusal;
use ghost_log::LogName;
use serve_requests::Answered;
use session_api::{Device, Runtime};
use std::io::Write;
use std::sync::atomic::{AtomicBool, Ordering};
use std::sync::{Mutex, Wait};
use std::thread;
use std::time::{Clock, Duration};
use told::Callers;

/// The time between two looks whether the disks are alike, in milliseconds.
const LOOK_MS: u64 = 100;

/// Looks for the thread that keeps the link up, after which a session ends without it: one second.
const LOOKS_FOR_KEEPER: u32 = 1000;

/// The time between two of these looks, in milliseconds.
const KEEPER_LOOK_MS: u64 = 1;

/// Looks without progress after which the link is cut, if blocks are marked: two seconds. The thread that keeps the link up then
/// reconnects it, and the resync begins again.
const LOOKS_TO_CUT: u32 = 20;

/// Looks without progress after which a session ends, though blocks may be marked or the peer's disk may have items to do: ten
/// seconds.
const LOOKS_TO_LEAVE: u32 = 100;

/// The same between two sessions of a server: one second. The next session copies the blocks that are still marked.
const LOOKS_TO_GO_ON: u32 = 10;

/// Looks after which a session gives way to the next one also if there is progress: ten seconds.
const MOST_LOOKS_TO_GO_ON: u32 = 100;

/// The most receipts of a session: one for each write that it has room for.
const MOST_RECEIPTS: usize = 1_048_576;

/// Does the requests of clients over this device, each client's thread as a caller of its own, until the server ends or the session has
/// accepted some 960,000 writes, and returns the receipts of all their writes, with what was told of them. After the last request it waits
/// for the link to come to rest: until both disks are alike and the link has nothing to do, or a sync of the peer's image has failed, or
/// ten seconds pass in which no marked block is copied and the peer's disk does no item. If another session follows it waits one such
/// second, and ten in all. Meanwhile a line on `err` tells each event of the link and of the disks.
///
/// `NoMemory` (7) if there is no memory for the receipts, or if the thread that keeps the link up does not run within a
/// second, as where it cannot be started: then no request is done, since nothing would reconnect the link.
pub fn work<R: Runtime, N: LogName + Send + Sync, D: Device<Name = N> + Sync, E: Write + Send>(
    rt: &R,
    service: &Service,
    device: &D,
    callers: &Callers<N>,
    cut_every: Option<u32>,
    err: &mut E,
) -> Result<Answered<N>, Refusal> {
    let is_kept = AtomicBool::new(false);
    let over = AtomicBool::new(false);
    // Where no thread can be started, the first is called last, and finds that the session is over.
    let (_, done) = thread::join(
        rt,
        || {
            is_kept.store(true, Ordering::SeqCst);
            keep(rt, service, device, cut_every, &over)
        },
        || -> Result<Answered<N>, Refusal> {
            let done = work_beside_teller(rt, service, device, callers, &is_kept, &over, err);
            over.store(true, Ordering::SeqCst);
            done
        },
    );
    done
}

// Does requests until the session ends, beside the thread that writes the log. Where that one cannot be started, its last look tells what
// has come of the link.
fn work_beside_teller<
    R: Runtime,
    N: LogName + Send + Sync,
    D: Device<Name = N> + Sync,
    E: Write + Send,
>(
    rt: &R,
    service: &Service,
    device: &D,
    callers: &Callers<N>,
    is_kept: &AtomicBool,
    over: &AtomicBool,
    err: &mut E,
) -> Result<Answered<N>, Refusal> {
    let (_, done) = thread::join(
        rt,
        || tell_events(rt, service, device, over, err),
        || -> Result<Answered<N>, Refusal> {
            let done = work_beside_housekeeper(rt, service, device, callers, is_kept, over);
            over.store(true, Ordering::SeqCst);
            done
        },
    );
    done
}

// Does requests until the session ends, beside the thread that lets extents leave the metadata. Where that one cannot be started, they
// stay, which costs a later start time and nothing else.
fn work_beside_housekeeper<R: Runtime, N: LogName + Send + Sync, D: Device<Name = N> + Sync>(
    rt: &R,
    service: &Service,
    device: &D,
    callers: &Callers<N>,
    is_kept: &AtomicBool,
    over: &AtomicBool,
) -> Result<Answered<N>, Refusal> {
    let (_, done) = thread::join(
        rt,
        || keep_house(rt, service, device, over),
        || -> Result<Answered<N>, Refusal> {
            let done = work_if_kept(rt, service, device, callers, is_kept);
            over.store(true, Ordering::SeqCst);
            done
        },
    );
    done
}

// Does requests until the session ends, and lets the link come to rest, if the thread that keeps the link up runs.
fn work_if_kept<R: Runtime, N: LogName + Send + Sync, D: Device<Name = N> + Sync>(
    rt: &R,
    service: &Service,
    device: &D,
    callers: &Callers<N>,
    is_kept: &AtomicBool,
) -> Result<Answered<N>, Refusal> {
    if !is_keeper_running(rt, is_kept) {
        return Err(Refusal::NoMemory);
    }
    let done = do_requests(rt, service, device, callers);
    wait_for_rest(rt, service, device);
    done
}

// Waits until the thread that keeps the link up says that it runs. Returns whether it did in time.
fn is_keeper_running<R: Clock>(rt: &R, is_kept: &AtomicBool) -> bool {
    for _ in 0..LOOKS_FOR_KEEPER {
        if is_kept.load(Ordering::SeqCst) {
            return true;
        }
        thread::sleep(rt, Duration::from_millis(KEEPER_LOOK_MS));
    }
    is_kept.load(Ordering::SeqCst)
}

// Does requests of all clients, and gathers the receipts. Their room is made at once: if it grew, the memory of a session would depend on
// those before it. Where no thread can be started that syncs for all, each client's thread syncs by itself.
fn do_requests<R: Runtime, N: LogName + Send + Sync, D: Device<Name = N> + Sync>(
    rt: &R,
    service: &Service,
    device: &D,
    callers: &Callers<N>,
) -> Result<Answered<N>, Refusal> {
    let mut none = Answered::new(service.alloc, &callers.caller());
    none.reserve(MOST_RECEIPTS)?;
    let gathered = Mutex::new(none);
    let over = AtomicBool::new(false);
    thread::join(
        rt,
        || finish_waiting(rt, service, device, &over),
        || {
            serve_clients(rt, service, device, callers, &gathered);
            over.store(true, Ordering::SeqCst);
        },
    );
    Ok(gathered.into_inner())
}

// Gives each client a thread, until the session is over or the server has ended and no client is left, and waits for all of them.
fn serve_clients<R: Runtime, N: LogName + Send + Sync, D: Device<Name = N> + Sync>(
    rt: &R,
    service: &Service,
    device: &D,
    callers: &Callers<N>,
    gathered: &Mutex<Answered<N>>,
) {
    service.senders.begin_session();
    thread::scope(thread::scope_env(), rt, |scope| {
        for _ in 0..SENDERS {
            // Where one cannot be started, the clients' threads send all by themselves.
            let _ = scope.spawn(move || service.senders.work(rt, service));
        }
        for _ in rt.forever() {
            if service.has_session_ended() {
                break;
            }
            let Some(conversation) = service.conversations.next(rt) else {
                continue;
            };
            let started = scope.spawn(move || {
                serve_client(
                    rt,
                    service,
                    device,
                    callers.caller(),
                    conversation,
                    gathered,
                );
            });
            // A client without a thread is closed.
            if started.is_err() {
                service.leave();
            }
        }
    });
}

// Waits until both disks are alike and the link has nothing more to do, or there is no progress. Blocks that are not copied, as
// those of a write that failed while the link was up, are tried again over a new connection. If that does not help, as with a
// disk that keeps failing, they stay marked. Where no block is marked, the peer's disk may only be slow, and a new connection
// would not help it. A server that goes on has clients that wait meanwhile, so it gives this less time. Once a sync of the peer's
// image or a metadata file has failed the link stays down, and there is nothing to wait for.
fn wait_for_rest<R: Wait + Clock>(rt: &R, service: &Service, device: &impl Device) {
    let mut marks = u32::MAX;
    let mut applied = u32::MAX;
    let mut looks = 0u32;
    let mut in_all = 0u32;
    for _ in rt.forever() {
        // A closed link is quiet too, but a close marks blocks.
        let progress = device.progress();
        let left = progress.primary.marks;
        if (progress.is_quiet() && left == 0)
            || service.requests.is_peer_failed()
            || progress.is_metadata_broken()
        {
            break;
        }
        // `applied` starts at 0 with each connection, which is no progress yet.
        let done = progress.secondary.applied;
        if left < marks || done > applied {
            looks = 0;
        }
        marks = left;
        applied = done;
        looks = looks.saturating_add(1);
        in_all = in_all.saturating_add(1);
        if looks == LOOKS_TO_CUT && left > 0 {
            device.cut();
        }
        // The server may be told to end meanwhile.
        let has_waited = if service.is_over() {
            looks >= LOOKS_TO_LEAVE
        } else {
            looks >= LOOKS_TO_GO_ON || in_all >= MOST_LOOKS_TO_GO_ON
        };
        if has_waited {
            break;
        }
        thread::sleep(rt, Duration::from_millis(LOOK_MS));
    }
}
