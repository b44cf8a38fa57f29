//! A server, from its images to the lines that it prints.
ghost use Rattle.std.specs.Prelude.{◌≡◌, ◌||◌, false, nat_le, is_some, Err, IfOk, IfSome, OnOk};
ghost use Rattle.blocks.specs.SettingsRange.{standard};
ghost use Rattle.blocks.specs.declared.refusal.Refusal.TheVariants as refusal;
ghost use Rattle.blocks.specs.declared.refusal.Refusal.TheVariants.{BadSetting};
ghost use Rattle.program_values.specs.declared.status.SessionStatus.TheVariants as status;
ghost use Rattle.serve_clients.specs.declared.threads.StartFault.TheVariants.{NoMemory};
ghost use Rattle.served_images.specs.Ends.{AreInRange};
ghost use Rattle.serving.specs.Served.{CameTo, HasEnded, HasServed};
ghost use Rattle.served_images.specs.declared.fault.ServeFault.TheVariants.{Refused};

use crate::sessions::run_sessions;
use blocks::Refusal;
use disk_pair::{Disks, compare_at_end};
use file_store::{FileStore, OpeningContents};
use image_metadata::{ENTRIES_AT, MARKS_AT, OpeningBytes, WriteCounts};
use image_store::{ImageLock, PerDisk};
use program_values::{MetadataFiles, ServeOptions, SessionStatus};
use recorded_file::SharedFile;
use serve_clients::{
    CountedWrites, Listeners, MapFile, Service, Shown, StartFault, StartedAfter, start_threads,
};
use serve_requests::Requests;
use served_images::{
    Beginning, End, FreshNumbers, ServeFault, SessionEnd, begin, blocks_of, changed_images,
    check_size, close_metadata, fault_of_comparison, find_files, fresh_numbers, images_of,
    lock_both, open_both, torn_images,
};
use server_log::{Event, Style, tell};
use std::alloc::Global;
use std::env::Env;
use std::fs::File;
use std::io::{Read, Write};
use std::net::{Net, TcpListener, TcpStream};
use std::random::RandomSource;
use std::rt::Files;
use std::sync::Arc;
use volume::{Host, Runtime};

/// The first word of a server that keeps no metadata: no disk has it as an identifier at the start.
const FIRST_WORD: u64 = 2;

/// Serves both images to block clients until `input` has a line `quit`, and prints `completed X`, `settled X` and
/// `unmarked 0`, X being the number of ranges that clients wrote; `unmarked not compared` if the images have more than 262,144
/// blocks and no comparison was asked for. Locks both images meanwhile. The end of `input` is no order
/// to end. Meanwhile the log goes to `err`, with what `style` says before each line. Returns how it ended:
///
/// - `Done`: no block is marked, no comparison found a difference, and both images are on stable storage. `X` names what the
///   images at these two paths held when they were opened: what it says of both disks holds if each file gave what was last written to
///   it, or what it held then.
/// - `Failed`, with a line on `err` that says why: a file, a sync, an address, the output, memory or a thread failed, an image
///   is in use, was changed by others, may have kept parts of a write that failed or could not be read for the comparison, the
///   disks differ without a mark, or blocks are still marked.
/// - `Refused`, with a line on `err`: any other refusal. A size that no device has (15) is refused before anything else.
pub fn serve<
    X: OpeningContents + Send + 'static,
    M: OpeningBytes + Send + 'static,
    N: OpeningBytes + Send + 'static,
    H: Host
        + Files<File = File>
        + Net<Listener = TcpListener, Stream = TcpStream>
        + RandomSource
        + Env,
    I: Read + Drop + Send + 'static,
    W: Write,
    E: Write + Send,
>(
    rt: &H,
    options: &ServeOptions<'_>,
    style: Style,
    input: I,
    out: &mut W,
    err: &mut E,
) -> SessionStatus
    ensures done { result ≡ status.Done → HasServed options.now X.OpeningContents.held (W.contents out.old) (W.contents out.new) }
    ensures refused { (AreInRange options.now → ⊥) → result ≡ status.Refused }
{
    match serve_images::<X, M, N, H, I, W, E>(rt, options, style, input, out, err) {
        Ok(()) => SessionStatus::Done,
        Err(fault) => {
            let _ = writeln!(err, "{}{fault}", style.before_fault());
            fault.status()
        }
    }
}

// Serves both images if the options ask for no size, or for one that a device has.
fn serve_images<
    'a,
    X: OpeningContents + Send + 'static,
    M: OpeningBytes + Send + 'static,
    N: OpeningBytes + Send + 'static,
    H: Host
        + Files<File = File>
        + Net<Listener = TcpListener, Stream = TcpStream>
        + RandomSource
        + Env,
    I: Read + Drop + Send + 'static,
    W: Write,
    E: Write + Send,
>(
    rt: &H,
    options: &ServeOptions<'a>,
    style: Style,
    input: I,
    out: &mut W,
    err: &mut E,
) -> Result<(), ServeFault<'a>>
    ensures done { OnOk result (HasServed options.now X.OpeningContents.held (W.contents out.old) (W.contents out.new)) }
    ensures refused { (AreInRange options.now → ⊥) → result ≡ Err (Refused BadSetting) }
{
    match check_size(options) {
        Ok(()) => serve_sized::<X, M, N, H, I, W, E>(rt, options, style, input, out, err),
        Err(refusal) => Err(ServeFault::Refused(refusal)),
    }
}

// Serves both images under their locks, and prints what came of it.
fn serve_sized<
    'a,
    X: OpeningContents + Send + 'static,
    M: OpeningBytes + Send + 'static,
    N: OpeningBytes + Send + 'static,
    H: Host
        + Files<File = File>
        + Net<Listener = TcpListener, Stream = TcpStream>
        + RandomSource
        + Env,
    I: Read + Drop + Send + 'static,
    W: Write,
    E: Write + Send,
>(
    rt: &H,
    options: &ServeOptions<'a>,
    style: Style,
    input: I,
    out: &mut W,
    err: &mut E,
) -> Result<(), ServeFault<'a>>
    requires { AreInRange options.now }
    ensures { OnOk result (HasServed options.now X.OpeningContents.held (W.contents out.old) (W.contents out.new)) }
{
    let locks = lock_both(rt, options)?;
    let served = serve_locked::<X, M, N, H, I, E>(rt, options, style, &locks, input, err);
    drop(locks);
    served?.print(out, err)
}

// Serves both images at all addresses. Returns how this ended. The files of its Unix sockets are removed at the end.
fn serve_locked<
    'a,
    X: OpeningContents + Send + 'static,
    M: OpeningBytes + Send + 'static,
    N: OpeningBytes + Send + 'static,
    H: Host
        + Files<File = File>
        + Net<Listener = TcpListener, Stream = TcpStream>
        + RandomSource
        + Env,
    I: Read + Drop + Send + 'static,
    E: Write + Send,
>(
    rt: &H,
    options: &ServeOptions<'a>,
    style: Style,
    locks: &PerDisk<ImageLock>,
    input: I,
    err: &mut E,
) -> Result<End<'a>, ServeFault<'a>>
    requires { AreInRange options.now }
    ensures { IfOk result (HasEnded options.now X.OpeningContents.held) }
{
    let blocks = blocks_of(options, &locks.local)?;
    let (listeners, files) = Listeners::open(
        rt,
        options.listen.as_slice(),
        options.pages.as_slice(),
        options.name,
    )?;
    let served = serve_listening::<X, M, N, H, I, E>(
        rt, options, style, blocks, locks, listeners, input, err,
    );
    files.remove(rt);
    served
}

// Serves both images, of `blocks` blocks, to the clients of these listeners. Returns how this ended.
fn serve_listening<
    'a,
    X: OpeningContents + Send + 'static,
    M: OpeningBytes + Send + 'static,
    N: OpeningBytes + Send + 'static,
    H: Host + Files<File = File> + Net<Listener = TcpListener, Stream = TcpStream> + RandomSource,
    I: Read + Drop + Send + 'static,
    E: Write + Send,
>(
    rt: &H,
    options: &ServeOptions<'a>,
    style: Style,
    blocks: u32,
    locks: &PerDisk<ImageLock>,
    listeners: Listeners,
    input: I,
    err: &mut E,
) -> Result<End<'a>, ServeFault<'a>>
    requires range { AreInRange options.now }
    requires asked { IfSome options.now.blocks (λ asked. blocks ≡ asked) }
    ensures { IfOk result (HasEnded options.now X.OpeningContents.held) }
{
    match open_both::<H, X>(rt, options, blocks) {
        Ok((disks, syncs)) => {
            let numbers = fresh_numbers(rt)?;
            let first_word = first_word_of(options, &numbers);
            let counts = write_counts(rt.alloc())?;
            let files = find_files::<M, N, H>(rt, options, locks, blocks, &counts)?;
            let beginning = begin(rt.alloc(), options, blocks, files, numbers, err)?;
            let after = beginning.after();
            match start_service(
                rt, options, style, blocks, first_word, after, counts, syncs, listeners, input, err,
            ) {
                Ok(service) => serve_sessions(
                    rt, &service, options, beginning, numbers, disks, locks, err,
                ),
                Err(fault) => Err(fault),
            }
        }
        Err(fault) => Err(fault),
    }
}

// Returns the first word of the server's connections: a random one where identifiers outlast the server.
fn first_word_of(options: &ServeOptions<'_>, numbers: &FreshNumbers) -> u64 {
    match options.metadata {
        MetadataFiles::Unkept => FIRST_WORD,
        MetadataFiles::Kept { .. } => numbers.first_word,
    }
}

// Starts the threads of a server of `blocks` blocks, and prints its addresses.
fn start_service<
    'a,
    H: Host + Files<File = File> + Net<Listener = TcpListener, Stream = TcpStream> + RandomSource,
    I: Read + Drop + Send + 'static,
    E: Write + Send,
>(
    rt: &H,
    options: &ServeOptions<'a>,
    style: Style,
    blocks: u32,
    first_word: u64,
    after: StartedAfter,
    counts: PerDisk<WriteCounts>,
    syncs: PerDisk<SharedFile<File>>,
    listeners: Listeners,
    input: I,
    err: &mut E,
) -> Result<Arc<Service, Global>, ServeFault<'a>>
    ensures { IfOk result (λ service. (service.value.protocol ≡ options.now.protocol) × (service.value.blocks ≡ blocks)) }
{
    let requests = Requests::new(rt.alloc(), options.protocol, syncs);
    let shown = shown_of(rt, options, counts)?;
    let service = shared(Service::new(
        rt.alloc(),
        blocks,
        options.protocol,
        requests,
        first_word,
        after,
        style,
        shown,
    )?)?;
    let Ok(lines) = listeners.lines(rt.alloc(), blocks) else {
        return Err(ServeFault::Refused(Refusal::NoMemory));
    };
    match start_threads(rt, &service, listeners, input) {
        Ok(()) => {
            let _ = err.write_all(lines.as_bytes());
            Ok(service)
        }
        Err(fault) => Err(fault_of_start(fault)),
    }
}

// Returns what the page of a server shows beside the reports; these count the writes to its metadata.
fn shown_of<'a, H: Files<File = File> + AllocGlobal>(
    rt: &H,
    options: &ServeOptions<'a>,
    counts: PerDisk<WriteCounts>,
) -> Result<Shown, ServeFault<'a>> {
    Ok(Shown {
        name: name_of(rt.alloc(), options)?,
        local_metadata: counted(counts.local),
        peer_metadata: counted(counts.peer),
        map: map_file(rt, options)?,
    })
}

// Returns the name that the options give a server.
fn name_of<'a>(
    alloc: Global,
    options: &ServeOptions<'a>,
) -> Result<Option<String>, ServeFault<'a>> {
    let Some(server) = options.name else {
        return Ok(None);
    };
    match String::from_str(alloc, server.name) {
        Ok(name) => Ok(Some(name)),
        Err(_) => Err(ServeFault::Refused(Refusal::NoMemory)),
    }
}

// Returns where the map of the device is read: in the metadata file of the local image.
fn map_file<'a, H: Files<File = File> + AllocGlobal>(
    rt: &H,
    options: &ServeOptions<'a>,
) -> Result<Option<MapFile>, ServeFault<'a>> {
    let MetadataFiles::Kept { local, .. } = options.metadata else {
        return Ok(None);
    };
    let path = match local {
        Some(path) => String::from_str(rt.alloc(), path),
        None => format!(in rt.alloc(); "{}.metadata", options.local),
    };
    match path {
        Ok(path) => Ok(Some(MapFile {
            file: File::open(rt, path.as_str()).ok(),
            entries_at: ENTRIES_AT,
            marks_at: MARKS_AT,
        })),
        Err(_) => Err(ServeFault::Refused(Refusal::NoMemory)),
    }
}

// Returns the counts of the writes of both metadata files.
fn write_counts<'a>(alloc: Global) -> Result<PerDisk<WriteCounts>, ServeFault<'a>> {
    match (WriteCounts::new(alloc), WriteCounts::new(alloc)) {
        (Ok(local), Ok(peer)) => Ok(PerDisk { local, peer }),
        _ => Err(ServeFault::Refused(Refusal::NoMemory)),
    }
}

// Returns the counts of a metadata file for the status page.
fn counted(counts: WriteCounts) -> CountedWrites {
    CountedWrites {
        activity_log: counts.activity_log,
        bitmap: counts.bitmap,
    }
}

// Runs the sessions of a server until it ends, puts both images on stable storage, and compares them where that is asked for or
// takes little time.
fn serve_sessions<
    'a,
    H: Runtime + Files<File = File>,
    X: OpeningContents + Send + 'static,
    M: OpeningBytes + Send + 'static,
    N: OpeningBytes + Send + 'static,
    E: Write + Send,
>(
    rt: &H,
    service: &Service,
    options: &ServeOptions<'a>,
    beginning: Beginning<M, N>,
    numbers: FreshNumbers,
    disks: Disks<FileStore<File, X>>,
    locks: &PerDisk<ImageLock>,
    err: &mut E,
) -> Result<End<'a>, ServeFault<'a>>
    ensures came { IfOk result (CameTo (record standard { protocol = service.now.protocol; blocks = service.now.blocks }) options.now.first disks) }
    ensures compares { IfOk result (λ end. end.found.is_unread ≡ false → is_some end.found.unmarked ≡ (options.now.compare || nat_le service.now.blocks 262144)) }
{
    let ran = run_sessions(
        *rt,
        service,
        options.cut_every,
        options.first,
        beginning,
        numbers,
        disks,
        err,
    );
    let unsynced = service.requests.sync_images(rt);
    let last = match ran {
        Ok(last) => last,
        Err(refusal) => return Err(fault_of_comparison(refusal)),
    };
    let SessionEnd {
        disks,
        parts,
        totals,
        metadata,
    } = last;
    let mut disks = disks;
    let found = compare_at_end(
        options.compare,
        &mut disks,
        &parts.marks,
        service.blocks,
        err,
    );
    let changed = changed_images(rt, locks, options, service.blocks);
    let torn = torn_images(&disks);
    let is_whole = !changed.local
        && !changed.peer
        && !torn.local
        && !torn.peer
        && unsynced.local.is_none()
        && unsynced.peer.is_none();
    let is_metadata_broken = !close_metadata(metadata, &parts.marks, locks, is_whole);
    let _ = tell(rt, service.alloc, service.style, err, Event::Stopped);
    Ok(End {
        style: service.style,
        totals,
        found,
        files: images_of(options),
        changed,
        torn,
        unsynced,
        is_metadata_broken,
    })
}

// Moves what all threads share to memory of its own.
fn shared(service: Service) -> Result<Arc<Service, Global>, Refusal>
    ensures { IfOk result (λ shared. shared.value ≡ service) }
{
    match Arc::new(service.alloc, service) {
        Ok(service) => Ok(service),
        Err(_) => Err(Refusal::NoMemory),
    }
}

// Returns why a server failed whose threads could not be started.
fn fault_of_start<'a>(fault: StartFault) -> ServeFault<'a>
    ensures memory { fault ≡ NoMemory → result ≡ Refused refusal.NoMemory }
{
    match fault {
        StartFault::NoMemory => ServeFault::Refused(Refusal::NoMemory),
        StartFault::NoKeys(error) => ServeFault::NoRandomBytes(error),
        StartFault::Unthreaded => ServeFault::Unthreaded,
    }
}
