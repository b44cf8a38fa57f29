//! Tests of what a FLUSH and a request with FUA wait for, over a device whose writes are released late.
ghost use Rattle.std.specs.Prelude.{◌≡◌, ◌+◌, ◌≤◌, length, vec_len, IfErr, IfOk};
ghost use Rattle.blocks.specs.declared.refusal.Refusal.TheVariants.{NoMemory};
ghost use Rattle.device_parts.specs.Places.{laid_over};

use crate::page::resync_progress;
use blocks::{BLOCK_BYTES, ConnectionWords, MemStore, Protocol, Refusal, Settings, Tuple};
use bytes::Bytes;
use ghost_log::{Blank, LogName};
use image_store::{PerDisk, open_image};
use link::{PlainIn, PlainOut};
use nbd::{Connection, Export, NbdCommand, Request, RequestHeader};
use primary::{Primary, Receipt};
use serve_requests::Requests;
use serving::AnyContents;
use session_api::{Begun, Device, PrimaryProgress, Progress};
use std::alloc::Global;
use std::fs::{self, File, Files, OpenFile};
use std::marker::Brand;
use std::process::Abort;
use std::sync::atomic::{AtomicU64, Ordering};
use std::sync::{Mutex, Wait};
use std::time::Clock;
use told::{Caller, Callers, ToldLog, open_log};

/// How many writes a device has accepted before it is asked for the first time.
const ACCEPTED: u64 = 3;

/// The question from which on a device says that these are released.
const RELEASED_AT: u64 = 4;

/// Further questions after which it says that another write is released.
const QUESTIONS_A_WRITE: u64 = 2;

/// The most writes that a device takes.
const WRITES: u32 = 8;

/// A client's flags: fixed newstyle and no zeros.
const FLAGS: [u8; 4] = [0, 0, 0, 3];

/// EXPORT_NAME for the default export.
const EXPORT_NAME: [u8; 16] = [
    0x49, 0x48, 0x41, 0x56, 0x45, 0x4F, 0x50, 0x54, 0, 0, 0, 1, 0, 0, 0, 0,
];

/// A device whose writes are released late: the first `ACCEPTED` when it is asked for the `released_at`th time, and another one
/// after each two questions more. When it is asked for the first time `ACCEPTED` are accepted, and another one right after it. Its
/// blocks are zeros. It takes writes of its first block, which end in their order, and counts none of them as accepted.
#[derive(Drop)]
pub(crate) struct LateDevice<R, J: LogName> {
    rt: R,
    alloc: Global,
    // All that its callers were told.
    log: Mutex<ToldLog<J>>,
    released_at: AtomicU64,
    questions: AtomicU64,
    // Writes that were begun.
    begun: AtomicU64,
    // The receipts of its writes, the last write's first.
    receipts: Mutex<Vec<Receipt>>,
}

// Makes the receipts of `WRITES` writes of block 0, the last write's first: those of a primary that has lost its peer.
fn receipts_of_writes(rt: &impl Abort, alloc: Global) -> Vec<Receipt> {
    let zeros = MemStore::zeroed(alloc, Settings::STANDARD.blocks).expect(rt, "memory");
    let marks = Vec::from_elem(alloc, false, 8).expect(rt, "memory");
    let mut primary = Primary::<PlainOut, PlainIn, MemStore>::new(
        alloc,
        Settings::STANDARD,
        zeros,
        Tuple::new(2, 1, 0, 0),
        marks,
    )
    .expect(rt, "a primary");
    let block = Bytes::copy_from_slice(alloc, &[0; BLOCK_BYTES]).expect(rt, "memory");
    let mut receipts = Vec::new(alloc);
    for _ in 0..WRITES {
        let (number, _) = primary.submit(0, &block).expect(rt, "a write");
        primary.local(number).expect(rt, "a write of the disk");
        let receipt = primary.take_completed(number).expect(rt, "a receipt");
        receipts.push(receipt).expect(rt, "memory");
    }
    receipts.reverse();
    receipts
}

// Lays bytes over a block, from its byte `from` on. `NoMemory` (7) if there is no memory for the count of its owners.
fn lay_over(block: Vec<u8>, from: usize, bytes: &Bytes) -> Result<Bytes, Refusal>
    requires { from + length bytes.now ≤ vec_len block }
    ensures laid { IfOk result (λ contents. contents ≡ laid_over from bytes.now block.items) }
    ensures length { IfOk result (λ contents. length contents ≡ vec_len block) }
    ensures refused { IfErr result (λ e. e ≡ NoMemory) }
{
    let mut block = block;
    block[from..from + bytes.len()].copy_from_slice(bytes.as_slice());
    Ok(Bytes::from_vec(block)?)
}

impl<R: Abort + Wait + Copy + AllocGlobal, J: LogName> LateDevice<R, J> {
    /// Creates a device whose callers are told what goes into this log, which has the name `J`. Returns it with the right to make callers.
    pub(crate) fn new(rt: R, released_at: u64, blank: Blank) -> (LateDevice<R, J>, Callers<J>)
        requires { blank.name ≡ J.name }
    {
        let alloc = rt.alloc();
        let (log, callers) = open_log::<J>(blank);
        let device = LateDevice {
            rt,
            alloc,
            log: Mutex::new(log),
            released_at: AtomicU64::new(released_at),
            questions: AtomicU64::new(0),
            begun: AtomicU64::new(0),
            receipts: Mutex::new(receipts_of_writes(&rt, alloc)),
        };
        (device, callers)
    }
}

impl<R, J: LogName> LateDevice<R, J> {
    /// Releases its writes from now on.
    pub(crate) fn release(&self) {
        self.released_at.store(0, Ordering::SeqCst);
    }

    // Returns how often it was asked.
    fn asked(&self) -> u64 {
        self.questions.load(Ordering::SeqCst)
    }

    // Answers a question: how many writes are accepted, and up to which one they are released.
    fn look(&self) -> (u64, u64) {
        let before = self.questions.fetch_add(1, Ordering::SeqCst);
        let question = before.saturating_add(1);
        let accepted = ACCEPTED + before.min(1);
        let released = match self.released_at.load(Ordering::SeqCst) {
            0 => u64::MAX,
            at if question < at => 0,
            at => ACCEPTED + question.saturating_sub(at) / QUESTIONS_A_WRITE,
        };
        (accepted, released)
    }
}

impl<R: Wait, J: LogName> Device for LateDevice<R, J> {
    type Name = J;

    // It has no nodes.
    ghost primary_shows = { λ progress. Unit {0} };

    ghost secondary_shows = { λ progress. Unit {0} };

    fn write(&self, _me: &mut Caller<J>, _first: u64, _bytes: &Bytes) -> Result<Receipt, Refusal> {
        Err(Refusal::NotConnected)
    }

    fn begin(&self, me: &mut Caller<J>, first: u64, bytes: Bytes) -> Result<Begun, Refusal> {
        if bytes.len() % BLOCK_BYTES != 0 {
            return Err(Refusal::BadRange);
        }
        let before = self.begun.fetch_add(1, Ordering::SeqCst);
        let number = before.saturating_add(1);
        me.accepted(&mut self.log.lock(&self.rt), &(number, first), &bytes);
        Ok(Begun::new(number, first, bytes))
    }

    fn begin_within(
        &self,
        me: &mut Caller<J>,
        block: u64,
        from: u32,
        bytes: &Bytes,
    ) -> Result<Begun, Refusal> {
        let zeros = Vec::from_elem(self.alloc, 0u8, BLOCK_BYTES)?;
        let contents = lay_over(zeros, from as usize, bytes)?;
        let before = self.begun.fetch_add(1, Ordering::SeqCst);
        let number = before.saturating_add(1);
        me.patched(&mut self.log.lock(&self.rt), &(number, block, from), bytes);
        Ok(Begun::new(number, block, contents))
    }

    fn complete(&self, me: &mut Caller<J>, begun: Begun) -> Result<Receipt, Refusal> {
        let Some(receipt) = self.receipts.lock(&self.rt).pop() else {
            return Err(Refusal::UnknownJob);
        };
        if receipt.number() != begun.number() {
            return Err(Refusal::UnknownJob);
        }
        let ended = begun.end(receipt)?;
        me.given(&mut self.log.lock(&self.rt), &ended);
        Ok(ended)
    }

    fn read(&self, me: &mut Caller<J>, first: u64, count: u64) -> Result<Vec<u8>, Refusal> {
        let Some(length) = (count as usize).checked_mul(BLOCK_BYTES) else {
            return Err(Refusal::NoMemory);
        };
        match Vec::from_elem(self.alloc, 0u8, length) {
            Ok(zeros) => {
                me.held(&mut self.log.lock(&self.rt), &(first, count), &zeros);
                Ok(zeros)
            }
            Err(_) => Err(Refusal::NoMemory),
        }
    }

    fn cut(&self) {}

    fn reconnect(&self, _words: ConnectionWords) -> Result<u32, Refusal> {
        Err(Refusal::NotConnected)
    }

    fn progress(&self) -> Progress {
        Progress {
            primary: self.primary_progress(),
            secondary: resync_progress().secondary,
        }
    }

    fn primary_progress(&self) -> PrimaryProgress {
        let (accepted, released) = self.look();
        PrimaryProgress {
            accepted,
            released,
            ..resync_progress().primary
        }
    }

    fn prepare_leaving(&self, _most: u64) -> u64 {
        0
    }

    fn leave_prepared(&self) -> u64 {
        0
    }
}

/// Creates requests under this protocol, which sync a file. The file is made by this name, and then removed.
pub(crate) fn requests_under(
    rt: &(impl Abort + Files<File = File> + AllocGlobal),
    protocol: Protocol,
    image: &str,
) -> Requests {
    fs::write(rt, image, &[0; 4096]).expect(rt, "a file");
    let (_, local) = open_image::<_, AnyContents>(rt, image, 1).expect(rt, "an image");
    let (_, peer) = open_image::<_, AnyContents>(rt, image, 1).expect(rt, "an image");
    fs::remove_file(rt, image).expect(rt, "a file");
    Requests::new(rt.alloc(), protocol, PerDisk { local, peer })
}

// Makes the request of a client, over a connection of its own. If the command has a range, it is block 0.
fn request(rt: &(impl Abort + AllocGlobal), command: NbdCommand, fua: bool) -> Request {
    let alloc = rt.alloc();
    let mut connection = Connection::new(alloc, Export::new(String::new(alloc), 8), 1);
    let header = RequestHeader {
        flags: u16::from(fua),
        kind: command.number(),
        cookie: 1,
        offset: 0,
        length: if command == NbdCommand::Flush {
            0
        } else {
            4096
        },
    };
    connection.feed(&FLAGS).expect(rt, "memory");
    connection.feed(&EXPORT_NAME).expect(rt, "memory");
    let out = connection
        .feed(header.encode().as_slice())
        .expect(rt, "memory");
    let (_, requests) = out.into_parts();
    let mut requests = requests;
    requests.pop().expect(rt, "a request")
}

// Begins a request `count` times over a device, ends one after another, and then finishes one after another.
fn finish_together<R: Abort + Wait + Clock + AllocGlobal, J: LogName>(
    rt: &R,
    requests: &Requests,
    device: &LateDevice<R, J>,
    me: &mut Caller<J>,
    (command, fua): (NbdCommand, bool),
    count: u32,
) {
    let mut begun = Vec::new(rt.alloc());
    for _ in 0..count {
        let under_way = requests.begin(device, me, request(rt, command, fua));
        begun.push(under_way).expect(rt, "memory");
    }
    let mut receipts = Vec::new(rt.alloc());
    let mut unsynced = Vec::new(rt.alloc());
    for under_way in begun {
        let ended = requests.end(device, me, under_way, &mut receipts);
        unsynced.push(ended).expect(rt, "memory");
    }
    for ended in unsynced {
        let answer = requests.finish(rt, device, ended);
        assert!(rt; answer.error().is_none());
    }
}

// Ends a request over a late device under this protocol. Returns what the device was asked.
fn asked_for<R: Abort + Wait + Clock + Copy + Files<File = File> + AllocGlobal>(
    rt: &R,
    protocol: Protocol,
    command: NbdCommand,
    fua: bool,
) -> u64 {
    asked_for_under::<Brand, R>(rt, protocol, command, fua, Blank::new())
}

// Does so over a device whose log has this name.
fn asked_for_under<J: LogName, R: Abort + Wait + Clock + Copy + Files<File = File> + AllocGlobal>(
    rt: &R,
    protocol: Protocol,
    command: NbdCommand,
    fua: bool,
    blank: Blank,
) -> u64
    requires { blank.name ≡ J.name }
{
    let (device, callers) = LateDevice::<R, J>::new(*rt, RELEASED_AT, blank);
    let requests = requests_under(rt, protocol, "flushed_late");
    finish_together(
        rt,
        &requests,
        &device,
        &mut callers.caller(),
        (command, fua),
        1,
    );
    device.asked()
}

// A FLUSH under A or B asks until the writes that were accepted before it are released, and for no later one.
#[test]
fn a_flush_waits_for_the_writes_before_it(rt: HostRuntime) {
    for protocol in [Protocol::A, Protocol::B] {
        let asked = asked_for(&rt, protocol, NbdCommand::Flush, false);
        assert_eq!(rt; asked, RELEASED_AT);
    }
}

// So does a WRITE_ZEROES or a TRIM with FUA; without, it waits for nothing, and so does a READ with FUA, which writes nothing.
#[test]
fn a_request_with_fua_waits_for_the_writes_before_it(rt: HostRuntime) {
    for command in [NbdCommand::WriteZeroes, NbdCommand::Trim] {
        let asked = asked_for(&rt, Protocol::A, command, true);
        assert_eq!(rt; asked, RELEASED_AT);
    }
    let asked = asked_for(&rt, Protocol::A, NbdCommand::WriteZeroes, false);
    assert_eq!(rt; asked, 0);
    let asked = asked_for(&rt, Protocol::A, NbdCommand::Read, true);
    assert_eq!(rt; asked, 0);
}

// Under C the peer's disk has each write that is completed, so a FLUSH asks for none.
#[test]
fn a_flush_under_c_waits_for_no_write(rt: HostRuntime) {
    let asked = asked_for(&rt, Protocol::C, NbdCommand::Flush, false);
    assert_eq!(rt; asked, 0);
}

// FLUSHes that begin before the first of them ends share its round, so the device is asked as for one. A later FLUSH
// waits for the write that was accepted meanwhile, and asks until that is released.
#[test]
fn flushes_share_a_round(rt: HostRuntime) {
    for protocol in [Protocol::A, Protocol::B] {
        round_is_shared::<Brand, HostRuntime>(
            &rt,
            protocol,
            (NbdCommand::Flush, false),
            Blank::new(),
        );
    }
}

// Requests with FUA that have ended before the first of them is finished share its round. One that ends later takes no earlier
// round, since its writes are completed only as it ends: it waits for the write that was accepted meanwhile.
#[test]
fn requests_with_fua_share_a_round(rt: HostRuntime) {
    let zeroes = (NbdCommand::WriteZeroes, true);
    round_is_shared::<Brand, HostRuntime>(&rt, Protocol::A, zeroes, Blank::new());
}

// Does three such requests together, which share a round, and then another, over a device whose log has this name.
fn round_is_shared<J: LogName, R: Abort + Wait + Clock + Copy + Files<File = File> + AllocGlobal>(
    rt: &R,
    protocol: Protocol,
    what: (NbdCommand, bool),
    blank: Blank,
)
    requires { blank.name ≡ J.name }
{
    let (device, callers) = LateDevice::<R, J>::new(*rt, RELEASED_AT, blank);
    let mut me = callers.caller();
    let requests = requests_under(rt, protocol, "flushed_late");
    finish_together(rt, &requests, &device, &mut me, what, 3);
    assert_eq!(rt; device.asked(), RELEASED_AT);
    finish_together(rt, &requests, &device, &mut me, what, 1);
    assert_eq!(rt; device.asked(), RELEASED_AT + QUESTIONS_A_WRITE);
}

// A request that begins before a round and ends after it takes a later one.
#[test]
fn a_request_with_fua_takes_no_earlier_round(rt: HostRuntime) {
    later_round_is_taken::<Brand, HostRuntime>(&rt, Blank::new());
}

// Begins such a request, has a round, and ends the request, over a device whose log has this name.
fn later_round_is_taken<
    J: LogName,
    R: Abort + Wait + Clock + Copy + Files<File = File> + AllocGlobal,
>(rt: &R, blank: Blank)
    requires { blank.name ≡ J.name }
{
    let (device, callers) = LateDevice::<R, J>::new(*rt, RELEASED_AT, blank);
    let mut me = callers.caller();
    let requests = requests_under(rt, Protocol::A, "flushed_late");
    let zeroes = request(rt, NbdCommand::WriteZeroes, true);
    let under_way = requests.begin(&device, &mut me, zeroes);
    finish_together(
        rt,
        &requests,
        &device,
        &mut me,
        (NbdCommand::Flush, false),
        1,
    );
    assert_eq!(rt; device.asked(), RELEASED_AT);
    let mut receipts = Vec::new(rt.alloc());
    let ended = requests.end(&device, &mut me, under_way, &mut receipts);
    let answer = requests.finish(rt, &device, ended);
    assert!(rt; answer.error().is_none());
    assert_eq!(rt; device.asked(), RELEASED_AT + QUESTIONS_A_WRITE);
}
