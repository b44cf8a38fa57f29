//! Requests over a device.
ghost use Rattle.std.specs.Prelude.{◌≡◌, ◌⊎◌, All, List, ◌++◌, [], true, false, None, length, map, is_ok, IfErr, IfOk, IfSome};
ghost use mathlib.Core.List.{IsPrefix};
ghost use Rattle.model.specs.Settlement.{Receipt as Denoted};
ghost use Rattle.nbd.specs.Spans.{places};
ghost use Rattle.nbd.specs.declared.command.NbdCommand.TheVariants as command;
ghost use Rattle.nbd.specs.declared.errno.Errno.{Errno};
ghost use Rattle.nbd.specs.declared.errno.Errno.TheVariants.{InputOutput, Invalid};
ghost use Rattle.session_api.specs.Begun.{BegunState};
ghost use Rattle.serve_requests.specs.Ended.{asks_for_sync};
ghost use Rattle.serve_requests.specs.Places.{AreOwn, IsBegunFor, IsFrontBy};
ghost use Rattle.serve_requests.specs.Receipts.{Begins, HasBegun, HasMore, IsFrontOf, IsSame, job_of, receipt_job};
ghost use Rattle.serve_requests.specs.Stored.{IsLater, SuitsRequest};
ghost use Rattle.serve_requests.specs.Told.{IsReadTold, IsStatusTold, failure_spelling, is_without_data, success_spelling};
ghost use Rattle.told.specs.Log.{SaysGiven, SaysHeldSince, WasTold};

use crate::answer::Answer;
use crate::complete::complete_all;
use crate::done::Done;
use crate::ended::Ended;
use crate::last_round::LastRound;
use crate::perform::{begin_pieces, read};
use crate::release::wait_for_release;
use crate::reply_bytes::ReplyBytes;
use crate::stable_storage::StableStorage;
use crate::stored::Stored;
use crate::syncs::asks_for_sync;
use crate::under_way::RequestUnderWay;
use blocks::Protocol;
use image_store::PerDisk;
use nbd::{Errno, NbdCommand, Request};
use primary::Receipt;
use recorded_file::SharedFile;
use session_api::{Begun, Device};
use std::alloc::Global;
use std::fs::File;
use std::io;
use std::sync::Wait;
use std::sync::atomic::{AtomicU64, Ordering};
use std::time::Clock;
use told::Caller;

/// Does the requests of block clients over one session after another, by any number of threads at a time.
#[derive(Drop)]
pub struct Requests {
    pub(crate) alloc: Global,
    protocol: Protocol,
    storage: StableStorage,
    writes: AtomicU64,
}

impl Requests {
    /// Creates the requests over sessions under `protocol`, of two images, by the handles that sync them.
    pub fn new(alloc: Global, protocol: Protocol, images: PerDisk<SharedFile<File>>) -> Requests {
        Requests {
            alloc,
            protocol,
            storage: StableStorage::new(images),
            writes: AtomicU64::new(0),
        }
    }

    /// Returns how many writes the present session was asked for: one for each piece of what a request writes.
    pub fn writes(&self) -> u64 {
        self.writes.load(Ordering::SeqCst)
    }

    /// Restarts the count of writes, for the next session.
    pub fn forget_writes(&self) {
        self.writes.store(0, Ordering::SeqCst);
    }

    /// Counts a write.
    pub(crate) fn count_write(&self) {
        self.writes.fetch_add(1, Ordering::SeqCst);
    }

    /// Begins a request: the writes of a WRITE, TRIM or WRITE_ZEROES, and nothing for any other command. Whole blocks are written as
    /// they are; bytes at an end that are not of a whole block are laid over what that has. A caller with many requests begins them
    /// all, and then ends one after another. What was begun is a front of what the request writes, whether or not it is refused then,
    /// and the caller is told that each of these writes is accepted.
    pub fn begin<D: Device>(
        &self,
        device: &D,
        me: &mut Caller<D::Name>,
        request: Request,
    ) -> RequestUnderWay
        ensures request { IsSame request result.request }
        ensures begun { IsFrontOf request result.begun }
        // Each was accepted with its place's bytes, and the rest of the first and of the last block is what it had then.
        ensures accepted { IsFrontBy (IsBegunFor (WasTold me.new.log)) (places request) result.begun }
        ensures goes_on { IsPrefix me.old.log me.new.log }
        // The caller has written nothing else.
        ensures mine { me.new.own ≡ me.old.own ++ map (λ (b : BegunState). b.number) result.begun }
    {
        let before = self.storage.last_round_after(Done::nothing());
        let mut request = request;
        let mut begun = Vec::new(self.alloc);
        let begins = self.begin_writes(device, me, &mut request, &mut begun);
        RequestUnderWay {
            request,
            begun,
            begins,
            before,
        }
    }

    /// Waits until the reads and writes of a request are done: those of a WRITE, TRIM or WRITE_ZEROES once each of its pieces has its
    /// receipt, which is appended to the earlier ones, and those of a READ once it has its bytes. The caller is told each of these
    /// receipts, and what the local disk held where it was read. It does not sync. A caller with many requests that ask for stable
    /// storage ends them all, and then finishes one after another: they share a sync.
    ///
    /// It fails with `Invalid` (EINVAL) for a range that the device refuses and for DISC, which has no reply; `NoMemory`
    /// (ENOMEM) if there is no memory; `InputOutput` (EIO) if a disk or a file failed, or the session has no room left. Then
    /// some of the pieces may be written, and have their receipts.
    pub fn end<D: Device>(
        &self,
        device: &D,
        me: &mut Caller<D::Name>,
        under_way: RequestUnderWay,
        receipts: &mut Vec<Receipt>,
    ) -> Ended
        ensures request { result.request ≡ under_way.request }
        ensures begun { result.is_done ≡ true → HasBegun under_way.request under_way.begun }
        ensures receipts { result.is_done ≡ true → HasMore receipt_job (map job_of under_way.begun) receipts.old.items receipts.new.items }
        ensures kept { (more : List Denoted) × (receipts.new.items ≡ receipts.old.items ++ more) × All (SaysGiven me.new.log) more }
        ensures goes_on { IsPrefix me.old.log me.new.log }
        ensures mine { me.new.own ≡ me.old.own }
        ensures read { under_way.request.command ≡ command.Read → result.is_done ≡ true
            → IsReadTold (SaysHeldSince me.old.log me.new.log) under_way.request result.spelled }
        ensures status { under_way.request.command ≡ command.BlockStatus → result.is_done ≡ true
            → IsStatusTold under_way.request result.spelled }
        ensures simple { is_without_data under_way.request.command ≡ true → result.is_done ≡ true
            → result.spelled ≡ success_spelling under_way.request }
        // Its round was read once each of its writes was complete.
        ensures round { result.is_done ≡ true → result.writes ≡ length under_way.begun }
        ensures flush { under_way.request.command ≡ command.Flush → result.is_done ≡ true }
        ensures disconnect { under_way.request.command ≡ command.Disconnect → result.error ≡ Some Invalid }
    {
        let RequestUnderWay {
            request,
            begun,
            begins,
            before,
        } = under_way;
        let completed = complete_all(device, me, begun, receipts);
        match (begins, completed) {
            (Ok(()), Ok(done)) => {
                let result = self.spelled(device, me, &request);
                let last = self.last_round(&request, before, done);
                Ended {
                    request,
                    result,
                    last,
                }
            }
            (Err(errno), _) | (_, Err(errno)) => Ended {
                request,
                result: Err(errno),
                last: before,
            },
        }
    }

    /// Returns the answer to a request that has ended. If it asks for stable storage (`asks_for_sync`), both images are then on stable
    /// storage, and the peer's has each write that was answered before, unless that has no connection: its blocks are marked. One sync
    /// does for all requests that had ended when it began. Once a sync of the peer's image has failed, the link is cut, and the local
    /// image alone is on stable storage.
    ///
    /// The answer has the error with which the request failed, or `InputOutput` (EIO) if a sync of the local image fails.
    pub fn finish<R: Wait + Clock>(&self, rt: &R, device: &impl Device, ended: Ended) -> Answer
        // The answer is for the request's own client.
        ensures of { result.of ≡ ended.request.of }
        ensures done { result.error ≡ None → ended.is_done ≡ true }
        // Success of what asks for stable storage comes with what a sync left, for a round that began after the request ended.
        ensures stable { result.error ≡ None → SuitsRequest ended.request ended.round result.stored }
        ensures unsynced { asks_for_sync ended.request ≡ false → ended.is_done ≡ true → result.error ≡ None }
        ensures spelled { result.error ≡ None → result.spelled ≡ ended.spelled }
        ensures refused { IfSome result.error (λ errno. result.spelled ≡ failure_spelling ended.request errno) }
        ensures failed { (errno : Errno) → ended.error ≡ Some errno → result.error ≡ Some errno }
        ensures synced { ended.error ≡ None → (result.error ≡ None) ⊎ (result.error ≡ Some InputOutput) }
        ensures whole { (result.begins ≡ true) × (result.ends ≡ true) × (result.is_broken ≡ false) }
    {
        let Ended {
            request,
            result,
            last,
        } = ended;
        let round = last.round();
        let reply = match result {
            Ok(reply) => reply,
            Err(errno) => return self.refuse(request, errno),
        };
        match self.store_if_asked(rt, device, &request, round) {
            Ok(stored) => Answer::done(request, round, reply, stored),
            Err(errno) => self.refuse(request, errno),
        }
    }

    /// Returns the answer to a request that is not begun: this error, and no data.
    pub fn refuse(&self, request: Request, errno: Errno) -> Answer
        ensures of { result.of ≡ request.of }
        ensures error { result.error ≡ Some errno }
        ensures spelled { result.spelled ≡ failure_spelling request errno }
        ensures whole { (result.begins ≡ true) × (result.ends ≡ true) × (result.is_broken ≡ false) }
        ensures unsynced { result.stored ≡ None }
    {
        Answer::failed(self.alloc, request, errno)
    }

    /// Syncs both images to stable storage, whether a request asks for it or not, and whether a sync has failed or not. Returns
    /// for each image why its first sync failed, now or before: the system then forgets the data that it could not store.
    pub fn sync_images<R: Wait>(&self, rt: &R) -> PerDisk<Option<io::Error>> {
        self.storage.sync_both(rt)
    }

    /// Returns whether a sync of the peer's image has failed. Then the link is to stay down: that image may lack what it was
    /// sent, and no mark says where.
    pub fn is_peer_failed(&self) -> bool {
        self.storage.is_peer_failed()
    }

    // Begins the writes of a request, in order, until one is refused. `Invalid` if its pieces were taken before, as nobody does.
    fn begin_writes<D: Device>(
        &self,
        device: &D,
        me: &mut Caller<D::Name>,
        request: &mut Request,
        begun: &mut Vec<Begun>,
    ) -> Result<(), Errno>
        requires { begun.old.items ≡ [] }
        ensures same { IsSame request.old request.new }
        ensures begins { Begins request.new result begun.new.items }
        ensures accepted { IsFrontBy (IsBegunFor (WasTold me.new.log)) (places request.old) begun.new.items }
        ensures goes_on { IsPrefix me.old.log me.new.log }
        ensures mine { AreOwn begun.old.items begun.new.items me.old.own me.new.own }
    {
        match request.command() {
            NbdCommand::Write | NbdCommand::Trim | NbdCommand::WriteZeroes => {
                if request.is_divided() {
                    return Err(Errno::Invalid);
                }
                let pieces = request.pieces(self.alloc)?;
                begin_pieces(self, device, me, pieces, begun)
            }
            NbdCommand::Read
            | NbdCommand::BlockStatus
            | NbdCommand::Flush
            | NbdCommand::Disconnect => Ok(()),
        }
    }

    // Returns the last round of syncing before that for which a request waits. A FLUSH is for what was answered before it began, so any
    // round that begins after that does. The writes of any other request are in the files only now, so its round has to begin from
    // now on.
    fn last_round(&self, request: &Request, before: LastRound, done: Done) -> LastRound
        requires { request.now.command ≡ command.Flush → before.writes ≡ done.writes }
        ensures { result.writes ≡ done.writes }
    {
        match request.command() {
            NbdCommand::Flush => before,
            _ => self.storage.last_round_after(done),
        }
    }

    // Spells the reply to a request whose writes are done: it reads the data of a READ, and what the images have for a BLOCK_STATUS.
    // `Invalid` for DISC.
    fn spelled<D: Device>(
        &self,
        device: &D,
        me: &mut Caller<D::Name>,
        request: &Request,
    ) -> Result<ReplyBytes, Errno>
        ensures goes_on { IsPrefix me.old.log me.new.log }
        ensures mine { me.new.own ≡ me.old.own }
        ensures read { request.now.command ≡ command.Read
            → IfOk result (IsReadTold (SaysHeldSince me.old.log me.new.log) request.now) }
        ensures status { request.now.command ≡ command.BlockStatus → IfOk result (IsStatusTold request.now) }
        ensures simple { is_without_data request.now.command ≡ true → IfOk result (λ reply. reply ≡ success_spelling request.now) }
        ensures flush { request.now.command ≡ command.Flush → is_ok result ≡ true }
        ensures disconnect { request.now.command ≡ command.Disconnect → result ≡ Err Invalid }
    {
        match request.command() {
            NbdCommand::Read => {
                let data = read(self.alloc, device, me, request)?;
                ReplyBytes::of_data(self.alloc, request, data)
            }
            NbdCommand::BlockStatus => {
                let extents = self.storage.extents_of(self.alloc, request)?;
                ReplyBytes::of_extents(self.alloc, request, extents)
            }
            NbdCommand::Disconnect => Err(Errno::Invalid),
            NbdCommand::Flush | NbdCommand::Write | NbdCommand::Trim | NbdCommand::WriteZeroes =>
                Ok(ReplyBytes::without_data(self.alloc, request)),
        }
    }

    // Syncs both images to stable storage if a request that is done asks for it, in a round that begins after the round `last`.
    // Returns what the sync left, `None` if the request does not ask.
    fn store_if_asked<R: Wait + Clock>(
        &self,
        rt: &R,
        device: &impl Device,
        request: &Request,
        last: u64,
    ) -> Result<Option<Stored>, Errno>
        ensures unasked { asks_for_sync request.now ≡ false → is_ok result ≡ true }
        ensures suits { IfOk result (SuitsRequest request.now last) }
        ensures refused { IfErr result (λ e. e ≡ InputOutput) }
    {
        if asks_for_sync(request) {
            let stored = self.store(rt, device, last)?;
            Ok(Some(stored))
        } else {
            Ok(None)
        }
    }

    // Syncs both images to stable storage, in a round that begins after the round `last`: one of another request, or a
    // new one. A round is ready once the peer's disk has each write that was answered before the round began, unless that has
    // no connection; under protocol C it has it already.
    //
    // So any round after `last` does for a request that took this number: the round began later, and each write that was
    // answered before is in the files once the round is ready.
    //
    // Where the peer's image cannot be synced, the mirror goes on with the local one, as it does where the peer's disk fails a
    // write. The link is cut before anybody is answered, so that the peer's image counts as what it is. Returns what the sync left.
    fn store<R: Wait + Clock>(
        &self,
        rt: &R,
        device: &impl Device,
        last: u64,
    ) -> Result<Stored, Errno>
        ensures later { IfOk result (IsLater last) }
        ensures refused { IfErr result (λ e. e ≡ InputOutput) }
    {
        if let Some(stored) = self.storage.stored_after(rt, last) {
            return Ok(stored);
        }
        let round = self.storage.begin_round();
        if self.protocol != Protocol::C {
            wait_for_release(rt, device);
        }
        let stored = self.storage.sync(rt, last, round)?;
        if stored.is_alone() && !self.storage.is_alone() {
            device.cut();
            self.storage.go_on_alone();
        }
        Ok(stored)
    }
}
