//! The life of a write in the transfer log, from its acceptance to its completion.
ghost use Rattle.std.specs.Prelude.{◌≡◌, ◌+◌, ◌<◌, ◌≤◌, ◌⊎◌, ◌↔◌, length, OnErr, IsErrOf, IsOk, IfOk, IfErr, IfSome, OnOk, IsSomeAnd, true, false};
ghost use Rattle.std.specs.Option.{option_map};
ghost use Rattle.transferlog.specs.Log.{accepting, acked, changing, home_in, local_done, local_fault, sent};
ghost use Rattle.transferlog.specs.Fields.{index_of};
ghost use Rattle.transferlog.specs.Ring.{changed, write_at};
ghost use Rattle.transferlog.specs.declared.local.Local.TheVariants.{Waiting};
ghost use Rattle.blocks.specs.declared.refusal.Refusal.TheVariants.{LogFull, NoMemory};

use super::TransferLog;
use crate::protocol::{answers_sent, is_asked};
use crate::report::{Accepted, AckedWrite, PeerAck, note, note_completed};
use crate::write::{Change, Write};
use blocks::{Range, Refusal, StreamPosition};
use bytes::Bytes;
use epochs::Epochs;

impl TransferLog {
    /// Makes room for another item, a write or a resync item, and for its barrier. `NoMemory` (7) if it cannot be
    /// allocated.
    pub fn reserve(&mut self) -> Result<(), Refusal>
        ensures same { self.new.state ≡ self.old.state }
        ensures room { OnOk result (0 < self.new.spare) }
        ensures refused { IfErr result (λ e. e ≡ NoMemory) }
    {
        self.ring.reserve()?;
        self.last_writes.reserve()?;
        self.epochs.reserve()
    }

    /// Checks whether another write may be accepted. `LogFull` (3) if the backlog is full.
    pub fn may_accept(&self) -> Result<(), Refusal>
        ensures full { IsErrOf result LogFull ↔ (self.now.state.backlog ≤ length self.now.state.writes) }
        ensures refused { IfErr result (λ e. e ≡ LogFull) }
    {
        if self.ring.len() >= self.backlog {
            return Err(Refusal::LogFull);
        }
        Ok(())
    }

    /// Accepts a write. If a stream is open, the write takes the next place there.
    ///
    /// `LogFull` (3) if `backlog` writes are unreleased; `NoMemory` (7) if there is no memory for the write or for
    /// its epoch, but never after `reserve`.
    pub fn accept(&mut self, range: Range, contents: Bytes) -> Result<Accepted, Refusal>
        requires inside { range.first.0 + range.count ≤ length self.old.state.last_writes }
        requires few { self.old.state.accepted < 1048576 }
        requires places { self.old.state.epochs.places < 4294967290 }
        ensures accepted { IfOk result (λ accepted. (accepted, self.new.state) ≡ accepting range.first.0 range.count contents self.old.state) }
        ensures full { IsErrOf result LogFull ↔ (self.old.state.backlog ≤ length self.old.state.writes) }
        ensures refused { IfErr result (λ e. (e ≡ LogFull) ⊎ (e ≡ NoMemory)) }
        ensures unchanged { OnErr result (self.new.state ≡ self.old.state) }
        ensures roomy { 0 < self.old.spare → IfErr result (λ e. e ≡ LogFull) }
    {
        self.may_accept()?;
        self.ring.reserve()?;
        self.last_writes.reserve()?;
        let number = self.accepted + 1;
        let (home, barrier) = home_in(self.connection, number, &mut self.epochs)?;
        let place = place_in(&home);
        self.last_writes.forget_all(&mut self.released);
        self.completed.clear();
        self.accepted = number;
        self.last_writes.note(range, number);
        self.ring.push(Write::new(number, range, contents, home));
        Ok(Accepted {
            number,
            place,
            barrier,
        })
    }

    /// Records that the write's frame is in the link's queue; under protocol A that answers it. Returns the barrier
    /// that is appended if this completes the write and the write is in the last epoch. A number that is not in the
    /// log changes no write. It takes no memory.
    pub fn sent(&mut self, number: u64) -> Option<u32>
        ensures { (result, self.new.state) ≡ sent number self.old.state }
    {
        let answers = answers_sent(self.protocol);
        self.change(number, Change::Sent(answers))
    }

    /// Records that the local disk has the write. Returns the barrier that is appended if this completes the write
    /// and the write is in the last epoch. It takes no memory.
    pub fn local_done(&mut self, number: u64) -> Option<u32>
        requires { IsSomeAnd (write_at number self.old.state.writes) (λ w. w.local ≡ Waiting) }
        ensures { (result, self.new.state) ≡ local_done number self.old.state }
    {
        self.change(number, Change::OnDisk)
    }

    /// Records that the local disk failed the write, which is then never completed. Returns the barrier that is
    /// appended if the write is in the last epoch. It takes no memory.
    pub fn local_fault(&mut self, number: u64) -> Option<u32>
        requires { IsSomeAnd (write_at number self.old.state.writes) (λ w. w.local ≡ Waiting) }
        ensures { (result, self.new.state) ≡ local_fault number self.old.state }
    {
        self.change(number, Change::Failed)
    }

    /// Records the peer's answer to a write. Returns the barrier that is appended if this completes the write and the
    /// write is in the last epoch.
    ///
    /// `UnknownAck` (25) unless the protocol asks for this kind of answer, and the write was sent on the established
    /// connection, is not answered, and has exactly this number, place, first block and count. It takes no memory.
    pub fn acked(&mut self, kind: PeerAck, of: AckedWrite) -> Result<Option<u32>, Refusal>
        ensures { (result, self.new.state) ≡ acked kind of self.old.state }
    {
        let Some(write) = self.ring.get(of.number) else {
            return Err(Refusal::UnknownAck);
        };
        if !is_asked(self.protocol, kind) || !write.awaits(of) {
            return Err(Refusal::UnknownAck);
        }
        Ok(self.change(of.number, Change::Answered))
    }

    fn change(&mut self, number: u64, change: Change) -> Option<u32>
        ensures { (result, self.new.state) ≡ changing number (changed change) self.old.state }
    {
        self.last_writes.forget_all(&mut self.released);
        self.completed.clear();
        let Some(report) = self.ring.change(number, change) else {
            return None;
        };
        note_completed(&mut self.completed, report.completion);
        note(
            &mut self.released,
            self.ring.release(number, self.acknowledged_through),
        );
        if !report.closes {
            return None;
        }
        self.epochs.completed(number)
    }
}

// Places the write with this number in the open stream, if there is one. Returns its position there and the barrier
// that follows it.
fn home_in(
    connection: Option<u32>,
    number: u64,
    epochs: &mut Epochs,
) -> Result<(Option<StreamPosition>, Option<u32>), Refusal>
    requires counted { IfSome connection (λ number. 0 < number) }
    requires room { epochs.old.state.places < 4294967290 }
    requires rising { 0 < epochs.old.state.size → epochs.old.state.first + epochs.old.state.size ≤ number }
    ensures home { IfOk result (λ home. (home.0, (home.1, epochs.new.state)) ≡ home_in (index_of connection) number epochs.old.state) }
    ensures refused { IfErr result (λ e. e ≡ NoMemory) }
    ensures unchanged { OnErr result (epochs.new.state ≡ epochs.old.state) }
    ensures roomy { 0 < epochs.old.spare → IsOk result }
{
    let Some(connection) = connection else {
        return Ok((None, None));
    };
    let (place, barrier) = epochs.place(number)?;
    Ok((Some(StreamPosition::new(connection, place)), barrier))
}

// Returns the place of a stream position.
fn place_in(home: &Option<StreamPosition>) -> Option<u32>
    ensures { result ≡ option_map (λ h. h.place) home.now }
{
    match home {
        Some(home) => Some(home.place()),
        None => None,
    }
}
