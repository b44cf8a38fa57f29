//! A write in the transfer log: its states and their changes.
//!
//! | State | Event (call) | State then |
//! |---|---|---|
//! | open | its frame is in the link's queue (`sent`) | sent; under protocol A also answered |
//! | open, sent | RECV_ACK under B, WRITE_ACK under C (`acked`) | answered |
//! | open, waiting for the local disk | the disk has it (`local_done`) | on disk |
//! | open, waiting for the local disk | the disk failed (`local_fault`) | failed, never completed |
//! | open, on disk and answered | at once | completed (linked) |
//! | on disk or failed, linked | its epoch's BARRIER_ACK (`barrier_acked`), now or before | released |
//! | linked | the connection is closed (`drain`) | without a connection |
//! | open, on disk, without a connection | at once | completed (without the peer unless it is answered) |
//! | on disk or failed, without a connection | at once | released, clears no marks |
ghost use Rattle.std.specs.Prelude.{◌≡◌, is_some, false};
ghost use Rattle.blocks.specs.Contents.{blocks_of};
ghost use Rattle.transferlog.specs.Writes.{awaits, completed_of, is_at, is_completed, is_open, is_released, is_settled, is_unanswered, release_of, report_of};
ghost use Rattle.transferlog.specs.Ring.{changed};

use crate::local::Local;
use crate::report::{AckedWrite, ChangeReport, Completed, Released};
use blocks::{Range, StreamPosition};
use bytes::Bytes;
use std::marker::Model;

/// An accepted write that is not released.
#[derive(Drop)]
pub struct Write {
    number: u64,
    range: Range,
    contents: Bytes,
    home: Option<StreamPosition>,
    linked: bool,
    sent: bool,
    answered: bool,
    local: Local,
}

impl Model for Write {
    ghost use Rattle.blocks.specs.Contents.{blocks_of};
    ghost use Rattle.transferlog.specs.Writes.{LogWrite};

    ghost Value = { LogWrite };

    ghost view = { λ w. record {
      number = w.number;
      first = w.range.first.0;
      count = w.range.count;
      contents = w.contents;
      blocks = blocks_of 4096 w.contents;
      home = w.home;
      linked = w.linked;
      sent = w.sent;
      answered = w.answered;
      local = w.local;
    } };
}

/// A change of a write's state.
#[derive(Clone, Copy)]
pub(crate) enum Change {
    /// Its frame is in the link's queue; the flag says whether that answers it.
    Sent(bool),
    /// The peer answered as the protocol asks.
    Answered,
    /// The local disk has it.
    OnDisk,
    /// The local disk failed it.
    Failed,
    /// Its connection is closed.
    Unlinked,
}

impl Write {
    /// Returns its number.
    pub fn number(&self) -> u64
        ensures { result ≡ self.now.number }
    {
        self.number
    }

    /// Returns its blocks.
    pub fn range(&self) -> Range
        ensures first { result.first.0 ≡ self.now.first }
        ensures count { result.count ≡ self.now.count }
    {
        self.range
    }

    /// Returns the bytes that it writes.
    pub fn contents(&self) -> &Bytes
        ensures bytes { result.now ≡ self.now.contents }
        ensures blocks { blocks_of 4096 result.now ≡ self.now.blocks }
    {
        &self.contents
    }

    /// Returns its position in a connection's stream, if it has one.
    pub fn home(&self) -> Option<StreamPosition>
        ensures { result ≡ self.now.home }
    {
        self.home
    }

    /// Returns whether it has an established connection.
    pub fn is_linked(&self) -> bool
        ensures { result ≡ self.now.linked }
    {
        self.linked
    }

    /// Returns what the local disk did with it.
    pub fn local(&self) -> Local
        ensures { result ≡ self.now.local }
    {
        self.local
    }

    /// Returns whether it was sent.
    pub fn is_sent(&self) -> bool
        ensures { result ≡ self.now.sent }
    {
        self.sent
    }

    /// Returns a write that waits for the local disk, with its stream position if it has one.
    pub(crate) fn new(
        number: u64,
        range: Range,
        contents: Bytes,
        home: Option<StreamPosition>,
    ) -> Write
        ensures { result ≡ record {
          number = number;
          first = range.first.0;
          count = range.count;
          contents = contents;
          blocks = blocks_of 4096 contents;
          home = home;
          linked = is_some home;
          sent = false;
          answered = false;
          local = Local.Waiting;
        } }
    {
        Write {
            number,
            range,
            contents,
            home,
            linked: home.is_some(),
            sent: false,
            answered: false,
            local: Local::Waiting,
        }
    }

    /// Applies the change to the write. Returns the effect on it.
    pub(crate) fn apply(&mut self, change: Change) -> ChangeReport
        ensures next { self.new ≡ changed change self.old }
        ensures report { result ≡ report_of (changed change) self.old }
    {
        let was_open = self.is_open();
        self.set(change);
        ChangeReport {
            closes: was_open && !self.is_open(),
            completion: if was_open && self.is_completed() {
                Some(self.completion())
            } else {
                None
            },
        }
    }

    fn set(&mut self, change: Change)
        ensures { self.new ≡ changed change self.old }
    {
        match change {
            Change::Sent(answers) => {
                self.sent = true;
                self.answered = self.answered || answers;
            }
            Change::Answered => self.answered = true,
            Change::OnDisk => self.local = Local::OnDisk,
            Change::Failed => self.local = Local::Failed,
            Change::Unlinked => self.linked = false,
        }
    }

    fn completion(&self) -> Completed
        ensures { result ≡ completed_of self.now }
    {
        Completed {
            number: self.number,
            first: self.range.first.0,
            count: self.range.count,
            linked: self.answered,
            home: self.home,
        }
    }

    /// Returns its release, if it is released given that the epochs of all writes up to number `acknowledged_through` are
    /// acknowledged.
    pub(crate) fn release(&self, acknowledged_through: u64) -> Option<Released>
        ensures { result ≡ release_of acknowledged_through self.now }
    {
        if !self.is_released(acknowledged_through) {
            return None;
        }
        Some(Released {
            number: self.number,
            first: self.range.first.0,
            count: self.range.count,
            clears: self.linked && self.local == Local::OnDisk,
        })
    }

    /// Returns whether it awaits this answer.
    pub(crate) fn awaits(&self, of: AckedWrite) -> bool
        ensures { result ≡ awaits of self.now }
    {
        self.is_at(of.place)
            && (self.range.first.0 == of.first && self.range.count == of.count)
            && (self.linked && self.sent && !self.answered)
    }

    fn is_at(&self, place: u32) -> bool
        ensures { result ≡ is_at place self.now.home }
    {
        match self.home {
            Some(here) => here.place() == place,
            None => false,
        }
    }

    /// Returns whether it is answered.
    pub(crate) fn is_answered(&self) -> bool
        ensures { result ≡ self.now.answered }
    {
        self.answered
    }

    /// Returns whether it was sent on the established connection and is not answered.
    pub(crate) fn is_unanswered(&self) -> bool
        ensures { result ≡ is_unanswered self.now }
    {
        self.is_linked() && (self.is_sent() && !self.is_answered())
    }

    /// Returns whether the local disk is done with it: it is on disk or failed.
    pub(crate) fn is_settled(&self) -> bool
        ensures { result ≡ is_settled self.now }
    {
        self.local != Local::Waiting
    }

    /// Returns whether it is completed.
    pub(crate) fn is_completed(&self) -> bool
        ensures { result ≡ is_completed self.now }
    {
        self.local == Local::OnDisk && (self.answered || !self.linked)
    }

    /// Returns whether it is neither completed nor failed.
    pub(crate) fn is_open(&self) -> bool
        ensures { result ≡ is_open self.now }
    {
        !self.is_completed() && self.local != Local::Failed
    }

    /// Returns whether it is released, given that the epochs of all writes up to number `acknowledged_through` are acknowledged.
    pub(crate) fn is_released(&self, acknowledged_through: u64) -> bool
        ensures { result ≡ is_released acknowledged_through self.now }
    {
        self.is_settled() && (!self.linked || self.number <= acknowledged_through)
    }
}
