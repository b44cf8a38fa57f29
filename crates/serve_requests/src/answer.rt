//! The answer to a request.
ghost use Rattle.std.specs.Prelude.{◌≡◌, ◌++◌, [], true, false, None, Some};
ghost use Rattle.serve_requests.specs.Reading.{begins_reply, ends_reply};
ghost use Rattle.serve_requests.specs.Stored.{SuitsRequest};
ghost use Rattle.serve_requests.specs.Told.{failure_spelling};

use crate::reading::Reading;
use crate::reply_bytes::ReplyBytes;
use crate::stored::Stored;
use nbd::{Errno, FixedPart, Request};
use std::alloc::Global;
use std::marker::Model;

/// The answer to a request: the bytes of its reply, or of a portion of it. `Requests::finish`, `Requests::refuse`, `Requests::read_on` and
/// `Requests::break_off` alone make one, each from a request that they take, and it cannot be copied. So a request has one reply at most,
/// which is for its own client.
#[derive(Debug, Drop)]
pub struct Answer {
    of: u64,
    error: Option<Errno>,
    reply: ReplyBytes,
    stored: Option<Stored>,
    begins: bool,
    ends: bool,
    is_broken: bool,
}

impl Model for Answer {
    ghost use Rattle.serve_requests.specs.Answer.{AnswerState};

    ghost Value = { AnswerState };

    ghost view = { λ a. record {
      of = a.of;
      error = a.error;
      spelled = a.reply;
      stored = a.stored;
      begins = a.begins;
      ends = a.ends;
      is_broken = a.is_broken;
    } };
}

impl Answer {
    /// Creates the answer to a request that is done, with this reply. It ended once the round `round` of syncing had begun; if it asks
    /// for stable storage, it comes with what a later one left.
    pub(crate) fn done(
        request: Request,
        round: u64,
        reply: ReplyBytes,
        stored: Option<Stored>,
    ) -> Answer
        requires { SuitsRequest request round stored }
        ensures { result ≡ record {
          of = request.of;
          error = None;
          spelled = reply;
          stored = stored;
          begins = true;
          ends = true;
          is_broken = false;
        } }
    {
        // The round is there for the contract alone.
        let _ = round;
        Answer {
            of: request.of(),
            error: None,
            reply,
            stored,
            begins: true,
            ends: true,
            is_broken: false,
        }
    }

    /// Creates the answer to a request that failed.
    pub(crate) fn failed(alloc: Global, request: Request, errno: Errno) -> Answer
        ensures { result ≡ record {
          of = request.of;
          error = Some errno;
          spelled = failure_spelling request errno;
          stored = None;
          begins = true;
          ends = true;
          is_broken = false;
        } }
    {
        Answer {
            of: request.of(),
            error: Some(errno),
            reply: ReplyBytes::of_failure(alloc, &request, errno),
            stored: None,
            begins: true,
            ends: true,
            is_broken: false,
        }
    }

    /// Creates the answer with the next portion of a READ, which `reply` spells.
    pub(crate) fn portion(reading: &Reading, reply: ReplyBytes) -> Answer
        ensures { result ≡ record {
          of = reading.now.request.of;
          error = None;
          spelled = reply;
          stored = None;
          begins = begins_reply reading.now;
          ends = ends_reply reading.now;
          is_broken = false;
        } }
    {
        Answer {
            of: reading.request().of(),
            error: None,
            reply,
            stored: None,
            begins: reading.begins_reply(),
            ends: reading.ends_reply(),
            is_broken: false,
        }
    }

    /// Creates the answer that ends a reply whose last bytes stay missing: the connection of the number `of` has to be closed.
    pub(crate) fn broken(alloc: Global, of: u64, errno: Errno) -> Answer
        ensures { result ≡ record {
          of = of;
          error = Some errno;
          spelled = [];
          stored = None;
          begins = false;
          ends = true;
          is_broken = true;
        } }
    {
        Answer {
            of,
            error: Some(errno),
            reply: ReplyBytes::nothing(alloc),
            stored: None,
            begins: false,
            ends: true,
            is_broken: true,
        }
    }

    /// Returns the number of the connection that it goes to.
    pub fn of(&self) -> u64
        ensures { result ≡ self.now.of }
    {
        self.of
    }

    /// Returns why its request failed, if it did.
    pub fn error(&self) -> Option<Errno>
        ensures { result ≡ self.now.error }
    {
        self.error
    }

    /// Returns whether its bytes begin a reply, or are a whole chunk of one. Others go on with one, and no other reply may stand before them.
    pub fn begins(&self) -> bool
        ensures { result ≡ self.now.begins }
    {
        self.begins
    }

    /// Returns whether its bytes end a reply, or are a whole chunk of one. Behind others no other reply may stand before that goes on.
    pub fn ends(&self) -> bool
        ensures { result ≡ self.now.ends }
    {
        self.ends
    }

    /// Returns whether its reply lacks bytes: what follows would be taken for them, so the connection has to be closed.
    pub fn is_broken(&self) -> bool
        ensures { result ≡ self.now.is_broken }
    {
        self.is_broken
    }

    /// Returns the bytes of the reply in two parts: those before its data, and the data, which are not copied.
    pub fn into_parts(self) -> (FixedPart, Vec<u8>)
        ensures { result.0 ++ result.1.items ≡ self.spelled }
    {
        let Answer { reply, .. } = self;
        reply.into_parts()
    }
}
