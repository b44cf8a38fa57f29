//! A request whose reads and writes are done, and whose sync is not.
ghost use Rattle.std.specs.Prelude.{◌≡◌};

use crate::last_round::LastRound;
use crate::reply_bytes::ReplyBytes;
use nbd::{Errno, Request};
use std::marker::Model;

/// A request whose reads and writes are done or have failed. If it asks for stable storage, its data are not there yet:
/// `Requests::finish` syncs the images and gives the answer. If it is done, its reply is spelled.
#[derive(Debug, Drop)]
pub struct Ended {
    pub(crate) request: Request,
    pub(crate) result: Result<ReplyBytes, Errno>,
    // It waits for a round of syncing after this one. For a FLUSH this is the last round that had begun before it, and for any
    // other request that is done the last one that had begun when its writes were in the images' files.
    pub(crate) last: LastRound,
}

impl Model for Ended {
    ghost use Rattle.std.specs.Prelude.{is_ok};
    ghost use Rattle.serve_requests.specs.Ended.{EndedState, error_in, spelled_in};

    ghost Value = { EndedState };

    ghost view = { λ e. record {
      request = e.request;
      is_done = is_ok e.result;
      spelled = spelled_in e.result;
      error = error_in e.result;
      round = e.last.round;
      writes = e.last.writes;
    } };
}

impl Ended {
    /// Returns the request.
    pub fn request(&self) -> &Request
        ensures { result.now ≡ self.now.request }
    {
        &self.request
    }
}
