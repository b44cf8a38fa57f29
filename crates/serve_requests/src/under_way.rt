//! A request whose writes were begun.
use crate::last_round::LastRound;
use nbd::{Errno, Request};
use session_api::Begun;
use std::marker::Model;

/// A request whose writes were begun. Invariant: the begun writes are a front of what it writes, and all of it if none was
/// refused. A FLUSH and a DISC write nothing, so none of their writes is refused.
#[derive(Debug, Drop)]
pub struct RequestUnderWay {
    pub(crate) request: Request,
    pub(crate) begun: Vec<Begun>,
    pub(crate) begins: Result<(), Errno>,
    // The last round of syncing that had begun before it: none of its writes was complete.
    pub(crate) before: LastRound,
}

impl Model for RequestUnderWay {
    ghost use Rattle.std.specs.Prelude.{◌≡◌};
    ghost use Rattle.serve_requests.specs.Receipts.{Begins};
    ghost use Rattle.serve_requests.specs.RequestUnderWay.{UnderWayState};

    ghost Value = { UnderWayState };

    ghost view = { λ u. record { request = u.request; begun = u.begun.items } };

    ghost invariant = { λ u. (Begins u.request u.begins u.begun.items) × (u.before.writes ≡ 0) };
}
