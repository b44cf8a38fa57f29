//! A request that a thread of a client has begun, with what the thread was told.
use crate::requests::Requests;
use crate::under_way::RequestUnderWay;
use ghost_log::LogName;
use nbd::Request;
use session_api::Device;
use std::marker::Model;
use told::{Caller, ToldSeen};

/// A request that a thread has begun as a caller of a session, and what it had been told then, which takes no bytes. Invariant: the begun
/// writes are a front of what the request writes, and by what the thread was told each of them was accepted with its bytes.
#[derive(Drop)]
pub struct BegunRequest<J: LogName> {
    pub(crate) under_way: RequestUnderWay,
    pub(crate) seen: ToldSeen<J>,
}

impl<J: LogName> Model for BegunRequest<J> {
    ghost use Rattle.serve_requests.specs.Answered.{IsUnderWay};
    ghost use Rattle.told.specs.Log.{WasTold};

    ghost Value = { Unit {0} };

    ghost view = { λ _. tt };

    ghost invariant = { λ b. IsUnderWay (WasTold b.seen.log) b.under_way };
}

impl<J: LogName> BegunRequest<J> {
    /// Begins a request as this caller, as `Requests::begin` does.
    pub fn begin<D: Device<Name = J>>(
        requests: &Requests,
        device: &D,
        me: &mut Caller<J>,
        request: Request,
    ) -> BegunRequest<J> {
        let under_way = requests.begin(device, me, request);
        BegunRequest {
            under_way,
            seen: me.seen(),
        }
    }
}
