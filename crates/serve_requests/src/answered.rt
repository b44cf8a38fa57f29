//! What came of the requests that threads of a session have ended.
ghost use Rattle.std.specs.Prelude.{◌≡◌};
ghost use Rattle.serve_requests.specs.Answered.{AreAnswered};
ghost use Rattle.told.specs.Log.{WasTold};

use crate::begun_request::BegunRequest;
use crate::ended::Ended;
use crate::requests::Requests;
use ghost_log::LogName;
use primary::Receipt;
use session_api::Device;
use std::alloc::{AllocError, Global};
use std::marker::Model;
use told::{Caller, ToldLog, ToldSeen};

/// The receipts of the requests that threads of one session have ended, and what the threads had been told by then, which takes no bytes.
/// Invariant: they are the receipts of requests of which each write was accepted with its bytes, and each receipt given, as the log of this
/// session says.
#[derive(Drop)]
pub struct Answered<J: LogName> {
    receipts: Vec<Receipt>,
    seen: ToldSeen<J>,
}

impl<J: LogName> Model for Answered<J> {
    ghost use Rattle.serve_requests.specs.Answered.{AreAnswered};
    ghost use Rattle.told.specs.Log.{WasTold};

    ghost Value = { Unit {0} };

    ghost view = { λ _. tt };

    ghost invariant = { λ a. AreAnswered (WasTold a.seen.log) a.receipts.items };
}

impl<J: LogName> Answered<J> {
    /// Creates it for no request of a caller, with no room for receipts.
    pub fn new(alloc: Global, me: &Caller<J>) -> Answered<J> {
        Answered {
            receipts: Vec::new(alloc),
            seen: me.seen(),
        }
    }

    /// Makes room for this many further receipts.
    pub fn reserve(&mut self, receipts: usize) -> Result<(), AllocError> {
        self.receipts.try_reserve(receipts)
    }

    /// Ends a request as this caller, as `Requests::end` does, and keeps its receipts.
    pub fn end<D: Device<Name = J>>(
        &mut self,
        requests: &Requests,
        device: &D,
        me: &mut Caller<J>,
        begun: BegunRequest<J>,
    ) -> Ended {
        let BegunRequest { under_way, seen } = begun;
        let ended = requests.end(device, me, under_way, &mut self.receipts);
        self.seen.learn(&seen);
        self.seen.learn(&me.seen());
        ended
    }

    /// Takes over all receipts of another thread's requests, behind its own. If there is no memory for them, nothing changes.
    pub fn take(&mut self, other: &mut Answered<J>) -> Result<(), AllocError> {
        self.receipts.append(&mut other.receipts)?;
        self.seen.learn(&other.seen);
        Ok(())
    }

    /// Returns the receipts.
    pub fn receipts(&self) -> &[Receipt] {
        self.receipts.as_slice()
    }

    /// Returns the receipts once the session has ended with this log of all that its callers were told.
    pub fn into_receipts(self, log: &mut ToldLog<J>) -> Vec<Receipt>
        ensures same { log.new ≡ log.old }
        ensures answered { AreAnswered (WasTold log.old.log) result.items }
    {
        let Answered { receipts, seen } = self;
        log.knows(&seen);
        receipts
    }
}
