//! Waiting for the writes of a request.
ghost use Rattle.std.specs.Prelude.{◌≡◌, List, ◌∷◌, ◌++◌, [], true, length, map, is_ok, IfOk, All, OnOk};
ghost use mathlib.Core.List.{IsPrefix};
ghost use Rattle.model.specs.Settlement.{Receipt as Denoted};
ghost use Rattle.serve_requests.specs.Receipts.{HasMore, job_of, receipt_job};
ghost use Rattle.told.specs.Log.{SaysGiven};

use crate::done::Done;
use crate::perform::errno_of;
use nbd::Errno;
use primary::Receipt;
use session_api::{Begun, Device};
use told::Caller;

/// Waits for all writes that were begun, one after another, and keeps their receipts. If any fails, waits for the
/// others too. The receipts of earlier writes stay. If none fails, returns that all are complete.
pub(crate) fn complete_all<D: Device>(
    device: &D,
    me: &mut Caller<D::Name>,
    begun: Vec<Begun>,
    receipts: &mut Vec<Receipt>,
) -> Result<Done, Errno>
    ensures all { OnOk result (HasMore receipt_job (map job_of begun.items) receipts.old.items receipts.new.items) }
    ensures kept { (more : List Denoted) × (receipts.new.items ≡ receipts.old.items ++ more) × All (SaysGiven me.new.log) more }
    ensures goes_on { IsPrefix me.old.log me.new.log }
    ensures mine { me.new.own ≡ me.old.own }
    ensures none { begun.items ≡ [] → is_ok result ≡ true }
    ensures complete { IfOk result (λ done. done.writes ≡ length begun.items) }
{
    let earlier = receipts.len();
    let mut all = Ok(());
    for write in begun {
        if let Err(errno) = complete(device, me, write, receipts) {
            all = Err(errno);
        }
    }
    all?;
    Ok(Done::by_receipts(receipts, earlier))
}

// Waits for a write, and keeps its receipt.
fn complete<D: Device>(
    device: &D,
    me: &mut Caller<D::Name>,
    write: Begun,
    receipts: &mut Vec<Receipt>,
) -> Result<(), Errno>
    ensures one { OnOk result (HasMore receipt_job (job_of write ∷ []) receipts.old.items receipts.new.items) }
    ensures kept { (more : List Denoted) × (receipts.new.items ≡ receipts.old.items ++ more) × All (SaysGiven me.new.log) more }
    ensures goes_on { IsPrefix me.old.log me.new.log }
    ensures mine { me.new.own ≡ me.old.own }
{
    let receipt = match device.complete(me, write) {
        Ok(receipt) => receipt,
        Err(refusal) => return Err(errno_of(refusal)),
    };
    match receipts.push(receipt) {
        Ok(()) => Ok(()),
        Err(_) => Err(Errno::NoMemory),
    }
}
