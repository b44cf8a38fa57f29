//! What the writers of a run have done.
ghost use Rattle.std.specs.Prelude.{◌≡◌, ◌*◌, vec_len, IfOk};
ghost use Rattle.session_run.specs.Plan.{AreOfPlan, AreWriters};
ghost use Rattle.told.specs.Log.{SaysAccepted};

use blocks::Refusal;
use ghost_log::LogName;
use primary::Receipt;
use program_values::RunOptions;
use std::alloc::Global;
use std::marker::Model;
use told::{Caller, ToldLog};

/// What a writer has done: the receipts of its writes, in the order of its turns, and all that it was told as a caller.
#[derive(Drop)]
pub(crate) struct Written<J: LogName> {
    pub(crate) receipts: Vec<Receipt>,
    pub(crate) me: Caller<J>,
}

impl<J: LogName> Model for Written<J> {
    ghost use Rattle.session_run.specs.Plan.{WrittenState};

    ghost Value = { WrittenState };

    ghost view = { λ w. record { receipts = w.receipts.items; log = w.me.log } };
}

/// Gathers the receipts of all writers, one writer after another. The session has ended with this log of what its callers were told,
/// so each receipt is that of a write which the log has.
pub(crate) fn gather<J: LogName>(
    alloc: Global,
    options: &RunOptions,
    log: ToldLog<J>,
    worked: Result<Vec<Written<J>>, Refusal>,
) -> Result<Vec<Receipt>, Refusal>
    requires count { IfOk worked (λ written. vec_len written ≡ options.now.writers) }
    requires writers { IfOk worked (λ written. AreWriters options.now written.items) }
    ensures count { IfOk result (λ receipts. vec_len receipts ≡ options.now.writers * options.now.writes) }
    ensures plan { IfOk result (λ receipts. AreOfPlan (SaysAccepted log.log) options.now receipts.items) }
{
    // The options are there for the contract alone.
    let _ = options;
    let written = worked?;
    let mut log = log;
    let mut all = Vec::new(alloc);
    for one in written {
        let Written { mut receipts, me } = one;
        log.knows(&me.seen());
        all.append(&mut receipts)?;
    }
    Ok(all)
}
