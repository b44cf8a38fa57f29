//! The outcome of a session.
ghost use Rattle.std.specs.Prelude.{◌≡◌, ◌≤◌, ◌*◌, ◌↔◌, vec_len, IfOk, IsOk, IsTrue, Some};
ghost use Rattle.session_run.specs.Outcome.{AreAtRest, HasSettled, IsNumber};

use crate::fault::RunFault;
use crate::parts::Disks;
use blocks::{MemStore, Refusal};
use image_store::PerDisk;
use link::{FrameIn, FrameOut};
use node_lines::{primary_line, secondary_line};
use primary::{Primary, Receipt};
use program_values::{Results, RunOptions};
use secondary::Secondary;
use settlement::{Settled, settle};
use status_lines::{PrimaryLine, SecondaryLine};

/// The outcome of a session, with both disks.
#[derive(Drop)]
pub(crate) struct RunReport {
    /// Writes that were completed.
    pub(crate) completed: u64,
    /// Receipts that the settlement confirmed.
    pub(crate) confirmed: u64,
    /// Blocks without a mark on which the disks differ.
    pub(crate) unmarked: u32,
    /// What the status lines of both nodes show at the end, if the options ask for them.
    pub(crate) status: Option<(PrimaryLine, SecondaryLine)>,
    pub(crate) disks: Disks,
}

impl RunReport {
    /// Returns the results that are printed.
    pub(crate) fn results(&self) -> Results
        ensures { result ≡ record { completed = self.now.completed; settled = self.now.confirmed; unmarked = Some self.now.unmarked } }
    {
        Results {
            completed: self.completed,
            settled: self.confirmed,
            unmarked: Some(self.unmarked),
        }
    }

    /// Returns `Unmarked` if the disks differ on a block without a mark.
    pub(crate) fn check_marks<'a>(&self) -> Result<(), RunFault<'a>>
        ensures { IsOk result ↔ (self.now.unmarked ≡ 0) }
    {
        if self.unmarked > 0 {
            return Err(RunFault::Unmarked(self.unmarked));
        }
        Ok(())
    }
}

/// Returns the outcome of a session whose writers have the receipts `worked`, and which ended with these nodes at rest. If a
/// write was refused, returns that refusal; else those of `settle`.
pub(crate) fn conclude<
    O: FrameOut + Drop,
    I: FrameIn + Drop,
    P: FrameOut + Drop,
    J: FrameIn + Drop,
>(
    options: &RunOptions,
    worked: Result<Vec<Receipt>, Refusal>,
    primary: Primary<O, I, MemStore>,
    secondary: Secondary<P, J, MemStore>,
) -> Result<RunReport, Refusal>
    requires { IfOk worked (λ receipts. vec_len receipts ≡ options.now.writers * options.now.writes) }
    ensures done { IfOk result (λ _. IsOk worked) }
    ensures completed { IfOk result (λ report. report.completed ≡ options.now.writers * options.now.writes) }
    ensures count { IfOk result (λ report. IfOk worked (λ receipts. report.completed ≡ vec_len receipts)) }
    ensures confirmed { IfOk result (λ report. IfOk worked (λ receipts. IsNumber (λ n. n.confirmed) primary secondary receipts.items report.confirmed)) }
    ensures unmarked { IfOk result (λ report. IfOk worked (λ receipts. IsNumber (λ n. n.unmarked) primary secondary receipts.items report.unmarked)) }
    ensures rest { IfOk result (λ report. IfOk worked (λ receipts. AreAtRest primary secondary receipts.items)) }
    ensures settles { IfOk result (λ report. IfOk worked (λ receipts. secondary.core.number ≤ primary.core.connections
        → HasSettled primary secondary receipts.items report.confirmed report.unmarked)) }
    ensures disks { IfOk result (λ report. (report.disks.local ≡ primary.disk) × (report.disks.peer ≡ secondary.disk) × IsTrue primary.faithful) }
{
    let mut primary = primary;
    let mut secondary = secondary;
    let settled = settled_by(&mut primary, &mut secondary, worked);
    let status = status(options, &primary, &secondary);
    let disks = PerDisk {
        local: primary.into_store(),
        peer: secondary.into_store(),
    };
    let (completed, settled) = settled?;
    Ok(RunReport {
        completed,
        confirmed: settled.confirmed,
        unmarked: settled.unmarked,
        status,
        disks,
    })
}

// Settles with the receipts, if no write was refused. Returns how many there are, and the settlement.
fn settled_by<O: FrameOut + Drop, I: FrameIn + Drop, P: FrameOut + Drop, J: FrameIn + Drop>(
    primary: &mut Primary<O, I, MemStore>,
    secondary: &mut Secondary<P, J, MemStore>,
    worked: Result<Vec<Receipt>, Refusal>,
) -> Result<(u64, Settled), Refusal>
    ensures count { IfOk result (λ settled. IfOk worked (λ receipts. settled.0 ≡ vec_len receipts)) }
    ensures confirmed { IfOk result (λ settled. IfOk worked (λ receipts. IsNumber (λ n. n.confirmed) primary.old secondary.old receipts.items settled.1.confirmed)) }
    ensures unmarked { IfOk result (λ settled. IfOk worked (λ receipts. IsNumber (λ n. n.unmarked) primary.old secondary.old receipts.items settled.1.unmarked)) }
    ensures rest { IfOk result (λ settled. IfOk worked (λ receipts. AreAtRest primary.old secondary.old receipts.items)) }
    ensures settles { IfOk result (λ settled. IfOk worked (λ receipts. secondary.old.core.number ≤ primary.old.core.connections
        → HasSettled primary.old secondary.old receipts.items settled.1.confirmed settled.1.unmarked)) }
    ensures worked { IfOk result (λ _. IsOk worked) }
    ensures faithful { IfOk result (λ _. IsTrue primary.old.faithful) }
    ensures disks { (primary.new.disk ≡ primary.old.disk) × (secondary.new.disk ≡ secondary.old.disk) }
{
    let receipts = worked?;
    let settled = settle(primary, secondary, receipts.as_slice())?;
    // Disks in memory are faithful.
    let _ = primary.store();
    let _ = secondary.store();
    Ok((receipts.len() as u64, settled))
}

// Returns what the status lines of both nodes show, if the options ask for them.
fn status<O: FrameOut + Drop, I: FrameIn + Drop, P: FrameOut + Drop, J: FrameIn + Drop>(
    options: &RunOptions,
    primary: &Primary<O, I, MemStore>,
    secondary: &Secondary<P, J, MemStore>,
) -> Option<(PrimaryLine, SecondaryLine)> {
    if !options.live.status {
        return None;
    }
    Some((primary_line(primary), secondary_line(secondary)))
}
