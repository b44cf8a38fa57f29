//! What a session leaves for the next one.
ghost use Rattle.std.specs.Prelude.{◌≡◌, IfOk, IsOk};
ghost use Rattle.served_images.specs.Sessions.{NodesComeTo};

use crate::beginning::ImagesMetadata;
use crate::totals::Totals;
use blocks::{ConnectionWords, Refusal, Store};
use disk_pair::Disks;
use image_metadata::OpeningBytes;
use link::{FrameIn, FrameOut};
use primary::{Primary, Receipt};
use secondary::Secondary;
use settlement::{confirm_all, parts_after};
use std::alloc::Global;
use std::marker::Model;
use volume::SessionStart;

/// What a session leaves for the next one.
#[derive(Drop)]
pub struct SessionEnd<D: Store, M: OpeningBytes, N: OpeningBytes> {
    pub disks: Disks<D>,
    pub parts: SessionStart,
    pub totals: Totals,
    pub metadata: ImagesMetadata<M, N>,
}

impl<D: Store, M: OpeningBytes, N: OpeningBytes> Model for SessionEnd<D, M, N> {
    ghost use Rattle.served_images.specs.Sessions.{Rest};

    ghost Value = { Rest };

    ghost view = { λ e. record { disks = e.disks; parts = e.parts; totals = e.totals } };
}

/// Settles two nodes at rest with the receipts that their session gave, if its work was done, and returns what the next session
/// starts from, over the same disks and with these words. It reads no block. The refusals are that of the work, and those of
/// `confirm_all` and `parts_after`.
pub fn settle_session<D: Store + Drop, M: OpeningBytes, N: OpeningBytes>(
    alloc: Global,
    words: ConnectionWords,
    totals: Totals,
    metadata: ImagesMetadata<M, N>,
    primary: Primary<impl FrameOut + Drop, impl FrameIn + Drop, D>,
    secondary: Secondary<impl FrameOut + Drop, impl FrameIn + Drop, D>,
    worked: Result<Vec<Receipt>, Refusal>,
) -> Result<SessionEnd<D, M, N>, Refusal>
    ensures disks { IfOk result (λ rest. (rest.disks.local ≡ primary.disk) × (rest.disks.peer ≡ secondary.disk)) }
    ensures faithful { IfOk result (λ rest. rest.disks.local_faithful ≡ primary.faithful) }
    ensures done { IfOk result (λ _. IsOk worked) }
    ensures comes { IfOk result (λ rest. IfOk worked (λ receipts. NodesComeTo primary secondary receipts.items totals rest.totals rest.parts)) }
{
    let mut primary = primary;
    let settled = settle_and_hand_over(alloc, words, totals, &mut primary, &secondary, worked);
    let disks = Disks {
        local: primary.into_store(),
        peer: secondary.into_store(),
    };
    match settled {
        Ok((parts, totals)) => Ok(SessionEnd {
            disks,
            parts,
            totals,
            metadata,
        }),
        Err(refusal) => Err(refusal),
    }
}

// Settles both nodes, if the work was done. Returns the parts of the next session, and the results of the sessions so far.
fn settle_and_hand_over(
    alloc: Global,
    words: ConnectionWords,
    totals: Totals,
    primary: &mut Primary<impl FrameOut + Drop, impl FrameIn + Drop, impl Store + Drop>,
    secondary: &Secondary<impl FrameOut + Drop, impl FrameIn + Drop, impl Store + Drop>,
    worked: Result<Vec<Receipt>, Refusal>,
) -> Result<(SessionStart, Totals), Refusal>
    ensures same { primary.new ≡ primary.old }
    ensures done { IfOk result (λ _. IsOk worked) }
    ensures comes { IfOk result (λ left. IfOk worked (λ receipts. NodesComeTo primary.old secondary.now receipts.items totals left.1 left.0)) }
{
    let receipts = worked?;
    let confirmed = confirm_all(primary, secondary, receipts.as_slice())?;
    let parts = parts_after(alloc, primary, secondary, words)?;
    let totals = totals.with_session(receipts.len(), confirmed, primary.marks());
    Ok((parts, totals))
}
