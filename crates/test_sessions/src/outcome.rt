//! The outcome of a session.
use blocks::{BLOCK_BYTES, Block, Refusal, Store};
use link::{FrameIn, FrameOut};
use primary::{CompletionKind, Primary, Receipt};
use secondary::Secondary;
use settlement::{Settled, settle};
use std::fmt::Debug;
use std::process::Abort;

/// What the callers of a session have when it ends.
#[derive(Drop)]
pub(crate) struct Answers {
    /// The receipts of all writes that were completed.
    pub(crate) receipts: Vec<Receipt>,
    /// How many writes were refused with 8.
    pub(crate) local_faults: u32,
    /// How many callers were refused otherwise, or read back other bytes than they last wrote.
    pub(crate) complaints: u32,
}

impl Answers {
    /// Returns how many receipts say that the peer answered.
    pub(crate) fn linked(&self) -> u32 {
        let mut linked = 0u32;
        for receipt in &self.receipts {
            linked = linked.saturating_add(u32::from(receipt.kind() == CompletionKind::Linked));
        }
        linked
    }
}

/// The outcome of a session.
#[derive(Clone, Copy, Debug, PartialEq, Eq)]
pub(crate) struct Outcome {
    pub(crate) receipts: usize,
    pub(crate) linked: u32,
    pub(crate) local_faults: u32,
    pub(crate) complaints: u32,
    pub(crate) settled: Settled,
    /// Whether both disks have the same blocks.
    pub(crate) alike: bool,
    /// The first byte of each of the eight blocks of the peer's disk.
    pub(crate) peer_bytes: [u8; 8],
}

impl Outcome {
    /// Checks that the callers have this many receipts, and no complaint.
    pub(crate) fn check_no_complaints(&self, rt: &impl Abort, receipts: usize, case: &impl Debug) {
        assert_eq!(rt; (self.receipts, self.complaints), (receipts, 0), "{case:?}");
    }

    /// Checks that one write was completed alone, and that nothing was sent to the peer's disk of zeros.
    pub(crate) fn check_nothing_sent(&self, rt: &impl Abort, case: &impl Debug) {
        self.check_no_complaints(rt, 1, case);
        self.check_settled(rt, 1, case);
        let Settled { sent, taken, .. } = self.settled;
        assert_eq!(rt; (self.linked, sent, taken), (0, 0, 0), "{case:?}");
        assert_eq!(rt; self.peer_bytes, [0; 8], "{case:?}");
    }

    /// Checks that the settlement confirmed this many receipts, and found no difference without a mark.
    pub(crate) fn check_settled(&self, rt: &impl Abort, confirmed: u64, case: &impl Debug) {
        assert_eq!(rt;
            (self.settled.confirmed, self.settled.unmarked),
            (confirmed, 0),
            "{case:?}"
        );
    }
}

/// Settles two nodes at rest with the callers' receipts, and compares their disks.
pub(crate) fn bring_together(
    rt: &impl Abort,
    nodes: (
        Primary<impl FrameOut + Drop, impl FrameIn + Drop, impl Store + Drop>,
        Secondary<impl FrameOut + Drop, impl FrameIn + Drop, impl Store + Drop>,
    ),
    answers: &Answers,
) -> Outcome {
    let (mut primary, mut secondary) = nodes;
    let outcome = compare(&mut primary, &mut secondary, answers).expect(rt, "a settlement");
    drop((primary.into_store(), secondary.into_store()));
    outcome
}

fn compare(
    primary: &mut Primary<impl FrameOut + Drop, impl FrameIn + Drop, impl Store + Drop>,
    secondary: &mut Secondary<impl FrameOut + Drop, impl FrameIn + Drop, impl Store + Drop>,
    answers: &Answers,
) -> Result<Outcome, Refusal> {
    let settled = settle(primary, secondary, answers.receipts.as_slice())?;
    let (alike, peer_bytes) = read_disks(primary, secondary)?;
    Ok(Outcome {
        receipts: answers.receipts.len(),
        linked: answers.linked(),
        local_faults: answers.local_faults,
        complaints: answers.complaints,
        settled,
        alike,
        peer_bytes,
    })
}

// Returns whether both disks have the same eight blocks, and the first byte of each of the peer's.
fn read_disks(
    primary: &mut Primary<impl FrameOut + Drop, impl FrameIn + Drop, impl Store + Drop>,
    secondary: &mut Secondary<impl FrameOut + Drop, impl FrameIn + Drop, impl Store + Drop>,
) -> Result<(bool, [u8; 8]), Refusal> {
    let mut alike = true;
    let mut peer_bytes = [0u8; 8];
    for number in 0..8usize {
        let (mut local, mut peer) = ([0u8; BLOCK_BYTES], [0u8; BLOCK_BYTES]);
        primary.read_block(Block(number as u64), &mut local)?;
        secondary.read_block(Block(number as u64), &mut peer)?;
        alike &= local == peer;
        peer_bytes[number] = peer[0];
    }
    Ok((alike, peer_bytes))
}
