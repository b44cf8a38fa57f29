//! What a server has done since it began.
use crate::latencies::CountedLatencies;
use primary::{CompletionKind, Receipt};
use serve_page::ReceiptCounts;
use std::sync::atomic::{AtomicU64, Ordering};

/// What a server has done since it began, through all of its sessions.
#[derive(Drop)]
pub(crate) struct Counts {
    /// How long the requests of clients took.
    pub(crate) latencies: CountedLatencies,
    // Receipts of either kind.
    linked: AtomicU64,
    alone: AtomicU64,
}

impl Counts {
    /// Creates the counts of a server that has done nothing yet.
    pub(crate) fn new() -> Counts {
        Counts {
            latencies: CountedLatencies::new(),
            linked: AtomicU64::new(0),
            alone: AtomicU64::new(0),
        }
    }

    /// Counts these receipts.
    pub(crate) fn note_receipts(&self, receipts: &[Receipt]) {
        let mut linked = 0u64;
        let mut alone = 0u64;
        for receipt in receipts {
            match receipt.kind() {
                CompletionKind::Linked => linked = linked.saturating_add(1),
                CompletionKind::Alone => alone = alone.saturating_add(1),
            }
        }
        self.linked.fetch_add(linked, Ordering::SeqCst);
        self.alone.fetch_add(alone, Ordering::SeqCst);
    }

    /// Returns how many receipts of either kind there were.
    pub(crate) fn receipts(&self) -> ReceiptCounts {
        ReceiptCounts {
            linked: self.linked.load(Ordering::SeqCst),
            alone: self.alone.load(Ordering::SeqCst),
        }
    }
}
