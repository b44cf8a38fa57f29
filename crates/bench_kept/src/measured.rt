//! The primary that is measured, and the secondary that it has its first connection with.
//!
//! What is measured knows its nodes by these traits alone, so that it proves nothing of what they hold.
use blocks::{Extent, Refusal, Store};
use bytes::Bytes;
use kept_nodes::{KeptPrimary, KeptSecondary};
use link::{FrameIn, FrameOut};
use metadata::StableFile;
use session_nodes::Unknown;

/// A primary that is measured.
pub(crate) trait MeasuredPrimary {
    /// Has it accept a write and perform it, and takes its receipt.
    fn write(&mut self, first: u64, contents: &Bytes) -> Result<(), Refusal>;

    /// Returns how many extents are entered in its metadata; 0 if it has none.
    fn entered_extents(&self) -> u64;

    /// Sends and takes a frame, if it can.
    fn exchange(&mut self);

    /// Closes its end, if it is open.
    fn close(&mut self);

    /// Ends it.
    fn end(self);
}

/// The secondary that it has its first connection with.
pub(crate) trait FirstPeer {
    /// Takes and sends a frame, if it can.
    fn exchange(&mut self);

    /// Ends it.
    fn end(self);
}

impl<O: FrameOut + Drop, I: FrameIn + Drop, S: Store + Drop, F: StableFile> MeasuredPrimary
    for KeptPrimary<Unknown, O, I, S, F> {
    fn write(&mut self, first: u64, contents: &Bytes) -> Result<(), Refusal> {
        let (number, _) = self.submit(first, contents)?;
        self.write_next()?;
        self.take_completed(number)?;
        Ok(())
    }

    fn entered_extents(&self) -> u64 {
        let Some(metadata) = self.metadata() else {
            return 0;
        };
        let mut entered = 0u64;
        for number in 0..metadata.extents() {
            if metadata.is_entered(Extent(number)) {
                entered = entered.saturating_add(1);
            }
        }
        entered
    }

    fn exchange(&mut self) {
        let _ = self.send();
        let _ = self.ack_in();
    }

    fn close(&mut self) {
        let _ = KeptPrimary::close(self);
    }

    fn end(self) {
        drop(self.into_parts().0.into_store());
    }
}

impl<O: FrameOut + Drop, I: FrameIn + Drop, S: Store + Drop, F: StableFile> FirstPeer
    for KeptSecondary<Unknown, O, I, S, F> {
    fn exchange(&mut self) {
        let _ = self.receive();
        let _ = self.ack_out();
    }

    fn end(self) {
        drop(self.into_parts().0.into_store());
    }
}
