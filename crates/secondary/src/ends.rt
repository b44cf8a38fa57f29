//! Both sides of a node's link.
ghost use Rattle.std.specs.Prelude.{◌≡◌};
ghost use Rattle.std.specs.Option.{option_copied};

use crate::Secondary;
use blocks::Store;
use endpoint::{PacketReceiver, PacketSender};
use link::{FrameIn, FrameOut};

impl<O: FrameOut + Drop, I: FrameIn + Drop, S: Store + Drop> Secondary<O, I, S> {
    /// Returns the sending side of the link, if the node was opened.
    pub fn outgoing(&self) -> Option<&PacketSender<O>>
        ensures { option_copied result ≡ self.now.outgoing }
    {
        self.outgoing.as_ref()
    }

    /// Returns the receiving side of the link, if the node was opened.
    pub fn incoming(&self) -> Option<&PacketReceiver<I>>
        ensures { option_copied result ≡ self.now.incoming }
    {
        self.incoming.as_ref()
    }
}
