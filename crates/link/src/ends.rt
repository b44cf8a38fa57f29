//! The two ends of one direction of a link, which carries one connection after another.
ghost use Rattle.std.specs.Prelude.{◌≡◌, ◌<◌, ◌≤◌, ◌↔◌, [], length, true, None, IsErr, IsOk, OnOk, IfOk, OnErr, IfErr, IfSome};
ghost use Rattle.link.specs.Ends.{OutEnd, InEnd, with_sent, with_taken};
ghost use Rattle.link.specs.Past.{ended};
ghost use Rattle.link.specs.Taking.{TakesFirst};
ghost use Rattle.packets.specs.Cutting.{IsCut};
ghost use Rattle.packets.specs.declared.fixed_part.TheConstants.{FIXED_BYTES};
ghost use Rattle.blocks.specs.declared.refusal.Refusal.TheVariants.{LinkFull, NoMemory, NothingThere};

use blocks::Refusal;
use packets::Frame;

/// A frame that a full link did not accept.
#[derive(Drop)]
pub struct Offered {
    /// The frame, as it was offered.
    pub frame: Frame,
}

impl Offered {
    /// Returns why it was not accepted: `LinkFull` (11).
    pub fn refusal(&self) -> Refusal
        ensures { result ≡ LinkFull }
    {
        Refusal::LinkFull
    }
}

/// The sending end of one direction of a link. The frames of a connection arrive at the other end whole and in
/// order.
pub trait FrameOut {
    /// What went through it, and what it can take.
    ghost state: { Self → OutEnd };

    /// Accepts a frame, or hands it back if the link is full (11). The part of it that was sent by then stays on
    /// its way, and the next offer has to be of the same frame. The frame has to be whole, as a reader cuts it from
    /// a byte stream, since a link may carry it as bytes. It takes no memory.
    fn offer(&mut self, frame: Frame) -> Result<(), Offered>
        requires whole { IsCut frame }
        requires again { IfSome (state self.old).partly (λ begun. begun ≡ frame) }

        ensures accepted { OnOk result (state self.new ≡ with_sent frame (state self.old)) }

        // If it knows its room, it refuses a frame exactly if there is none.
        ensures exact { IfSome (state self.old).room (λ n. IsErr result ↔ (n ≡ 0)) }

        ensures handed_back { IfErr result (λ offered. offered.frame ≡ frame) }
        ensures unchanged { OnErr result (state self.new
            ≡ record (state self.old) { partly = (state self.new).partly }) }
        ensures in_part { OnErr result (IfSome (state self.new).partly (λ begun. begun ≡ frame)) };

    /// Begins connection `number`. Gives up a frame that was offered in part. It takes no memory.
    fn restart(&mut self, number: u32)
        requires { (state self.old).number < number }

        ensures sent { (state self.new).sent ≡ [] }
        ensures number { (state self.new).number ≡ number }
        ensures past { (state self.new).past
            ≡ ended (state self.old).number (state self.old).sent (state self.old).past }
        ensures partly { (state self.new).partly ≡ None };
}

/// The receiving end of one direction of a link.
pub trait FrameIn {
    /// What came through it, and what it can give.
    ghost state: { Self → InEnd };

    /// Makes room for the longest frame. `NoMemory` (7) if there is none.
    fn ready(&mut self) -> Result<(), Refusal>
        ensures ready { OnOk result (state self.new ≡ record (state self.old) { is_ready = true }) }
        ensures unchanged { OnErr result (state self.new ≡ state self.old) }
        ensures refused { IfErr result (λ e. e ≡ NoMemory) };

    /// Takes the next frame. `NothingThere` (13) if there is none. It takes no memory.
    fn take(&mut self) -> Result<Frame, Refusal>
        requires { (state self.old).is_ready ≡ true }

        ensures next { IfOk result (λ frame.
            state self.new ≡ with_taken frame (state self.new).is_ready (state self.old)) }

        // If it knows its queue, it takes the first frame of it, and refuses exactly if the queue is empty.
        ensures exact { TakesFirst (state self.old).queued result (state self.new).queued }

        // A frame that is stored inline leaves the room for a longer one.
        ensures still_ready { IfOk result (λ frame. length frame ≤ FIXED_BYTES → (state self.new).is_ready ≡ true) }

        ensures refused { IfErr result (λ e. e ≡ NothingThere) }
        ensures unchanged { OnErr result (state self.new ≡ state self.old) };

    /// Begins connection `number`. Drops what is on its way from earlier connections. It takes no memory.
    fn restart(&mut self, number: u32)
        requires { (state self.old).number < number }

        ensures taken { (state self.new).taken ≡ [] }
        ensures number { (state self.new).number ≡ number }
        ensures past { (state self.new).past
            ≡ ended (state self.old).number (state self.old).taken (state self.old).past }
        ensures ready { (state self.new).is_ready ≡ (state self.old).is_ready };
}
