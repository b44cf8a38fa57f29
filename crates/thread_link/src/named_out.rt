//! The sending end with a name.
ghost use Rattle.std.specs.Prelude.{◌≡◌, ◌<◌, OnOk, OnErr, IfErr, IfSome};
ghost use Rattle.packets.specs.Cutting.{IsCut};
ghost use Rattle.thread_link.specs.Moments.{WasFull};
ghost use Rattle.thread_link.specs.Names.{row_of};
ghost use Rattle.thread_link.specs.Outward.{sending, sending_anew, with_part, with_sent};

use crate::{Named, NoInvariant, RingInvariant, RuledOut};
use link::{FrameOut, Offered};
use packets::Frame;
use std::marker::{Model, PhantomData};
use std::sync::Wait;

/// The sending end of the direction that has this name. No call changes the name.
#[derive(Drop)]
pub struct NamedOut<R: Wait, N: Named, M: RingInvariant = NoInvariant> {
    end: RuledOut<R, M>,
    of: PhantomData<N>,
}

impl<R: Wait, N: Named, M: RingInvariant> Model for NamedOut<R, N, M> {
    ghost use Rattle.std.specs.Prelude.{◌≡◌};
    ghost use Rattle.thread_link.specs.Names.{row_of};
    ghost use Rattle.thread_link.specs.Outward.{OutwardState};

    ghost Value = { OutwardState };

    ghost view = { λ e. e.end };

    ghost invariant = { λ e. e.end.row ≡ row_of N.link N.direction };
}

impl<R: Wait, M: RingInvariant> RuledOut<R, M> {
    /// Gives the end the name of its direction.
    pub fn named<N: Named>(self) -> NamedOut<R, N, M>
        requires { self.row ≡ row_of N.link N.direction }
        ensures { result ≡ self }
    {
        NamedOut {
            end: self,
            of: PhantomData,
        }
    }
}

impl<R: Wait, N: Named, M: RingInvariant> NamedOut<R, N, M> {
    /// Returns the end without its name.
    pub fn into_end(self) -> RuledOut<R, M>
        ensures same { result ≡ self }
        ensures name { result.row ≡ row_of N.link N.direction }
    {
        self.end
    }
}

impl<R: Wait, N: Named, M: RingInvariant> FrameOut for NamedOut<R, N, M> {
    ghost state = { λ e. sending e };

    fn offer(&mut self, frame: Frame) -> Result<(), Offered>
        requires whole { IsCut frame }
        requires again { IfSome self.old.partly (λ begun. begun ≡ frame) }
        ensures accepted { OnOk result (self.new ≡ with_sent frame self.new self.old) }
        ensures handed_back { IfErr result (λ offered. offered.frame ≡ frame) }
        ensures in_part { OnErr result (self.new ≡ with_part frame self.new self.old) }
        ensures full { OnErr result (WasFull M.holds self.new.row self.new.pieces) }
    {
        self.end.offer(frame)
    }

    fn restart(&mut self, number: u32)
        requires { self.old.number < number }
        ensures { self.new ≡ sending_anew number self.old }
    {
        self.end.restart(number);
    }
}
