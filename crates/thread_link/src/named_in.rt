//! The receiving end with a name.
ghost use Rattle.std.specs.Prelude.{◌≡◌, ◌<◌, ◌≤◌, length, true, false, IfOk, OnOk, OnErr, IfErr};
ghost use Rattle.packets.specs.Cutting.{IsCut};
ghost use Rattle.packets.specs.declared.fixed_part.TheConstants.{FIXED_BYTES};
ghost use Rattle.thread_link.specs.Carried.{BeginsNoCut};
ghost use Rattle.thread_link.specs.Moments.{WasEmpty};
ghost use Rattle.thread_link.specs.Inward.{in_hand, is_later, taking, taking_anew, with_popped, with_taken};
ghost use Rattle.thread_link.specs.Names.{row_of};
ghost use Rattle.blocks.specs.declared.refusal.Refusal.TheVariants.{NoMemory, NothingThere};

use crate::{Named, NoInvariant, RingInvariant, RuledIn};
use blocks::Refusal;
use link::FrameIn;
use packets::Frame;
use std::marker::{Model, PhantomData};
use std::sync::Wait;

/// The receiving end of the direction that has this name. No call changes the name.
#[derive(Drop)]
pub struct NamedIn<R: Wait, N: Named, M: RingInvariant = NoInvariant> {
    end: RuledIn<R, M>,
    of: PhantomData<N>,
}

impl<R: Wait, N: Named, M: RingInvariant> Model for NamedIn<R, N, M> {
    ghost use Rattle.std.specs.Prelude.{◌≡◌};
    ghost use Rattle.thread_link.specs.Names.{row_of};
    ghost use Rattle.thread_link.specs.Inward.{InwardState};

    ghost Value = { InwardState };

    ghost view = { λ e. e.end };

    ghost invariant = { λ e. e.end.row ≡ row_of N.link N.direction };
}

impl<R: Wait, M: RingInvariant> RuledIn<R, M> {
    /// Gives the end the name of its direction.
    pub fn named<N: Named>(self) -> NamedIn<R, N, M>
        requires { self.row ≡ row_of N.link N.direction }
        ensures { result ≡ self }
    {
        NamedIn {
            end: self,
            of: PhantomData,
        }
    }
}

impl<R: Wait, N: Named, M: RingInvariant> NamedIn<R, N, M> {
    /// Returns the end without its name.
    pub fn into_end(self) -> RuledIn<R, M>
        ensures same { result ≡ self }
        ensures name { result.row ≡ row_of N.link N.direction }
    {
        self.end
    }
}

impl<R: Wait, N: Named, M: RingInvariant> FrameIn for NamedIn<R, N, M> {
    ghost state = { λ e. taking e };

    fn ready(&mut self) -> Result<(), Refusal>
        ensures ready { OnOk result (self.new ≡ record self.old { is_ready = true }) }
        ensures unchanged { OnErr result (self.new ≡ self.old) }
        ensures refused { IfErr result (λ e. e ≡ NoMemory) }
    {
        self.end.ready()
    }

    fn take(&mut self) -> Result<Frame, Refusal>
        requires { self.old.is_ready ≡ true }
        ensures next { IfOk result (λ frame. self.new ≡ with_taken frame self.new self.old) }
        ensures cut { IfOk result (λ frame. IsCut frame) }
        ensures still_ready { IfOk result (λ frame. length frame ≤ FIXED_BYTES → self.new.is_ready ≡ true) }
        ensures refused { IfErr result (λ e. e ≡ NothingThere) }
        // The bytes then in hand begin with no whole frame.
        ensures nothing { OnErr result (BeginsNoCut (in_hand self.new)) }
        // The row was empty at a moment, unless a piece of a later connection is in hand.
        ensures empty { OnErr result (is_later self.new.number self.new.rest ≡ false → WasEmpty M.holds self.new.pieces) }
        ensures unchanged { OnErr result (self.new ≡ with_popped self.new self.old) }
    {
        self.end.take()
    }

    fn restart(&mut self, number: u32)
        requires { self.old.number < number }
        ensures { self.new ≡ taking_anew number self.old }
    {
        self.end.restart(number);
    }
}
