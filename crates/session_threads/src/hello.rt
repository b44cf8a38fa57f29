//! The hello exchange of a session.
ghost use Rattle.std.specs.Prelude.{◌≡◌, true, IfErr};
ghost use Rattle.model.specs.CallRefusals.{hello_refuses, streams_hello_refuses};

use crate::shared::Shared;
use blocks::{Done, Refusal};
use session_api::{PrimaryHalf, SecondaryHalf};
use std::sync::Wait;
use std::time::Clock;

/// The steps that carry one frame in each direction, in order.
#[derive(Clone, Copy, Debug, PartialEq, Eq)]
enum HelloStep {
    Send,
    Receive,
    AckOut,
    AckIn,
}

const STEPS: [HelloStep; 4] = [
    HelloStep::Send,
    HelloStep::Receive,
    HelloStep::AckOut,
    HelloStep::AckIn,
];

/// Frames of the hello in each direction.
const FRAMES: u32 = 3;

impl<R: Wait, A: PrimaryHalf, B: SecondaryHalf> Shared<R, A, B> {
    /// Exchanges the hellos of both ends over a link. Stops at the first refusal.
    pub(crate) fn greet(&self) -> Result<(), Refusal>
        ensures refused { IfErr result (λ e. hello_refuses e ≡ true) }
    {
        for _ in 0..FRAMES {
            for step in STEPS {
                self.step(step)?;
            }
        }
        Ok(())
    }

    // Does a step of the hello.
    fn step(&self, step: HelloStep) -> Result<Done, Refusal>
        ensures refused { IfErr result (λ e. hello_refuses e ≡ true) }
    {
        match step {
            HelloStep::Send => self.primary.send(),
            HelloStep::Receive => self.secondary.receive(),
            HelloStep::AckOut => self.secondary.ack_out(),
            HelloStep::AckIn => self.primary.ack_in(),
        }
    }
}

impl<R: Wait + Clock, A: PrimaryHalf, B: SecondaryHalf> Shared<R, A, B> {
    /// Exchanges the hellos of both ends while pumps carry their frames: waits until each step can be done. Stops at
    /// the first refusal other than `LinkFull` (11) and `NothingThere` (13).
    pub(crate) fn greet_over_ways(&self) -> Result<(), Refusal>
        ensures refused { IfErr result (λ e. streams_hello_refuses e ≡ true) }
    {
        for _ in 0..FRAMES {
            for step in STEPS {
                self.await_step(step)?;
            }
        }
        Ok(())
    }

    // Does a step of the hello, once it can be done.
    fn await_step(&self, step: HelloStep) -> Result<(), Refusal>
        ensures refused { IfErr result (λ e. streams_hello_refuses e ≡ true) }
    {
        let (bell, sent) = match step {
            HelloStep::Send => (self.primary.work_bell(), Some(self.primary.pump_bell())),
            HelloStep::Receive => (self.secondary.work_bell(), None),
            HelloStep::AckOut => (self.secondary.work_bell(), Some(self.secondary.pump_bell())),
            HelloStep::AckIn => (self.primary.work_bell(), None),
        };
        let mut looks = 0u32;
        for _ in self.rt.forever() {
            let rings = bell.rings();
            match self.step(step) {
                Err(Refusal::LinkFull | Refusal::NothingThere) => {
                    bell.wait(&self.rt, rings, looks);
                    looks = looks.saturating_add(1);
                }
                Err(refusal) => return Err(refusal),
                Ok(_) => {
                    if let Some(sent) = sent {
                        sent.ring_one(&self.rt);
                    }
                    return Ok(());
                }
            }
        }
        unreachable!()
    }
}
