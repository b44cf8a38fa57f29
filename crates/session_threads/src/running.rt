//! A session from its start to its end.
ghost use Rattle.std.specs.Prelude.{◌≡◌, true, IfErr};
ghost use Rattle.blocks.specs.declared.refusal.Refusal.TheVariants.{NoMemory, NotDrained};
ghost use Rattle.model.specs.CallRefusals.{hello_refuses, streams_hello_refuses};

use crate::SharedSession;
use crate::carriers::{Carrier, Rows, TO_PRIMARY, TO_SECONDARY};
use crate::shared::{Shared, Transport};
use crate::way::{Sink, Source, Way, Ways};
use crate::workers::Workers;
use blocks::Refusal;
use session_api::{PrimaryHalf, Runtime, SecondaryHalf};
use std::alloc::Global;
use std::sync::{Arc, Wait};
use std::thread::Threads;

/// A running session: the mirror that callers share, and its threads.
#[derive(Drop)]
pub struct Running<R: Threads + Wait + Drop, A: PrimaryHalf + Drop, B: SecondaryHalf + Drop> {
    mirror: SharedSession<R, A, B>,
    workers: Workers,
}

impl<
    R: Runtime,
    A: PrimaryHalf + Drop + Send + Sync + 'static,
    B: SecondaryHalf + Drop + Send + Sync + 'static,
> Running<R, A, B> {
    /// Starts a session of two halves over one link that have sent nothing yet: exchanges the hellos, and starts the
    /// threads. If it `is_cut`, the link is cut between the two.
    ///
    /// The refusals are those of the hello (30 to 33), and `NoMemory` (7) if there is no memory, or if a thread cannot
    /// be started. Then nothing runs, and both halves are dropped. Of halves over one link no other comes; the contract,
    /// which sees each half by itself, says besides that 11, 12, 13, 18, 20 to 25, 34 and 35 may (`hello_refuses`).
    pub fn start(
        rt: R,
        alloc: Global,
        primary: A,
        secondary: B,
        is_cut: bool,
    ) -> Result<Running<R, A, B>, Refusal>
        ensures refused { IfErr result (λ e. hello_refuses e ≡ true) }
    {
        let mut running = Running::idle(rt, alloc, primary, secondary, Transport::Link)?;
        match running.begin(is_cut) {
            Ok(()) => Ok(running),
            Err(refusal) => {
                running.stop();
                Err(refusal)
            }
        }
    }

    /// Starts a session of two halves whose rows are carried over two ways by pumps at these ends: starts a pump at
    /// each end of a way, exchanges the hellos, and starts the threads. If it `is_cut`, the link is cut after the hellos. A
    /// pump that ends drops its writer or reader, and then both ends of the link close.
    ///
    /// The refusals are those of `start`, `NotConnected` (12) if a way ends during the hello, and 20 to 25, 34 or 35 if
    /// foreign bytes arrive over it. Then nothing runs, and all that was handed over is dropped. The contract says besides
    /// that 18 may come, and no other (`streams_hello_refuses`).
    pub fn start_over<W: Sink, D: Source, V: Sink, E: Source>(
        rt: R,
        alloc: Global,
        primary: A,
        secondary: B,
        rows: Rows<R>,
        ways: Ways<Way<W, D>, Way<V, E>>,
        is_cut: bool,
    ) -> Result<Running<R, A, B>, Refusal>
        ensures refused { IfErr result (λ e. streams_hello_refuses e ≡ true) }
    {
        let mut running = Running::idle(rt, alloc, primary, secondary, Transport::Streams)?;
        match running.begin_over(rows, ways, is_cut) {
            Ok(()) => Ok(running),
            Err(refusal) => {
                running.stop();
                Err(refusal)
            }
        }
    }

    // Creates a session of both halves that has no thread yet.
    fn idle(
        rt: R,
        alloc: Global,
        primary: A,
        secondary: B,
        transport: Transport,
    ) -> Result<Running<R, A, B>, Refusal>
        ensures refused { IfErr result (λ e. e ≡ NoMemory) }
    {
        let shared = Arc::new(alloc, Shared::new(rt, primary, secondary, transport))?;
        Ok(Running {
            mirror: SharedSession { alloc, shared },
            workers: Workers::new(alloc),
        })
    }

    // Exchanges the hellos, and starts the threads.
    fn begin(&mut self, is_cut: bool) -> Result<(), Refusal>
        ensures refused { IfErr result (λ e. hello_refuses e ≡ true) }
    {
        self.mirror.shared.greet()?;
        self.work(is_cut)
    }

    // Starts the threads of both nodes. No thread has sent anything of the stream when the link is cut.
    fn work(&mut self, is_cut: bool) -> Result<(), Refusal>
        ensures refused { IfErr result (λ e. e ≡ NoMemory) }
    {
        let shared = &self.mirror.shared;
        if is_cut {
            shared.cut();
        }
        self.workers.start(shared)
    }

    // Starts the pumps, exchanges the hellos, and starts the threads of both nodes.
    fn begin_over<W: Sink, D: Source, V: Sink, E: Source>(
        &mut self,
        rows: Rows<R>,
        ways: Ways<Way<W, D>, Way<V, E>>,
        is_cut: bool,
    ) -> Result<(), Refusal>
        ensures refused { IfErr result (λ e. streams_hello_refuses e ≡ true) }
    {
        let Ways {
            to_secondary,
            to_primary,
        } = ways;
        let Rows { primary, secondary } = rows;
        let carrier = Carrier::start(self.mirror.alloc, &mut self.workers, &self.mirror.shared)?;
        let shared = &self.mirror.shared;
        let workers = &mut self.workers;
        let outward = (primary.leaving, secondary.coming);
        let inward = (secondary.leaving, primary.coming);
        carrier.start_way(workers, shared, TO_SECONDARY, outward, to_secondary)?;
        carrier.start_way(workers, shared, TO_PRIMARY, inward, to_primary)?;
        drop(carrier);
        shared.greet_over_ways()?;
        self.work(is_cut)
    }
}

impl<R: Runtime, A: PrimaryHalf + Drop, B: SecondaryHalf + Drop> Running<R, A, B> {
    /// Returns the mirror, which any number of threads may share.
    pub fn mirror(&self) -> &SharedSession<R, A, B> {
        &self.mirror
    }

    /// Ends the session: closes both ends, lets the disks finish all pending work, stops the threads, and returns both
    /// halves. `NotDrained` (36) if a thread still shares them.
    pub fn finish(self) -> Result<(A, B), Refusal>
        ensures refused { IfErr result (λ e. e ≡ NotDrained) }
    {
        let mut running = self;
        running.mirror.shared.cut();
        running.mirror.shared.finish_disks();
        running.stop();
        let Running { mirror, workers } = running;
        drop(workers);
        let shared = Arc::into_inner(mirror.shared).ok_or(Refusal::NotDrained)?;
        let Shared {
            primary,
            secondary,
            ..
        } = shared;
        Ok((primary, secondary))
    }

    // Stops the threads that run, and waits until they end.
    fn stop(&mut self) {
        self.workers.stop(&self.mirror.shared);
    }
}
