//! The threads of a session.
ghost use Rattle.std.specs.Prelude.{◌≡◌, IfErr};
ghost use Rattle.blocks.specs.declared.refusal.Refusal.TheVariants.{NoMemory};

use crate::shared::Shared;
use blocks::Refusal;
use session_api::{PrimaryHalf, PrimaryRole, Runtime, SecondaryHalf, SecondaryRole};
use std::alloc::Global;
use std::sync::atomic::Ordering;
use std::sync::{Arc, Wait};
use std::thread;
use std::thread::{JoinHandle, Threads};

const PRIMARY_ROLES: [PrimaryRole; 4] = [
    PrimaryRole::Sender,
    PrimaryRole::Receiver,
    PrimaryRole::Disk,
    PrimaryRole::Resync,
];

const SECONDARY_ROLES: [SecondaryRole; 3] = [
    SecondaryRole::Receiver,
    SecondaryRole::Sender,
    SecondaryRole::Disk,
];

/// The running threads of a session. A thread's handle cannot be shared, so they are kept apart from the shared state.
#[derive(Drop)]
pub(crate) struct Workers {
    pub(crate) handles: Vec<JoinHandle<()>>,
}

impl Workers {
    /// Creates the list without threads.
    pub(crate) fn new(alloc: Global) -> Workers {
        Workers {
            handles: Vec::new(alloc),
        }
    }

    /// Starts a thread for each role of both nodes. `NoMemory` (7) if there is no memory, and if a thread cannot be
    /// started; the threads that were started then go on.
    pub(crate) fn start<
        R: Runtime,
        A: PrimaryHalf + Drop + Send + Sync + 'static,
        B: SecondaryHalf + Drop + Send + Sync + 'static,
    >(&mut self, shared: &Arc<Shared<R, A, B>, Global>) -> Result<(), Refusal>
        ensures refused { IfErr result (λ e. e ≡ NoMemory) }
    {
        self.handles
            .try_reserve(PRIMARY_ROLES.len() + SECONDARY_ROLES.len())?;
        for role in PRIMARY_ROLES {
            let worker = Arc::try_clone(shared)?;
            let Ok(handle) = thread::spawn(&shared.rt, move || worker.work_primary(role)) else {
                return Err(Refusal::NoMemory);
            };
            self.handles.push(handle)?;
        }
        for role in SECONDARY_ROLES {
            let worker = Arc::try_clone(shared)?;
            let Ok(handle) = thread::spawn(&shared.rt, move || worker.work_secondary(role)) else {
                return Err(Refusal::NoMemory);
            };
            self.handles.push(handle)?;
        }
        Ok(())
    }

    /// Stops the threads that run, and waits until they end.
    pub(crate) fn stop<R: Threads + Wait, A: PrimaryHalf, B: SecondaryHalf>(
        &mut self,
        shared: &Shared<R, A, B>,
    ) {
        shared.stop.store(true, Ordering::SeqCst);
        shared.ring();
        for _ in 0..self.handles.len() {
            let Some(worker) = self.handles.pop() else {
                break;
            };
            worker.join(&shared.rt);
        }
    }
}
