//! The acknowledgements of a connection that are due.
ghost use Rattle.std.specs.Prelude.{ℕ, ◌≡◌, ◌+◌, ◌<◌, ◌≤◌, ◌++◌, ◌∷◌, [], Some, None, drop, length, nat_le, option_to_list, slice_get, false, MatchOption};
ghost use Rattle.std.specs.Prelude.{OnOk, IfErr, IfSome};
ghost use Rattle.packets.specs.Spelling.{IsSpellable};
ghost use Rattle.packets.specs.Table.{has_blocks};
ghost use Rattle.endpoint.specs.Meaning.{meaning};
ghost use Rattle.secondary_protocol.specs.Core.{answers, is_applied_to};
ghost use Rattle.secondary_core.specs.Outboxes.{begun, acknowledging};
ghost use Rattle.blocks.specs.declared.refusal.Refusal.TheVariants.{NoMemory};

use crate::answer::{AckKind, DueAck};
use crate::item::PendingItem;
use blocks::Refusal;
use packets::Packet;
use peerdisk::PeerDisk;
use std::alloc::Global;
use std::collections::VecDeque;
use std::marker::Model;

/// The most acknowledgements that one item asks for: one when it is taken, and one when it is applied.
const ANSWERS: usize = 2;

/// The acknowledgements that are due and not sent, in order. For the epochs that a barrier ended: how many of them
/// are acknowledged or have their acknowledgement due, and how many writes each of the others has. The numbers of
/// epochs fit in 32 bits.
#[derive(Drop)]
pub(crate) struct Outbox {
    due: VecDeque<DueAck>,
    answered: u32,
    sizes: VecDeque<u32>,
}

impl Model for Outbox {
    ghost use Rattle.secondary_core.specs.Outboxes.{OutboxState, outbox_of, IsOutbox};

    ghost Value = { OutboxState };

    ghost view = { outbox_of };

    ghost invariant = { IsOutbox };
}

impl Outbox {
    /// Creates an outbox with nothing due and no epoch ended. It takes no memory.
    pub(crate) fn new(alloc: Global) -> Outbox
        ensures { result ≡ begun result.answers result.epochs }
    {
        Outbox {
            due: VecDeque::new(alloc),
            answered: 0,
            sizes: VecDeque::new(alloc),
        }
    }

    /// Makes room for the answers to `pending` items and to the next one. `NoMemory` (7) if there
    /// is no memory.
    pub(crate) fn reserve(&mut self, pending: usize) -> Result<(), Refusal>
        requires { pending ≤ 4096 }
        ensures same { self.new ≡ record self.old { answers = self.new.answers; epochs = self.new.epochs } }
        ensures answers { self.old.answers ≤ self.new.answers }
        ensures sizes { self.old.epochs ≤ self.new.epochs }
        ensures room { OnOk result (length self.new.due + length self.new.sizes + pending + 2 ≤ self.new.answers) }
        ensures epochs { OnOk result (length self.new.sizes < self.new.epochs) }
        ensures refused { IfErr result (λ e. e ≡ NoMemory) }
    {
        self.due.reserve(self.sizes.len() + pending + ANSWERS)?;
        self.sizes.reserve(1)?;
        Ok(())
    }

    /// Appends an acknowledgement, if there is one.
    pub(crate) fn push(&mut self, answer: Option<DueAck>)
        requires { length self.old.due + length (option_to_list answer) ≤ self.old.answers }
        ensures { self.new ≡ record self.old { due = self.old.due ++ option_to_list answer } }
    {
        if let Some(answer) = answer {
            self.due.push_back_reserved(answer);
        }
    }

    /// Records that a barrier ended an epoch of `writes` writes.
    pub(crate) fn ended(&mut self, writes: u32)
        requires room { length self.old.sizes < self.old.epochs }
        requires fits { self.old.answered + length self.old.sizes < 4294967295 }
        ensures { self.new ≡ record self.old { sizes = self.old.sizes ++ writes ∷ [] } }
    {
        self.sizes.push_back_reserved(writes);
    }

    /// Appends the acknowledgement of each epoch up to whose end all items are applied.
    pub(crate) fn answer(&mut self, disk: &PeerDisk<PendingItem>)
        requires { length self.old.due + length self.old.sizes ≤ self.old.answers }
        ensures answered { self.new ≡ acknowledging disk.now.pending self.old }
        ensures all { answers disk.now.pending self.new.answered self.new.sizes ≡ [] }
    {
        let applied = last_applied(disk);
        while self.answered < applied {
            let Some(writes) = self.sizes.pop_front() else {
                return;
            };
            self.answered += 1;
            self.due.push_back_reserved(DueAck::new(AckKind::Whole {
                epoch: self.answered,
                writes,
            }));
        }
    }

    /// Returns the packet of the oldest acknowledgement that is due, if there is one. It has no blocks.
    pub(crate) fn next(&self) -> Option<Packet>
        ensures due { MatchOption result (slice_get self.now.due 0 ≡ None) (λ packet. (slice_get self.now.due 0 ≡ Some (meaning packet)) × IsSpellable packet) }
        ensures inline { IfSome result (λ packet. has_blocks packet ≡ false) }
    {
        Some(self.due.front()?.packet())
    }

    /// Removes the oldest acknowledgement.
    pub(crate) fn pop(&mut self)
        ensures { self.new ≡ record self.old { due = drop 1 self.old.due } }
    {
        self.due.pop_front();
    }
}

// Returns the last epoch up to whose end all items are applied.
fn last_applied(disk: &PeerDisk<PendingItem>) -> u32
    ensures { (epoch : ℕ) → 0 < epoch → epoch < 4294967296 → is_applied_to disk.now.pending epoch ≡ nat_le epoch result }
{
    match disk.first_epoch() {
        Some(first) => first.saturating_sub(1),
        None => u32::MAX,
    }
}
