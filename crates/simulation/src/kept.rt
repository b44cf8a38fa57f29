//! The kept nodes as nodes of the simulation.
use crate::event::Step;
use crate::machine::{NodeDisk, NodeFile};
use crate::nodes::{Left, PrimaryNode, PrimaryState, SecondaryNode};
use crate::wire::{WireIn, WireOut};
use crate::world::World;
use bitmap::Bitmap;
use blocks::{ConnectionWords, Done, Refusal, Tuple};
use bytes::Bytes;
use kept_nodes::{KeptPrimary, KeptSecondary};
use metadata::Metadata;
use primary::CompletionKind;
use session_nodes::Unknown;
use std::alloc::Global;

/// The primary of a simulation.
pub(crate) type Primary = KeptPrimary<Unknown, WireOut, WireIn, NodeDisk, NodeFile>;

/// The secondary of a simulation.
pub(crate) type Secondary = KeptSecondary<Unknown, WireOut, WireIn, NodeDisk, NodeFile>;

impl PrimaryNode for Primary {
    fn open(
        world: &World,
        identifiers: Tuple,
        marks: Bitmap,
        words: ConnectionWords,
        metadata: Metadata<NodeFile>,
    ) -> Option<Primary> {
        let settings = world.plan.settings;
        match world.local.node_disk(settings.blocks) {
            Ok(disk) => match world.wire.primary_ends() {
                Ok(ends) => KeptPrimary::open(
                    world.alloc,
                    settings,
                    disk,
                    identifiers,
                    marks,
                    ends,
                    words,
                    Some(metadata),
                )
                .ok(),
                Err(_) => None,
            },
            Err(_) => None,
        }
    }

    fn submit(&mut self, first: u64, bytes: &Bytes) -> bool {
        KeptPrimary::submit(self, first, bytes).is_ok()
    }

    fn read(&mut self, first: u64, count: u64) -> Option<Vec<u8>> {
        KeptPrimary::read(self, first, count).ok()
    }

    fn step(&mut self, step: Step) -> Result<Done, Refusal> {
        match step {
            Step::Send => self.send(),
            Step::AckIn => self.ack_in(),
            Step::WriteNext => self.write_next(),
            _ => self.resync_next(),
        }
    }

    fn take_completed(&mut self, number: u64) -> Result<bool, Refusal> {
        match KeptPrimary::take_completed(self, number) {
            Ok(receipt) => Ok(receipt.kind() == CompletionKind::Linked),
            Err(refusal) => Err(refusal),
        }
    }

    fn close(&mut self) {
        let _ = KeptPrimary::close(self);
    }

    fn reopen(&mut self, words: ConnectionWords) -> Option<u32> {
        KeptPrimary::reopen(self, words).ok()
    }

    fn prepare_leaving(&mut self, most: u64) -> u64 {
        KeptPrimary::prepare_leaving(self, most)
    }

    fn leave_prepared(&mut self) -> u64 {
        KeptPrimary::leave_prepared(self)
    }

    fn state(&self) -> PrimaryState {
        let progress = self.progress();
        let node = self.node().node();
        PrimaryState {
            is_open: node.is_open(),
            is_established: node.is_established(),
            is_broken: progress.is_metadata_broken,
            connection: node.connection_number(),
            released: progress.released,
            marks: u64::from(progress.marks),
        }
    }

    fn into_left(self, alloc: Global) -> Option<Left> {
        let marks = self.node().node().bitmap().copy(alloc).ok();
        let (node, metadata) = self.into_parts();
        drop(node.into_store());
        match metadata {
            Some(metadata) if !metadata.is_broken() => Some(Left { metadata, marks }),
            _ => None,
        }
    }
}

impl SecondaryNode for Secondary {
    fn open(
        world: &World,
        identifiers: Tuple,
        is_doubted: bool,
        metadata: Metadata<NodeFile>,
    ) -> Option<Secondary> {
        let settings = world.plan.settings;
        match world.peer.node_disk(settings.blocks) {
            Ok(disk) => match world.wire.secondary_ends() {
                Ok(ends) => KeptSecondary::open(
                    world.alloc,
                    settings,
                    disk,
                    identifiers,
                    ends,
                    Some(metadata),
                    is_doubted,
                )
                .ok(),
                Err(_) => None,
            },
            Err(_) => None,
        }
    }

    fn step(&mut self, step: Step) -> Result<Done, Refusal> {
        match step {
            Step::Receive => self.receive(),
            Step::ApplyNext => self.apply_next(),
            _ => self.ack_out(),
        }
    }

    fn close(&mut self) {
        let _ = KeptSecondary::close(self);
    }

    fn may_reopen(&self) -> bool {
        self.progress().may_reopen()
    }

    fn reopen(&mut self, number: u32) -> bool {
        KeptSecondary::reopen(self, number).is_ok()
    }

    fn is_open(&self) -> bool {
        self.node().node().is_open()
    }

    fn into_left(self) -> Option<Metadata<NodeFile>> {
        let (node, metadata, _) = self.into_parts();
        drop(node.into_store());
        match metadata {
            Some(metadata) if !metadata.is_broken() => Some(metadata),
            _ => None,
        }
    }
}
