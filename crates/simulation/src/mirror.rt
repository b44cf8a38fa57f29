//! The world with the nodes that run in it.
use crate::broken::Stopped;
use crate::event::Node;
use crate::nodes::{PrimaryNode, SecondaryNode};
use crate::plan::Plan;
use crate::starting;
use crate::world::World;
use std::alloc::Global;

/// The world with the nodes that run in it.
#[derive(Drop)]
pub(crate) struct Mirror<P: PrimaryNode, S: SecondaryNode> {
    pub(crate) world: World,
    pub(crate) primary: Option<P>,
    pub(crate) secondary: Option<S>,
}

impl<P: PrimaryNode, S: SecondaryNode> Mirror<P, S> {
    /// Returns the world of a plan, in which no node runs, over disks that were never written. An error if there is no memory.
    pub(crate) fn new(alloc: Global, plan: Plan) -> Result<Mirror<P, S>, Stopped> {
        let world = World::new(alloc, plan)?;
        starting::make_metadata(&world);
        Ok(Mirror {
            world,
            primary: None,
            secondary: None,
        })
    }

    /// Returns whether both nodes run.
    pub(crate) fn are_running(&self) -> bool {
        self.primary.is_some() && self.secondary.is_some()
    }

    /// Returns whether the primary runs, and no call of its metadata file has failed.
    pub(crate) fn is_kept(&self) -> bool {
        match &self.primary {
            Some(primary) => !primary.state().is_broken,
            None => false,
        }
    }

    /// Has a node close its end, if it is open.
    pub(crate) fn close(&mut self, node: Node) {
        match node {
            Node::Primary => {
                if let Some(primary) = &mut self.primary {
                    primary.close();
                }
            }
            Node::Secondary => {
                if let Some(secondary) = &mut self.secondary {
                    secondary.close();
                }
            }
        }
    }

    /// Takes down the nodes whose process has stopped.
    pub(crate) fn bury(&mut self) {
        if self.world.local.process.is_stopped() && self.primary.is_some() {
            self.primary = None;
            self.world.lose_clients();
        }
        if self.world.peer.process.is_stopped() && self.secondary.is_some() {
            self.secondary = None;
            self.world.wire.cut(0, u64::MAX);
        }
    }
}
