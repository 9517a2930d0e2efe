//! What stays of a part of the tree?

use crate::levels::Levels;
use tt_choice::Decision;
use ttp_model::Kind;

/// A node with what stands below it, once it was gone through.
#[derive(Drop)]
pub struct Part {
    /// The node's place among the nodes.
    pub from: usize,
    /// The place behind the last one below it.
    pub to: usize,
    /// How many nodes stay.
    pub stays: usize,
    /// The branches above it that those use.
    pub used: Levels,
}

/// A branch that was entered and isn't gone through yet.
#[derive(Drop)]
pub struct EnteredBranch {
    pub from: usize,
    pub kind: Kind,
    /// The children that are still to come, with the one that is gone through.
    pub left: u32,
    /// What leads to the child that is gone through.
    pub decision: Option<Decision>,
    /// The place behind the children that were gone through.
    pub to: usize,
    /// How many nodes stay of those children.
    pub stays: usize,
    /// The levels that they use.
    pub used: Levels,
    /// A child that doesn't use what leads to it: the one with the fewest nodes.
    pub free: Option<Part>,
}

impl EnteredBranch {
    /// Takes in a child that was gone through, of the branch at this level.
    pub fn take(&mut self, level: u32, child: Part) {
        self.left = self.left.saturating_sub(1);
        self.to = child.to;
        self.stays = self.stays.saturating_add(child.stays);
        if child.used.contains(level) {
            self.used.join(&child.used);
        } else if self.is_fewer(&child) {
            self.free = Some(child);
        }
    }

    /// Whether fewer nodes stay of a child than of the one that could stand in the branch's place.
    fn is_fewer(&self, child: &Part) -> bool {
        match &self.free {
            Some(free) => child.stays < free.stays,
            None => true,
        }
    }
}
