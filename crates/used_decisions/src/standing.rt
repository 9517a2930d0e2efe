//! What stands in a tree?

use certificate::Node;
use search_trees::Name;
use std::cmp::Ordering;
use ttp_model::MemoryFault;

/// A node of a tree that a search made, or a subtree that it left, and where that stands.
#[derive(Clone, Copy)]
pub struct Standing<'a> {
    pub name: &'a Name,
    /// None of a subtree that was left.
    pub node: Option<&'a Node>,
}

impl<'a> Standing<'a> {
    /// Compares the names.
    fn compare(&self, other: &Standing<'a>) -> Ordering {
        self.name.cmp(other.name)
    }
}

/// Puts each in front of what stands below it, in the order of children: in one pass where they stand so but for some runs, as a
/// worker makes them.
pub fn sort_by_name(standing: &mut Vec<Standing>) -> Result<(), MemoryFault> {
    standing.sort_by(|a, b| a.compare(b))?;
    Ok(())
}
