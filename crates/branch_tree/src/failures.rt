//! On which nodes were subtrees closed lately?

use step_agenda::node_of;
use ttp_model::{Instance, Leaf, MOST_NODES};

/// How much a closed subtree counts at first.
const ONE: u64 = 1_000_000;

/// Of what those before came to, one part in so many is left out with each subtree that is closed. `layer07` so works
/// a quarter of the subtrees that it worked with the message of fewest rounds first; the lowest node, the highest, and the one with
/// most bytes were each far worse on some of ten instances.
const FADES: u64 = 100;

/// On which nodes subtrees were closed, the later ones counting more: the weights of Boussemart, Hemery, Lecoutre and Sais
/// (ECAI 2004), which fade here.
#[derive(Clone, Copy)]
pub struct Failures {
    counts: [u64; MOST_NODES],
}

impl Failures {
    /// None so far.
    pub fn none() -> Self {
        Failures {
            counts: [0; MOST_NODES],
        }
    }

    /// How much failed on a node lately.
    pub fn at(&self, n: u32) -> u64 {
        let place = n as usize;
        if place < self.counts.len() {
            self.counts[place]
        } else {
            0
        }
    }

    /// Counts a subtree that was closed by the last step of a leaf.
    pub fn note(&mut self, instance: &Instance, leaf: &Leaf) {
        self.fade();
        if let Some(closer) = leaf.steps.as_slice().last()
            && let Some(n) = node_of(instance, closer)
        {
            self.count(n);
        }
    }

    /// All that was counted counts a little less.
    fn fade(&mut self) {
        for place in 0..self.counts.len() {
            self.counts[place] -= self.counts[place] / FADES;
        }
    }

    /// Counts one on a node.
    fn count(&mut self, n: u32) {
        let place = n as usize;
        if place < self.counts.len() {
            self.counts[place] = self.counts[place].saturating_add(ONE);
        }
    }
}
