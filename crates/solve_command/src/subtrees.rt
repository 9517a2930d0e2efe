//! How many subtrees of a search are open?

use std::sync::atomic::{AtomicU64, Ordering};

/// How many subtrees are known, the whole tree and the children of each branch, and how many of these are worked.
#[derive(Drop)]
pub struct Subtrees {
    known: AtomicU64,
    worked: AtomicU64,
}

impl Subtrees {
    /// The whole tree is known, and nothing of it is worked.
    pub fn begin() -> Self {
        Subtrees {
            known: AtomicU64::new(1),
            worked: AtomicU64::new(0),
        }
    }

    /// Begins anew.
    pub fn begin_again(&self) {
        self.known.store(1, Ordering::SeqCst);
        self.worked.store(0, Ordering::SeqCst);
    }

    /// One is worked, and has so many children.
    pub fn work(&self, children: u32) {
        self.known.fetch_add(u64::from(children), Ordering::SeqCst);
        self.worked.fetch_add(1, Ordering::SeqCst);
    }

    /// How many are worked.
    pub fn worked(&self) -> u64 {
        self.worked.load(Ordering::SeqCst)
    }

    /// How many are known and not worked yet, also where a proof does without them.
    pub fn open(&self) -> u64 {
        let worked = self.worked();
        self.known.load(Ordering::SeqCst).saturating_sub(worked)
    }
}
