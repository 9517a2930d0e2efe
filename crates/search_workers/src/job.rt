//! What does a worker begin with?

use incumbent::Watch;
use steal_pool::{Hand, Searched};

/// What a worker begins with.
#[derive(Drop)]
pub struct Job<J: Searched> {
    pub hand: Hand<J>,
    pub watch: Watch,
    /// How many tasks it works at most.
    pub budget: u64,
    /// How many workers there are.
    pub workers: usize,
}
