//! Numbers that look like chance.

/// A fixed sequence of numbers, so that each run finds the same plans.
#[derive(Clone, Copy)]
pub struct Chance {
    state: u64,
}

impl Chance {
    pub fn new(seed: u64) -> Self {
        Chance { state: seed }
    }

    /// The next number below `count`; 0 where that is 0.
    pub fn below(&mut self, count: usize) -> usize {
        self.state = self
            .state
            .wrapping_mul(6_364_136_223_846_793_005)
            .wrapping_add(1_442_695_040_888_963_407);
        let number = (self.state >> 33) as usize;
        if count == 0 { 0 } else { number % count }
    }
}
