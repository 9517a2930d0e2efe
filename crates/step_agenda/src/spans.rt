//! In which intervals is more to be served than there is room for?

use std::alloc::Global;
use ttp_model::MemoryFault;

/// So much is to be served from one time, or round, until another.
#[derive(Clone, Copy)]
struct Span {
    from: u32,
    until: u32,
    size: u64,
}

/// From when until when: ticks, or rounds.
#[derive(Clone, Copy)]
pub struct Interval {
    pub from: u32,
    pub until: u32,
}

/// What one node has to serve, and the intervals in which that is too much, in memory that is used again.
#[derive(Drop)]
pub struct Spans {
    items: Vec<Span>,
    overfull: Vec<Interval>,
}

impl Spans {
    /// Nothing is to be served.
    pub fn none(alloc: Global) -> Self {
        Spans {
            items: Vec::new(alloc),
            overfull: Vec::new(alloc),
        }
    }

    /// Nothing is to be served any more.
    pub fn clear(&mut self) {
        self.items.clear();
    }

    /// One more.
    pub fn add(&mut self, from: u32, until: u32, size: u64) -> Result<(), MemoryFault> {
        self.items.push(Span { from, until, size })?;
        Ok(())
    }

    /// Finds the intervals in which there is more for two or more than so much for each tick, or round: from the begin of one of them
    /// until the end of another. For each of them one pass over all.
    pub fn find_overfull(&mut self, rate: u64) -> Result<(), MemoryFault> {
        self.overfull.clear();
        self.items
            .as_mut_slice()
            .sort_unstable_by_key(|span| span.until);
        add_overfull(self.items.as_slice(), rate, &mut self.overfull)
    }

    /// Those that were found.
    pub fn overfull(&self) -> &[Interval] {
        self.overfull.as_slice()
    }
}

/// Adds the intervals with too much of these, which are handed in by their ends.
fn add_overfull(
    items: &[Span],
    rate: u64,
    overfull: &mut Vec<Interval>,
) -> Result<(), MemoryFault> {
    for span in items {
        add_overfull_from(items, rate, span.from, overfull)?;
    }
    Ok(())
}

/// Adds those that begin at a time.
fn add_overfull_from(
    items: &[Span],
    rate: u64,
    from: u32,
    overfull: &mut Vec<Interval>,
) -> Result<(), MemoryFault> {
    let mut sum = 0u64;
    let mut count = 0usize;
    for span in items {
        if span.from >= from {
            sum = sum.saturating_add(span.size);
            count = count.saturating_add(1);
            let room = u64::from(span.until.saturating_sub(from)).saturating_mul(rate);
            if count > 1 && sum > room {
                overfull.push(Interval {
                    from,
                    until: span.until.max(from),
                })?;
            }
        }
    }
    Ok(())
}
