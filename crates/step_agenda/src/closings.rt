//! Which closers can be taken of what is known?

use crate::closers::{bytes_counted, most_carried};
use crate::spans::Spans;
use std::alloc::Global;
use tt_infer::Facts;
use ttp_model::{MemoryFault, Step};

/// The most closers that are found. A limit, not tuned.
const MOST_CLOSERS: usize = 64;

/// Closers that can be taken, in memory that is used again.
#[derive(Drop)]
pub struct Closings {
    found: Vec<Step>,
    spans: Spans,
}

/// Adds a closer, while there are few.
fn add(found: &mut Vec<Step>, closer: Step) -> Result<(), MemoryFault> {
    if found.len() < MOST_CLOSERS {
        found.push(closer)?;
    }
    Ok(())
}

/// Adds the closers of processes that have to end before they can have run.
fn add_windows(facts: &Facts, found: &mut Vec<Step>) -> Result<(), MemoryFault> {
    let instance = facts.instance();
    let count = instance.processes().len() as u32;
    for p in 0..count {
        let wcet = u64::from(instance.process_at(p as usize).wcet);
        if u64::from(facts.es(p)) + wcet > u64::from(facts.le(p)) {
            add(found, Step::XWindow(p))?;
        }
    }
    Ok(())
}

/// Adds the closers of messages that have no round.
fn add_rounds(facts: &Facts, found: &mut Vec<Step>) -> Result<(), MemoryFault> {
    let count = facts.instance().messages().len() as u32;
    for m in 0..count {
        if facts.lo(m) >= facts.top(m) {
            add(found, Step::XRound(m))?;
        }
    }
    Ok(())
}

/// The processes of node `n`, each from its earliest start until its latest end.
fn set_to_processes(spans: &mut Spans, facts: &Facts, n: u32) -> Result<(), MemoryFault> {
    let instance = facts.instance();
    spans.clear();
    for p in instance.processes_on(n) {
        let wcet = instance.process_at(*p as usize).wcet;
        spans.add(facts.es(*p), facts.le(*p), u64::from(wcet))?;
    }
    Ok(())
}

/// The messages of node `n` that count on a channel, or on all together, each from its least round until the first that is too late.
fn set_to_messages(
    spans: &mut Spans,
    facts: &Facts,
    channel: Option<u32>,
    n: u32,
) -> Result<(), MemoryFault> {
    spans.clear();
    for m in facts.instance().messages_of(n) {
        let bytes = bytes_counted(facts, channel, *m);
        if bytes > 0 {
            spans.add(facts.lo(*m), facts.top(*m), bytes)?;
        }
    }
    Ok(())
}

/// Adds the closers of node `n` whose processes don't fit into an interval of ticks.
fn add_loads(
    spans: &mut Spans,
    facts: &Facts,
    n: u32,
    found: &mut Vec<Step>,
) -> Result<(), MemoryFault> {
    set_to_processes(spans, facts, n)?;
    spans.find_overfull(1)?;
    for interval in spans.overfull() {
        add(found, Step::XLoad(n, interval.from, interval.until))?;
    }
    Ok(())
}

/// Adds the closers of node `n` whose messages don't fit into the frames of an interval of rounds, on all channels together.
fn add_frames(
    spans: &mut Spans,
    facts: &Facts,
    n: u32,
    found: &mut Vec<Step>,
) -> Result<(), MemoryFault> {
    set_to_messages(spans, facts, None, n)?;
    spans.find_overfull(most_carried(facts, None, n, 1))?;
    for interval in spans.overfull() {
        add(found, Step::XFrames(n, interval.from, interval.until))?;
    }
    Ok(())
}

/// Adds those whose messages don't fit on one of two channels or more.
fn add_channels(
    spans: &mut Spans,
    facts: &Facts,
    n: u32,
    found: &mut Vec<Step>,
) -> Result<(), MemoryFault> {
    let channels = facts.instance().cluster().channels;
    if channels < 2 {
        return Ok(());
    }
    for k in 0..channels {
        add_channel(spans, facts, k, n, found)?;
    }
    Ok(())
}

/// Adds those whose messages don't fit on channel `k`.
fn add_channel(
    spans: &mut Spans,
    facts: &Facts,
    k: u32,
    n: u32,
    found: &mut Vec<Step>,
) -> Result<(), MemoryFault> {
    set_to_messages(spans, facts, Some(k), n)?;
    spans.find_overfull(most_carried(facts, Some(k), n, 1))?;
    for interval in spans.overfull() {
        add(found, Step::XChannel(k, n, interval.from, interval.until))?;
    }
    Ok(())
}

impl Closings {
    /// None.
    pub fn none(alloc: Global) -> Self {
        Closings {
            found: Vec::new(alloc),
            spans: Spans::none(alloc),
        }
    }

    /// Finds those that these facts allow: of processes and messages that have no room, and of nodes that have more to do in some
    /// interval than there is room for.
    pub fn find(&mut self, facts: &Facts) -> Result<(), MemoryFault> {
        self.found.clear();
        add_windows(facts, &mut self.found)?;
        add_rounds(facts, &mut self.found)?;
        let count = facts.instance().nodes().len() as u32;
        for n in 0..count {
            add_loads(&mut self.spans, facts, n, &mut self.found)?;
            add_channels(&mut self.spans, facts, n, &mut self.found)?;
            add_frames(&mut self.spans, facts, n, &mut self.found)?;
        }
        Ok(())
    }

    /// Those that were found.
    pub fn as_slice(&self) -> &[Step] {
        self.found.as_slice()
    }

    /// The one at a place, if it is there; the last one found stands there then.
    pub fn take(&mut self, place: Option<usize>) -> Option<Step> {
        match place {
            Some(place) if place < self.found.len() => Some(self.found.swap_remove(place)),
            _ => None,
        }
    }
}
