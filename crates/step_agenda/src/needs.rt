//! How sharp has each fact to be?

use crate::order_set::OrderSet;
use crate::values::Values;
use std::alloc::Global;
use tt_infer::Fact;
use ttp_model::{Instance, MemoryFault};

/// How sharp facts have to be, so that steps say enough which were looked at.
#[derive(Drop)]
pub struct Needs {
    /// Starts and first rounds have to be known at least so late, ends and late rounds so early.
    values: Values,
    orders: OrderSet,
}

/// A time or a round in 32 bits: the greatest number where it is past them.
fn narrowed(number: u64) -> u32 {
    if number < u64::from(u32::MAX) {
        number as u32
    } else {
        u32::MAX
    }
}

/// How far each fact is known without a step.
fn loosest(fact: Fact) -> u32 {
    match fact {
        Fact::End(_) | Fact::LateRound(_) => u32::MAX,
        Fact::Start(_) | Fact::FirstRound(_) | Fact::Order(_, _) | Fact::Closed => 0,
    }
}

impl Needs {
    /// Nothing is needed.
    pub fn none(alloc: Global, instance: &Instance) -> Result<Self, MemoryFault> {
        let mut values = Values::none(alloc, instance)?;
        values.widen();
        Ok(Needs {
            values,
            orders: OrderSet::none(alloc, instance)?,
        })
    }

    /// Needs nothing any more.
    pub fn clear(&mut self) {
        self.values.widen();
        self.orders.clear();
    }

    /// Process `p` may not start before a time in ticks.
    pub fn start_from(&mut self, p: u32, time: u64) {
        let later = self.values.start(p).max(narrowed(time));
        self.values.put(Fact::Start(p), later);
    }

    /// Process `p` has to end by a time in ticks.
    pub fn end_until(&mut self, p: u32, time: u64) {
        let earlier = self.values.end(p).min(narrowed(time));
        self.values.put(Fact::End(p), earlier);
    }

    /// Message `m` may not be sent before a round.
    pub fn sent_from(&mut self, m: u32, round: u64) {
        let later = self.values.first_round(m).max(narrowed(round));
        self.values.put(Fact::FirstRound(m), later);
    }

    /// A round has to be too late for message `m`.
    pub fn sent_before(&mut self, m: u32, round: u64) {
        let earlier = self.values.late_round(m).min(narrowed(round));
        self.values.put(Fact::LateRound(m), earlier);
    }

    /// Process `p` has to end before `q` starts.
    pub fn go_first(&mut self, p: u32, q: u32) {
        self.orders.insert(p, q);
    }

    /// How sharp a fact has to be that is known so far without a step, if that isn't enough: the step is needed, and then no
    /// other is needed for more of the fact. A closer is always needed, and says what it can.
    pub fn take(&mut self, fact: Fact, known: u32) -> Option<u32> {
        let need = self.values.of_fact(fact);
        let lacks = match fact {
            Fact::Start(_) | Fact::FirstRound(_) => known < need,
            Fact::End(_) | Fact::LateRound(_) => need < known,
            Fact::Order(p, q) => self.orders.has(p, q),
            Fact::Closed => true,
        };
        if !lacks {
            return None;
        }
        self.values.put(fact, loosest(fact));
        Some(need)
    }
}
