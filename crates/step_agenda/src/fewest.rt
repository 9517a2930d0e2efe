//! Which closer needs the fewest steps?

use crate::asking::ask;
use crate::closings::Closings;
use crate::marks::Marked;
use crate::moment::Moment;
use crate::needs::Needs;
use crate::values::Values;
use crate::weights::Weights;
use std::alloc::Global;
use tt_infer::{Fact, Facts};
use ttp_model::{Instance, MemoryFault, Step, has_flag};

/// The fact that a step sharpened, and how far it was known before the step.
#[derive(Clone, Copy)]
pub struct Written {
    pub fact: Fact,
    pub before: u32,
}

/// Steps, what each of them sharpened, and what is known at first and after them.
#[derive(Clone, Copy)]
pub struct Log<'b, 'a> {
    pub first: &'b Facts<'a>,
    pub facts: &'b Facts<'a>,
    pub steps: &'b [Step],
    pub written: &'b [Written],
}

/// Marks at the steps of a log that a closer needs, where each fact has to be only as sharp as what reads it asks for, in memory that
/// is used again.
#[derive(Drop)]
pub struct Fewest {
    marked: Vec<bool>,
    needs: Needs,
    /// What is known before the step that is looked at, and what at first.
    before_step: Values,
    at_first: Values,
    closings: Closings,
    /// The weights of closers with their places, those that are looked at first; of a given one none.
    light: Vec<(u32, Option<usize>)>,
    weights: Weights,
}

/// What a closer needs.
#[derive(Drop)]
pub struct Found {
    /// How many steps of the log.
    pub count: usize,
    /// The closer: none where it is the given one.
    pub closer: Option<Step>,
}

impl Marked for Fewest {
    /// Whether the closer needs the step of the log at a place.
    fn is_marked(&self, place: usize) -> bool {
        has_flag(self.marked.as_slice(), place)
    }
}

impl Fewest {
    /// No marks.
    pub fn none(alloc: Global, instance: &Instance) -> Result<Self, MemoryFault> {
        let needs = Needs::none(alloc, instance)?;
        let (before_step, at_first) = two_values(alloc, instance)?;
        let weights = Weights::none(alloc, instance)?;
        Ok(Fewest {
            marked: Vec::new(alloc),
            needs,
            before_step,
            at_first,
            closings: Closings::none(alloc),
            light: Vec::new(alloc),
            weights,
        })
    }

    /// Whether a closer can be taken of what is known.
    pub fn closes(&mut self, facts: &Facts) -> Result<bool, MemoryFault> {
        self.closings.find(facts)?;
        Ok(!self.closings.as_slice().is_empty())
    }

    /// Marks the steps of a log that a closer needs which needs the fewest of them, of so many of those that rest on the fewest, and of a
    /// given one. None where there is no closer.
    pub fn mark(
        &mut self,
        log: Log,
        given: Option<&Step>,
        most: usize,
    ) -> Result<Option<Found>, MemoryFault> {
        self.closings.find(log.facts)?;
        self.weigh(log, given, most)?;
        self.marked.clear();
        self.marked.resize(log.steps.len(), false)?;
        self.at_first.set_to_known(log.first);
        let Some(place) = self.place_of_fewest(log, given) else {
            return Ok(None);
        };
        let count = self.mark_at(log, place, given, usize::MAX);
        let closer = self.closings.take(place);
        Ok(Some(Found { count, closer }))
    }

    /// Finds which closers weigh least, where there are more than so many.
    fn weigh(&mut self, log: Log, given: Option<&Step>, most: usize) -> Result<(), MemoryFault> {
        let are_many = self.closings.as_slice().len() >= most;
        if are_many {
            self.weights.look_at(log)?;
        }
        self.light.clear();
        if let Some(closer) = given {
            let weight = self.weights.of_step(log.facts, closer)?;
            self.light.push((weight, None))?;
        }
        for (place, closer) in self.closings.as_slice().iter().enumerate() {
            let weight = self.weights.of_step(log.facts, closer)?;
            self.light.push((weight, Some(place)))?;
        }
        if are_many {
            self.light
                .as_mut_slice()
                .sort_unstable_by_key(|entry| entry.0);
            self.light.truncate(most);
        }
        Ok(())
    }

    /// The place of the closer that needs the fewest steps, if there is one: none of the given one.
    fn place_of_fewest(&mut self, log: Log, given: Option<&Step>) -> Option<Option<usize>> {
        if let [only] = self.light.as_slice() {
            return Some(only.1);
        }
        let mut fewest = usize::MAX;
        let mut found = None;
        for k in 0..self.light.len() {
            let place = match self.light.get(k) {
                Some(entry) => entry.1,
                None => return found,
            };
            let count = self.mark_at(log, place, given, fewest);
            if count < fewest {
                fewest = count;
                found = Some(place);
            }
        }
        found
    }

    /// Marks the steps of a log that the closer at a place needs, or the given one where there is none. How many are marked: no more
    /// than so many, as then the others aren't looked at.
    fn mark_at(
        &mut self,
        log: Log,
        place: Option<usize>,
        given: Option<&Step>,
        most: usize,
    ) -> usize {
        self.marked.as_mut_slice().fill(false);
        self.needs.clear();
        self.before_step.set_to_known(log.facts);
        let Some(closer) = closer_at(&self.closings, place, given) else {
            return most;
        };
        let last = Moment {
            facts: log.facts,
            now: &self.before_step,
            first: &self.at_first,
        };
        ask(&mut self.needs, &last, closer, 0);
        self.mark_needed(log, most)
    }

    /// Marks the steps that are needed, the last first, until so many are. How many are marked.
    fn mark_needed(&mut self, log: Log, most: usize) -> usize {
        let mut count = 0usize;
        for k in (0..log.steps.len()).rev() {
            if count >= most || k >= log.written.len() || k >= self.marked.len() {
                return count;
            }
            let Written { fact, before } = log.written[k];
            self.before_step.put(fact, before);
            if let Some(need) = self.needs.take(fact, before) {
                self.marked[k] = true;
                count += 1;
                self.ask_before(log.facts, &log.steps[k], need);
            }
        }
        count
    }

    /// Asks for what a step reads, so that it says of its fact what is needed.
    fn ask_before(&mut self, facts: &Facts, step: &Step, need: u32) {
        let moment = Moment {
            facts,
            now: &self.before_step,
            first: &self.at_first,
        };
        ask(&mut self.needs, &moment, step, need);
    }
}

/// Memory for what is known before a step, and for what is known at first.
fn two_values(alloc: Global, instance: &Instance) -> Result<(Values, Values), MemoryFault> {
    let before_step = Values::none(alloc, instance)?;
    let at_first = Values::none(alloc, instance)?;
    Ok((before_step, at_first))
}

/// The closer at a place: the given one where there is none.
fn closer_at<'s>(
    closings: &'s Closings,
    place: Option<usize>,
    given: Option<&'s Step>,
) -> Option<&'s Step> {
    match place {
        Some(place) => closings.as_slice().get(place),
        None => given,
    }
}
