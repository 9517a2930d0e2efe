//! Which facts does a step read?

ghost use Rattle.std.specs.Prelude.{OnOk};
ghost use Rattle.tt_infer.specs.Reads.{IsFactOf, IsSourceThere, ReadsFact};
ghost use Rattle.tt_infer.specs.Sources.{source_said};
ghost use Rattle.tt_infer.specs.Table.{rule};
ghost use Rattle.tt_infer.specs.Added.{AddsFacts};

mod added;
mod apart;
mod kept_out;
mod rings;
mod spans;
mod waits;

use crate::fact::Fact;
use crate::facts::Facts;
use crate::rules::reads;
use crate::source::{Reads, Source};
use added::add;
use apart::add_mirror;
use kept_out::add_late;
use rings::add_ring;
use spans::{add_channel, add_frames, add_load};
use ttp_model::{MemoryFault, Step};
use waits::add_settled;

/// Adds the facts that a source is, where what it is about is there.
pub fn add_source(facts: &Facts, source: Source, told: &mut Vec<Fact>) -> Result<(), MemoryFault>
    ensures { IsSourceThere facts.now.instance (source_said source.entry)
        → OnOk result (AddsFacts (IsFactOf facts.now.instance facts.now.choice facts.now.known (source_said source.entry))
        told.old.items told.new.items) }
{
    match source {
        Source::Learnt(fact) => add(told, fact),
        Source::Fixed(_) => Ok(()),
        Source::Waits(p) => add_settled(facts, p, told),
        Source::Circle(ring) => add_ring(facts.instance(), ring.as_slice(), told),
        Source::Runs(n, a, b) => add_load(facts, n, a, b, told),
        Source::Frames(n, a, b) => add_frames(facts, n, a, b, told),
        Source::Halves(k, n, a, b) => add_channel(facts, k, n, a, b, told),
        Source::Earlier(m, r) => add_late(facts, m, r, told),
        Source::Lower(m) => add_mirror(facts, m, told),
    }
}

/// Adds the facts that a step reads, where this is known before it and what it names is there.
pub fn add_reads(facts: &Facts, step: &Step, told: &mut Vec<Fact>) -> Result<(), MemoryFault>
    ensures { (rule facts.now.instance facts.now.choice facts.now.goal facts.now.known step.now).there
        → OnOk result (AddsFacts (ReadsFact facts.now.instance facts.now.choice facts.now.known step.now)
        told.old.items told.new.items) }
{
    let instance = facts.instance();
    let _nodes = instance.nodes();
    match reads(instance, step) {
        Reads::Nothing => Ok(()),
        Reads::One(source) => add_source(facts, source, told),
        Reads::Two(first, second) => {
            add_source(facts, first, told)?;
            add_source(facts, second, told)
        }
    }
}
