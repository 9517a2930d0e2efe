//! What does a step use of a path?

ghost use Rattle.tt_infer.specs.Reads.{HasItsPlace, IsFactThere, IsLimitThere};
ghost use Rattle.tt_infer.specs.Sources.{Fixed, source_said};
ghost use Rattle.used_decisions.specs.Uses.{IsMore};
ghost use Rattle.used_decisions.specs.Steps.{IsReadOf, IsSourceRead, IsStepRead, TellsFact, TellsLimit, choice_of};

use crate::given::Given;
use crate::mirrors::mirror;
use crate::orders::{ring, settled};
use crate::others::late;
use crate::parts::{channel, greatest, least, order};
use crate::path::Path;
use crate::spans::{frames, halves};
use crate::uses::Uses;
use tt_infer::{Fact, Limit, Reads, Source, reads};
use ttp_model::Step;

/// Marks what is used where a fact is read.
fn read_fact(given: &Given, path: &Path, fact: Fact, uses: &mut Uses)
    ensures more { IsMore uses.old uses.new }
    ensures told { IsReadOf path.now uses.old → IsFactThere path.now.instance fact
        → TellsFact path.now given.now uses.new fact }
{
    match fact {
        Fact::Start(_) | Fact::End(_) | Fact::Closed => {}
        Fact::FirstRound(m) => least(given, path, m, uses),
        Fact::LateRound(m) => greatest(given, path, m, uses),
        Fact::Order(p, q) => order(given, path, p, q, uses),
    }
}

/// Marks what is used where a limit is read.
fn read_limit(path: &Path, limit: Limit, uses: &mut Uses)
    ensures more { IsMore uses.old uses.new }
    ensures told { IsReadOf path.now uses.old → IsLimitThere path.now.instance limit → HasItsPlace (choice_of path.now) (Fixed limit)
        → TellsLimit path.now uses.new limit }
{
    match limit {
        Limit::Goal => {}
        Limit::LeastSlot(n) => uses.least_slot(path, n),
        Limit::GreatestSlot(n) => uses.greatest_slot(path, n),
        Limit::LeastFrame(n) => uses.branch(path.above_least(n)),
        Limit::GreatestFrame(n) => uses.branch(path.below_most(n)),
        Limit::Place(v) => uses.place(path, v),
        Limit::Copies(m) => channel(path, m, uses),
        Limit::Counted(m, _) => channel(path, m, uses),
    }
}

/// Marks what is used where a source is read, where earlier steps gave what is given.
fn read_source(given: &Given, path: &Path, source: Source, uses: &mut Uses)
    ensures more { IsMore uses.old uses.new }
    ensures told { IsReadOf path.now uses.old → IsSourceRead path.now given.now uses.new (source_said source.entry) }
{
    match source {
        Source::Learnt(fact) => read_fact(given, path, fact, uses),
        Source::Fixed(limit) => read_limit(path, limit, uses),
        Source::Waits(p) => settled(given, path, p, uses),
        Source::Circle(processes) => ring(given, path, processes.as_slice(), uses),
        Source::Runs(_, _, _) => {}
        Source::Frames(n, a, b) => frames(given, path, n, a, b, uses),
        Source::Halves(k, n, a, b) => halves(given, path, k, n, a, b, uses),
        Source::Earlier(m, r) => late(given, path, m, r, uses),
        Source::Lower(m) => mirror(given, path, m, uses),
    }
}

/// Marks what a step uses, where earlier ones gave what is given.
pub fn read(given: &Given, path: &Path, step: &Step, uses: &mut Uses)
    ensures more { IsMore uses.old uses.new }
    ensures told { IsReadOf path.now uses.old → IsStepRead path.now given.now uses.new step.now }
{
    match reads(path.instance(), step) {
        Reads::Nothing => {}
        Reads::One(source) => read_source(given, path, source, uses),
        Reads::Two(first, second) => {
            read_source(given, path, first, uses);
            read_source(given, path, second, uses);
        }
    }
}
