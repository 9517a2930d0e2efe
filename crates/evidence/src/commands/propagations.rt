//! What is known of the plans of a choice, which steps lead there, and what is known again once a decision is taken back.

ghost use Rattle.std.specs.Prelude.{◌≡◌, ℕ, ◌+◌, ◌<◌, ◌≤◌, [], ◌∷◌, ◌++◌, IfOk, IfSome, IsFalse, OnErr, OnOk, length};
ghost use Rattle.ttp_model.specs.Chains.{least_transfer};
ghost use Rattle.ttp_model.specs.Graph.{HasMessage};
ghost use Rattle.ttp_model.specs.Instance.{node_of, process_at};
ghost use Rattle.tt_choice.specs.declared.decision.Decision.TheVariants.{Before};
ghost use Rattle.tt_choice.specs.Branches.{IsUnorderedPair};
ghost use Rattle.tt_choice.specs.Choice.{IsChoice};
ghost use Rattle.tt_choice.specs.Decisions.{IsOpenDecision, chosen};
ghost use Rattle.sought_plans.specs.Known.{first_facts};
ghost use Rattle.tt_infer.specs.Leaves.{ClosesLeaf};
ghost use Rattle.path_bounds.specs.Propagation.{LeadSharply};

use path_bounds::{Agenda, Propagator, Reached, Supposition, path_bound, propagate};
use std::alloc::Global;
use tt_choice::{Choice, Decision};
use ttp_model::{Instance, Leaf, MemoryFault, Steps};

/// A decision that is refused for want of memory isn't among those that were made.
pub fn refused_decision_is_not_kept(
    alloc: Global,
    propagator: &mut Propagator,
    decision: Decision,
) -> Result<(), MemoryFault>
    requires left { IsFalse propagator.old.current.facts.known.closed }
    requires is_open { IsOpenDecision propagator.old.instance propagator.old.current.facts.choice decision }
    ensures { OnErr result (propagator.new.decisions ≡ propagator.old.decisions) }
{
    propagator.decide(alloc, decision)
}

/// An order that is only supposed changes nothing of what is known.
pub fn supposed_order_is_not_known<'a>(
    alloc: Global,
    propagator: &mut Propagator<'a>,
    p: u32,
    q: u32,
) -> Result<Supposition<'a>, MemoryFault>
    requires { IsUnorderedPair propagator.old.instance propagator.old.current.facts.choice p q }
    ensures { propagator.new.current ≡ propagator.old.current }
{
    propagator.suppose(alloc, p, q)
}

/// What was known before a decision is known again once it is taken back, by the same steps.
pub fn what_was_known_is_known_again(
    alloc: Global,
    propagator: &mut Propagator,
    decision: Decision,
) -> Result<(), MemoryFault>
    requires left { IsFalse propagator.old.current.facts.known.closed }
    requires is_open { IsOpenDecision propagator.old.instance propagator.old.current.facts.choice decision }
    ensures { propagator.new.current ≡ propagator.old.current }
{
    propagator.decide(alloc, decision)?;
    propagator.undo();
    Ok(())
}

/// After an order was decided the steps of the log lead from what is known at first, of that order and the decisions before it, to
/// what is known then.
pub fn log_of_an_order_leads_there(
    alloc: Global,
    propagator: &mut Propagator,
    p: u32,
    q: u32,
) -> Result<(), MemoryFault>
    requires left { IsFalse propagator.old.current.facts.known.closed }
    requires is_open { IsOpenDecision propagator.old.instance propagator.old.current.facts.choice (Before p q) }
    ensures { OnOk result (LeadSharply propagator.old.instance
        (chosen propagator.old.instance (propagator.old.decisions ++ Before p q ∷ [])) propagator.old.goal
        (first_facts propagator.old.instance (chosen propagator.old.instance (propagator.old.decisions ++ Before p q ∷ [])))
        propagator.new.current.steps propagator.new.current.facts.known) }
{
    propagator.decide(alloc, Decision::Before(p, q))?;
    let _log = propagator.log();
    Ok(())
}

/// The leaf that propagation with this agenda makes, where no plan is left.
fn closed_by(
    alloc: Global,
    agenda: &mut Agenda,
    instance: &Instance,
    choice: &Choice,
    goal: u32,
) -> Result<Option<Leaf>, MemoryFault>
    requires { IsChoice instance.now choice.now }
    ensures { IfOk result (λ answer. IfSome answer (ClosesLeaf instance.now choice.now)) }
{
    let mut steps = Vec::new(alloc);
    match propagate(alloc, agenda, instance, choice, goal, &mut steps)? {
        Reached::Closed => Ok(Some(Leaf {
            goal,
            steps: Steps::new(steps),
        })),
        Reached::At(_) => Ok(None),
    }
}

/// Where it is told that no plan is left, the steps make a leaf that closes.
pub fn closed_is_told_of_steps_that_close(
    alloc: Global,
    instance: &Instance,
    choice: &Choice,
    goal: u32,
) -> Result<Option<Leaf>, MemoryFault>
    requires { IsChoice instance.now choice.now }
    ensures { IfOk result (λ answer. IfSome answer (ClosesLeaf instance.now choice.now)) }
{
    let mut agenda = Agenda::of(alloc, instance)?;
    let closed = closed_by(alloc, &mut agenda, instance, choice, goal);
    drop(agenda);
    closed
}

/// No process ends before a message to it was copied out, sent and copied in: the path bound, in ticks, counts all three.
pub fn bound_counts_a_transfer(alloc: Global, instance: &Instance) -> Result<u32, MemoryFault>
    ensures { IfOk result (λ bound. (p q : ℕ) → p < length instance.now.processes → HasMessage instance.now p q
        → (process_at instance.now p).release + (process_at instance.now p).wcet + least_transfer instance.now (node_of instance.now p)
        + (process_at instance.now q).wcet ≤ bound) }
{
    path_bound(alloc, instance)
}
