//! What is said of a choice, and what decisions make of it and leave of it.

ghost use Rattle.std.specs.Prelude.{◌≡◌, ℕ, ◌<◌, ◌≤◌, List, [], ◌∷◌, IfOk, IfSome, IsTrue, IsFalse, IsSome, None, OnOk, length, slice_index};
ghost use Rattle.ttp_model.specs.declared.plan.Plan.{Plan};
ghost use Rattle.ttp_model.specs.declared.step.Kind.TheVariants.{Cap};
ghost use Rattle.ttp_model.specs.Instance.{node_at};
ghost use Rattle.ttp_model.specs.Plans.{channel_of};
ghost use Rattle.ttp_model.specs.Slots.{slot_start};
ghost use Rattle.tt_choice.specs.declared.decision.Decision.TheVariants.{Before, Channel};
ghost use Rattle.tt_choice.specs.Branches.{IsOpen, IsUnplaced};
ghost use Rattle.tt_choice.specs.Choice.{Agrees, IsChoice, IsIn, fixed_cap, fixed_channel, is_before};
ghost use Rattle.tt_choice.specs.Decisions.{IsOpenDecision};

use std::alloc::Global;
use tt_choice::{Choice, Decision, Precedence};
use ttp_model::{Instance, Kind, MemoryFault};

/// The children of two processes in neither order: one goes first, and then the other.
pub fn both_orders_of_a_pair(
    alloc: Global,
    instance: &Instance,
    choice: &Choice,
    p: u32,
    q: u32,
) -> Result<Option<Vec<Decision>>, MemoryFault>
    requires { IsChoice instance.now choice.now }
    ensures { IfOk result (λ answer. IfSome answer (λ decisions. decisions.items ≡ Before p q ∷ Before q p ∷ [])) }
{
    let kind = Kind::Pair(p, q);
    if !choice.is_open(instance, &kind) {
        return Ok(None);
    }
    Ok(Some(choice.decisions(alloc, instance, &kind)?))
}

/// The children of a message whose channel isn't fixed: it is on the first, on the second, and then on both.
pub fn channels_of_a_free_message(
    alloc: Global,
    instance: &Instance,
    choice: &Choice,
    m: u32,
) -> Result<Option<Vec<Decision>>, MemoryFault>
    requires { IsChoice instance.now choice.now }
    ensures { IfOk result (λ answer. IfSome answer (λ decisions.
        decisions.items ≡ Channel m 0 ∷ Channel m 1 ∷ Channel m 2 ∷ [])) }
{
    let kind = Kind::Chan(m);
    if !choice.is_open(instance, &kind) {
        return Ok(None);
    }
    Ok(Some(choice.decisions(alloc, instance, &kind)?))
}

/// A message whose channel is fixed isn't open.
pub fn message_on_a_channel(instance: &Instance, choice: &Choice, m: u32) -> bool
    requires { IsChoice instance.now choice.now }
    ensures { IsSome (fixed_channel choice.now m) → IsFalse result }
{
    choice.is_open(instance, &Kind::Chan(m))
}

/// Each plan has the message on the channel that was fixed.
pub fn channel_that_was_fixed(instance: &Instance, choice: &mut Choice, m: u32, k: u32)
    requires of { IsChoice instance.now choice.old }
    requires bare { choice.old.kept ≡ [] }
    requires is_open { IsOpenDecision instance.now choice.old (Channel m k) }
    ensures { (plan : Plan) → IsIn instance.now choice.new plan → channel_of plan m ≡ k }
{
    choice.fix_channel(m, k);
}

/// A channel that is fixed and taken back is free again.
pub fn channel_taken_back(
    alloc: Global,
    instance: &Instance,
    choice: &mut Choice,
    m: u32,
    k: u32,
) -> Result<(), MemoryFault>
    requires of { IsChoice instance.now choice.old }
    requires is_open { IsOpenDecision instance.now choice.old (Channel m k) }
    ensures { fixed_channel choice.new m ≡ None }
{
    choice.decide(alloc, instance, Decision::Channel(m, k))?;
    choice.undo();
    Ok(())
}

/// The least capacity of a node for which none is fixed is its first, in bytes.
pub fn least_of_free_capacities(instance: &Instance, choice: &Choice, n: u32) -> Option<u32>
    requires { IsChoice instance.now choice.now }
    ensures { IfSome result (λ bytes. fixed_cap choice.now n ≡ None → bytes ≡ slice_index (node_at instance.now n).capacities 0) }
{
    if n as usize >= instance.nodes().len() {
        return None;
    }
    Some(choice.cap_least(instance, n))
}

/// A pair that is ordered the other way isn't open.
pub fn pair_of_the_other_order(instance: &Instance, choice: &Choice, p: u32, q: u32) -> bool
    requires { IsChoice instance.now choice.now }
    ensures { IsTrue (is_before choice.now q p) → IsFalse result }
{
    choice.is_open(instance, &Kind::Pair(p, q))
}

/// An order that was put is found.
pub fn order_that_was_put(precedence: &mut Precedence, p: u32, q: u32) -> bool
    ensures { p < precedence.old.processes → q < precedence.old.processes → IsTrue result }
{
    if p >= precedence.processes() || q >= precedence.processes() {
        return false;
    }
    precedence.put(p, q);
    precedence.goes_before(p, q)
}

/// Each plan has the node that was placed at its position.
pub fn node_that_was_placed(
    alloc: Global,
    instance: &Instance,
    choice: &mut Choice,
    n: u32,
) -> Result<(), MemoryFault>
    requires of { IsChoice instance.now choice.old }
    requires bare { choice.old.kept ≡ [] }
    requires unplaced { IsUnplaced instance.now choice.old n }
    ensures { OnOk result ((plan : Plan) → IsIn instance.now choice.new plan
        → slice_index plan.order (length choice.old.prefix) ≡ n) }
{
    choice.place(alloc, instance, n)
}

/// What no slot of a node begins after, in ticks, isn't before the latest one: some slot begins just then.
pub fn latest_slot_of_a_node(instance: &Instance, choice: &Choice, n: u32, r: u32) -> Option<u64>
    requires { IsChoice instance.now choice.now }
    ensures { IfSome result (λ latest. (bound : ℕ)
        → ((order caps : List ℕ) → Agrees instance.now choice.now order caps
        → slot_start instance.now.cluster order caps n r ≤ bound)
        → latest ≤ bound) }
{
    if n as usize >= instance.nodes().len() {
        return None;
    }
    Some(choice.start_most(instance, n, r))
}

/// A decision that is made and taken back leaves the choice that stood before.
pub fn decision_taken_back(
    alloc: Global,
    instance: &Instance,
    choice: &mut Choice,
    decision: Decision,
) -> Result<(), MemoryFault>
    requires of { IsChoice instance.now choice.old }
    requires is_open { IsOpenDecision instance.now choice.old decision }
    ensures { choice.new ≡ choice.old }
{
    choice.decide(alloc, instance, decision)?;
    choice.undo();
    Ok(())
}
