//! What a step of inference concludes, and when it is refused.

ghost use Rattle.std.specs.Prelude.{◌≡◌, ℕ, ◌+◌, ◌-◌, ◌*◌, List, IfOk, IsErr, IsFalse, OnOk, length, map, slice_index};
ghost use Rattle.ttp_model.specs.declared.step.Step.TheVariants.{XCycle};
ghost use Rattle.ttp_model.specs.Instance.{source_of};
ghost use Rattle.ttp_model.specs.Totals.{total};
ghost use Rattle.tt_choice.specs.Branches.{IsUnorderedPair};
ghost use Rattle.tt_choice.specs.Choice.{IsChoice};
ghost use Rattle.tt_choice.specs.Extremes.{cap_most, end_least, start_most};
ghost use Rattle.sought_plans.specs.Conclusions.{EndsUntil, GoesFirst, SentBefore, StartsFrom, sharpened};
ghost use Rattle.sought_plans.specs.Dominance.{IsGreatestWait, StandsFirst};
ghost use Rattle.sought_plans.specs.Known.{bef_of, le_of, lo_of, top_of};
ghost use Rattle.sought_plans.specs.Premises.{AreChances, IsAhead, bytes_counted, least_end, load_within, sender_of, wcet_of};

use std::alloc::Global;
use tt_choice::Choice;
use tt_infer::{Facts, StepFault};
use ttp_model::{Instance, MemoryFault, Step};

/// A receiver starts once its message is copied in from the least round, not from the last one.
pub fn arrival_in_the_least_round(facts: &mut Facts, m: u32, q: u32) -> Result<(), StepFault>
    ensures { OnOk result (facts.new.known ≡ sharpened facts.old.instance facts.old.known (StartsFrom q
        (end_least facts.old.instance facts.old.choice (source_of facts.old.instance m) (lo_of facts.old.known m)
        + facts.old.instance.cluster.copy_in))) }
{
    facts.apply(&Step::EsArrive(m, q))
}

/// Where it isn't known that one process goes before another, the second one isn't held to wait.
pub fn order_that_is_not_known(facts: &mut Facts, p: u32, q: u32) -> Result<(), StepFault>
    ensures { IsFalse (bef_of facts.old.known p q) → IsErr result }
{
    facts.apply(&Step::EsBefore(p, q))
}

/// A message can be sent in just those rounds from which it still reaches its receiver.
pub fn rounds_that_reach_a_receiver(facts: &mut Facts, m: u32, q: u32) -> Result<(), StepFault>
    ensures { OnOk result ((r : ℕ) × AreChances facts.old.instance facts.old.choice facts.old.known m q r
        × (facts.new.known ≡ sharpened facts.old.instance facts.old.known (SentBefore m r))) }
{
    facts.apply(&Step::HiArrive(m, q))
}

/// A sender ends before its slot in the last round that is left, not in the least one.
pub fn end_before_the_last_slot(facts: &mut Facts, m: u32) -> Result<(), StepFault>
    ensures { OnOk result (facts.new.known ≡ sharpened facts.old.instance facts.old.known (EndsUntil (sender_of facts.old.instance m)
        (start_most facts.old.instance facts.old.choice (source_of facts.old.instance m) (top_of facts.old.known m - 1)
        - facts.old.instance.cluster.copy_out))) }
{
    facts.apply(&Step::LeSend(m))
}

/// A window that is just long enough for both processes orders nothing.
pub fn window_just_long_enough(facts: &mut Facts, p: u32, q: u32) -> Result<(), StepFault>
    ensures { le_of facts.old.known p ≡ least_end facts.old.instance facts.old.known q + wcet_of facts.old.instance p → IsErr result }
{
    facts.apply(&Step::OrdWindow(p, q))
}

/// A process ends so long after the wait as it runs.
pub fn end_after_the_greatest_wait(facts: &mut Facts, p: u32) -> Result<(), StepFault>
    ensures { OnOk result ((time : ℕ) × IsGreatestWait facts.old.instance facts.old.choice facts.old.known p time
        × (facts.new.known ≡ sharpened facts.old.instance facts.old.known (EndsUntil p (wcet_of facts.old.instance p + time)))) }
{
    facts.apply(&Step::UsSettled(p))
}

/// Processes the last of which isn't known to go before the first close nothing.
pub fn ring_that_does_not_close(facts: &mut Facts, step: &Step) -> Result<(), StepFault>
    ensures { (ps : List ℕ) → step.now ≡ XCycle ps
        → ¬ IsAhead facts.old.instance facts.old.known (slice_index ps (length ps - 1)) (slice_index ps 0) → IsErr result }
{
    facts.apply(step)
}

/// Nor does a span that processes just fill.
pub fn span_that_is_just_full(facts: &mut Facts, n: u32, a: u32, b: u32) -> Result<(), StepFault>
    ensures { b - a ≡ total (load_within facts.old.instance facts.old.known n a b) (length facts.old.instance.processes) → IsErr result }
{
    facts.apply(&Step::XLoad(n, a, b))
}

/// Nor does half a frame that the messages on its channel just fill, nor any where there is one channel.
pub fn half_that_is_just_full(
    facts: &mut Facts,
    k: u32,
    n: u32,
    a: u32,
    b: u32,
) -> Result<(), StepFault>
    ensures full { (b - a) * cap_most facts.old.instance facts.old.choice n
        ≡ total (bytes_counted facts.old.instance facts.old.choice facts.old.known k n a b) (length facts.old.instance.messages)
        → IsErr result }
    ensures alone { facts.old.instance.cluster.channels ≡ 1 → IsErr result }
{
    facts.apply(&Step::XChannel(k, n, a, b))
}

/// Nor do silent nodes of which the second isn't placed first.
pub fn silent_nodes_in_order(facts: &mut Facts, u: u32, v: u32) -> Result<(), StepFault>
    ensures { ¬ StandsFirst facts.old.choice.prefix v u → IsErr result }
{
    facts.apply(&Step::XSilent(u, v))
}

/// At first each round of a message's range is left, the last one too.
pub fn rounds_left_at_first<'a>(
    alloc: Global,
    instance: &'a Instance,
    choice: &Choice,
    goal: u32,
) -> Result<Facts<'a>, MemoryFault>
    requires { IsChoice instance.now choice.now }
    ensures { IfOk result (λ facts. facts.known.top ≡ map (λ r. r + 1) choice.now.hi) }
{
    Facts::new(alloc, instance, choice, goal)
}

/// Facts that are turned to another choice are of just the goal that is asked for, in ticks.
pub fn goal_of_turned_facts<'a>(
    facts: Facts<'a>,
    choice: &Choice,
    goal: u32,
) -> Result<Facts<'a>, MemoryFault>
    requires { IsChoice facts.instance choice.now }
    ensures { IfOk result (λ turned. turned.goal ≡ goal) }
{
    facts.turned(choice, goal)
}

/// Of two processes the one goes first that is supposed to.
pub fn order_that_is_supposed<'a>(
    alloc: Global,
    room: Facts<'a>,
    before: &Facts<'a>,
    p: u32,
    q: u32,
) -> Result<Facts<'a>, MemoryFault>
    requires { IsUnorderedPair before.now.instance before.now.choice p q }
    ensures { IfOk result (λ facts. facts.known ≡ sharpened before.now.instance before.now.known (GoesFirst p q)) }
{
    room.supposing(alloc, before, p, q)
}
