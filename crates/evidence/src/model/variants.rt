//! Which deadlines are cut, what is put off, by how much a plan in time is late, which messages are copied, and which process may take
//! longer.

ghost use Rattle.std.specs.Prelude.{◌≡◌, ℕ, ◌+◌, ◌<◌, [], ◌∷◌, IfOk, codes, false, length, min};
ghost use Rattle.ttp_model.specs.Instance.{process_at};
ghost use Rattle.ttp_model.specs.Rules.{IsInstance};
ghost use Rattle.ttp_model.specs.Plans.{IsValid};
ghost use Rattle.ttp_model.specs.Worked.{one_message, process_on};
ghost use Rattle.instance_variants.specs.Cut.{CanEndBy, is_one_of};
ghost use Rattle.instance_variants.specs.Variants.{with_times};

use instance_variants::{copies_of_messages, lateness, with_deadlines, with_later};
use std::alloc::Global;
use ttp_model::{Instance, MemoryFault, Message, Plan};

/// No other process has to end sooner.
pub fn only_these_deadlines_are_cut(
    alloc: Global,
    instance: &Instance,
    processes: &[u32],
    d: u32,
) -> Result<Instance, MemoryFault>
    requires { CanEndBy instance.now processes.now d }
    ensures { IfOk result (λ other. (p : ℕ) → p < length instance.now.processes → is_one_of processes.now p ≡ false
        → (process_at other p).deadline ≡ (process_at instance.now p).deadline) }
{
    let other = with_deadlines(alloc, instance, processes, d)?;
    Ok(other)
}

/// The horizon is put off with the deadlines.
pub fn horizon_is_put_off_too(
    alloc: Global,
    instance: &Instance,
    x: u32,
) -> Result<Instance, MemoryFault>
    ensures { IfOk result (λ other. other.cluster.horizon ≡ min (instance.now.cluster.horizon + x) 1000000) }
{
    let other = with_later(alloc, instance, x)?;
    Ok(other)
}

/// A plan that ends in time is late by no tick.
pub fn plan_in_time_is_not_late(instance: &Instance, plan: &Plan) -> u64
    requires { IsValid instance.now plan.now }
    ensures { result ≡ 0 }
{
    let _nodes = instance.nodes();
    lateness(instance, plan)
}

/// No message is left behind.
pub fn all_messages_are_copied(
    alloc: Global,
    messages: &[Message],
) -> Result<Vec<Message>, MemoryFault>
    ensures { IfOk result (λ copies. length copies.items ≡ length messages.now) }
{
    let copies = copies_of_messages(alloc, messages)?;
    Ok(copies)
}

/// A process may take longer where its window holds it: `p` five ticks in place of three, before an earlier horizon.
pub fn longer_process_keeps_the_rules()
    ensures { IsInstance (with_times one_message 50 (process_on (codes "p") 0 5 ∷ process_on (codes "q") 1 2 ∷ [])) }
{}
