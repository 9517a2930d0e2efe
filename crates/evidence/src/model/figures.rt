//! Figures of an instance and of a plan.

ghost use Rattle.std.specs.Prelude.{◌≡◌, ◌+◌, ◌≤◌, IfSome, slice_index};
ghost use Rattle.ttp_model.specs.Instance.{process_at};

use ttp_model::{Instance, Kind, Plan, delay, delay_is_an_end, slot_duration};

/// A slot that carries no bytes still has its lead, the head of its frame, and its trail.
pub fn slot_without_bytes(instance: &Instance) -> u64
    ensures { result
        ≡ instance.now.cluster.lead + instance.now.cluster.head + instance.now.cluster.trail }
{
    slot_duration(instance.cluster(), 0)
}

/// The delay is not before the end of the first process.
pub fn delay_of_first_process(instance: &Instance, plan: &Plan) -> Option<u64>
    ensures { IfSome result (λ ticks.
        slice_index plan.now.starts 0 + (process_at instance.now 0).wcet ≤ ticks) }
{
    if plan.starts.len() != instance.processes().len() {
        return None;
    }
    delay_is_an_end();
    Some(delay(instance, plan))
}

/// How many children a branch on two processes has, whatever options there are.
pub fn children_of_a_pair(p: u32, q: u32, options: u32) -> u32
    ensures { result ≡ 2 }
{
    Kind::Pair(p, q).children(options)
}

/// And one on the channel of a message.
pub fn children_of_a_message(m: u32, options: u32) -> u32
    ensures { result ≡ 3 }
{
    Kind::Chan(m).children(options)
}
