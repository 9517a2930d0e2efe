//! What lies in the frame of a node and a round on a channel?

ghost use Rattle.std.specs.Prelude.{◌≡◌, ◌*◌, ◌<◌, ◌≤◌, All, IfOk, length};
ghost use Rattle.ttp_model.specs.Plans.{HasLengths, load_on};
ghost use Rattle.plan_facts.specs.Frames.{messages_on};

use std::alloc::Global;
use ttp_model::{
    Instance, MOST_BYTES, MOST_MESSAGES, MemoryFault, Numbers, Plan, bytes_on, is_in_frame_on,
};

/// The messages of the frame of node `n` in round `r` on channel `c`, in the instance's order. Takes memory for them; one
/// pass over the messages.
pub fn messages_on(
    alloc: Global,
    instance: &Instance,
    plan: &Plan,
    n: u32,
    r: u32,
    c: u32,
) -> Result<Numbers, MemoryFault>
    requires lengths { HasLengths instance.now plan.now }
    ensures list { IfOk result (λ messages. messages ≡ messages_on instance.now plan.now n r c) }
    ensures inside { IfOk result (λ messages. All (λ m. m < length instance.now.messages) messages) }
{
    let mut messages = Vec::new(alloc);
    let count = instance.messages().len();
    for m in 0..count {
        if is_in_frame_on(instance, plan, n, r, c, m) {
            messages.push(m as u32)?;
        }
    }
    Ok(Numbers::new(messages))
}

/// Their bytes together. Takes no memory; one pass over the messages.
pub fn load_on(instance: &Instance, plan: &Plan, n: u32, r: u32, c: u32) -> u64
    requires { HasLengths instance.now plan.now }
    ensures value { result ≡ load_on instance.now plan.now n r c }
    ensures bound { result ≤ MOST_MESSAGES * MOST_BYTES }
{
    let mut load = 0;
    for m in 0..instance.messages().len() {
        load += u64::from(bytes_on(instance, plan, n, r, c, m));
    }
    load
}
