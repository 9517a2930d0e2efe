//! What is kept so that a search can end where memory runs out?

ghost use Rattle.std.specs.Prelude.{◌≡◌, ◌^◌, ◌-◌, min, IfOk, vec_capacity};
ghost use Rattle.planner.specs.Held.{held_back, receivers_in};

use std::alloc::Global;
use ttp_model::{Instance, MemoryFault, Message};

/// How many bytes at least: the lists of some ten thousand open tasks, a propagation, or the tables of a subtree that is closed take
/// a part of them. What grows with the tree is kept beside its pieces, as room in their list.
/// Up to 64 processes and 128 messages it is always more than what is worked out below; 256 processes take 8 MiB a block, with 512
/// messages to 255 receivers each 40.
const LEAST_BYTES: usize = 4 << 20;

/// The bytes of a step.
const STEP_BYTES: usize = 32;

/// How many steps a propagation tries for each receiver of a message until none of them sharpens.
const RECEIVER_STEPS: usize = 2;

/// How many times the bytes of these steps are kept: a list that grows may have twice the room that it needs, beside the one before
/// it, and the steps that sharpen stand in another.
const TIMES: usize = 4;

/// How many receivers messages have in all.
fn receivers(messages: &[Message]) -> usize
    ensures { result ≡ min (receivers_in messages.now) (2 ^ 64 - 1) }
{
    let mut count: usize = 0;
    for message in messages {
        count = count.saturating_add(message.receivers.as_slice().len());
    }
    count
}

/// How many bytes are kept: what a propagation may take, with steps for each receiver and one for each order of two processes.
fn bytes(instance: &Instance) -> usize
    ensures { result ≡ held_back instance.now }
{
    let processes = instance.processes().len();
    let orders = processes.saturating_mul(processes);
    let steps = receivers(instance.messages())
        .saturating_mul(RECEIVER_STEPS)
        .saturating_add(orders);
    steps
        .saturating_mul(STEP_BYTES)
        .saturating_mul(TIMES)
        .max(LEAST_BYTES)
}

/// Memory that is taken before a search, and given back once memory is refused. A block as large as this is the system's
/// again as soon as it is given back, so that a list can grow by it.
#[derive(Drop)]
pub struct Reserve {
    room: Vec<u8>,
}

impl Reserve {
    pub fn begin(alloc: Global, instance: &Instance) -> Result<Self, MemoryFault>
        ensures { IfOk result (λ kept. vec_capacity kept.room ≡ held_back instance.now) }
    {
        let room = Vec::with_capacity(alloc, bytes(instance))?;
        Ok(Reserve { room })
    }

    pub fn give_back(self) {
        let Reserve { room } = self;
        drop(room);
    }
}
