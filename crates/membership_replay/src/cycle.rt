//! What does membership do in one cycle when frames are lost?

ghost use Rattle.std.specs.Prelude.{◌≡◌, ◌+◌, ◌<◌, ◌≤◌, ℕ, [], IfErr, IfOk, IsOkUnless, OnOk, length};
ghost use Rattle.ttp_model.specs.declared.plan.Plan.{Plan};
ghost use Rattle.ttp_model.specs.Plans.{IsValid};
ghost use Rattle.medl_tables.specs.Medl.{AreTables, medl_of};
ghost use Rattle.membership_replay.specs.Losses.{CanBeReplayed, IsFault};
ghost use Rattle.membership_replay.specs.Trace.{replay_of, row_at, slot_count, slot_with};
ghost use Rattle.membership_replay.specs.LostFrames.{LosesOneFrame, SenderLeaves};
ghost use Rattle.membership_replay.specs.Undisturbed.{AllEntriesArrive, AllStayMembers, EachMessageArrives};

use crate::events::events_of;
use crate::fault::ReplayFault;
use crate::loss::Loss;
use crate::losses::first_wrong_loss;
use crate::node::{first_states, is_active, next_states};
use crate::state::NodeState;
use crate::trace::{Slot, Trace};
use medl_tables::{Medl, Row};
use std::alloc::{AllocError, Global};
use ttp_model::{Instance, MOST_NODES};

/// One cycle of an instance's tables, in which these frames are lost. First there must be three
/// nodes, and then each loss must be one of the cycle. A step for each slot, node and loss.
pub fn replay(
    alloc: Global,
    instance: &Instance,
    medl: &Medl,
    losses: &[Loss],
) -> Result<Trace, ReplayFault>
    requires { AreTables instance.now medl.now }
    ensures ok { IfOk result (λ trace. trace ≡ replay_of medl.now losses.now) }
    ensures able { OnOk result (CanBeReplayed medl.now losses.now) }
    ensures err { IfErr result (IsFault medl.now losses.now) }
    ensures only { CanBeReplayed medl.now losses.now → IsOkUnless result ReplayFault.OutOfMemory }

    // Where no frame is lost nobody is dropped, and everything arrives: each message of the plan in its round.
    ensures stay { losses.now ≡ [] → IfOk result (AllStayMembers (length instance.now.nodes)) }
    ensures arrive { (plan : Plan) → IsValid instance.now plan → medl.now ≡ medl_of instance.now plan
        → losses.now ≡ [] → IfOk result (EachMessageArrives instance.now plan) }
    ensures entries { losses.now ≡ [] → IfOk result (AllEntriesArrive medl.now) }

    // A node whose frame is received nowhere is dropped by all others, and leaves.
    ensures leave { (slot : ℕ) → LosesOneFrame medl.now losses.now slot
        → slot + 2 < slot_count medl.now → OnOk result (SenderLeaves medl.now losses.now slot) }
{
    if instance.nodes().len() < 3 {
        return Err(ReplayFault::TooFewNodes);
    }
    if let Some(k) = first_wrong_loss(medl, losses) {
        return Err(ReplayFault::WrongLoss(k));
    }
    let trace = run(alloc, instance, medl, losses)?;
    Ok(trace)
}

/// The cycle, slot after slot.
fn run(
    alloc: Global,
    instance: &Instance,
    medl: &Medl,
    losses: &[Loss],
) -> Result<Trace, AllocError>
    requires { AreTables instance.now medl.now }
    ensures { IfOk result (λ trace. trace ≡ replay_of medl.now losses.now) }
{
    let count = instance.nodes().len();
    let rows = medl.rows(0);
    let mut states = first_states(alloc, count)?;
    let mut slots = Vec::with_capacity(alloc, rows.len())?;
    for slot in 0..rows.len() {
        let row = &rows[slot];
        slots.push(slot_with(alloc, medl, losses, states.as_slice(), slot, row)?)?;
        states = next_states(alloc, row, losses, states.as_slice())?;
    }
    Ok(Trace::new(slots, states))
}

/// What is told of the slot of this number, whose row this is.
fn slot_with(
    alloc: Global,
    medl: &Medl,
    losses: &[Loss],
    states: &[NodeState],
    slot: usize,
    row: &Row,
) -> Result<Slot, AllocError>
    requires nodes { length states.now ≡ length medl.now.rows }
    requires row { row.now ≡ row_at medl.now 0 slot }
    requires sender { row.now.sender < length states.now }
    requires few { length states.now ≤ MOST_NODES }
    ensures { IfOk result (λ told. told ≡ slot_with medl.now losses.now states.now slot) }
{
    let events = events_of(alloc, medl, losses, states, slot, row)?;
    Ok(Slot {
        round: row.round,
        position: row.position,
        sender: row.sender,
        sent: is_active(states, row.sender),
        events,
    })
}
