//! What is told of each node in a slot?

ghost use Rattle.std.specs.Prelude.{◌≡◌, ◌<◌, ◌≤◌, ◌++◌, [], Bool, IfOk, OnOk, if◌then◌else◌, length};
ghost use Rattle.medl_tables.specs.Medl.{Medl};
ghost use Rattle.membership_replay.specs.Machine.{has_member};
ghost use Rattle.membership_replay.specs.Trace.{deliveries, delivery, drop_events, is_listed, is_told, node_events, row_at, slot_events, step_events, takes_messages};

use crate::loss::Loss;
use crate::node::{is_active, is_received, next_state, step_at};
use crate::state::{NodeState, Step, is_same};
use crate::trace::{Event, Events};
use medl_tables::{Entry, Medl, Row};
use std::alloc::{AllocError, Global};
use ttp_model::{MOST_MESSAGES, MOST_NODES};

/// Adds that a node drops another, where it counts it as a member.
fn push_drop(
    events: &mut Vec<Event>,
    i: u32,
    b: u32,
    vector: &[bool; MOST_NODES],
) -> Result<(), AllocError>
    ensures { OnOk result (events.new.items ≡ events.old.items ++ drop_events i b vector.now) }
{
    if (b as usize) < MOST_NODES && vector[b as usize] {
        events.push(Event::Drop(i, b))?;
    }
    Ok(())
}

/// Adds what is told of a step.
fn push_step(
    events: &mut Vec<Event>,
    step: Step,
    i: u32,
    s: u32,
    vector: &[bool; MOST_NODES],
) -> Result<(), AllocError>
    ensures { OnOk result (events.new.items ≡ events.old.items ++ step_events step i s vector.now) }
{
    match step {
        Step::Nothing => Ok(()),
        Step::Drops => push_drop(events, i, s, vector),
        Step::Acknowledges => Ok(events.push(Event::Ack(i))?),
        Step::Doubts => Ok(events.push(Event::Doubt(i))?),
        Step::Confirms(b) => {
            events.push(Event::Ack(i))?;
            push_drop(events, i, b, vector)
        }
        Step::Leaves => Ok(events.push(Event::Leave(i))?),
    }
}

/// Whether a node takes the frame's messages in a row's slot.
fn takes_messages(row: &Row, losses: &[Loss], states: &[NodeState], i: u32) -> bool
    requires inside { i < length states.now }
    requires sender { row.now.sender < length states.now }
    requires few { length states.now ≤ MOST_NODES }
    ensures { result ≡ takes_messages row.now losses.now states.now i }
{
    let shown = states[row.sender as usize].vector;
    let after = next_state(row, losses, states, i).vector;
    is_received(row, losses, states, i) && after[i as usize] && is_same(&shown, &after)
}

/// Adds that messages are delivered at a node: of each once, by its index, though it may be on both
/// channels. Most frames have none for the node.
fn push_deliveries(events: &mut Vec<Event>, i: u32, messages: &[Entry]) -> Result<(), AllocError>
    ensures { OnOk result (events.new.items ≡ events.old.items ++ deliveries i messages.now) }
{
    if messages.is_empty() {
        return Ok(());
    }
    for m in 0..MOST_MESSAGES {
        push_delivery(events, i, messages, m as u32)?;
    }
    Ok(())
}

/// Adds that a message is delivered at a node, where it is one of the entries.
#[tactic(auto, unfolding(crate::specs::Trace::delivery))]
fn push_delivery(
    events: &mut Vec<Event>,
    i: u32,
    messages: &[Entry],
    m: u32,
) -> Result<(), AllocError>
    ensures { OnOk result (events.new.items ≡ events.old.items ++ delivery i messages.now m) }
{
    if is_listed(messages, m) {
        events.push(Event::Deliver(m, i))?;
    }
    Ok(())
}

/// Whether a message is one of the entries.
fn is_listed(messages: &[Entry], m: u32) -> bool
    ensures { result ≡ is_listed messages.now m }
{
    messages.iter().any(|e| e.message == m)
}

/// Whether anything is told of a node in a row's slot: nothing is of the sender itself.
fn is_told(row: &Row, states: &[NodeState], i: u32) -> bool
    requires inside { i < length states.now }
    requires few { length states.now ≤ MOST_NODES }
    ensures { result ≡ is_told row.now states.now i }
{
    is_active(states, i) && i != row.sender
}

/// Adds what is told of a node in a row's slot, where these messages have a receiver on it.
#[tactic(auto, unfolding(crate::specs::Trace::node_events))]
fn push_node(
    events: &mut Vec<Event>,
    row: &Row,
    losses: &[Loss],
    messages: &[Entry],
    states: &[NodeState],
    i: u32,
) -> Result<(), AllocError>
    requires inside { i < length states.now }
    requires sender { row.now.sender < length states.now }
    requires few { length states.now ≤ MOST_NODES }
    ensures { OnOk result (events.new.items
        ≡ events.old.items ++ node_events row.now losses.now messages.now states.now i) }
{
    if !is_told(row, states, i) {
        return Ok(());
    }
    let vector = states[i as usize].vector;
    push_step(
        events,
        step_at(row, losses, states, i),
        i,
        row.sender,
        &vector,
    )?;
    if takes_messages(row, losses, states, i) {
        push_deliveries(events, i, messages)?;
    }
    Ok(())
}

/// The messages that a node's table shows for the slot of this number.
fn messages_at(medl: &Medl, node: u32, slot: usize) -> &[Entry]
    requires { node < length medl.now.rows }
    ensures { result.now ≡ (row_at medl.now node slot).messages }
{
    let rows = medl.rows(node);
    if slot < rows.len() {
        rows[slot].messages.as_slice()
    } else {
        &[]
    }
}

/// What is told of all nodes in the slot of this number, whose row this is.
pub fn events_of(
    alloc: Global,
    medl: &Medl,
    losses: &[Loss],
    states: &[NodeState],
    slot: usize,
    row: &Row,
) -> Result<Events, AllocError>
    requires nodes { length states.now ≡ length medl.now.rows }
    requires row { row.now ≡ row_at medl.now 0 slot }
    requires sender { row.now.sender < length states.now }
    requires few { length states.now ≤ MOST_NODES }
    ensures { IfOk result (λ events. events ≡ slot_events medl.now losses.now states.now slot) }
{
    let count = states.len();
    let mut events = Vec::new(alloc);
    for i in 0..count {
        push_node(
            &mut events,
            row,
            losses,
            messages_at(medl, i as u32, slot),
            states,
            i as u32,
        )?;
    }
    Ok(Events::new(events))
}
