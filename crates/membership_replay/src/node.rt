//! What does each node know after a slot?

ghost use Rattle.std.specs.Prelude.{◌≡◌, ◌<◌, ◌≤◌, IfOk, length};
ghost use Rattle.membership_replay.specs.Trace.{first_state, first_states, is_active, is_lost, is_received, next_state, next_states, state_at, step_at};

use crate::loss::Loss;
use crate::state::{NodeState, Phase, Step, state_after, step_of};
use medl_tables::Row;
use std::alloc::{AllocError, Global};
use ttp_model::MOST_NODES;

/// What each of so many nodes knows at first.
pub fn first_state(count: usize) -> NodeState
    requires { count ≤ MOST_NODES }
    ensures { result ≡ first_state count }
{
    let mut vector = [false; MOST_NODES];
    for k in 0..MOST_NODES {
        vector[k] = k < count;
    }
    NodeState {
        vector,
        phase: Phase::Idle,
    }
}

/// What all know at first.
pub fn first_states(alloc: Global, count: usize) -> Result<Vec<NodeState>, AllocError>
    requires { count ≤ MOST_NODES }
    ensures { IfOk result (λ v. v.items ≡ first_states count) }
{
    let mut states = Vec::with_capacity(alloc, count)?;
    for _i in 0..count {
        states.push(first_state(count))?;
    }
    Ok(states)
}

/// Whether a node is active.
pub fn is_active(states: &[NodeState], i: u32) -> bool
    requires inside { i < length states.now }
    requires few { length states.now ≤ MOST_NODES }
    ensures { result ≡ is_active states.now i }
{
    states[i as usize].vector[i as usize]
}

/// Whether the frame of a row's slot is lost at a node. One pass over the losses.
fn is_lost(losses: &[Loss], row: &Row, i: u32) -> bool
    ensures { result ≡ is_lost losses.now row.now i }
{
    let round = row.round;
    let position = row.position;
    losses.iter().any(|l| l.round == round && l.slot == position && l.receiver == i)
}

/// Whether a node receives the frame of a row's slot.
pub fn is_received(row: &Row, losses: &[Loss], states: &[NodeState], i: u32) -> bool
    requires sender { row.now.sender < length states.now }
    requires few { length states.now ≤ MOST_NODES }
    ensures { result ≡ is_received row.now losses.now states.now i }
{
    is_active(states, row.sender) && !is_lost(losses, row, i)
}

/// What an active node that isn't the sender does in a row's slot.
pub fn step_at(row: &Row, losses: &[Loss], states: &[NodeState], i: u32) -> Step
    requires inside { i < length states.now }
    requires sender { row.now.sender < length states.now }
    requires few { length states.now ≤ MOST_NODES }
    ensures { result ≡ step_at row.now losses.now states.now i }
{
    let received = is_received(row, losses, states, i);
    let shown = states[row.sender as usize].vector;
    let state = states[i as usize];
    step_of(state.phase, i, received, &shown, &state.vector)
}

/// What a node knows after a row's slot.
#[tactic(auto, unfolding(crate::specs::Trace::next_state))]
pub fn next_state(row: &Row, losses: &[Loss], states: &[NodeState], i: u32) -> NodeState
    requires inside { i < length states.now }
    requires sender { row.now.sender < length states.now }
    requires few { length states.now ≤ MOST_NODES }
    ensures { result ≡ next_state row.now losses.now states.now i }
{
    let state = states[i as usize];
    if !is_active(states, i) {
        return state;
    }
    if i == row.sender {
        return NodeState {
            vector: state.vector,
            phase: Phase::First,
        };
    }
    state_after(step_at(row, losses, states, i), i, row.sender, &state)
}

/// What all know after a row's slot.
pub fn next_states(
    alloc: Global,
    row: &Row,
    losses: &[Loss],
    states: &[NodeState],
) -> Result<Vec<NodeState>, AllocError>
    requires sender { row.now.sender < length states.now }
    requires few { length states.now ≤ MOST_NODES }
    ensures { IfOk result (λ v. v.items ≡ next_states row.now losses.now states.now) }
{
    let count = states.len();
    let mut next = Vec::with_capacity(alloc, count)?;
    for i in 0..count {
        next.push(next_state(row, losses, states, i as u32))?;
    }
    Ok(next)
}
