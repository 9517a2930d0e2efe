//! What does a node know of the others, and what does it do in a slot of another?

ghost use Rattle.std.specs.Prelude.{◌≡◌, if◌then◌else◌};
ghost use Rattle.membership_replay.specs.Machine.{is_same, state_after, step_of, without};

use ttp_model::MOST_NODES;

/// Where a node stands between its own slots.
#[derive(Clone, Copy, PartialEq, Eq)]
pub enum Phase {
    /// It doesn't wait for an acknowledgement.
    Idle,
    /// It has sent, and waits for a frame that acknowledges it.
    First,
    /// This node's frame left it in doubt: the next frame decides.
    Second(u32),
}

/// What a node knows.
#[derive(Clone, Copy, PartialEq, Eq)]
pub struct NodeState {
    /// Which nodes it counts as members, by their index.
    pub vector: [bool; MOST_NODES],
    /// Whether it waits to be acknowledged.
    pub phase: Phase,
}

/// What a node does in a slot of another.
#[derive(Clone, Copy, PartialEq, Eq)]
pub enum Step {
    /// It agrees with the sender.
    Nothing,
    /// It takes the sender out of its vector.
    Drops,
    /// It was acknowledged.
    Acknowledges,
    /// It may not have been received.
    Doubts,
    /// It was acknowledged, and takes out the node that left it in doubt.
    Confirms(u32),
    /// It wasn't received, and takes itself out, for good.
    Leaves,
}

/// The vector without a node.
pub fn without(vector: &[bool; MOST_NODES], n: u32) -> [bool; MOST_NODES]
    ensures { result ≡ without vector.now n }
{
    let mut others = *vector;
    if (n as usize) < MOST_NODES {
        others[n as usize] = false;
    }
    others
}

/// Whether two vectors have the same members.
pub fn is_same(v: &[bool; MOST_NODES], w: &[bool; MOST_NODES]) -> bool
    ensures { result ≡ is_same v.now w.now }
{
    v.as_slice() == w.as_slice()
}

/// What node `i` does in a slot of another, by its phase, if the frame showed a vector and it
/// received it or not.
pub fn step_of(
    phase: Phase,
    i: u32,
    received: bool,
    shown: &[bool; MOST_NODES],
    vector: &[bool; MOST_NODES],
) -> Step
    ensures { result ≡ step_of phase i received shown.now vector.now }
{
    match phase {
        Phase::Idle => idle_step(received && is_same(shown, vector)),
        Phase::First => {
            if received && is_same(shown, vector) {
                return Step::Acknowledges;
            }
            if received && is_same(shown, &without(vector, i)) {
                return Step::Doubts;
            }
            Step::Drops
        }
        Phase::Second(b) => {
            if received && is_same(shown, &without(vector, b)) {
                return Step::Confirms(b);
            }
            if received && is_same(shown, &without(vector, i)) {
                return Step::Leaves;
            }
            Step::Drops
        }
    }
}

/// What an idle node does, if it agrees with the frame or not.
fn idle_step(agrees: bool) -> Step
    ensures { result ≡ (if agrees then Step.Nothing else Step.Drops) }
{
    if agrees { Step::Nothing } else { Step::Drops }
}

/// What node `i` knows after a step in a slot of node `s`.
pub fn state_after(step: Step, i: u32, s: u32, state: &NodeState) -> NodeState
    ensures { result ≡ state_after step i s state.now }
{
    let NodeState { vector, phase } = *state;
    match step {
        Step::Nothing => NodeState { vector, phase },
        Step::Drops => NodeState {
            vector: without(&vector, s),
            phase,
        },
        Step::Acknowledges => NodeState {
            vector,
            phase: Phase::Idle,
        },
        Step::Doubts => NodeState {
            vector,
            phase: Phase::Second(s),
        },
        Step::Confirms(b) => NodeState {
            vector: without(&vector, b),
            phase: Phase::Idle,
        },
        Step::Leaves => NodeState {
            vector: without(&vector, i),
            phase,
        },
    }
}
