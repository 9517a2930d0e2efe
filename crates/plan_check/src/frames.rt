//! Do the messages of each frame fit into its capacity?

ghost use Rattle.std.specs.Prelude.{◌<◌, ◌↔◌, IsTrue, MatchOption, length};
ghost use Rattle.ttp_model.specs.Lists.{EachBelow, FindsFailure, IsFirstFailure};
ghost use Rattle.ttp_model.specs.Plans.{FitsFrame, FitsOn, HasLengths};

use plan_facts::load_on;
use ttp_model::{Instance, Plan, is_on};

/// The first message in an overfull frame, and the first channel of this message on which it is overfull.
pub fn first_overfull(instance: &Instance, plan: &Plan) -> Option<(usize, u32)>
    requires { HasLengths instance.now plan.now }
    ensures { MatchOption result
        (EachBelow (length instance.now.messages) (FitsFrame instance.now plan.now))
        (λ found. IsFirstFailure (length instance.now.messages) (FitsFrame instance.now plan.now) found.0
        × IsFirstFailure instance.now.cluster.channels (FitsOn instance.now plan.now found.0) found.1) }
{
    for m in 0..instance.messages().len() {
        if let Some(c) = first_overfull_channel(instance, plan, m) {
            return Some((m, c));
        }
    }
    None
}

/// The first channel of message `m` on which its frame is overfull.
fn first_overfull_channel(instance: &Instance, plan: &Plan, m: usize) -> Option<u32>
    requires lengths { HasLengths instance.now plan.now }
    requires inside { m < length instance.now.messages }
    ensures { FindsFailure instance.now.cluster.channels (FitsOn instance.now plan.now m) result }
{
    for c in 0..instance.cluster().channels {
        if !fits_on(instance, plan, m, c) {
            return Some(c);
        }
    }
    None
}

/// Whether the frame of message `m` fits on channel `c`, where the message is on it.
fn fits_on(instance: &Instance, plan: &Plan, m: usize, c: u32) -> bool
    requires lengths { HasLengths instance.now plan.now }
    requires inside { m < length instance.now.messages }
    ensures { IsTrue result ↔ FitsOn instance.now plan.now m c }
{
    let n = instance.source_of(m);
    let r = plan.rounds.as_slice()[m];
    let capacity = plan.caps.as_slice()[n as usize];
    !is_on(c, plan.channels.as_slice()[m])
        || load_on(instance, plan, n, r, c) <= u64::from(capacity)
}
