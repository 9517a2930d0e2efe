//! Which loads close a node, and which fact a step is about.

ghost use Rattle.std.specs.Prelude.{◌≡◌, ◌≢◌, ℕ, ◌-◌, ◌*◌, ◌<◌, ◌≤◌, IsSome, Some, length};
ghost use Rattle.ttp_model.specs.Instance.{link_at};
ghost use Rattle.ttp_model.specs.Totals.{total};
ghost use Rattle.tt_choice.specs.Extremes.{cap_most};
ghost use Rattle.sought_plans.specs.Premises.{bytes_copied, bytes_counted, load_within};
ghost use Rattle.tt_infer.specs.Table.{HasHalf};

use load_bounds::{frame_load, node_load};
use tt_infer::{Fact, Facts, target};
use ttp_model::{Instance, Step};

/// An interval that the node's processes just fill is never told as too short for them.
pub fn interval_that_is_not_full(facts: &Facts, node: u32) -> Option<Step>
    ensures { (a b : ℕ) → b - a ≡ total (load_within facts.now.instance facts.now.known node a b)
        (length facts.now.instance.processes)
        → result ≢ Some (Step.XLoad node a b) }
{
    node_load(facts, node)
}

/// Where the node's processes take longer than some interval has, a load is told.
pub fn interval_that_is_too_short(facts: &Facts, node: u32) -> Option<Step>
    ensures { (a b : ℕ) → node < length facts.now.instance.nodes → a ≤ b
        → b - a < total (load_within facts.now.instance facts.now.known node a b)
        (length facts.now.instance.processes)
        → IsSome result }
{
    node_load(facts, node)
}

/// Frames that the node's messages just fill, on all channels together, are never told as too small for them.
pub fn frames_that_are_not_full(facts: &Facts, node: u32) -> Option<Step>
    ensures { (a b : ℕ) → facts.now.instance.cluster.channels * ((b - a) * cap_most facts.now.instance facts.now.choice node)
        ≡ total (bytes_copied facts.now.instance facts.now.choice facts.now.known node a b) (length facts.now.instance.messages)
        → result ≢ Some (Step.XFrames node a b) }
{
    frame_load(facts, node)
}

/// Where its messages need more than the frames of some rounds hold, on all channels together or on one of two, a load is told.
pub fn frames_that_are_too_small(facts: &Facts, node: u32) -> Option<Step>
    ensures on_all { (a b : ℕ) → node < length facts.now.instance.nodes → a ≤ b
        → facts.now.instance.cluster.channels * ((b - a) * cap_most facts.now.instance facts.now.choice node)
        < total (bytes_copied facts.now.instance facts.now.choice facts.now.known node a b) (length facts.now.instance.messages)
        → IsSome result }
    ensures on_one { (k a b : ℕ) → HasHalf facts.now.instance node k → a ≤ b
        → (b - a) * cap_most facts.now.instance facts.now.choice node
        < total (bytes_counted facts.now.instance facts.now.choice facts.now.known k node a b) (length facts.now.instance.messages)
        → IsSome result }
{
    frame_load(facts, node)
}

/// What the step on a link's end sharpens: the latest end of the link's first process.
pub fn fact_of_link(instance: &Instance, l: u32) -> Fact
    ensures { result ≡ Fact.End (link_at instance.now l).before }
{
    let step = Step::LeLink(l);
    target(instance, &step)
}
