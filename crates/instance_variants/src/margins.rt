//! By how much longer may some processes run, all at once: as their windows leave it, and as a plan does?

ghost use Rattle.std.specs.Prelude.{◌≡◌, ◌<◌, ◌≤◌, length};
ghost use Rattle.std.specs.Bool.{Decides};
ghost use Rattle.ttp_model.specs.Limits.{most_ticks};
ghost use Rattle.ttp_model.specs.Lists.{EachBelow, IsFirstFailure};
ghost use Rattle.ttp_model.specs.Plans.{IsValid};
ghost use Rattle.instance_variants.specs.Slack.{slack};
ghost use Rattle.instance_variants.specs.Longer.{HasRoom, allowed_of, most_number, own_margin, room, window_margin};

use crate::longer::longer_by;
use crate::scale::{Scale, number_of};
use crate::slack::slack_of;
use plan_facts::must_end_by;
use ttp_model::{Instance, MOST_TICKS, Plan};

/// The greatest number with which any process could still end by the latest tick that can be said.
const MOST_NUMBER: u32 = 1000 * MOST_TICKS;

/// The greatest number for which process `p` has room, where it is one of these.
fn window_of(instance: &Instance, processes: &[u32], scale: Scale, p: u32) -> u32
    requires { p < length instance.now.processes }
    ensures { result ≡ allowed_of instance.now processes.now scale (room instance.now) most_number p }
{
    if !processes.contains(&p) {
        return MOST_NUMBER;
    }
    let process = instance.process_at(p as usize);
    let until = must_end_by(instance, p as usize);
    let room = until.saturating_sub(process.release + process.wcet);
    number_of(scale, room, process.wcet)
}

/// The greatest number for which each of these processes has room between its release and when it has to end, whatever the plan. A step for
/// each process, and for each that is named.
pub fn window_margin(instance: &Instance, processes: &[u32], scale: Scale) -> u32
    ensures value { result ≡ window_margin instance.now processes.now scale }
    ensures bound { result ≤ most_number }
{
    let count = instance.processes().len();
    let mut least = MOST_NUMBER;
    for p in 0..count {
        least = least.min(window_of(instance, processes, scale, p as u32));
    }
    least
}

/// The slack of a process, in ticks.
fn slack_in_ticks(instance: &Instance, plan: &Plan, p: u32) -> u32
    requires valid { IsValid instance.now plan.now }
    requires inside { p < length instance.now.processes }
    ensures value { result ≡ slack instance.now plan.now p }
    ensures small { result ≤ most_ticks }
{
    let _nodes = instance.nodes();
    slack_of(instance, plan, p as usize) as u32
}

/// The greatest number with which process `p` runs longer by no more than its slack, where it is one of these.
fn own_of(
    instance: &Instance,
    processes: &[u32],
    scale: Scale,
    plan: &Plan,
    top: u32,
    p: u32,
) -> u32
    requires valid { IsValid instance.now plan.now }
    requires inside { p < length instance.now.processes }
    ensures { result ≡ allowed_of instance.now processes.now scale (slack instance.now plan.now) top p }
{
    if !processes.contains(&p) {
        return top;
    }
    let slack = slack_in_ticks(instance, plan, p);
    number_of(scale, slack, instance.process_at(p as usize).wcet)
}

/// The greatest number, at most `top`, with which a valid plan stays valid where these processes run longer, all at once: its least slack over
/// them. A step for each process, and of each that is named what `slack_of` takes.
pub fn own_margin(
    instance: &Instance,
    processes: &[u32],
    scale: Scale,
    plan: &Plan,
    top: u32,
) -> u32
    requires { IsValid instance.now plan.now }
    ensures value { result ≡ own_margin instance.now processes.now scale plan.now top }
    ensures bound { result ≤ top }
{
    let count = instance.processes().len();
    let mut least = top;
    for p in 0..count {
        least = least.min(own_of(instance, processes, scale, plan, top, p as u32));
    }
    least
}

/// Whether process `p` has room for a number.
fn has_room(instance: &Instance, processes: &[u32], scale: Scale, x: u32, p: u32) -> bool
    requires { p < length instance.now.processes }
    ensures { Decides result (HasRoom instance.now processes.now scale x p) }
{
    let process = instance.process_at(p as usize);
    let least = process.release + process.wcet;
    let until = must_end_by(instance, p as usize);
    least <= until && longer_by(instance, processes, scale, x, p) <= u64::from(until - least)
}

/// The first process that has no room for a number, where one hasn't. A step for each process before it.
pub fn first_without_room(instance: &Instance, processes: &[u32], scale: Scale, x: u32) -> usize
    requires { ¬ EachBelow (length instance.now.processes) (HasRoom instance.now processes.now scale x) }
    ensures { IsFirstFailure (length instance.now.processes) (HasRoom instance.now processes.now scale x) result }
{
    for p in 0..instance.processes().len() {
        if !has_room(instance, processes, scale, x, p as u32) {
            return p;
        }
    }
    unreachable!()
}
