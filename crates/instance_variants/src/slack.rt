//! By how many ticks may a process run longer, while the plan stays valid?

ghost use Rattle.std.specs.Prelude.{◌≡◌, ◌<◌, ◌≤◌, length};
ghost use Rattle.tt_layout.specs.Layout.{timing};
ghost use Rattle.ttp_model.specs.declared.limits.TheConstants.{MOST_TICKS};
ghost use Rattle.ttp_model.specs.Plans.{IsValid};
ghost use Rattle.instance_variants.specs.Slack.{latest_end, least, limit_of_link, limit_of_message, limit_of_process, slack};

use plan_facts::must_end_by;
use tt_layout::Layout;
use ttp_model::{Instance, Plan, end_of};

/// By how many ticks process `p` may run longer while a valid plan, as it stands, stays valid, whatever delay it then
/// has. A step for each process, link and message.
pub fn slack_of(instance: &Instance, plan: &Plan, p: usize) -> u64
    requires valid { IsValid instance.now plan.now }
    requires inside { p < length instance.now.processes }
    ensures { result ≡ slack instance.now plan.now p }
{
    latest_end(instance, plan, p) - end_of(instance, plan, p)
}

/// By when the process has to end, while all else of the plan stays.
fn latest_end(instance: &Instance, plan: &Plan, p: usize) -> u64
    requires valid { IsValid instance.now plan.now }
    requires inside { p < length instance.now.processes }
    ensures { result ≡ latest_end instance.now plan.now p }
{
    let layout = Layout::of(instance, plan.order.as_slice(), plan.caps.as_slice());
    let top = u64::from(must_end_by(instance, p));
    let top = least_of_processes(instance, plan, p, top);
    let top = least_of_links(instance, plan, p, top);
    least_of_messages(instance, plan, &layout, p, top)
}

/// The least of these limits that processes set.
fn least_of_processes(instance: &Instance, plan: &Plan, p: usize, top: u64) -> u64
    requires valid { IsValid instance.now plan.now }
    requires inside { p < length instance.now.processes }
    ensures { result ≡ least (limit_of_process instance.now plan.now p) top (length instance.now.processes) }
{
    let count = instance.processes().len();
    let mut least = top;
    for q in 0..count {
        least = least.min(limit_of_process(instance, plan, p, q));
    }
    least
}

/// The least of these limits that links set.
fn least_of_links(instance: &Instance, plan: &Plan, p: usize, top: u64) -> u64
    requires valid { IsValid instance.now plan.now }
    requires inside { p < length instance.now.processes }
    ensures { result ≡ least (limit_of_link instance.now plan.now p) top (length instance.now.links) }
{
    let count = instance.links().len();
    let mut least = top;
    for l in 0..count {
        least = least.min(limit_of_link(instance, plan, p, l));
    }
    least
}

/// The least of these limits that messages set.
fn least_of_messages(instance: &Instance, plan: &Plan, layout: &Layout, p: usize, top: u64) -> u64
    requires valid { IsValid instance.now plan.now }
    requires inside { p < length instance.now.processes }
    requires layout { layout.now ≡ timing instance.now.cluster plan.now.order plan.now.caps }
    ensures { result ≡ least (limit_of_message instance.now plan.now p) top (length instance.now.messages) }
{
    let count = instance.messages().len();
    let mut least = top;
    for m in 0..count {
        least = least.min(limit_of_message(instance, plan, layout, p, m));
    }
    least
}

/// By when the process has to end for another of its node.
fn limit_of_process(instance: &Instance, plan: &Plan, p: usize, q: usize) -> u64
    requires valid { IsValid instance.now plan.now }
    requires inside { p < length instance.now.processes }
    requires other { q < length instance.now.processes }
    ensures { result ≡ limit_of_process instance.now plan.now p q }
{
    let start = u64::from(plan.starts.as_slice()[q]);
    if instance.node_of(q) == instance.node_of(p) && end_of(instance, plan, p) <= start {
        start
    } else {
        u64::from(instance.cluster().horizon)
    }
}

/// By when the process has to end for a link.
fn limit_of_link(instance: &Instance, plan: &Plan, p: usize, l: usize) -> u64
    requires valid { IsValid instance.now plan.now }
    requires inside { l < length instance.now.links }
    ensures { result ≡ limit_of_link instance.now plan.now p l }
{
    let link = instance.link_at(l);
    if link.before as usize == p {
        u64::from(plan.starts.as_slice()[link.after as usize])
    } else {
        u64::from(instance.cluster().horizon)
    }
}

/// By when the process has to end for a message.
fn limit_of_message(instance: &Instance, plan: &Plan, layout: &Layout, p: usize, m: usize) -> u64
    requires valid { IsValid instance.now plan.now }
    requires inside { m < length instance.now.messages }
    requires layout { layout.now ≡ timing instance.now.cluster plan.now.order plan.now.caps }
    ensures { result ≡ limit_of_message instance.now plan.now p m }
{
    if instance.message_at(m).sender as usize != p {
        return u64::from(instance.cluster().horizon);
    }
    let slot = layout.slot_start(instance.source_of(m), plan.rounds.as_slice()[m]);
    slot - u64::from(instance.cluster().copy_out)
}
