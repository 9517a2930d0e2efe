//! Does a node have more to do in some interval than there is room for?

ghost use Rattle.std.specs.Prelude.{◌<◌, ◌≤◌, IsSome, length};
ghost use Rattle.ttp_model.specs.declared.plan.Plan.{Plan};
ghost use Rattle.tt_infer.specs.Known.{IsSought};
ghost use Rattle.load_bounds.specs.Gathered.{AreRuns, AreSendings, AreSendingsOn};
ghost use Rattle.load_bounds.specs.Loads.{IsNodeLoad, IsWholeLoad, IsLoadOn, IsChannelLoad, IsFrameLoad};

use crate::demands::{Demand, Demands};
use crate::excess::excess;
use tt_infer::{Facts, copies, counts_on};
use ttp_model::Step;

/// The processes of a node, each with its ticks from its earliest start until its latest end.
fn runs_of(facts: &Facts, node: u32) -> Demands
    ensures { AreRuns facts.now.instance facts.now.known node (length facts.now.instance.processes) result }
{
    let instance = facts.instance();
    let count = instance.processes().len() as u32;
    let mut runs = Demands::none();
    for p in 0..count {
        let process = instance.process_at(p as usize);
        if process.node == node {
            let from = facts.es(p);
            let until = facts.le(p);
            runs.add(Demand {
                from,
                until,
                size: process.wcet,
            });
        }
    }
    runs
}

/// The messages that a node sends, each with its bytes, twice where it is on both channels, from its
/// least round until the first that is too late.
fn sendings_of(facts: &Facts, node: u32) -> Demands
    ensures { AreSendings facts.now.instance facts.now.choice facts.now.known node (length facts.now.instance.messages) result }
{
    let instance = facts.instance();
    let choice = facts.choice();
    let count = instance.messages().len() as u32;
    let mut sendings = Demands::none();
    for m in 0..count {
        if instance.source_of(m as usize) == node {
            let from = facts.lo(m);
            let until = facts.top(m);
            let times = copies(choice, m);
            sendings.add(Demand {
                from,
                until,
                size: times * instance.message_at(m as usize).bytes,
            });
        }
    }
    sendings
}

/// The messages that a node sends on a channel as far as that is known, each with its bytes.
fn sendings_on(facts: &Facts, channel: u32, node: u32) -> Demands
    ensures { AreSendingsOn facts.now.instance facts.now.choice facts.now.known channel node (length facts.now.instance.messages) result }
{
    let instance = facts.instance();
    let choice = facts.choice();
    let count = instance.messages().len() as u32;
    let mut sendings = Demands::none();
    for m in 0..count {
        if instance.source_of(m as usize) == node && counts_on(choice, channel, m) {
            let from = facts.lo(m);
            let until = facts.top(m);
            sendings.add(Demand {
                from,
                until,
                size: instance.message_at(m as usize).bytes,
            });
        }
    }
    sendings
}

/// A lawful `XLoad` of the node: an interval of ticks that is shorter than what of the node's
/// processes can't start before it nor end after it. None exactly where there is none, and so for a
/// node that isn't there. Takes one pass over the processes and, for each of the node's, one over
/// the node's own; no memory.
///
/// It answers by the table of steps, which looks at the bounds alone: after a closer it still finds
/// what it would have found, though nothing is applied any more.
pub fn node_load(facts: &Facts, node: u32) -> Option<Step>
    ensures answer { IsNodeLoad facts.now node result }
    ensures none_left { IsSome result → (plan : Plan)
        → ¬ IsSought facts.now.instance facts.now.choice facts.now.goal plan }
{
    if node as usize >= facts.instance().nodes().len() {
        return None;
    }
    let mut runs = runs_of(facts, node);
    match excess(&mut runs, 1) {
        Some((a, b)) => Some(Step::XLoad(node, a, b)),
        None => None,
    }
}

/// A lawful `XFrames` of the node: an interval of rounds whose frames, each as large as it can be,
/// hold less on all channels together than the bytes of the node's messages that can't be sent before
/// nor after it. None exactly where there is none.
fn whole_load(facts: &Facts, node: u32) -> Option<Step>
    requires { node < length facts.now.instance.nodes }
    ensures { IsWholeLoad facts.now node result }
{
    let instance = facts.instance();
    let channels = instance.cluster().channels;
    let capacity = facts.choice().cap_most(instance, node);
    let mut sendings = sendings_of(facts, node);
    match excess(&mut sendings, channels * capacity) {
        Some((a, b)) => Some(Step::XFrames(node, a, b)),
        None => None,
    }
}

/// A lawful `XChannel` of the node and a channel: an interval of rounds whose frames hold less on that
/// channel than what is known to be sent on it. None exactly where there is none.
fn load_on(facts: &Facts, channel: u32, node: u32) -> Option<Step>
    requires there { node < length facts.now.instance.nodes }
    requires two { 2 ≤ facts.now.instance.cluster.channels }
    requires channel { channel < facts.now.instance.cluster.channels }
    ensures { IsLoadOn facts.now channel node result }
{
    let instance = facts.instance();
    let capacity = facts.choice().cap_most(instance, node);
    let mut sendings = sendings_on(facts, channel, node);
    match excess(&mut sendings, capacity) {
        Some((a, b)) => Some(Step::XChannel(channel, node, a, b)),
        None => None,
    }
}

/// The same of the first channel that has one: none exactly where no channel has, and so where there
/// is one channel alone.
fn channel_load(facts: &Facts, node: u32) -> Option<Step>
    requires { node < length facts.now.instance.nodes }
    ensures { IsChannelLoad facts.now node result }
{
    let channels = facts.instance().cluster().channels;
    if channels < 2 {
        return None;
    }
    for channel in 0..channels {
        if let Some(step) = load_on(facts, channel, node) {
            return Some(step);
        }
    }
    None
}

/// A lawful `XChannel` or `XFrames` of the node: an interval of rounds whose frames, each as large as
/// it can be, hold less than the bytes of the node's messages that can't be sent before nor after it, on
/// one of two channels or on all together. None exactly where there is neither, and so for a node that
/// isn't there. Takes one pass over the messages and, for each that the node sends, one over those that
/// it sends, and with two channels the same for each of them first; no memory. After a closer it
/// answers as `node_load` does.
pub fn frame_load(facts: &Facts, node: u32) -> Option<Step>
    ensures answer { IsFrameLoad facts.now node result }
    ensures none_left { IsSome result → (plan : Plan)
        → ¬ IsSought facts.now.instance facts.now.choice facts.now.goal plan }
{
    let instance = facts.instance();
    if node as usize >= instance.nodes().len() {
        return None;
    }
    match channel_load(facts, node) {
        Some(step) => Some(step),
        None => whole_load(facts, node),
    }
}
