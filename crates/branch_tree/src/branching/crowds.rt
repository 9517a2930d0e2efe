//! Which messages crowd a frame in the plan at hand?

ghost use Rattle.std.specs.Prelude.{◌≡◌, ◌<◌, length};
ghost use Rattle.tt_choice.specs.Choice.{IsChoice, least_round, greatest_round};
ghost use Rattle.branch_tree.specs.Branching.{MayBranch};

use crate::branching::channels;
use crate::branching::rounds::halved;
use crate::failures::Failures;
use tt_choice::Choice;
use tt_infer::Facts;
use ttp_model::{Instance, Kind};

/// A message in the plan at hand: how much failed on its node lately, and from which round to which it can be sent.
#[derive(Clone, Copy)]
struct Sending {
    failed: u64,
    first: u32,
    last: u32,
}

impl Sending {
    /// Whether this one is taken before another: where more failed lately, then the earlier frame, then the message with fewer
    /// rounds to go to. So one frame after another is settled of one node, and what is found wrong with them needn't be found
    /// again for each way in which others are settled.
    fn precedes(&self, other: &Sending) -> bool {
        if self.failed != other.failed {
            return self.failed > other.failed;
        }
        (self.first, self.last) <= (other.first, other.last)
    }
}

/// A branch on a message of an overfull frame.
#[derive(Clone, Copy)]
struct Crowd {
    kind: Kind,
    sending: Sending,
}

/// Whether one that is known is taken before a message, whether that is in an overfull frame or not.
fn is_behind(known: Option<Crowd>, sending: &Sending) -> bool {
    match known {
        Some(earlier) => earlier.sending.precedes(sending),
        None => false,
    }
}

/// A message as it stands in the plan at hand.
fn sending_of(facts: &Facts, failures: &Failures, m: u32) -> Sending
    requires { m < length facts.now.instance.messages }
{
    Sending {
        failed: failures.at(facts.instance().source_of(m as usize)),
        first: facts.lo(m),
        last: facts.top(m),
    }
}

/// The branch on a message that is in an overfull frame, if there is one: of the node on which most subtrees were closed lately, of the
/// earliest frame, with the fewest rounds to go to. Frames are looked at only of messages that would be taken before those that were
/// found: for each one a pass over the messages of its node, with two channels some for each message of the frame.
pub fn tightest_round(
    instance: &Instance,
    choice: &Choice,
    facts: &Facts,
    failures: &Failures,
) -> Option<Kind>
    requires of { IsChoice instance.now choice.now }
    requires facts { facts.now.instance ≡ instance.now }
    ensures { MayBranch instance.now choice.now result }
{
    let count = instance.messages().len() as u32;
    let mut worst = None;
    for m in 0..count {
        let sending = sending_of(facts, failures, m);
        if !is_behind(worst, &sending)
            && let Some(kind) = crowded(instance, choice, facts, m)
        {
            worst = Some(Crowd { kind, sending });
        }
    }
    match worst {
        Some(crowd) => Some(crowd.kind),
        None => None,
    }
}

/// The branch on a message whose frame is overfull, where its rounds or the frame's channels are open.
fn crowded(instance: &Instance, choice: &Choice, facts: &Facts, m: u32) -> Option<Kind>
    requires of { IsChoice instance.now choice.now }
    requires facts { facts.now.instance ≡ instance.now }
    requires message { m < length instance.now.messages }
    ensures { MayBranch instance.now choice.now result }
{
    if instance.cluster().channels == 1 {
        overfull(instance, choice, facts, m)
    } else {
        channels::overfull(instance, choice, facts, m)
    }
}

/// The branch on a message's rounds, where these are open and its frame is overfull on the only channel.
fn overfull(instance: &Instance, choice: &Choice, facts: &Facts, m: u32) -> Option<Kind>
    requires of { IsChoice instance.now choice.now }
    requires facts { facts.now.instance ≡ instance.now }
    requires message { m < length instance.now.messages }
    ensures { MayBranch instance.now choice.now result }
{
    let _messages = instance.messages();
    if choice.lo(m) >= choice.hi(m) {
        return None;
    }
    let node = instance.source_of(m as usize);
    let load = load(instance, facts, node, facts.lo(m));
    if load <= choice.cap_most(instance, node) {
        return None;
    }
    Some(halved(instance, choice, m))
}

/// The bytes in the frame of node `n` in round `r`, where each message is sent as early as it can be.
fn load(instance: &Instance, facts: &Facts, n: u32, r: u32) -> u32
    requires { facts.now.instance ≡ instance.now }
{
    let mut bytes = 0;
    for m in instance.messages_of(n) {
        if facts.lo(*m) == r {
            bytes += instance.message_at(*m as usize).bytes;
        }
    }
    bytes
}
