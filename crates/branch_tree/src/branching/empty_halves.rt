//! Which halves of ranges of rounds are empty from the start?

ghost use Rattle.std.specs.Prelude.{◌≡◌, ◌<◌, length};
ghost use Rattle.tt_choice.specs.Choice.{IsChoice};
ghost use Rattle.branch_tree.specs.Branching.{MayBranch};

use crate::branching::rounds::{halved, is_in_one_half};
use sought_plans::copies;
use tt_choice::Choice;
use tt_infer::Facts;
use ttp_model::{Instance, Kind};

/// From how many messages on that may crowd a frame empty halves are ruled out at once. That costs
/// some six branches for each, more than small trees save by it; `layer10` needs half the branches so, and `layer07` is solved within
/// its budget.
const CROWD: usize = 20;

/// How many branches that may take at most. They stand in front of all others, so each subtree below them has as many decisions
/// and numbers of its name more, and holds them as long as it waits: 30,000 subtrees of an instance of 434 messages took 3.5 GB
/// without this limit, 0.1 with it.
const MOST_BRANCHES: usize = 2_560;

/// Up to how many messages: each may take twenty branches, as many as a round has binary digits.
const MOST_CROWD: usize = MOST_BRANCHES / 20;

/// The branch that rules out an empty half of a message's rounds, where many messages may crowd a
/// frame, and not so many that it takes too many branches. What is ruled out here needn't be ruled out in each subtree below.
pub fn empty_half(instance: &Instance, choice: &Choice, facts: &Facts) -> Option<Kind>
    requires of { IsChoice instance.now choice.now }
    requires facts { facts.now.instance ≡ instance.now }
    ensures { MayBranch instance.now choice.now result }
{
    let count = instance.messages().len() as u32;
    let mut crowd = 0;
    let mut first = None;
    for m in 0..count {
        if may_crowd(instance, choice, facts, m) {
            crowd += 1;
            if first.is_none() {
                first = ruled_out(instance, choice, facts, m);
            }
        }
    }
    if crowd < CROWD || crowd > MOST_CROWD {
        None
    } else {
        first
    }
}

/// The branch that rules out an empty half of one message's rounds, if there is one.
fn ruled_out(instance: &Instance, choice: &Choice, facts: &Facts, m: u32) -> Option<Kind>
    requires of { IsChoice instance.now choice.now }
    requires facts { facts.now.instance ≡ instance.now }
    requires message { m < length instance.now.messages }
    ensures { MayBranch instance.now choice.now result }
{
    let _messages = instance.messages();
    if choice.lo(m) < choice.hi(m) && is_in_one_half(instance, choice, facts, m) {
        return Some(halved(instance, choice, m));
    }
    None
}

/// Whether a message could be in a frame that is too small, on all channels together, for all that could be in it.
fn may_crowd(instance: &Instance, choice: &Choice, facts: &Facts, m: u32) -> bool
    requires of { IsChoice instance.now choice.now }
    requires facts { facts.now.instance ≡ instance.now }
    requires message { m < length instance.now.messages }
{
    let node = instance.source_of(m as usize);
    let mut bytes = 0;
    for k in instance.messages_of(node) {
        if facts.lo(*k) <= facts.top(m) && facts.lo(m) <= facts.top(*k) {
            let own = instance.message_at(*k as usize).bytes;
            bytes = own.saturating_mul(copies(choice, *k)).saturating_add(bytes);
        }
    }
    let channels = instance.cluster().channels;
    bytes > choice.cap_most(instance, node).saturating_mul(channels)
}
