//! Which list is too short or too long.

ghost use Rattle.std.specs.Prelude.{MatchOption, length};
ghost use Rattle.ttp_model.specs.Lists.{FindsFailure};
ghost use Rattle.ttp_model.specs.Parts.{instance_of};
ghost use Rattle.ttp_model.specs.Rules.{KeepsLimits, HasReceiver};
ghost use Rattle.ttp_model.specs.Refusals.{IsFirstWrongLength};

use crate::error::Part;
use crate::limits::{MOST_LINKS, MOST_MESSAGES, MOST_NODES, MOST_PROCESSES};
use crate::parts::Parts;

/// The first list of a wrong length.
pub fn wrong_length(parts: &Parts) -> Option<Part>
    ensures { MatchOption result
        (KeepsLimits (instance_of parts.now))
        (IsFirstWrongLength (instance_of parts.now)) }
{
    if parts.nodes.is_empty() || parts.nodes.len() > MOST_NODES {
        return Some(Part::Nodes);
    }
    if parts.processes.is_empty() || parts.processes.len() > MOST_PROCESSES {
        return Some(Part::Processes);
    }
    if parts.links.len() > MOST_LINKS {
        return Some(Part::Links);
    }
    if parts.messages.len() > MOST_MESSAGES {
        return Some(Part::Messages);
    }
    None
}

/// The first message without a receiver.
pub fn without_receiver(parts: &Parts) -> Option<u32>
    requires { KeepsLimits (instance_of parts.now) }
    ensures { FindsFailure (length parts.now.messages.items) (HasReceiver (instance_of parts.now)) result }
{
    for m in 0..parts.messages.len() {
        if parts.messages[m].receivers.is_empty() {
            return Some(m as u32);
        }
    }
    None
}
