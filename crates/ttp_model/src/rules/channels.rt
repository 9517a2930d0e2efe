//! Which messages are to be on channels that are not there.

ghost use Rattle.std.specs.Prelude.{length};
ghost use Rattle.ttp_model.specs.Lists.{FindsFailure};
ghost use Rattle.ttp_model.specs.Parts.{instance_of};
ghost use Rattle.ttp_model.specs.Rules.{KeepsLimits, HasChannels};

use crate::parts::Parts;

/// The first message that is to be on both channels of a cluster that has one.
pub fn both_of_one(parts: &Parts) -> Option<u32>
    requires { KeepsLimits (instance_of parts.now) }
    ensures { FindsFailure (length parts.now.messages.items) (HasChannels (instance_of parts.now)) result }
{
    for m in 0..parts.messages.len() {
        if parts.cluster.channels == 1 && parts.messages[m].both {
            return Some(m as u32);
        }
    }
    None
}
