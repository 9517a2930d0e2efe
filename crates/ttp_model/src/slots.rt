//! How long is a slot?

ghost use Rattle.std.specs.Prelude.{◌≡◌, ◌≤◌};
ghost use Rattle.ttp_model.specs.Rules.{IsClusterInRange};
ghost use Rattle.ttp_model.specs.Slots.{slot_duration};

use crate::limits::{MOST_BYTES, MOST_DURATION};
use crate::parts::Cluster;

/// How long a slot of this capacity in bytes is, in ticks. One step.
pub fn slot_duration(c: &Cluster, capacity: u32) -> u64
    requires ranges { IsClusterInRange c.now }
    requires small { capacity ≤ MOST_BYTES }
    ensures length { result ≡ slot_duration c.now capacity }
    ensures bound { result ≤ MOST_DURATION }
{
    let frame = u64::from(c.head) + u64::from(c.per_byte) * u64::from(capacity);
    u64::from(c.lead) + frame + u64::from(c.trail)
}
