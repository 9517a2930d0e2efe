//! How far does each slot move in the plans of a choice?

ghost use Rattle.std.specs.Prelude.{◌≡◌, ◌<◌, IfOk, length};
ghost use Rattle.tt_choice.specs.Choice.{IsChoice};
ghost use Rattle.ttp_model.specs.Totals.{total};
ghost use Rattle.tt_choice.specs.Extremes.{dur_least, dur_most};
ghost use Rattle.sought_plans.specs.Setting.{AreSlotTimes, AreShort, AreSlots};

use tt_choice::Choice;
use ttp_model::{Instance, MemoryFault, slot_duration};

/// The slot of one node, over all plans of a choice, with what its times are reckoned from. Times
/// are ticks.
#[derive(Clone, Copy)]
pub struct SlotTimes {
    /// The least duration of a round.
    pub round_least: u64,
    /// The greatest duration of a round.
    pub round_most: u64,
    /// How far into a round the slot begins at least.
    pub offset_least: u64,
    /// How far into a round it begins at most.
    pub offset_most: u64,
    /// The least duration of the slot.
    pub dur_least: u64,
    /// Its greatest duration.
    pub dur_most: u64,
    /// The bytes that it carries at least.
    pub cap_least: u32,
    /// The bytes that it carries at most.
    pub cap_most: u32,
}

/// The slot of node `n`, where a round takes so long at least and at most. A few passes along the prefix.
fn times_of(
    instance: &Instance,
    choice: &Choice,
    n: u32,
    round_least: u64,
    round_most: u64,
) -> SlotTimes
    requires of { IsChoice instance.now choice.now }
    requires node { n < length instance.now.nodes }
    requires least { round_least ≡ total (dur_least instance.now choice.now) (length instance.now.nodes) }
    requires most { round_most ≡ total (dur_most instance.now choice.now) (length instance.now.nodes) }
    ensures times { AreSlotTimes instance.now choice.now n result }
    ensures short { AreShort result }
{
    let _nodes = instance.nodes();
    let cap_most = choice.cap_most(instance, n);
    SlotTimes {
        round_least,
        round_most,
        offset_least: choice.offset_least(instance, n),
        offset_most: choice.offset_most(instance, n),
        dur_least: choice.dur_least(instance, n),
        dur_most: slot_duration(instance.cluster(), cap_most),
        cap_least: choice.cap_least(instance, n),
        cap_most,
    }
}

/// The slots of all nodes, in this room.
pub fn slots_of(
    room: Vec<SlotTimes>,
    instance: &Instance,
    choice: &Choice,
) -> Result<Vec<SlotTimes>, MemoryFault>
    requires of { IsChoice instance.now choice.now }
    ensures { IfOk result (λ slots. AreSlots instance.now choice.now slots.items) }
{
    let count = instance.nodes().len() as u32;
    let least = choice.round_least(instance);
    let most = choice.round_most(instance);
    let mut slots = room;
    slots.clear();
    slots.reserve(count as usize)?;
    for n in 0..count {
        slots.push(times_of(instance, choice, n, least, most))?;
    }
    Ok(slots)
}
