//! When can each process start at the earliest?

ghost use Rattle.std.specs.Prelude.{◌≡◌, ℕ, ◌+◌, ◌^◌, ◌<◌, ◌≤◌, ◌↔◌, IsTrue, IfSome, IfNone, length, slice_index};
ghost use Rattle.ttp_model.specs.Instance.{process_at};
ghost use Rattle.ttp_model.specs.Raising.{IsRaised};
ghost use Rattle.tt_choice.specs.Choice.{IsChoice, is_before};
ghost use Rattle.earliest_starts.specs.Clashes.{MissesWindow};
ghost use Rattle.earliest_starts.specs.Ranks.{AreRanks, Rise};
ghost use Rattle.earliest_starts.specs.Starts.{AreFloors, StartsInTime, AreSettledBelow, AreSettled, GoesBefore, end_in};

use tt_choice::Choice;
use ttp_model::Instance;

/// Finds each start, in ticks, rank by rank; or a process that can't end in time. One pass over
/// the pairs of processes.
pub fn settle(
    instance: &Instance,
    choice: &Choice,
    ranks: &[u32],
    floors: &[u64],
    starts: &mut Vec<u32>,
) -> Option<u32>
    requires of { IsChoice instance.now choice.now }
    requires ranks { AreRanks instance.now choice.now ranks.now }
    requires rise { Rise instance.now choice.now ranks.now }
    requires floors { AreFloors instance.now choice.now (length instance.now.messages) floors.now }
    requires all { length starts.old.items ≡ length instance.now.processes }
    ensures all { length starts.new.items ≡ length instance.now.processes }
    ensures found { IfSome result (MissesWindow instance.now choice.now) }
    ensures none { IfNone result (AreSettled instance.now choice.now floors.now starts.new.items) }
{
    let count = instance.processes().len() as u32;
    for rank in 0..count {
        if let Some(p) = settle_rank(instance, choice, ranks, floors, rank, starts) {
            return Some(p);
        }
    }
    None
}

/// Finds the starts of one rank, after those of all lower ranks.
fn settle_rank(
    instance: &Instance,
    choice: &Choice,
    ranks: &[u32],
    floors: &[u64],
    rank: u32,
    starts: &mut Vec<u32>,
) -> Option<u32>
    requires of { IsChoice instance.now choice.now }
    requires ranks { length ranks.now ≡ length instance.now.processes }
    requires rise { Rise instance.now choice.now ranks.now }
    requires floors { AreFloors instance.now choice.now (length instance.now.messages) floors.now }
    requires all { length starts.old.items ≡ length instance.now.processes }
    requires lower { AreSettledBelow instance.now choice.now ranks.now floors.now
        starts.old.items rank }
    ensures all { length starts.new.items ≡ length instance.now.processes }
    ensures found { IfSome result (MissesWindow instance.now choice.now) }
    ensures none { IfNone result
        (AreSettledBelow instance.now choice.now ranks.now floors.now starts.new.items (rank + 1)) }
{
    let count = instance.processes().len() as u32;
    for p in 0..count {
        if ranks[p as usize] == rank {
            let start = earliest_start(instance, choice, floors, starts.as_slice(), p);
            if !ends_in_time(instance, p, start) {
                return Some(p);
            }
            starts[p as usize] = start as u32;
        }
    }
    None
}

/// When process `p` can start, in ticks, where those that go before it have their starts.
fn earliest_start(
    instance: &Instance,
    choice: &Choice,
    floors: &[u64],
    starts: &[u32],
    p: u32,
) -> u64
    requires of { IsChoice instance.now choice.now }
    requires floors { AreFloors instance.now choice.now (length instance.now.messages) floors.now }
    requires all { length starts.now ≡ length instance.now.processes }
    requires process { p < length instance.now.processes }
    ensures raised { IsRaised (length instance.now.processes) (GoesBefore choice.now p)
        (end_in instance.now starts.now) (slice_index floors.now p) result }
    ensures small { result < 2 ^ 60 }
{
    let mut start = floors[p as usize];
    let count = instance.processes().len() as u32;
    for q in 0..count {
        if choice.is_before(q, p) {
            start = start.max(end(instance, starts, q as usize));
        }
    }
    start
}

/// When process `q` ends, in ticks.
pub fn end(instance: &Instance, starts: &[u32], q: usize) -> u64
    requires all { length starts.now ≡ length instance.now.processes }
    requires process { q < length instance.now.processes }
    ensures value { result ≡ slice_index starts.now q + (process_at instance.now q).wcet }
    ensures small { result < 2 ^ 59 }
{
    u64::from(starts[q]) + u64::from(instance.process_at(q).wcet)
}

/// Whether process `p` ends by its deadline and within the horizon when it starts at this tick.
fn ends_in_time(instance: &Instance, p: u32, start: u64) -> bool
    requires process { p < length instance.now.processes }
    requires small { start < 2 ^ 60 }
    ensures { IsTrue result ↔ ((start + (process_at instance.now p).wcet
        ≤ (process_at instance.now p).deadline)
        × (start + (process_at instance.now p).wcet ≤ instance.now.cluster.horizon)) }
{
    let process = instance.process_at(p as usize);
    let end = start + u64::from(process.wcet);
    end <= u64::from(process.deadline) && end <= u64::from(instance.cluster().horizon)
}
