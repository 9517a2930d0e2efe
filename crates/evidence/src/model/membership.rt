//! What membership does about frames that are lost.

ghost use Rattle.std.specs.Prelude.{◌≡◌, ℕ, ◌+◌, ◌<◌, Contains, IfOk, IsErr, false, length, slice_index_or};
ghost use Rattle.medl_tables.specs.Medl.{AreTables};
ghost use Rattle.membership_replay.specs.declared.trace.Event.TheVariants.{Deliver};
ghost use Rattle.membership_replay.specs.Losses.{no_loss};
ghost use Rattle.membership_replay.specs.LostFrames.{LosesOneFrame};
ghost use Rattle.membership_replay.specs.Machine.{has_member};
ghost use Rattle.membership_replay.specs.Trace.{row_at, slot_count, state_at};
ghost use Rattle.membership_replay.specs.Undisturbed.{slot_at};
ghost use Rattle.evidence.specs.Membership.{agrees};

use medl_tables::Medl;
use membership_replay::{Loss, ReplayFault, Trace, replay};
use std::alloc::Global;
use ttp_model::Instance;

/// Losses of which one is at the node that sends in its slot: that can't be.
pub fn lost_at_sender(
    alloc: Global,
    instance: &Instance,
    medl: &Medl,
    losses: &[Loss],
) -> Result<Trace, ReplayFault>
    requires { AreTables instance.now medl.now }
    ensures { (k : ℕ) → k < length losses.now
        → (slice_index_or losses.now k no_loss).receiver
        ≡ (row_at medl.now 0 (slice_index_or losses.now k no_loss).slot).sender
        → IsErr result }
{
    replay(alloc, instance, medl, losses)
}

/// One frame is lost at all its receivers, in the last slot but two: its sender has left at the end.
pub fn lost_everywhere(
    alloc: Global,
    instance: &Instance,
    medl: &Medl,
    losses: &[Loss],
) -> Result<Trace, ReplayFault>
    requires { AreTables instance.now medl.now }
    ensures { (slot : ℕ) → LosesOneFrame medl.now losses.now slot → slot + 3 ≡ slot_count medl.now
        → IfOk result (λ trace. has_member
        (state_at trace.states (row_at medl.now 0 slot).sender).vector
        (row_at medl.now 0 slot).sender ≡ false) }
{
    replay(alloc, instance, medl, losses)
}

/// A node that doesn't have the members that the sender of a slot shows is told no delivery in it.
pub fn without_agreement(
    alloc: Global,
    instance: &Instance,
    medl: &Medl,
    losses: &[Loss],
) -> Result<Trace, ReplayFault>
    requires { AreTables instance.now medl.now }
    ensures { (slot i m : ℕ) → slot < slot_count medl.now → agrees medl.now losses.now slot i ≡ false
        → IfOk result (λ trace. ¬ Contains (slot_at trace slot).events (Deliver m i)) }
{
    replay(alloc, instance, medl, losses)
}
