//! What does `compare` write of two instances, each with a plan of it?

ghost use Rattle.std.specs.Prelude.{◌≡◌, ◌+◌, ◌↔◌, IfOk, IfSome, IsTrue};
ghost use Rattle.std.specs.Io.KnownBytes.{Keeps};
ghost use Rattle.ttp_model.specs.Plans.{IsValid};
ghost use Rattle.command_streams.specs.declared.limits.TheConstants.{INSTANCE_LIMIT};
ghost use Rattle.command_streams.specs.Streams.{TakesAtMost};
ghost use Rattle.command_streams.specs.Instances.{IsOfInstance};
ghost use Rattle.plan_commands.specs.Printed.{printed_limit};
ghost use Rattle.plan_changes.specs.Changes.{IsUnchanged, changes_text};
ghost use Rattle.plan_commands.specs.Comparisons.{IfReleaseRefused, IsCompareAnswer, IsTelling, IsWritingOf, SayVerified, Texts, planned_of};

use crate::printed::printed_of_readers;
use crate::verdict::Verified;
use command_streams::{End, Fault, Release, Sink, write_text};
use plan_changes::{Changes, MemoryFault, Planned, changes_of};
use std::alloc::Global;
use std::io::{Read, Write};

/// What is told of two plans that are valid.
fn changes_between(alloc: Global, old: &Verified, new: &Verified) -> Result<Changes, MemoryFault>
    requires old { IsValid old.now.instance old.now.plan }
    requires new { IsValid new.now.instance new.now.plan }
    ensures text { IfOk result (λ changes. changes.text.items ≡ changes_text (planned_of old.now) (planned_of new.now)) }
    ensures unchanged { IfOk result (λ changes. IsTrue changes.unchanged ↔ IsUnchanged (planned_of old.now) (planned_of new.now)) }
{
    let old = Planned::of(&old.instance, &old.plan);
    let new = Planned::of(&new.instance, &new.plan);
    changes_of(alloc, &old, &new)
}

/// Writes what is told of a change.
fn write_changes<W: Write>(changes: &Changes, out: &mut W) -> End
    ensures { IsWritingOf changes.now.text.items changes.now.unchanged (W.contents out.old) (W.contents out.new) result }
{
    if write_text(out, changes.text.as_slice()).is_err() {
        return End::Refused(Fault::Unwritten(Sink::Out));
    }
    if changes.unchanged {
        End::Done
    } else {
        End::Different
    }
}

/// Tells what is different of two plans that are valid.
fn tell_changes<W: Write>(alloc: Global, old: &Verified, new: &Verified, out: &mut W) -> End
    requires old { IsValid old.now.instance old.now.plan }
    requires new { IsValid new.now.instance new.now.plan }
    ensures { IsTelling (planned_of old.now) (planned_of new.now) (W.contents out.old) (W.contents out.new) result }
{
    match changes_between(alloc, old, new) {
        Ok(changes) => {
            let end = write_changes(&changes, out);
            drop(changes);
            end
        }
        Err(_) => End::Refused(Fault::Memory),
    }
}

/// Reads the new instance and its plan, and tells what is different.
fn compare_with<I: Read, P: Read, W: Write>(
    alloc: Global,
    old: &Verified,
    instance: &mut I,
    plan: &mut P,
    out: &mut W,
) -> End
    requires { IsValid old.now.instance old.now.plan }
    ensures answer { (texts : Texts) → SayVerified texts old.now
        → IfSome (I.remaining instance.old) (λ i. IfSome (P.remaining plan.old) (λ p.
        IsCompareAnswer texts (record { instance = i; plan = p }) (W.contents out.old) (W.contents out.new) result)) }
    ensures release { IfReleaseRefused result (λ release fault. release ≡ Release.New) }
    ensures order { IfReleaseRefused result (λ release fault. IsOfInstance fault → Keeps (P.remaining plan.old) (P.remaining plan.new)) }
    ensures instance { TakesAtMost (INSTANCE_LIMIT + 1) (I.remaining instance.old) (I.remaining instance.new) }
    ensures plan { TakesAtMost (printed_limit + 1) (P.remaining plan.old) (P.remaining plan.new) }
{
    match printed_of_readers(alloc, instance, plan) {
        Ok(new) => {
            let end = tell_changes(alloc, old, &new, out);
            drop(new);
            end
        }
        Err(fault) => End::RefusedOf(Release::New, fault),
    }
}

/// Verifies an instance and a printed plan as `verify` does, and then a second instance and a printed plan of it, and writes which nodes' tables
/// and windows are other bytes in the second, and what is different of the plan. Where anything else ends the command nothing
/// is written, and after a failed write a prefix of the text stands.
pub fn compare_run<I: Read, P: Read, J: Read, Q: Read, W: Write>(
    alloc: Global,
    old_instance: &mut I,
    old_plan: &mut P,
    new_instance: &mut J,
    new_plan: &mut Q,
    out: &mut W,
) -> End
    ensures answer { IfSome (I.remaining old_instance.old) (λ i. IfSome (P.remaining old_plan.old) (λ p.
        IfSome (J.remaining new_instance.old) (λ j. IfSome (Q.remaining new_plan.old) (λ q.
        IsCompareAnswer (record { instance = i; plan = p }) (record { instance = j; plan = q })
        (W.contents out.old) (W.contents out.new) result)))) }
    // Of a reader no more is taken than its limit and one byte.
    ensures old_instance { TakesAtMost (INSTANCE_LIMIT + 1) (I.remaining old_instance.old) (I.remaining old_instance.new) }
    ensures old_plan { TakesAtMost (printed_limit + 1) (P.remaining old_plan.old) (P.remaining old_plan.new) }
    ensures new_instance { TakesAtMost (INSTANCE_LIMIT + 1) (J.remaining new_instance.old) (J.remaining new_instance.new) }
    ensures new_plan { TakesAtMost (printed_limit + 1) (Q.remaining new_plan.old) (Q.remaining new_plan.new) }
    // Nothing is taken of the new release where the old one is refused, and nothing of a plan at a fault of its instance.
    ensures order { IfReleaseRefused result (λ release fault. release ≡ Release.Old
        → Keeps (J.remaining new_instance.old) (J.remaining new_instance.new) × Keeps (Q.remaining new_plan.old) (Q.remaining new_plan.new)) }
    ensures old_order { IfReleaseRefused result (λ release fault. release ≡ Release.Old → IsOfInstance fault
        → Keeps (P.remaining old_plan.old) (P.remaining old_plan.new)) }
    ensures new_order { IfReleaseRefused result (λ release fault. IsOfInstance fault
        → Keeps (Q.remaining new_plan.old) (Q.remaining new_plan.new)) }
{
    match printed_of_readers(alloc, old_instance, old_plan) {
        Ok(old) => {
            let end = compare_with(alloc, &old, new_instance, new_plan, out);
            drop(old);
            end
        }
        Err(fault) => End::RefusedOf(Release::Old, fault),
    }
}
