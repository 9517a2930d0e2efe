//! What `draw` says of an instance and a plan.

ghost use Rattle.std.specs.Prelude.{◌+◌, ◌≤◌, IfSome};
ghost use Rattle.ttp_model.specs.Plans.{IsValid};
ghost use Rattle.std.specs.Io.KnownBytes.{Keeps};
ghost use Rattle.plan_sheets.specs.Limits.{least_width, most_width};
ghost use Rattle.command_streams.specs.declared.limits.TheConstants.{INSTANCE_LIMIT};
ghost use Rattle.command_streams.specs.Streams.{TakesAtMost};
ghost use Rattle.command_streams.specs.Instances.{IsOfInstance};
ghost use Rattle.command_streams.specs.Outcomes.{IfRefused, IsCommandAnswer, OnDone};
ghost use Rattle.plan_commands.specs.Printed.{printed_limit};
ghost use Rattle.plan_commands.specs.Drawings.{IsDrawAnswer, IsPictureText, IsUndrawn};

use crate::printed::printed_of_readers;
use command_streams::{End, Fault, end_with};
use plan_sheets::pictures::{Shown, print, too_many_slots};
use std::alloc::Global;
use std::io::{Read, Write};
use ttp_model::{Instance, Plan};

/// Writes the picture of a valid plan's cycle, unless it has too many slots.
fn write_picture<W: Write>(
    alloc: Global,
    instance: &Instance,
    plan: &Plan,
    width: u32,
    shown: Shown,
    out: &mut W,
) -> End
    requires valid { IsValid instance.now plan.now }
    requires least { least_width ≤ width }
    requires most { width ≤ most_width }
    ensures answer { IsCommandAnswer (OnDone (IsPictureText width shown instance.now plan.now)) (IsUndrawn shown instance.now plan.now)
        (W.contents out.old) (W.contents out.new) result }
    ensures later { IfRefused result (λ fault. ¬ IsOfInstance fault) }
{
    match too_many_slots(instance, plan, shown) {
        Some(slots) => End::Refused(Fault::TooManySlots(slots)),
        None => match print(alloc, instance, plan, width, shown) {
            Ok(text) => end_with(out, text.as_bytes()),
            Err(_) => End::Refused(Fault::Memory),
        },
    }
}

/// Verifies a printed plan as `verify` does that of its text, and writes a picture of its cycle, so many pixels wide. One that shows each slot may
/// have 100,000 of them. Where anything else ends the command nothing is written, and after a failed write a prefix of
/// the text stands.
pub fn draw_run<I: Read, P: Read, W: Write>(
    alloc: Global,
    instance: &mut I,
    plan: &mut P,
    width: u32,
    shown: Shown,
    out: &mut W,
) -> End
    requires least { least_width ≤ width }
    requires most { width ≤ most_width }
    ensures answer { IfSome (I.remaining instance.old) (λ i. IfSome (P.remaining plan.old) (λ p.
        IsDrawAnswer width shown i p (W.contents out.old) (W.contents out.new) result)) }
    // Of a reader no more is taken than its limit and one byte, and of the plan's nothing at a fault of the instance.
    ensures instance { TakesAtMost (INSTANCE_LIMIT + 1) (I.remaining instance.old) (I.remaining instance.new) }
    ensures plan { TakesAtMost (printed_limit + 1) (P.remaining plan.old) (P.remaining plan.new) }
    ensures order { IfRefused result (λ fault. IsOfInstance fault → Keeps (P.remaining plan.old) (P.remaining plan.new)) }
{
    match printed_of_readers(alloc, instance, plan) {
        Ok(verified) => {
            let end = write_picture(alloc, &verified.instance, &verified.plan, width, shown, out);
            drop(verified);
            end
        }
        Err(fault) => End::Refused(fault),
    }
}
