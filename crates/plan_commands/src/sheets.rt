//! What `schedule` says of an instance and a plan.

ghost use Rattle.std.specs.Prelude.{◌+◌, IfSome};
ghost use Rattle.ttp_model.specs.Plans.{IsValid};
ghost use Rattle.plan_sheets.specs.Tables.{table_text};
ghost use Rattle.std.specs.Io.KnownBytes.{Keeps};
ghost use Rattle.command_streams.specs.declared.limits.TheConstants.{INSTANCE_LIMIT};
ghost use Rattle.command_streams.specs.Streams.{TakesAtMost};
ghost use Rattle.command_streams.specs.Instances.{IsOfInstance};
ghost use Rattle.command_streams.specs.Outcomes.{IfRefused, IsWritingUnlessMemory};
ghost use Rattle.plan_commands.specs.Printed.{printed_limit};
ghost use Rattle.plan_commands.specs.Schedules.{IsScheduleAnswer};

use crate::printed::printed_of_readers;
use command_streams::{End, Fault, end_with};
use plan_sheets::{Table, print};
use std::alloc::Global;
use std::io::{Read, Write};
use ttp_model::{Instance, Plan};

/// Writes a table of a valid plan.
fn write_sheet<W: Write>(
    alloc: Global,
    instance: &Instance,
    plan: &Plan,
    table: Table,
    out: &mut W,
) -> End
    requires { IsValid instance.now plan.now }
    ensures { IsWritingUnlessMemory (table_text instance.now plan.now table) (W.contents out.old) (W.contents out.new) result }
{
    match print(alloc, instance, plan, table) {
        Ok(text) => end_with(out, text.as_slice()),
        Err(_) => End::Refused(Fault::Memory),
    }
}

/// Verifies a printed plan as `verify` does that of its text, and writes a table of it: its processes, the slots of its cycle, or its messages.
/// Where anything else ends the command nothing is written, and after a failed write a prefix of the text stands.
pub fn schedule_run<I: Read, P: Read, W: Write>(
    alloc: Global,
    instance: &mut I,
    plan: &mut P,
    table: Table,
    out: &mut W,
) -> End
    ensures answer { IfSome (I.remaining instance.old) (λ i. IfSome (P.remaining plan.old) (λ p.
        IsScheduleAnswer table i p (W.contents out.old) (W.contents out.new) result)) }
    // Of a reader no more is taken than its limit and one byte, and of the plan's nothing at a fault of the instance.
    ensures instance { TakesAtMost (INSTANCE_LIMIT + 1) (I.remaining instance.old) (I.remaining instance.new) }
    ensures plan { TakesAtMost (printed_limit + 1) (P.remaining plan.old) (P.remaining plan.new) }
    ensures order { IfRefused result (λ fault. IsOfInstance fault → Keeps (P.remaining plan.old) (P.remaining plan.new)) }
{
    match printed_of_readers(alloc, instance, plan) {
        Ok(verified) => {
            let end = write_sheet(alloc, &verified.instance, &verified.plan, table, out);
            drop(verified);
            end
        }
        Err(fault) => End::Refused(fault),
    }
}
