//! What `tables` says of an instance and a plan.

ghost use Rattle.std.specs.Prelude.{◌≡◌, ◌+◌, IfOk, IfSome};
ghost use Rattle.ttp_model.specs.Plans.{IsValid};
ghost use Rattle.guardian_windows.specs.Windows.{cycle_windows};
ghost use Rattle.guardian_windows.specs.Text.{windows_text};
ghost use Rattle.std.specs.Io.KnownBytes.{Keeps};
ghost use Rattle.command_streams.specs.declared.limits.TheConstants.{INSTANCE_LIMIT, PLAN_LIMIT};
ghost use Rattle.command_streams.specs.Streams.{TakesAtMost};
ghost use Rattle.command_streams.specs.Instances.{IsOfInstance};
ghost use Rattle.command_streams.specs.Outcomes.{IfRefused, IsWritingUnlessMemory};
ghost use Rattle.plan_commands.specs.NodeTables.{IsLoadsText, IsTablesAnswer, loads_text};

use crate::verdict::verified_of_readers;
use command_streams::{End, Fault, end_with};
use guardian_windows::windows;
use medl_tables::Medl;
use std::alloc::Global;
use std::io::{Read, Write};
use ttp_model::{Instance, MemoryFault, Plan};

/// The guardian windows of a valid plan.
fn windows_text(alloc: Global, instance: &Instance, plan: &Plan) -> Result<Vec<u8>, MemoryFault>
    requires { IsValid instance.now plan.now }
    ensures { IfOk result (λ text. text.items ≡ windows_text instance.now (cycle_windows instance.now plan.now)) }
{
    let windows = windows(alloc, instance, plan)?;
    guardian_windows::print(alloc, instance, windows.as_slice())
}

/// The node tables of a valid plan, and then its guardian windows.
fn loads_text(alloc: Global, instance: &Instance, plan: &Plan) -> Result<Vec<u8>, MemoryFault>
    requires { IsValid instance.now plan.now }
    ensures { IfOk result (λ text. IsLoadsText instance.now plan.now text.items) }
{
    let medl = Medl::of(alloc, instance, plan)?;
    let mut text = medl_tables::print(alloc, instance, &medl)?;
    let windows = windows_text(alloc, instance, plan)?;
    text.extend_from_slice(windows.as_slice())?;
    Ok(text)
}

/// Writes the node tables of a valid plan, and then its guardian windows.
fn write_loads<W: Write>(alloc: Global, instance: &Instance, plan: &Plan, out: &mut W) -> End
    requires { IsValid instance.now plan.now }
    ensures { IsWritingUnlessMemory (loads_text instance.now plan.now) (W.contents out.old) (W.contents out.new) result }
{
    match loads_text(alloc, instance, plan) {
        Ok(text) => end_with(out, text.as_slice()),
        Err(_) => End::Refused(Fault::Memory),
    }
}

/// Verifies a plan as `verify` does, and writes its node tables and then its guardian windows, with a line for each
/// node, slot and node, and slot of the cycle. Where anything else ends the command nothing is written, and after a
/// failed write a prefix of the text stands.
pub fn tables<I: Read, P: Read, W: Write>(
    alloc: Global,
    instance: &mut I,
    plan: &mut P,
    out: &mut W,
) -> End
    ensures answer { IfSome (I.remaining instance.old) (λ i. IfSome (P.remaining plan.old) (λ p.
        IsTablesAnswer i p (W.contents out.old) (W.contents out.new) result)) }
    // Of a reader no more is taken than its limit and one byte, and of the plan's nothing at a fault of the instance.
    ensures instance { TakesAtMost (INSTANCE_LIMIT + 1) (I.remaining instance.old) (I.remaining instance.new) }
    ensures plan { TakesAtMost (PLAN_LIMIT + 1) (P.remaining plan.old) (P.remaining plan.new) }
    ensures order { IfRefused result (λ fault. IsOfInstance fault → Keeps (P.remaining plan.old) (P.remaining plan.new)) }
{
    match verified_of_readers(alloc, instance, plan) {
        Ok(verified) => {
            let end = write_loads(alloc, &verified.instance, &verified.plan, out);
            drop(verified);
            end
        }
        Err(fault) => End::Refused(fault),
    }
}
