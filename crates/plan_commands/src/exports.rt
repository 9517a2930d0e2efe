//! What `schedule` says of an instance and a plan for a program, a build or a viewer.

ghost use Rattle.std.specs.Prelude.{◌≡◌, ◌+◌, IfErr, IfOk, IfSome, MatchResult, string_bytes};
ghost use Rattle.ttp_model.specs.Plans.{IsValid};
ghost use Rattle.sha2.specs.Sha256.{sha256};
ghost use Rattle.schedule_exports.specs.Exports.{IsExportText};
ghost use Rattle.std.specs.Io.KnownBytes.{Keeps};
ghost use Rattle.command_streams.specs.declared.limits.TheConstants.{INSTANCE_LIMIT};
ghost use Rattle.command_streams.specs.Streams.{TakesAtMost};
ghost use Rattle.command_streams.specs.Instances.{HasInstance, IsInstanceFault, IsOfInstance};
ghost use Rattle.command_streams.specs.Outcomes.{IfRefused, IsCommandAnswer, OnDone};
ghost use Rattle.plan_commands.specs.Printed.{IsPrinted, IsUnprinted, printed_limit};
ghost use Rattle.plan_commands.specs.Exported.{IsExportAnswer, IsUnexported};

use crate::printed::{printed_of_text, read_printed};
use crate::verdict::Verified;
use command_streams::{End, Fault, INSTANCE_LIMIT, Source, end_with, instance_of_text, read_all};
use schedule_exports::{Export, ExportFault, Origin, print, sum_of};
use std::alloc::Global;
use std::io::{Read, Write};
use ttp_model::Instance;

/// An instance, and the SHA-256 of its text.
#[derive(Drop)]
struct Stated {
    instance: Instance,
    sum: [u8; 32],
}

/// A verified plan with its instance, and what says which texts they are of.
#[derive(Drop)]
struct Sources {
    verified: Verified,
    origin: Origin,
}

/// The instance that a reader's bytes state, and their sum.
fn stated_of_reader<I: Read>(alloc: Global, reader: &mut I) -> Result<Stated, Fault>
    ensures judged { IfSome (I.remaining reader.old) (λ bytes. MatchResult result (λ s. HasInstance bytes s.instance) (IsInstanceFault bytes)) }
    ensures sum { IfSome (I.remaining reader.old) (λ bytes. IfOk result (λ s. s.sum ≡ sha256 bytes)) }
    ensures most { TakesAtMost (INSTANCE_LIMIT + 1) (I.remaining reader.old) (I.remaining reader.new) }
{
    let text = read_all(alloc, reader, INSTANCE_LIMIT, Source::Instance)?;
    let instance = instance_of_text(alloc, text.as_slice())?;
    let sum = sum_of(text.as_slice());
    Ok(Stated { instance, sum })
}

/// Reads an instance and a printed plan, and verifies it, as `printed_of_readers` does; and the sums of both.
fn sources_of_readers<I: Read, P: Read>(
    alloc: Global,
    instance: &mut I,
    plan: &mut P,
) -> Result<Sources, Fault>
    ensures judged { IfSome (I.remaining instance.old) (λ i. IfSome (P.remaining plan.old) (λ p. MatchResult result
        (λ s. IsPrinted i p s.verified)
        (IsUnprinted i p))) }
    ensures valid { IfOk result (λ s. IsValid s.verified.instance s.verified.plan) }
    ensures instance { TakesAtMost (INSTANCE_LIMIT + 1) (I.remaining instance.old) (I.remaining instance.new) }
    ensures plan { TakesAtMost (printed_limit + 1) (P.remaining plan.old) (P.remaining plan.new) }
    ensures order { IfErr result (λ fault. IsOfInstance fault → Keeps (P.remaining plan.old) (P.remaining plan.new)) }
{
    let stated = stated_of_reader(alloc, instance)?;
    let bytes = read_printed(alloc, plan)?;
    let (instance, plan) = (stated.sum, sum_of(bytes.as_slice()));
    let verified = printed_of_text(alloc, stated.instance, bytes.as_slice())?;
    let delay = verified.delay;
    Ok(Sources {
        verified,
        origin: Origin {
            delay,
            instance,
            plan,
        },
    })
}

/// Writes a text of a verified plan.
fn write_export<W: Write>(alloc: Global, sources: &Sources, export: Export, out: &mut W) -> End
    requires { IsValid sources.now.verified.instance sources.now.verified.plan }
    ensures answer { IsCommandAnswer (OnDone (IsExportText sources.now.verified.instance sources.now.verified.plan export.entry))
        (IsUnexported export.entry sources.now.verified.instance sources.now.verified.plan) (W.contents out.old) (W.contents out.new) result }
    ensures later { IfRefused result (λ fault. ¬ IsOfInstance fault) }
{
    let verified = &sources.verified;
    match print(
        alloc,
        &verified.instance,
        &verified.plan,
        export,
        &sources.origin,
    ) {
        Ok(text) => end_with(out, text.as_bytes()),
        Err(ExportFault::NoSuchNode) => End::Refused(Fault::NoSuchNode),
        Err(ExportFault::TooManySlots(slots)) => End::Refused(Fault::LongSchedule(slots)),
        Err(ExportFault::Memory) => End::Refused(Fault::Memory),
    }
}

/// Verifies a printed plan as `verify` does that of its text, and writes what its nodes are loaded with, or its cycle as a trace. Where
/// anything else ends the command nothing is written, and after a failed write a prefix of the text stands.
pub fn export_run<I: Read, P: Read, W: Write>(
    alloc: Global,
    instance: &mut I,
    plan: &mut P,
    export: Export,
    out: &mut W,
) -> End
    ensures answer { IfSome (I.remaining instance.old) (λ i. IfSome (P.remaining plan.old) (λ p.
        IsExportAnswer export.entry i p (W.contents out.old) (W.contents out.new) result)) }
    // Of a reader no more is taken than its limit and one byte, and of the plan's nothing at a fault of the instance.
    ensures instance { TakesAtMost (INSTANCE_LIMIT + 1) (I.remaining instance.old) (I.remaining instance.new) }
    ensures plan { TakesAtMost (printed_limit + 1) (P.remaining plan.old) (P.remaining plan.new) }
    ensures order { IfRefused result (λ fault. IsOfInstance fault → Keeps (P.remaining plan.old) (P.remaining plan.new)) }
{
    match sources_of_readers(alloc, instance, plan) {
        Ok(sources) => {
            let end = write_export(alloc, &sources, export, out);
            drop(sources);
            end
        }
        Err(fault) => End::Refused(fault),
    }
}
