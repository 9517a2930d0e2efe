//! Why is the instance of a cycle refused?

ghost use Rattle.std.specs.Prelude.{OnOk, string_bytes};
ghost use Rattle.sentences.specs.Shown.{Gains, IsShown};
ghost use Rattle.endless_schedules.specs.Refusals.{IsRefused, IsUnrollFault};
ghost use Rattle.endless_schedules.specs.declared.unrolling.UnrollFault.TheVariants as unrolled;
ghost use Rattle.rates_command.specs.Answers.{IsOfUnrolling};
ghost use Rattle.rates_command.specs.Telling.{IsReasonOf, IsUnrollReason};

use crate::ending::RatesFault;
use endless_schedules::{UnrollFault, Unrollable};
use instance_reasons::{RuleReason, entry_words, rule_reason};
use rates_model::Rates;
use sentences::Word::{Number, Text};
use sentences::{put, tell};
use std::alloc::Global;
use std::fmt;
use std::fmt::Display;
use ttp_model::{MOST_LINKS, MOST_MESSAGES, MOST_NODES, MOST_PROCESSES, MemoryFault, Part};

/// A list of a cycle that is longer than that of any instance.
#[derive(Clone, Copy)]
struct TooManyJobs {
    list: Part,
}

impl fmt::Display for TooManyJobs {
    fn fmt<W: fmt::Write>(&self, f: &mut fmt::Formatter<W>) -> fmt::Result {
        let most = match self.list {
            Part::Nodes => MOST_NODES,
            Part::Processes => MOST_PROCESSES,
            Part::Links => MOST_LINKS,
            Part::Messages => MOST_MESSAGES,
        };
        tell(
            f,
            "The instance of one cycle would have more {} than the {} that an instance may have.\n",
            &[Text(entry_words(self.list).1), Number(most as u64)],
        )
    }
}

/// The reason of a rule that it breaks.
#[derive(Clone, Copy)]
struct OfCycle<'a, 'b>(&'a RuleReason<'b>);

impl<'a, 'b> fmt::Display for OfCycle<'a, 'b> {
    fn fmt<W: fmt::Write>(&self, f: &mut fmt::Formatter<W>) -> fmt::Result {
        f.write_str("Of the instance of one cycle, which has a process for each job:\n")?;
        self.0.fmt(f)
    }
}

/// Adds why the instance breaks a rule.
fn put_broken(
    alloc: Global,
    text: &mut String,
    rates: &Rates,
    refused: Unrollable,
) -> Result<(), MemoryFault>
    requires { IsRefused rates.now refused }
    ensures reason { OnOk result (IsUnrollReason rates.now (unrolled.Refused refused)) }
    ensures words { OnOk result (Gains IsShown (string_bytes text.old) (string_bytes text.new)) }
{
    let Unrollable { tables, error } = refused;
    let reason = rule_reason(alloc, &tables, &error)?;
    put(alloc, text, &OfCycle(&reason))?;
    Ok(())
}

/// Adds why there is no instance.
fn put_unrolled(
    alloc: Global,
    text: &mut String,
    rates: &Rates,
    wrong: UnrollFault,
) -> Result<(), MemoryFault>
    requires { IsUnrollFault rates.now wrong }
    ensures reason { OnOk result (IsUnrollReason rates.now wrong) }
    ensures words { OnOk result (Gains IsShown (string_bytes text.old) (string_bytes text.new)) }
{
    match wrong {
        UnrollFault::TooMany(list) => {
            put(alloc, text, &TooManyJobs { list })?;
            Ok(())
        }
        UnrollFault::Refused(refused) => put_broken(alloc, text, rates, refused),
        UnrollFault::OutOfMemory => Err(MemoryFault),
    }
}

/// Adds it where that is the fault.
pub fn put_refused(
    alloc: Global,
    text: &mut String,
    rates: &Rates,
    fault: RatesFault,
) -> Result<(), MemoryFault>
    requires { IsOfUnrolling rates.now fault }
    ensures reason { OnOk result (IsReasonOf rates.now fault) }
    ensures words { OnOk result (Gains IsShown (string_bytes text.old) (string_bytes text.new)) }
{
    match fault {
        RatesFault::Unrolled(wrong) => put_unrolled(alloc, text, rates, wrong),
        RatesFault::Memory
        | RatesFault::Text(_)
        | RatesFault::Unread
        | RatesFault::TooLong
        | RatesFault::OfPlan(_)
        | RatesFault::Unwritten => Err(MemoryFault),
    }
}
