//! Which texts tell how much longer processes may run, and of which instance is it shown that it has no plan?

ghost use Rattle.std.specs.Prelude.{◌+◌, ◌≤◌, IfOk};
ghost use Rattle.ttp_model.specs.Rules.{IsInstance};
ghost use Rattle.plan_questions.specs.Longer.{longer, most_number};
ghost use Rattle.question_commands.specs.Limited.{HasValidPlan};
ghost use Rattle.question_commands.specs.Margins.{AreTextsOf, HasProcess, IsLongerText, IsPrintable, IsTextBeside, IsTextWithMore, plan_of};

use crate::certificates::certificate_text;
use crate::limit_texts::Beside;
use crate::margin_answer::answer_text;
use command_streams::{Texts, instance_text};
use plan_questions::{Margin, Scale, with_longer};
use std::alloc::Global;
use ttp_model::{Instance, MemoryFault};

/// An instance, and in what it is counted by how much longer which of its processes run.
#[derive(Drop)]
pub struct Runs<'a> {
    pub instance: &'a Instance,
    pub processes: &'a [u32],
    pub scale: Scale,
}

/// The text of the certificate that there is no plan with one more; nothing where none is wanted, or there is none.
fn text_beside(
    alloc: Global,
    runs: &Runs<'_>,
    margin: &Margin,
    wanted: bool,
) -> Result<Vec<u8>, MemoryFault>
    requires { IsPrintable runs.now.instance.now runs.now.processes.now runs.now.scale margin.now }
    ensures { IfOk result (λ text. IsTextBeside wanted margin.now text.items) }
{
    match margin {
        Margin::Greatest { cert, .. } => certificate_text(alloc, cert, wanted),
        Margin::Window { .. } => Ok(Vec::new(alloc)),
        Margin::Between { .. } => Ok(Vec::new(alloc)),
        Margin::Unknown { .. } => Ok(Vec::new(alloc)),
        Margin::Never => Ok(Vec::new(alloc)),
    }
}

/// The text of the instance with one more, where it is wanted; none where no text of it reads back.
fn text_with_more(
    alloc: Global,
    runs: &Runs<'_>,
    margin: u32,
    wanted: bool,
) -> Result<Option<Vec<u8>>, MemoryFault>
    requires small { margin ≤ most_number }
    requires rules { IsInstance (longer runs.now.instance.now runs.now.processes.now runs.now.scale (margin + 1)) }
    ensures { IfOk result (IsTextWithMore wanted runs.now.instance.now runs.now.processes.now runs.now.scale margin) }
{
    if !wanted {
        return Ok(Some(Vec::new(alloc)));
    }
    let longer = with_longer(alloc, runs.instance, runs.processes, runs.scale, margin + 1)?;
    instance_text(alloc, &longer)
}

/// The same, where a search showed that there is no plan then; else nothing.
fn longer_text(
    alloc: Global,
    runs: &Runs<'_>,
    margin: &Margin,
    wanted: bool,
) -> Result<Option<Vec<u8>>, MemoryFault>
    requires { IsPrintable runs.now.instance.now runs.now.processes.now runs.now.scale margin.now }
    ensures { IfOk result (IsLongerText wanted runs.now.instance.now runs.now.processes.now runs.now.scale margin.now) }
{
    match margin {
        Margin::Greatest { margin, .. } => text_with_more(alloc, runs, *margin, wanted),
        Margin::Window { .. } => Ok(Some(Vec::new(alloc))),
        Margin::Between { .. } => Ok(Some(Vec::new(alloc))),
        Margin::Unknown { .. } => Ok(Some(Vec::new(alloc))),
        Margin::Never => Ok(Some(Vec::new(alloc))),
    }
}

/// The texts that tell an answer to how much longer processes may run, of an instance and the one within which all has to end; of the certificate
/// and the instance with one more nothing where they aren't wanted, or where no search showed that this has no plan.
pub fn texts_of(
    alloc: Global,
    instance: &Instance,
    runs: &Runs<'_>,
    margin: &Margin,
    beside: Beside,
) -> Result<Texts, MemoryFault>
    requires printable { IsPrintable runs.now.instance.now runs.now.processes.now runs.now.scale margin.now }
    requires process { HasProcess instance.now margin.now }
    requires valid { HasValidPlan instance.now (plan_of margin.now) }
    ensures { IfOk result (AreTextsOf beside instance.now runs.now.instance.now runs.now.processes.now runs.now.scale margin.now) }
{
    let certificate = text_beside(alloc, runs, margin, beside.certificate)?;
    let reduced = longer_text(alloc, runs, margin, beside.reduced)?;
    let answer = answer_text(alloc, instance, margin)?;
    Ok(Texts {
        certificate,
        reduced,
        answer,
    })
}
