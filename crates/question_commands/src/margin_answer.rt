//! Which text tells an answer to how much longer processes may run, and at which end?

ghost use Rattle.std.specs.Prelude.{◌≡◌, IfOk, option_copied, string_bytes};
ghost use Rattle.command_streams.specs.Writing.{IsToldAt};
ghost use Rattle.question_commands.specs.Limited.{HasValidPlan};
ghost use Rattle.question_commands.specs.Margins.{HasProcess, IsMarginText, end_told, first_line, line_of, name_of, plan_of};

use command_streams::End;
use plan_questions::Margin;
use std::alloc::{AllocError, Global};
use std::fmt;
use ttp_model::{Instance, MemoryFault, Plan};

/// What an answer says in words, with the name of the process of which it speaks.
#[derive(Drop)]
struct MarginWords<'a> {
    margin: &'a Margin,
    name: &'a str,
}

impl<'a> fmt::Display for MarginWords<'a> {
    ghost use Rattle.std.specs.Prelude.{Some};

    ghost output = { λ x. Some (first_line x.margin.now x.name.now) };

    fn fmt<W: fmt::Write>(&self, f: &mut fmt::Formatter<W>) -> fmt::Result {
        match self.margin {
            Margin::Greatest { margin, .. } => write!(f, "margin {margin}"),
            Margin::Window { margin, .. } => write!(f, "margin {margin} window {}", self.name),
            Margin::Between { low, high, .. } => write!(f, "between {low} {high}"),
            Margin::Unknown { high } => write!(f, "unknown {high}"),
            Margin::Never => write!(f, "none"),
        }
    }
}

/// The name of the process of which an answer speaks; nothing where it speaks of none.
fn name_of<'a>(instance: &'a Instance, margin: &Margin) -> &'a str
    requires { HasProcess instance.now margin.now }
    ensures { result.now ≡ name_of instance.now margin.now }
{
    match margin {
        Margin::Window { process, .. } => instance.process_name(*process),
        Margin::Greatest { .. } => "",
        Margin::Between { .. } => "",
        Margin::Unknown { .. } => "",
        Margin::Never => "",
    }
}

/// The first line of an answer's text.
fn line_of(alloc: Global, instance: &Instance, margin: &Margin) -> Result<String, AllocError>
    requires { HasProcess instance.now margin.now }
    ensures { IfOk result (λ line. string_bytes line ≡ line_of instance.now margin.now) }
{
    let name = name_of(instance, margin);
    let words = MarginWords { margin, name };
    format!(in alloc; "{words}\n")
}

/// The plan of an answer, where it has one.
fn plan_of(margin: &Margin) -> Option<&Plan>
    ensures { option_copied result ≡ plan_of margin.now }
{
    match margin {
        Margin::Greatest { plan, .. } => Some(plan),
        Margin::Window { plan, .. } => Some(plan),
        Margin::Between { plan, .. } => Some(plan),
        Margin::Unknown { .. } => None,
        Margin::Never => None,
    }
}

/// The text of an answer: its line, and then that of its plan, where it has one.
pub fn answer_text(
    alloc: Global,
    instance: &Instance,
    margin: &Margin,
) -> Result<Vec<u8>, MemoryFault>
    requires process { HasProcess instance.now margin.now }
    requires valid { HasValidPlan instance.now (plan_of margin.now) }
    ensures { IfOk result (λ text. IsMarginText instance.now margin.now text.items) }
{
    let line = line_of(alloc, instance, margin)?;
    let mut text = Vec::from_slice(alloc, line.as_bytes())?;
    if let Some(plan) = plan_of(margin) {
        let plan = plan_format::print(alloc, instance, plan)?;
        text.extend_from_slice(plan.as_slice())?;
    }
    Ok(text)
}

/// The end at which an answer is told.
pub fn end_of(margin: &Margin) -> End
    ensures value { result ≡ end_told margin.now }
    ensures told { IsToldAt result }
{
    match margin {
        Margin::Greatest { .. } => End::Done,
        Margin::Window { .. } => End::Done,
        Margin::Between { .. } => End::Stopped,
        Margin::Unknown { .. } => End::Stopped,
        Margin::Never => End::Absent,
    }
}
