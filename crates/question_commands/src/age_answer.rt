//! Which text tells the least age of a chain, and at which end?

ghost use Rattle.std.specs.Prelude.{◌≡◌, IfOk, option_copied, string_bytes};
ghost use Rattle.command_streams.specs.Writing.{IsToldAt};
ghost use Rattle.question_commands.specs.Limited.{HasValidPlan};
ghost use Rattle.question_commands.specs.AgeTexts.{HasJob, IsAgeText, end_told, first_line, line_of, name_of, plan_of};

use command_streams::End;
use plan_questions::LeastAge;
use std::alloc::{AllocError, Global};
use std::fmt;
use ttp_model::{Instance, MemoryFault, Plan};

/// What an answer says in words, with the name of the job of which it speaks.
#[derive(Drop)]
struct AgeWords<'a> {
    least: &'a LeastAge,
    name: &'a str,
}

impl<'a> fmt::Display for AgeWords<'a> {
    ghost use Rattle.std.specs.Prelude.{Some};

    ghost output = { λ x. Some (first_line x.least.now x.name.now) };

    fn fmt<W: fmt::Write>(&self, f: &mut fmt::Formatter<W>) -> fmt::Result {
        match self.least {
            LeastAge::Least { age, .. } => write!(f, "age {age}"),
            LeastAge::Window { age, .. } => write!(f, "age {age} window {}", self.name),
            LeastAge::Between { low, high, .. } => write!(f, "between {low} {high}"),
            LeastAge::Unknown { low } => write!(f, "between {low} none"),
            LeastAge::Never => write!(f, "none"),
        }
    }
}

/// The name of the job of which an answer speaks; nothing where it speaks of none.
fn name_of<'a>(instance: &'a Instance, least: &LeastAge) -> &'a str
    requires { HasJob instance.now least.now }
    ensures { result.now ≡ name_of instance.now least.now }
{
    match least {
        LeastAge::Window { job, .. } => instance.process_name(*job),
        LeastAge::Least { .. } => "",
        LeastAge::Between { .. } => "",
        LeastAge::Unknown { .. } => "",
        LeastAge::Never => "",
    }
}

/// The first line of an answer's text.
fn line_of(alloc: Global, instance: &Instance, least: &LeastAge) -> Result<String, AllocError>
    requires { HasJob instance.now least.now }
    ensures { IfOk result (λ line. string_bytes line ≡ line_of instance.now least.now) }
{
    let name = name_of(instance, least);
    let words = AgeWords { least, name };
    format!(in alloc; "{words}\n")
}

/// The plan of an answer, where it has one.
fn plan_of(least: &LeastAge) -> Option<&Plan>
    ensures { option_copied result ≡ plan_of least.now }
{
    match least {
        LeastAge::Least { plan, .. } => Some(plan),
        LeastAge::Window { plan, .. } => Some(plan),
        LeastAge::Between { plan, .. } => Some(plan),
        LeastAge::Unknown { .. } => None,
        LeastAge::Never => None,
    }
}

/// The text of an answer: its line, and then that of its plan, where it has one.
pub fn answer_text(
    alloc: Global,
    instance: &Instance,
    least: &LeastAge,
) -> Result<Vec<u8>, MemoryFault>
    requires job { HasJob instance.now least.now }
    requires valid { HasValidPlan instance.now (plan_of least.now) }
    ensures { IfOk result (λ text. IsAgeText instance.now least.now text.items) }
{
    let line = line_of(alloc, instance, least)?;
    let mut text = Vec::from_slice(alloc, line.as_bytes())?;
    if let Some(plan) = plan_of(least) {
        let plan = plan_format::print(alloc, instance, plan)?;
        text.extend_from_slice(plan.as_slice())?;
    }
    Ok(text)
}

/// The end at which an answer is told.
pub fn end_of(least: &LeastAge) -> End
    ensures value { result ≡ end_told least.now }
    ensures told { IsToldAt result }
{
    match least {
        LeastAge::Least { .. } => End::Done,
        LeastAge::Window { .. } => End::Done,
        LeastAge::Between { .. } => End::Stopped,
        LeastAge::Unknown { .. } => End::Stopped,
        LeastAge::Never => End::Absent,
    }
}
