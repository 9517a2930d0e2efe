//! Which texts tell an answer, and at which end?

ghost use Rattle.std.specs.Prelude.{◌≡◌, IfOk, option_copied, string_bytes};
ghost use Rattle.command_streams.specs.Writing.{IsToldAt};
ghost use Rattle.question_commands.specs.Limited.{end_told, first_line, line_of, plan_of, HasValidPlan, IsLimitText};

use command_streams::End;
use plan_questions::EndLimit;
use std::alloc::{AllocError, Global};
use std::fmt;
use ttp_model::{Instance, MemoryFault, Plan};

/// What an answer says of ticks, in words.
#[derive(Drop)]
struct LimitWords<'a>(&'a EndLimit);

impl<'a> fmt::Display for LimitWords<'a> {
    ghost use Rattle.std.specs.Prelude.{Some};

    ghost output = { λ x. Some (first_line x.0.now) };

    fn fmt<W: fmt::Write>(&self, f: &mut fmt::Formatter<W>) -> fmt::Result {
        match self.0 {
            EndLimit::Least { end, .. } => write!(f, "limit {end}"),
            EndLimit::Reached { end, .. } => write!(f, "limit {end}"),
            EndLimit::Between { low, high, .. } => write!(f, "between {low} {high}"),
            EndLimit::Unknown { low, .. } => write!(f, "between {low} none"),
            EndLimit::Infeasible { .. } => write!(f, "none"),
        }
    }
}

/// The first line of an answer's text.
fn line_of(alloc: Global, limit: &EndLimit) -> Result<String, AllocError>
    ensures { IfOk result (λ line. string_bytes line ≡ line_of limit.now) }
{
    let words = LimitWords(limit);
    format!(in alloc; "{words}\n")
}

/// The plan of an answer, where it has one.
fn plan_of(limit: &EndLimit) -> Option<&Plan>
    ensures { option_copied result ≡ plan_of limit.now }
{
    match limit {
        EndLimit::Least { plan, .. } => Some(plan),
        EndLimit::Reached { plan, .. } => Some(plan),
        EndLimit::Between { plan, .. } => Some(plan),
        EndLimit::Unknown { .. } => None,
        EndLimit::Infeasible { .. } => None,
    }
}

/// The text of an answer: its line, and then that of its plan, where it has one.
pub fn answer_text(
    alloc: Global,
    instance: &Instance,
    limit: &EndLimit,
) -> Result<Vec<u8>, MemoryFault>
    requires { HasValidPlan instance.now (plan_of limit.now) }
    ensures { IfOk result (λ text. IsLimitText instance.now limit.now text.items) }
{
    let line = line_of(alloc, limit)?;
    let mut text = Vec::from_slice(alloc, line.as_bytes())?;
    if let Some(plan) = plan_of(limit) {
        let plan = plan_format::print(alloc, instance, plan)?;
        text.extend_from_slice(plan.as_slice())?;
    }
    Ok(text)
}

/// The end at which an answer is told.
pub fn end_of(limit: &EndLimit) -> End
    ensures value { result ≡ end_told limit.now }
    ensures told { IsToldAt result }
{
    match limit {
        EndLimit::Least { .. } => End::Done,
        EndLimit::Reached { .. } => End::Stopped,
        EndLimit::Between { .. } => End::Stopped,
        EndLimit::Unknown { .. } => End::Stopped,
        EndLimit::Infeasible { .. } => End::Absent,
    }
}
