//! Which texts tell how early processes can end, and which instance does the certificate hold for?

ghost use Rattle.std.specs.Prelude.{IfOk, IfSome};
ghost use Rattle.certificate.specs.Versions.{Allows};
ghost use Rattle.plan_questions.specs.EndAnswers.{cert_of, cut_to, tick_of};
ghost use Rattle.plan_questions.specs.Cut.{CanEndBy};
ghost use Rattle.command_streams.specs.Writing.{IsTextOf};
ghost use Rattle.question_commands.specs.Limited.{AreTextsOf, HasValidPlan, IsSearchedText, plan_of};

use crate::answer::answer_text;
use crate::certificates::certificate_text;
use command_streams::{Texts, instance_text};
use plan_questions::{EndLimit, cert_of, tick_of, with_deadlines};
use std::alloc::Global;
use ttp_model::{Instance, MemoryFault};

/// What is to be written beside the answer.
#[derive(Clone, Copy, PartialEq, Eq)]
pub struct Beside {
    pub certificate: bool,
    /// The instance that the certificate is for.
    pub reduced: bool,
}

/// The text of the instance in which these processes have to end by a tick, where there is one; none where no text of it reads back.
fn text_by(
    alloc: Global,
    instance: &Instance,
    processes: &[u32],
    tick: Option<u32>,
) -> Result<Option<Vec<u8>>, MemoryFault>
    requires { IfSome tick (CanEndBy instance.now processes.now) }
    ensures { IfOk result (IsTextOf (cut_to instance.now processes.now tick)) }
{
    match tick {
        None => instance_text(alloc, instance),
        Some(d) => {
            let earlier = with_deadlines(alloc, instance, processes, d)?;
            instance_text(alloc, &earlier)
        }
    }
}

/// The same of the instance of the last search.
fn searched_text(
    alloc: Global,
    instance: &Instance,
    processes: &[u32],
    limit: &EndLimit,
    wanted: bool,
) -> Result<Option<Vec<u8>>, MemoryFault>
    requires { IfSome (tick_of limit.now) (CanEndBy instance.now processes.now) }
    ensures { IfOk result (IsSearchedText wanted instance.now processes.now limit.now) }
{
    if wanted {
        text_by(alloc, instance, processes, tick_of(limit))
    } else {
        Ok(Some(Vec::new(alloc)))
    }
}

/// The texts that tell an answer; of the certificate and the instance nothing where they aren't wanted.
pub fn texts_of(
    alloc: Global,
    instance: &Instance,
    processes: &[u32],
    limit: &EndLimit,
    beside: Beside,
) -> Result<Texts, MemoryFault>
    requires printable { Allows (cert_of limit.now).version (cert_of limit.now).tree }
    requires can { IfSome (tick_of limit.now) (CanEndBy instance.now processes.now) }
    requires valid { HasValidPlan instance.now (plan_of limit.now) }
    ensures { IfOk result (AreTextsOf beside instance.now processes.now limit.now) }
{
    let certificate = certificate_text(alloc, cert_of(limit), beside.certificate)?;
    let reduced = searched_text(alloc, instance, processes, limit, beside.reduced)?;
    let answer = answer_text(alloc, instance, limit)?;
    Ok(Texts {
        certificate,
        reduced,
        answer,
    })
}
