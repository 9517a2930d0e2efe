//! Which texts tell the least age of a chain, and of which instance is it shown that it has no plan?

ghost use Rattle.std.specs.Prelude.{◌-◌, ◌≤◌, IfOk};
ghost use Rattle.ttp_model.specs.Rules.{IsInstance};
ghost use Rattle.certificate.specs.Versions.{Allows};
ghost use Rattle.rates_model.specs.Rates.{chain_at};
ghost use Rattle.endless_schedules.specs.Aging.{IsAging, aged};
ghost use Rattle.question_commands.specs.Answers.{IsCertificateText};
ghost use Rattle.question_commands.specs.Limited.{HasValidPlan};
ghost use Rattle.question_commands.specs.AgeTexts.{AreTextsOf, HasJob, IsAgedText, IsPrintable, IsTextBeside, IsTextWithLess, plan_of};

use crate::age_answer::answer_text;
use crate::limit_texts::Beside;
use certificate::Cert;
use command_streams::{Texts, instance_text};
use endless_schedules::{Aging, with_age};
use plan_questions::LeastAge;
use std::alloc::Global;
use ttp_model::MemoryFault;

/// The text of a certificate; nothing where it isn't wanted.
fn certificate_text(alloc: Global, cert: &Cert, wanted: bool) -> Result<Vec<u8>, MemoryFault>
    requires { Allows cert.now.version cert.now.tree }
    ensures { IfOk result (λ text. IsCertificateText wanted cert.now text.items) }
{
    if wanted {
        certificate::print(alloc, cert)
    } else {
        Ok(Vec::new(alloc))
    }
}

/// The text of the certificate that there is no plan with one less; nothing where none is wanted, or there is none.
fn text_beside(
    alloc: Global,
    aging: &Aging<'_>,
    least: &LeastAge,
    wanted: bool,
) -> Result<Vec<u8>, MemoryFault>
    requires { IsPrintable aging.now.rates.now aging.now.chain least.now }
    ensures { IfOk result (λ text. IsTextBeside wanted least.now text.items) }
{
    match least {
        LeastAge::Least { cert, .. } => certificate_text(alloc, cert, wanted),
        LeastAge::Window { .. } => Ok(Vec::new(alloc)),
        LeastAge::Between { .. } => Ok(Vec::new(alloc)),
        LeastAge::Unknown { .. } => Ok(Vec::new(alloc)),
        LeastAge::Never => Ok(Vec::new(alloc)),
    }
}

/// The text of the instance with one less, where it is wanted; none where no text of it reads back.
fn text_with_less(
    alloc: Global,
    aging: &Aging<'_>,
    age: u32,
    wanted: bool,
) -> Result<Option<Vec<u8>>, MemoryFault>
    requires aging { IsAging aging.now }
    requires some { 1 ≤ age }
    requires less { age - 1 ≤ (chain_at aging.now.rates.now aging.now.chain).age }
    requires rules { IsInstance (aged aging.now.rates.now aging.now.chain (age - 1)) }
    ensures { IfOk result (IsTextWithLess wanted aging.now.rates.now aging.now.chain age) }
{
    if !wanted {
        return Ok(Some(Vec::new(alloc)));
    }
    let less = with_age(alloc, aging, age - 1)?;
    instance_text(alloc, &less)
}

/// The same, where a search showed that there is no plan then; else nothing.
fn aged_text(
    alloc: Global,
    aging: &Aging<'_>,
    least: &LeastAge,
    wanted: bool,
) -> Result<Option<Vec<u8>>, MemoryFault>
    requires aging { IsAging aging.now }
    requires printable { IsPrintable aging.now.rates.now aging.now.chain least.now }
    ensures { IfOk result (IsAgedText wanted aging.now.rates.now aging.now.chain least.now) }
{
    match least {
        LeastAge::Least { age, .. } => text_with_less(alloc, aging, *age, wanted),
        LeastAge::Window { .. } => Ok(Some(Vec::new(alloc))),
        LeastAge::Between { .. } => Ok(Some(Vec::new(alloc))),
        LeastAge::Unknown { .. } => Ok(Some(Vec::new(alloc))),
        LeastAge::Never => Ok(Some(Vec::new(alloc))),
    }
}

/// The texts that tell the least age of a chain; of the certificate and the instance with one less nothing where they aren't wanted, or
/// where no search showed that this has no plan.
pub fn texts_of(
    alloc: Global,
    aging: &Aging<'_>,
    least: &LeastAge,
    beside: Beside,
) -> Result<Texts, MemoryFault>
    requires aging { IsAging aging.now }
    requires printable { IsPrintable aging.now.rates.now aging.now.chain least.now }
    requires job { HasJob aging.now.base.now least.now }
    requires valid { HasValidPlan aging.now.base.now (plan_of least.now) }
    ensures { IfOk result (AreTextsOf beside aging.now.rates.now aging.now.chain least.now) }
{
    let certificate = text_beside(alloc, aging, least, beside.certificate)?;
    let reduced = aged_text(alloc, aging, least, beside.reduced)?;
    let answer = answer_text(alloc, aging.base, least)?;
    Ok(Texts {
        certificate,
        reduced,
        answer,
    })
}
