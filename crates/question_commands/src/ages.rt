//! What does `age` say of a cluster of several rates and the chain that a name means?

ghost use Rattle.std.specs.Prelude.{◌≡◌, ◌+◌, ◌<◌, IfSome, MatchResult, length};
ghost use Rattle.command_streams.specs.Streams.{TakesAtMost};
ghost use Rattle.command_streams.specs.Writing.{IsWritingOf};
ghost use Rattle.endless_schedules.specs.Aging.{IsAging};
ghost use Rattle.rates_command.specs.declared.limits.TheConstants.{RATES_LIMIT};
ghost use Rattle.question_commands.specs.AgeChains.{HasName, loose};
ghost use Rattle.question_commands.specs.AgeTexts.{end_told};
ghost use Rattle.question_commands.specs.AgeAnswers.{IsAgeAnswer, IsAged, IsAgedBy, IsAgedOf, IsNoAgeOf, IsUnaged, IsUnloosened, IsUnsearched};

use crate::age_answer::end_of;
use crate::age_ending::AgeEnd;
use crate::age_naming::chain_named;
use crate::age_texts::texts_of;
use crate::limit_texts::Beside;
use command_streams::{End, Fault, Texts, write_texts};
use endless_schedules::{Aging, unroll, with_bound};
use plan_questions::{Asking, Gate, LeastAge, least_age};
use rates_command::{RatesEnd, RatesFault, read_rates};
use rates_model::Rates;
use solve_command::told_as;
use std::io::{Read, Write};
use std::marker::Sync;
use std::sync::Wait;
use std::thread::Threads;
use ttp_model::MOST_TICKS;

/// What searches say of how old what a chain carries has to be, with the texts that tell it.
#[derive(Drop)]
pub struct Aged {
    pub least: LeastAge,
    pub texts: Texts,
}

/// How old what a chain carries has to be, and the texts that tell it.
fn aged_by<R: Threads + Wait + Sync, G: Gate + Sync>(
    rt: &R,
    asking: &Asking<'_, G>,
    aging: &Aging<'_>,
    beside: Beside,
) -> Result<Aged, AgeEnd>
    requires { IsAging aging.now }
    ensures { MatchResult result
        (IsAgedBy aging.now.rates.now aging.now.chain beside asking.now.options)
        IsUnsearched }
{
    let _nodes = aging.base.nodes();
    let least = match least_age(rt, asking, aging) {
        Ok(least) => least,
        Err(fault) => return Err(AgeEnd::Searched(End::Refused(Fault::Search(told_as(fault))))),
    };
    match texts_of(asking.alloc, aging, &least, beside) {
        Ok(texts) => Ok(Aged { least, texts }),
        Err(_) => Err(AgeEnd::Searched(End::Refused(Fault::Memory))),
    }
}

/// The same of a chain that may be as old as can be said, where the instance of one cycle isn't refused.
fn aged_loosely<R: Threads + Wait + Sync, G: Gate + Sync>(
    rt: &R,
    asking: &Asking<'_, G>,
    rates: &Rates,
    chain: usize,
    beside: Beside,
) -> Result<Aged, AgeEnd>
    requires { chain < length rates.now.chains }
    ensures { MatchResult result
        (IsAgedBy rates.now chain beside asking.now.options)
        (IsUnloosened rates.now) }
{
    let base = match unroll(asking.alloc, rates) {
        Ok(base) => base,
        Err(fault) => {
            return Err(AgeEnd::OfRates(RatesEnd::Refused(RatesFault::Unrolled(fault))));
        }
    };
    match Aging::of(asking.alloc, rates, &base, chain) {
        Ok(aging) => aged_by(rt, asking, &aging, beside),
        Err(_) => Err(AgeEnd::Searched(End::Refused(Fault::Memory))),
    }
}

/// How old what the chain of a name carries has to be.
fn aged_of<R: Threads + Wait + Sync, G: Gate + Sync>(
    rt: &R,
    asking: &Asking<'_, G>,
    rates: &Rates,
    name: &str,
    beside: Beside,
) -> Result<Aged, AgeEnd>
    ensures { MatchResult result
        (IsAgedOf rates.now name.now beside asking.now.options)
        (IsNoAgeOf rates.now name.now) }
{
    match chain_named(rates, name) {
        None => Err(AgeEnd::NoSuchChain),
        Some(chain) => match with_bound(asking.alloc, rates, chain, MOST_TICKS) {
            Ok(loose) => aged_loosely(rt, asking, &loose, chain, beside),
            Err(_) => Err(AgeEnd::Searched(End::Refused(Fault::Memory))),
        },
    }
}

/// The same of the cluster that a reader's bytes state.
fn aged_of_reader<R: Threads + Wait + Sync, G: Gate + Sync, I: Read>(
    rt: &R,
    asking: &Asking<'_, G>,
    rates: &mut I,
    name: &str,
    beside: Beside,
) -> Result<Aged, AgeEnd>
    ensures judged { IfSome (I.remaining rates.old) (λ bytes. MatchResult result
        (IsAged bytes name.now beside asking.now.options)
        (IsUnaged bytes name.now)) }
    ensures most { TakesAtMost (RATES_LIMIT + 1) (I.remaining rates.old) (I.remaining rates.new) }
{
    match read_rates(asking.alloc, rates) {
        Ok(rates) => aged_of(rt, asking, &rates, name, beside),
        Err(fault) => Err(AgeEnd::OfRates(RatesEnd::Refused(fault))),
    }
}

/// Writes an answer behind what is written beside it.
fn tell<C: Write, S: Write, W: Write>(
    aged: &Aged,
    certificate: &mut C,
    reduced: &mut S,
    out: &mut W,
) -> End
    ensures { IsWritingOf aged.now.texts (end_told aged.now.least)
        (C.contents certificate.old) (C.contents certificate.new) (S.contents reduced.old) (S.contents reduced.new)
        (W.contents out.old) (W.contents out.new) result }
{
    write_texts(&aged.texts, end_of(&aged.least), certificate, reduced, out)
}

/// Reads a cluster of several rates, and tells how old what the chain of a name carries has to be, for ever, in any schedule that keeps
/// all else: a line `age` with the least age, and then the text of a plan of the instance of one cycle that has it; with the words `window`
/// and a job where that is the first that has no room by itself with one less. Where a search was stopped a line `between` with an age that
/// none is below, and the age in the plan whose text follows, or the word `none` where no plan is known, and then the end is `Stopped`. Or
/// `none` where no plan is valid, however old that may be, and then the end is `Absent`. Where a search showed that there is no plan with
/// one less, its certificate is written first where that is wanted, and then the text of the instance with one less; else nothing is to
/// these writers. The chain's own bound is no matter: it may be 1,000,000, the greatest that a text can say. All texts are made before one
/// is written: where memory is refused nothing is written, and where a writer fails nothing is written to those behind it. Where the text
/// that was made of that instance doesn't read back as it, nothing is written of it, and the end is the fault of that file, once the answer
/// is written.
pub fn age_run<R: Threads + Wait + Sync, G: Gate + Sync, I: Read, C: Write, S: Write, W: Write>(
    rt: &R,
    asking: &Asking<'_, G>,
    rates: &mut I,
    name: &str,
    beside: Beside,
    certificate: &mut C,
    reduced: &mut S,
    out: &mut W,
) -> AgeEnd
    ensures answer { IfSome (I.remaining rates.old) (λ bytes. IsAgeAnswer bytes name.now beside asking.now.options
        (C.contents certificate.old) (C.contents certificate.new) (S.contents reduced.old) (S.contents reduced.new)
        (W.contents out.old) (W.contents out.new) result) }
    // No more is taken of the reader than its limit and one byte.
    ensures most { TakesAtMost (RATES_LIMIT + 1) (I.remaining rates.old) (I.remaining rates.new) }
{
    match aged_of_reader(rt, asking, rates, name, beside) {
        Ok(aged) => {
            let end = tell(&aged, certificate, reduced, out);
            drop(aged);
            AgeEnd::Searched(end)
        }
        Err(end) => end,
    }
}
