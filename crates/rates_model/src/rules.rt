//! Whether tables keep the rules of a cluster of several rates, in the order in which refusals are told.

ghost use Rattle.std.specs.Prelude.{◌≡◌, ◌*◌, IfOk, MatchResult};
ghost use Rattle.rates_model.specs.Cycles.{cycle, round_of};
ghost use Rattle.rates_model.specs.Parts.{rates_of};
ghost use Rattle.rates_model.specs.Rules.{Indices, Rooms, Slots, Cycles, IsRates};
ghost use Rattle.rates_model.specs.Refusals.{KeepsRatesRulesBefore, IsRatesRefusal};
ghost use Rattle.rates_model.specs.Parts.{AreTicksOf};

mod chains;
mod indices;
mod lengths;
mod names;
mod ranges;

use crate::cycles::{cycle_of, round_of};
use crate::error::RatesError;
use crate::parts::{RatesCluster, RatesParts};
use ttp_model::MOST_TICKS;

/// How many ticks a cycle and a round are.
#[derive(Clone, Copy)]
pub struct RatesTicks {
    pub cycle: u32,
    pub round: u32,
}

/// The spans of tables that keep all rules, or the first that they break.
pub fn judge(parts: &RatesParts) -> Result<RatesTicks, RatesError>
    ensures { MatchResult result
        (λ spans. IsRates (rates_of parts.now) × AreTicksOf (rates_of parts.now) spans)
        (λ e. IsRatesRefusal (rates_of parts.now) e) }
{
    judge_lists(parts)?;
    judge_numbers(parts)?;
    judge_processes(parts)?;
    judge_slots(parts)?;
    judge_spans(parts)
}

/// The rules on lengths and names.
fn judge_lists(parts: &RatesParts) -> Result<(), RatesError>
    ensures { MatchResult result
        (λ _. KeepsRatesRulesBefore (rates_of parts.now) Indices)
        (λ e. IsRatesRefusal (rates_of parts.now) e) }
{
    if let Some(part) = lengths::wrong_part(parts) {
        return Err(RatesError::Length(part));
    }
    if let Some(m) = lengths::without_receiver(parts) {
        return Err(RatesError::NoReceiver(m));
    }
    if let Some(c) = lengths::wrong_chain(parts) {
        return Err(RatesError::Through(c));
    }
    if let Some(at) = names::unnamed(parts) {
        return Err(RatesError::NameForm(at));
    }
    if let Some(at) = names::repeated(parts) {
        return Err(RatesError::NameRepeated(at));
    }
    Ok(())
}

/// The rules on single numbers.
fn judge_numbers(parts: &RatesParts) -> Result<(), RatesError>
    requires { KeepsRatesRulesBefore (rates_of parts.now) Indices }
    ensures { MatchResult result
        (λ _. KeepsRatesRulesBefore (rates_of parts.now) Rooms)
        (λ e. IsRatesRefusal (rates_of parts.now) e) }
{
    if let Some(at) = indices::missing(parts) {
        return Err(RatesError::NoSuchIndex(at));
    }
    if let Some(at) = ranges::out_of_range(parts) {
        return Err(RatesError::OutOfRange(at));
    }
    Ok(())
}

/// The rules on the room of processes and on what chains read.
fn judge_processes(parts: &RatesParts) -> Result<(), RatesError>
    requires { KeepsRatesRulesBefore (rates_of parts.now) Rooms }
    ensures { MatchResult result
        (λ _. KeepsRatesRulesBefore (rates_of parts.now) Slots)
        (λ e. IsRatesRefusal (rates_of parts.now) e) }
{
    if let Some(p) = ranges::without_room(parts) {
        return Err(RatesError::NoRoom(p));
    }
    if let Some((c, place)) = chains::unread(parts) {
        return Err(RatesError::NothingRead(c, place));
    }
    Ok(())
}

/// So many ticks of the text in those of the cluster.
fn in_its_ticks(c: &RatesCluster, ticks: u32) -> u128
    ensures { result ≡ c.now.finer * ticks }
{
    u128::from(c.finer) * u128::from(ticks)
}

/// The rule on the round that is asked for.
fn judge_slots(parts: &RatesParts) -> Result<(), RatesError>
    requires { KeepsRatesRulesBefore (rates_of parts.now) Slots }
    ensures { MatchResult result
        (λ _. KeepsRatesRulesBefore (rates_of parts.now) Cycles)
        (λ e. IsRatesRefusal (rates_of parts.now) e) }
{
    let Some(round) = parts.cluster.round else {
        return Ok(());
    };
    let slots = round_of(&parts.cluster, &parts.nodes);
    if slots > in_its_ticks(&parts.cluster, round) {
        return Err(RatesError::ShortRound(slots, round));
    }
    Ok(())
}

/// The rules on the cycle and the round, which are told.
fn judge_spans(parts: &RatesParts) -> Result<RatesTicks, RatesError>
    requires { KeepsRatesRulesBefore (rates_of parts.now) Cycles }
    ensures { MatchResult result
        (λ spans. IsRates (rates_of parts.now) × AreTicksOf (rates_of parts.now) spans)
        (λ e. IsRatesRefusal (rates_of parts.now) e) }
{
    let Some(cycle) = cycle_of(&parts.processes) else {
        return Err(RatesError::LongCycle);
    };
    let round = round_of(&parts.cluster, &parts.nodes);
    if round > u128::from(cycle) {
        return Err(RatesError::LongRound(round, cycle));
    }
    Ok(RatesTicks {
        cycle,
        round: round as u32,
    })
}
