//! Why do the tables of a cluster of several rates break a rule?

ghost use Rattle.std.specs.Prelude.{◌≡◌, IfOk};
ghost use Rattle.rates_model.specs.declared.error.RatesError.TheVariants.{NameForm, NothingRead, OutOfRange};
ghost use Rattle.rates_model.specs.declared.error.RatesPlace.TheVariants.{AtCluster};
ghost use Rattle.rates_model.specs.Parts.{rates_of};
ghost use Rattle.rates_model.specs.Refusals.{IsFirstUnread, IsRatesRefusal};
ghost use Rattle.rates_model.specs.Rules.{HasName, HasRanges};
ghost use Rattle.rates_command.specs.Rules.{IsNumberAt, IsRatesRuleReason, length_of};

use crate::parts::{
    RatesTimes, capacity_of, chain_age, chain_processes, link_of, message_delay, process_name,
    process_through, times_of,
};
use crate::spots::{name_at, spot_at};
use instance_reasons::{MalformedName, Spot, name_fault};
use rates_model::{RatesError, RatesPart, RatesParts, RatesPlace};
use rates_text::RatesKey;
use std::alloc::{AllocError, Global};
use ttp_model::MOST_TICKS;

/// The numbers and names of a refusal, in ticks of which `finer` make one of the text, where that is told.
#[derive(Drop)]
pub enum RatesRuleReason<'a> {
    /// How many entries a list has, of which it may not have so many.
    Count {
        list: RatesPart,
        entries: u64,
    },
    NoReceiver {
        spot: Spot<'a>,
    },
    /// How many processes a chain leads through.
    Through {
        spot: Spot<'a>,
        entries: u64,
    },
    Malformed(MalformedName<'a>),
    Repeated {
        spot: Spot<'a>,
    },
    /// When it names an index that isn't there, as no text can.
    NoSuchIndex {
        spot: Spot<'a>,
    },
    Outside {
        spot: Spot<'a>,
        key: RatesKey,
        number: u32,
        finer: u32,
    },
    NoRoom {
        spot: Spot<'a>,
        times: RatesTimes,
        finer: u32,
    },
    Unread {
        spot: Spot<'a>,
        before: &'a str,
        process: &'a str,
    },
    ShortRound {
        slots: u128,
        round: u32,
    },
    LongCycle {
        finer: u32,
    },
    LongRound {
        round: u128,
        cycle: u32,
        finer: u32,
    },
}

/// How many entries a list has.
fn length_of(parts: &RatesParts, list: RatesPart) -> u64
    ensures { result ≡ length_of (rates_of parts.now) list }
{
    match list {
        RatesPart::Nodes => parts.nodes.len() as u64,
        RatesPart::Processes => parts.processes.len() as u64,
        RatesPart::Links => parts.links.len() as u64,
        RatesPart::Messages => parts.messages.len() as u64,
        RatesPart::Chains => parts.chains.len() as u64,
    }
}

/// Why the name at a place is refused. Takes memory for one that may stand.
fn malformed<'a>(
    alloc: Global,
    parts: &'a RatesParts,
    at: RatesPlace,
) -> Result<RatesRuleReason<'a>, AllocError>
    requires { ¬ HasName (rates_of parts.now) at }
    ensures { IfOk result (IsRatesRuleReason (rates_of parts.now) (NameForm at)) }
{
    let name = name_at(parts, at).as_bytes();
    let fault = name_fault(alloc, name)?;
    Ok(RatesRuleReason::Malformed(MalformedName {
        spot: spot_at(parts, at),
        fault,
    }))
}

/// A number with its key.
#[derive(Clone, Copy)]
struct KeyNumber {
    key: RatesKey,
    number: u32,
}

/// The number of the cluster that isn't from 1 to 1,000,000: what storing takes, or else the round that is asked for.
fn cluster_number(parts: &RatesParts) -> KeyNumber
    requires { ¬ HasRanges (rates_of parts.now) AtCluster }
    ensures { IsNumberAt (rates_of parts.now) AtCluster result.key result.number }
{
    let store = parts.cluster.store;
    match parts.cluster.round {
        Some(number) if 1 <= store && store <= MOST_TICKS => KeyNumber {
            key: RatesKey::Round,
            number,
        },
        _ => KeyNumber {
            key: RatesKey::Store,
            number: store,
        },
    }
}

/// The number of a place that has a range of its own.
fn number_at(parts: &RatesParts, at: RatesPlace) -> KeyNumber
    requires { ¬ HasRanges (rates_of parts.now) at }
    ensures { IsNumberAt (rates_of parts.now) at result.key result.number }
{
    let (key, number) = match at {
        RatesPlace::AtCluster => return cluster_number(parts),
        RatesPlace::AtNode(n) => (RatesKey::Capacity, capacity_of(parts, n)),
        RatesPlace::AtProcess(p) => (RatesKey::Period, times_of(parts, p).period),
        RatesPlace::AtLink(l) => (RatesKey::Delay, link_of(parts, l).delay),
        RatesPlace::AtMessage(m) => (RatesKey::Delay, message_delay(parts, m)),
        RatesPlace::AtChain(c) => (RatesKey::Age, chain_age(parts, c)),
    };
    KeyNumber { key, number }
}

/// Why a number at a place is refused.
fn outside(parts: &RatesParts, at: RatesPlace) -> RatesRuleReason<'_>
    requires { ¬ HasRanges (rates_of parts.now) at }
    ensures { IsRatesRuleReason (rates_of parts.now) (OutOfRange at) result }
{
    let KeyNumber { key, number } = number_at(parts, at);
    RatesRuleReason::Outside {
        spot: spot_at(parts, at),
        key,
        number,
        finer: parts.cluster.finer,
    }
}

/// Why the process at a place of a chain is refused.
fn unread(parts: &RatesParts, c: u32, place: u32) -> RatesRuleReason<'_>
    requires { IsFirstUnread (rates_of parts.now) c place }
    ensures { IsRatesRuleReason (rates_of parts.now) (NothingRead c place) result }
{
    let before = process_through(parts, c, place - 1);
    let process = process_through(parts, c, place);
    RatesRuleReason::Unread {
        spot: spot_at(parts, RatesPlace::AtChain(c)),
        before: process_name(parts, before),
        process: process_name(parts, process),
    }
}

/// Why tables are refused that break this rule first. Takes memory for a name that may stand.
pub fn rates_rule_reason<'a>(
    alloc: Global,
    parts: &'a RatesParts,
    error: RatesError,
) -> Result<RatesRuleReason<'a>, AllocError>
    requires { IsRatesRefusal (rates_of parts.now) error }
    ensures { IfOk result (IsRatesRuleReason (rates_of parts.now) error) }
{
    let finer = parts.cluster.finer;
    Ok(match error {
        RatesError::Length(list) => RatesRuleReason::Count {
            list,
            entries: length_of(parts, list),
        },
        RatesError::NoReceiver(m) => RatesRuleReason::NoReceiver {
            spot: spot_at(parts, RatesPlace::AtMessage(m)),
        },
        RatesError::Through(c) => RatesRuleReason::Through {
            spot: spot_at(parts, RatesPlace::AtChain(c)),
            entries: chain_processes(parts, c).len() as u64,
        },
        RatesError::NameForm(at) => malformed(alloc, parts, at)?,
        RatesError::NameRepeated(at) => RatesRuleReason::Repeated {
            spot: spot_at(parts, at),
        },
        RatesError::NoSuchIndex(at) => RatesRuleReason::NoSuchIndex {
            spot: spot_at(parts, at),
        },
        RatesError::OutOfRange(at) => outside(parts, at),
        RatesError::NoRoom(p) => RatesRuleReason::NoRoom {
            spot: spot_at(parts, RatesPlace::AtProcess(p)),
            times: times_of(parts, p),
            finer,
        },
        RatesError::NothingRead(c, place) => unread(parts, c, place),
        RatesError::ShortRound(slots, round) => RatesRuleReason::ShortRound { slots, round },
        RatesError::LongCycle => RatesRuleReason::LongCycle { finer },
        RatesError::LongRound(round, cycle) => RatesRuleReason::LongRound {
            round,
            cycle,
            finer,
        },
    })
}
