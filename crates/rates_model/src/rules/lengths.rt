//! Which list is too short or too long, and which chain.

ghost use Rattle.std.specs.Prelude.{MatchOption, length};
ghost use Rattle.ttp_model.specs.Lists.{FindsFailure};
ghost use Rattle.rates_model.specs.Parts.{rates_of};
ghost use Rattle.rates_model.specs.Rules.{KeepsRatesLimits, HasSomeReceiver, IsOfFewProcesses};
ghost use Rattle.rates_model.specs.Refusals.{IsFirstWrongPart};

use crate::error::RatesPart;
use crate::limits::{LEAST_THROUGH, MOST_CHAINS, MOST_THROUGH};
use crate::parts::RatesParts;
use ttp_model::{MOST_LINKS, MOST_MESSAGES, MOST_NODES, MOST_PROCESSES};

/// The first list of a wrong length.
pub fn wrong_part(parts: &RatesParts) -> Option<RatesPart>
    ensures { MatchOption result
        (KeepsRatesLimits (rates_of parts.now))
        (IsFirstWrongPart (rates_of parts.now)) }
{
    if parts.nodes.is_empty() || parts.nodes.len() > MOST_NODES {
        return Some(RatesPart::Nodes);
    }
    if parts.processes.is_empty() || parts.processes.len() > MOST_PROCESSES {
        return Some(RatesPart::Processes);
    }
    if parts.links.len() > MOST_LINKS {
        return Some(RatesPart::Links);
    }
    if parts.messages.len() > MOST_MESSAGES {
        return Some(RatesPart::Messages);
    }
    if parts.chains.len() > MOST_CHAINS {
        return Some(RatesPart::Chains);
    }
    None
}

/// The first message without a receiver.
pub fn without_receiver(parts: &RatesParts) -> Option<u32>
    requires { KeepsRatesLimits (rates_of parts.now) }
    ensures { FindsFailure (length parts.now.messages.items) (HasSomeReceiver (rates_of parts.now)) result }
{
    for m in 0..parts.messages.len() {
        if parts.messages[m].receivers.is_empty() {
            return Some(m as u32);
        }
    }
    None
}

/// The first chain through too few or too many processes.
pub fn wrong_chain(parts: &RatesParts) -> Option<u32>
    requires { KeepsRatesLimits (rates_of parts.now) }
    ensures { FindsFailure (length parts.now.chains.items) (IsOfFewProcesses (rates_of parts.now)) result }
{
    for c in 0..parts.chains.len() {
        let count = parts.chains[c].through.len();
        if count < LEAST_THROUGH || count > MOST_THROUGH {
            return Some(c as u32);
        }
    }
    None
}
