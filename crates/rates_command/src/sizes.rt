//! How large is a cluster of several rates, and the instance of its cycle?

ghost use Rattle.std.specs.Prelude.{◌≡◌};
ghost use Rattle.endless_schedules.specs.Unrolled.{unrolled};
ghost use Rattle.rates_command.specs.Telling.{AreSizes};

use rates_model::Rates;
use sentences::Word::{Count, Number, Ticks};
use sentences::{Counted, tell};
use std::fmt;
use ttp_model::Instance;

/// What is told of a good cluster; all but the counts in ticks.
#[derive(Clone, Copy)]
pub struct RatesSizes {
    pub nodes: u64,
    pub processes: u64,
    pub links: u64,
    pub messages: u64,
    pub chains: u64,
    /// How many ticks make one of the text.
    pub finer: u32,
    pub cycle: u32,
    pub round: u32,
    /// How many of the cycle are in whole rounds.
    pub horizon: u32,
    pub unrolled_processes: u64,
    pub unrolled_links: u64,
    pub unrolled_messages: u64,
}

/// What is told of a cluster, with the instance of its cycle.
pub fn sizes_of(rates: &Rates, instance: &Instance) -> RatesSizes
    requires { instance.now ≡ unrolled rates.now }
    ensures { AreSizes rates.now result }
{
    RatesSizes {
        nodes: rates.nodes().len() as u64,
        processes: rates.processes().len() as u64,
        links: rates.links().len() as u64,
        messages: rates.messages().len() as u64,
        chains: rates.chains().len() as u64,
        finer: rates.cluster().finer,
        cycle: rates.cycle(),
        round: rates.round(),
        horizon: rates.horizon(),
        unrolled_processes: instance.processes().len() as u64,
        unrolled_links: instance.links().len() as u64,
        unrolled_messages: instance.messages().len() as u64,
    }
}

/// So many processes.
fn processes(number: u64) -> Counted {
    Counted {
        number,
        one: "process",
        many: "processes",
    }
}

/// So many links.
fn links(number: u64) -> Counted {
    Counted {
        number,
        one: "link",
        many: "links",
    }
}

/// So many messages.
fn messages(number: u64) -> Counted {
    Counted {
        number,
        one: "message",
        many: "messages",
    }
}

/// Tells how many entries the text has.
fn tell_counts<W: fmt::Write>(f: &mut fmt::Formatter<W>, sizes: RatesSizes) -> fmt::Result {
    let nodes = Counted {
        number: sizes.nodes,
        one: "node",
        many: "nodes",
    };
    let chains = Counted {
        number: sizes.chains,
        one: "chain",
        many: "chains",
    };
    tell(
        f,
        "rates {}, {}, {}, {}, {}\n",
        &[
            Count(nodes),
            Count(processes(sizes.processes)),
            Count(links(sizes.links)),
            Count(messages(sizes.messages)),
            Count(chains),
        ],
    )
}

/// Tells how its rounds lie in its cycle.
fn tell_rounds<W: fmt::Write>(f: &mut fmt::Formatter<W>, sizes: RatesSizes) -> fmt::Result {
    if sizes.finer != 1 {
        tell(
            f,
            "Times are told in ticks of which {} make one of the text, so that each slot has an even share of the round.\n",
            &[Number(u64::from(sizes.finer))],
        )?;
    }
    tell(
        f,
        "A cycle, the least common multiple of all periods, takes {}, and a round {}: whole rounds take {} of the cycle.\n",
        &[
            Ticks(u64::from(sizes.cycle)),
            Number(u64::from(sizes.round)),
            Number(u64::from(sizes.horizon)),
        ],
    )
}

impl fmt::Display for RatesSizes {
    fn fmt<W: fmt::Write>(&self, f: &mut fmt::Formatter<W>) -> fmt::Result {
        tell_counts(f, *self)?;
        tell_rounds(f, *self)?;
        tell(
            f,
            "The instance of one cycle has {}, {} and {}.\n",
            &[
                Count(processes(self.unrolled_processes)),
                Count(links(self.unrolled_links)),
                Count(messages(self.unrolled_messages)),
            ],
        )
    }
}
