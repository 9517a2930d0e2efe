//! Which order isn't known that a step asks for?

ghost use Rattle.std.specs.Prelude.{◌+◌, ◌<◌, ◌↔◌, IsTrue, length};
ghost use Rattle.sought_plans.specs.Dominance.{AreTwinsInOrder};
ghost use Rattle.sought_plans.specs.Known.{bef_of, le_of};
ghost use Rattle.sought_plans.specs.Premises.{IsAhead, IsRing, least_end, wcet_of};
ghost use Rattle.certificate_reasons.specs.OrderLacks.{IsInTime, IsNotAhead, IsNotFirst, IsNotTwins, IsRingLack};

use sentences::Word::{Number, Text};
use sentences::tell;
use sought_plans::least_end;
use std::fmt;
use tt_infer::{Facts, leads};
use ttp_model::Ring;

/// An order that isn't known, or no reason for one; in ticks.
#[derive(Clone, Copy)]
pub enum OrderLack<'a> {
    /// That the process ends before the other one starts.
    NotFirst {
        process: &'a str,
        other: &'a str,
    },
    /// Behind the other one the process ends at this tick or later, by which it may end.
    InTime {
        process: &'a str,
        other: &'a str,
        end: u64,
        most: u32,
    },
    /// That they are twins of which the process is the first in the instance.
    NotTwins {
        process: &'a str,
        other: &'a str,
    },
}

/// Process `p` isn't known to go before `q`.
pub fn not_first<'a>(facts: &Facts<'a>, p: u32, q: u32) -> OrderLack<'a>
    requires { ¬ IsTrue (bef_of facts.now.known p q) }
    ensures { IsNotFirst facts.now.instance facts.now.known p q result }
{
    let instance = facts.instance();
    OrderLack::NotFirst {
        process: instance.process_name(p as usize),
        other: instance.process_name(q as usize),
    }
}

/// Process `p` ends in time behind `q`.
#[tactic(auto, using(crate::proofs::Failing::at_least))]
pub fn in_time<'a>(facts: &Facts<'a>, p: u32, q: u32) -> OrderLack<'a>
    requires first { p < length facts.now.instance.processes }
    requires second { q < length facts.now.instance.processes }
    requires lacks { ¬ (le_of facts.now.known p < least_end facts.now.instance facts.now.known q + wcet_of facts.now.instance p) }
    ensures { IsInTime facts.now.instance facts.now.known p q result }
{
    let instance = facts.instance();
    let wcet = instance.process_at(p as usize).wcet;
    OrderLack::InTime {
        process: instance.process_name(p as usize),
        other: instance.process_name(q as usize),
        end: least_end(facts.known(), facts.instance(), q) + u64::from(wcet),
        most: facts.le(p),
    }
}

/// Processes `p` and `q` aren't twins in order.
pub fn not_twins<'a>(facts: &Facts<'a>, p: u32, q: u32) -> OrderLack<'a>
    requires { ¬ AreTwinsInOrder facts.now.instance p q }
    ensures { IsNotTwins facts.now.instance p q result }
{
    let instance = facts.instance();
    OrderLack::NotTwins {
        process: instance.process_name(p as usize),
        other: instance.process_name(q as usize),
    }
}

/// Whether process `p` goes before `q`: it is known, or a link or a message leads from `p` to `q`.
fn is_ahead(facts: &Facts, p: u32, q: u32) -> bool
    ensures { IsTrue result ↔ IsAhead facts.now.instance facts.now.known p q }
{
    if facts.bef(p, q) {
        return true;
    }
    leads(facts.instance(), p, q)
}

/// The names of two processes of which the first doesn't go before the second.
fn not_ahead<'a>(facts: &Facts<'a>, p: u32, q: u32) -> OrderLack<'a>
    ensures { IsNotAhead facts.now.instance p q result }
{
    let instance = facts.instance();
    OrderLack::NotFirst {
        process: instance.process_name(p as usize),
        other: instance.process_name(q as usize),
    }
}

/// The first of these processes that doesn't go before the next one, or else the last, which doesn't go before the first. A pass over the
/// links and one over the messages for each.
pub fn no_ring<'a>(facts: &Facts<'a>, ring: &Ring) -> OrderLack<'a>
    requires { ¬ IsRing facts.now.instance facts.now.known ring.now }
    ensures { IsRingLack facts.now.instance facts.now.known ring.now result }
{
    let processes = ring.as_slice();
    for k in 1..processes.len() {
        if !is_ahead(facts, processes[k - 1], processes[k]) {
            return not_ahead(facts, processes[k - 1], processes[k]);
        }
    }
    let last = processes[processes.len() - 1];
    not_ahead(facts, last, processes[0])
}

impl<'a> fmt::Display for OrderLack<'a> {
    fn fmt<W: fmt::Write>(&self, f: &mut fmt::Formatter<W>) -> fmt::Result {
        match *self {
            OrderLack::NotFirst { process, other } => {
                tell(
                    f,
                    "it isn't known that {} ends before {} starts",
                    &[Text(process), Text(other)],
                )
            }
            OrderLack::InTime {
                process,
                other,
                end,
                most,
            } => {
                tell(
                    f,
                    "behind {} {} ends at {} or later, and it ends at {} or earlier: that can be",
                    &[
                        Text(other),
                        Text(process),
                        Number(end),
                        Number(u64::from(most)),
                    ],
                )
            }
            OrderLack::NotTwins { process, other } => {
                tell(
                    f,
                    "{} and {} aren't twins of which {} is the first in the instance",
                    &[Text(process), Text(other), Text(process)],
                )
            }
        }
    }
}
