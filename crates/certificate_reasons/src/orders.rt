//! Why does a process end before another one starts?

ghost use Rattle.std.specs.Prelude.{◌<◌, length};
ghost use Rattle.certificate_reasons.specs.Orders.{IsTwinOrder, IsWindowOrder};

use sentences::Word::{Number, Text};
use sentences::tell;
use sought_plans::least_end;
use std::fmt;
use tt_infer::Facts;

/// Why a process ends before another one starts; in ticks.
#[derive(Clone, Copy)]
pub enum OrderReason<'a> {
    /// The other one ends at this tick or later: behind it the process would end too late.
    Window {
        other: &'a str,
        other_end: u64,
        process: &'a str,
        wcet: u32,
        end: u32,
    },
    /// Nothing but their names tells them apart.
    Twins {
        process: &'a str,
        other: &'a str,
    },
}

/// Process `p` would end too late behind `q`.
pub fn window_order<'a>(facts: &Facts<'a>, p: u32, q: u32) -> OrderReason<'a>
    requires first { p < length facts.now.instance.processes }
    requires second { q < length facts.now.instance.processes }
    ensures { IsWindowOrder facts.now.instance facts.now.known p q result }
{
    let instance = facts.instance();
    OrderReason::Window {
        other: instance.process_name(q as usize),
        other_end: least_end(facts.known(), facts.instance(), q),
        process: instance.process_name(p as usize),
        wcet: instance.process_at(p as usize).wcet,
        end: facts.le(p),
    }
}

/// Processes `p` and `q` are twins.
pub fn twin_order<'a>(facts: &Facts<'a>, p: u32, q: u32) -> OrderReason<'a>
    requires first { p < length facts.now.instance.processes }
    requires second { q < length facts.now.instance.processes }
    ensures { IsTwinOrder facts.now.instance p q result }
{
    let instance = facts.instance();
    OrderReason::Twins {
        process: instance.process_name(p as usize),
        other: instance.process_name(q as usize),
    }
}

impl<'a> fmt::Display for OrderReason<'a> {
    fn fmt<W: fmt::Write>(&self, f: &mut fmt::Formatter<W>) -> fmt::Result {
        match *self {
            OrderReason::Window {
                other,
                other_end,
                process,
                wcet,
                end,
            } => {
                tell(
                    f,
                    "{} ends at {} or later, and {} takes {} and ends at {} or earlier",
                    &[
                        Text(other),
                        Number(other_end),
                        Text(process),
                        Number(u64::from(wcet)),
                        Number(u64::from(end)),
                    ],
                )
            }
            OrderReason::Twins { process, other } => {
                tell(
                    f,
                    "{} and {} are twins, which may be exchanged",
                    &[Text(process), Text(other)],
                )
            }
        }
    }
}
