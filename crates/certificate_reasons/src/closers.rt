//! Why is no plan left, by times, rounds and orders?

ghost use Rattle.std.specs.Prelude.{◌<◌, IfOk, length};
ghost use Rattle.certificate_reasons.specs.Closers.{IsCycle, IsRounds, IsWindow};

use crate::rings::names_of;
use sentences::Word::{Number, Text};
use sentences::{MOST_ITEMS, tell};
use sought_plans::least_end;
use std::alloc::Global;
use std::fmt;
use tt_infer::Facts;
use ttp_model::MemoryFault;

/// Why no plan is left, by times, rounds and orders; in ticks.
#[derive(Drop)]
pub enum CloserReason<'a> {
    /// A process ends at one tick or later, and at an earlier one or before that.
    Window {
        process: &'a str,
        least: u64,
        most: u32,
    },
    /// A message is sent in one round or later, and before one that is no later.
    Rounds {
        message: &'a str,
        least: u32,
        late: u32,
    },
    /// Each of these processes waits for the one before it, and the first for the last.
    Cycle {
        processes: Vec<&'a str>,
    },
}

/// Process `p` can't end in time.
pub fn window<'a>(facts: &Facts<'a>, p: u32) -> CloserReason<'a>
    requires { p < length facts.now.instance.processes }
    ensures { IsWindow facts.now.instance facts.now.known p result }
{
    CloserReason::Window {
        process: facts.instance().process_name(p as usize),
        least: least_end(facts.known(), facts.instance(), p),
        most: facts.le(p),
    }
}

/// Message `m` has no round.
pub fn rounds<'a>(facts: &Facts<'a>, m: u32) -> CloserReason<'a>
    requires { m < length facts.now.instance.messages }
    ensures { IsRounds facts.now.instance facts.now.known m result }
{
    CloserReason::Rounds {
        message: facts.instance().message_name(m as usize),
        least: facts.lo(m),
        late: facts.top(m),
    }
}

/// These processes wait for each other. Takes memory for their names.
pub fn cycle<'a>(
    alloc: Global,
    facts: &Facts<'a>,
    processes: &[u32],
) -> Result<CloserReason<'a>, MemoryFault>
    ensures { IfOk result (IsCycle facts.now.instance processes.now) }
{
    let processes = names_of(alloc, facts.instance(), processes)?;
    Ok(CloserReason::Cycle { processes })
}

/// Writes the first names, and how many more there are.
fn write_names<W: fmt::Write>(f: &mut fmt::Formatter<W>, names: &[&str]) -> fmt::Result {
    let count = names.len();
    for k in 0..count.min(MOST_ITEMS) {
        let name = names[k];
        tell(f, " {}", &[Text(name)])?;
    }
    if MOST_ITEMS < count {
        let more = count - MOST_ITEMS;
        tell(f, " and {} more", &[Number(more as u64)])?;
    }
    Ok(())
}

impl<'a> fmt::Display for CloserReason<'a> {
    fn fmt<W: fmt::Write>(&self, f: &mut fmt::Formatter<W>) -> fmt::Result {
        match self {
            CloserReason::Window {
                process,
                least,
                most,
            } => tell(
                f,
                "{} ends at {} or later, and at {} or earlier",
                &[Text(process), Number(*least), Number(u64::from(*most))],
            ),
            CloserReason::Rounds {
                message,
                least,
                late,
            } => {
                tell(
                    f,
                    "{} is sent in round {} or later, and before round {}",
                    &[
                        Text(message),
                        Number(u64::from(*least)),
                        Number(u64::from(*late)),
                    ],
                )
            }
            CloserReason::Cycle { processes } => {
                f.write_str("each of")?;
                write_names(f, processes.as_slice())?;
                f.write_str(" waits for the one before it, and the first for the last")
            }
        }
    }
}
