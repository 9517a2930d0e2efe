//! What is told of those that end too late, whatever the plan?

ghost use Rattle.std.specs.Prelude.{◌<◌, All, IfOk};
ghost use Rattle.plan_facts.specs.Ends.{must_end_by};
ghost use Rattle.sentences.specs.Lists.{AreTold};
ghost use Rattle.plan_reasons.specs.LateLines.{AreLate, IsLateProcess};
ghost use Rattle.plan_reasons.specs.PathThere.{IsPartThere};

use crate::late::late_parts;
use crate::limits::{Limit, limit_of};
use crate::path_lines::run_of;
use crate::path_parts::ChainPart;
use crate::runs::RunLine;
use plan_facts::{longest_chains, must_end_by};
use sentences::Word::{Number, Text, Ticks};
use sentences::{MOST_ITEMS, tell};
use serde::Serialize;
use std::alloc::Global;
use std::fmt;
use std::fmt::Display;
use ttp_model::{Instance, MemoryFault};

/// A process that ends too late even at the earliest; in ticks.
#[derive(Clone, Copy, Serialize)]
pub struct LateProcess<'a> {
    pub run: RunLine<'a>,
    pub limit: Limit,
    /// By when it has to end.
    pub latest: u32,
    pub by: u64,
}

/// Those that do, of which each leaves no plan.
#[derive(Drop, Serialize)]
pub struct LateProcesses<'a> {
    pub processes: Vec<LateProcess<'a>>,
}

/// Which processes end too late whatever the plan, each with what makes it late. Takes memory for them, and for the longest chains.
pub fn late_reason(alloc: Global, instance: &Instance) -> Result<LateProcesses<'_>, MemoryFault>
    ensures { IfOk result (AreLate instance.now) }
{
    let ends = longest_chains(alloc, instance)?;
    let parts = late_parts(alloc, instance, ends.as_slice())?;
    Ok(LateProcesses {
        processes: processes_of(alloc, instance, parts.as_slice())?,
    })
}

/// What is told of these parts.
fn processes_of<'a>(
    alloc: Global,
    instance: &'a Instance,
    parts: &[ChainPart],
) -> Result<Vec<LateProcess<'a>>, MemoryFault>
    requires there { All (IsPartThere instance.now) parts.now }
    requires late { All (λ part. must_end_by instance.now part.process < part.until) parts.now }
    ensures { IfOk result (λ told. AreTold (IsLateProcess instance.now) parts.now told.items) }
{
    let mut told = Vec::new(alloc);
    for part in parts {
        told.push(late_process(instance, *part))?;
    }
    Ok(told)
}

/// What is told of a part.
fn late_process(instance: &Instance, part: ChainPart) -> LateProcess<'_>
    requires there { IsPartThere instance.now part }
    requires late { must_end_by instance.now part.process < part.until }
    ensures { IsLateProcess instance.now part result }
{
    let p = part.process as usize;
    let latest = must_end_by(instance, p);
    LateProcess {
        run: run_of(instance, part),
        limit: limit_of(instance, p),
        latest,
        by: part.until.saturating_sub(u64::from(latest)),
    }
}

impl<'a> fmt::Display for LateProcess<'a> {
    fn fmt<W: fmt::Write>(&self, f: &mut fmt::Formatter<W>) -> fmt::Result {
        let (limit, latest, by) = (self.limit.words(), self.latest, Ticks(self.by));
        self.run.fmt(f)?;
        tell(
            f,
            "    {} is {}: {} too late\n",
            &[Text(limit), Number(u64::from(latest)), by],
        )
    }
}

impl<'a> fmt::Display for LateProcesses<'a> {
    fn fmt<W: fmt::Write>(&self, f: &mut fmt::Formatter<W>) -> fmt::Result {
        let processes = self.processes.as_slice();
        if processes.is_empty() {
            return Ok(());
        }
        f.write_str("These end too late even at the earliest, so no plan is valid:\n")?;
        let count = processes.len();
        for k in 0..count.min(MOST_ITEMS) {
            processes[k].fmt(f)?;
        }
        if MOST_ITEMS < count {
            let more = count - MOST_ITEMS;
            tell(f, "  and {} more\n", &[Number(more as u64)])?;
        }
        Ok(())
    }
}
