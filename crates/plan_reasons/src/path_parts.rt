//! Which chain of links and messages makes the path bound?

ghost use Rattle.std.specs.Prelude.{◌≡◌, ◌<◌, [], IfOk, IfSome, OnOk, length};
ghost use Rattle.plan_facts.specs.Longest.{AreLongest};
ghost use Rattle.plan_reasons.specs.PathChains.{EndsLast, IsChain, IsPart, held_by};
ghost use Rattle.plan_reasons.specs.Runs.{HasCause};

use crate::path_causes::cause_of;
use crate::runs::StartCause;
use plan_facts::longest_chains;
use std::alloc::Global;
use ttp_model::{Instance, MemoryFault};

/// A process of a chain, with its ticks.
#[derive(Clone, Copy)]
pub struct ChainPart {
    pub process: u32,
    pub from: u64,
    pub until: u64,
    /// Its release, a link or a message.
    pub cause: StartCause,
}

/// The chain that makes the path bound, from its last process to its first. Takes memory for it and for the longest chain to each
/// process, which costs a pass over links and messages for each; each part costs one more.
pub fn path_parts_of(alloc: Global, instance: &Instance) -> Result<Vec<ChainPart>, MemoryFault>
    ensures { IfOk result (λ parts. IsChain instance.now parts.items) }
{
    let ends = longest_chains(alloc, instance)?;
    let mut parts = Vec::new(alloc);
    lead_back(&mut parts, instance, ends.as_slice())?;
    Ok(parts)
}

/// Adds the parts that lead back from the process that ends last, by when the longest chain to each process ends.
fn lead_back(
    parts: &mut Vec<ChainPart>,
    instance: &Instance,
    ends: &[u64],
) -> Result<(), MemoryFault>
    requires longest { AreLongest instance.now ends.now }
    requires none { parts.old.items ≡ [] }
    ensures { OnOk result (IsChain instance.now parts.new.items) }
{
    let _nodes = instance.nodes();
    let last = last_of(instance, ends);
    let mut next = Some(last);
    'back: while let Some(p) = next {
        let part = part_of(instance, ends, p);
        parts.push(part)?;
        next = held_by(instance, part.cause);
    }
    Ok(())
}

/// The first of the processes whose longest chains end last.
fn last_of(instance: &Instance, ends: &[u64]) -> u32
    requires { AreLongest instance.now ends.now }
    ensures { EndsLast instance.now ends.now result }
{
    let _processes = instance.processes();
    let mut last = 0;
    for p in 0..ends.len() {
        if ends[p] > ends[last] {
            last = p;
        }
    }
    last as u32
}

/// The part of process `p`.
fn part_of(instance: &Instance, ends: &[u64], p: u32) -> ChainPart
    requires longest { AreLongest instance.now ends.now }
    requires inside { p < length instance.now.processes }
    ensures process { result.process ≡ p }
    ensures part { IsPart instance.now ends.now result }
{
    let until = ends[p as usize];
    let from = until - u64::from(instance.process_at(p as usize).wcet);
    ChainPart {
        process: p,
        from,
        until,
        cause: cause_of(instance, ends, p as usize, from),
    }
}

/// The process that a part with this cause waits for.
fn held_by(instance: &Instance, cause: StartCause) -> Option<u32>
    requires { HasCause instance.now cause }
    ensures process { result ≡ held_by instance.now cause }
    ensures inside { IfSome result (λ p. p < length instance.now.processes) }
{
    match cause {
        StartCause::Release | StartCause::Behind(_) | StartCause::CouldStart(_) => None,
        StartCause::Link(l) => Some(instance.link_at(l as usize).before),
        StartCause::Arrival(m) => Some(instance.message_at(m as usize).sender),
    }
}
