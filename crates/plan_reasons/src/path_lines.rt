//! What does the chain tell of each process and message?

ghost use Rattle.std.specs.Prelude.{◌≡◌, ◌<◌, All, IfOk, length};
ghost use Rattle.sentences.specs.Lists.{AreTold};
ghost use Rattle.plan_reasons.specs.Runs.{IsRunLine};
ghost use Rattle.plan_reasons.specs.PathLines.{IsAbove, IsPast, IsPathChain, IsPathPart, IsTransfer};
ghost use Rattle.plan_reasons.specs.PathThere.{IsPartThere};

use crate::path_parts::{ChainPart, path_parts_of};
use crate::runs::{RunLine, StartCause, run_line};
use plan_facts::least_transfer;
use sentences::Word::{Number, Text, Ticks};
use sentences::{Member, long_number_if_any, tell, write_members, write_members_and};
use serde::{Described, Serialize, Serializer};
use std::alloc::Global;
use std::fmt;
use std::fmt::Display;
use ttp_model::{Instance, MemoryFault};

/// A message on its way, from the end of its sender until it is there; in ticks.
#[derive(Clone, Copy)]
pub struct Transfer<'a> {
    pub from: u64,
    pub until: u64,
    pub message: &'a str,
    /// The node that sends it.
    pub node: &'a str,
    /// What it takes at least.
    pub ticks: u64,
}

/// A process of the chain, and the message before it that it waits for.
#[derive(Clone, Copy, Serialize)]
pub struct PathPart<'a> {
    pub transfer: Option<Transfer<'a>>,
    pub run: RunLine<'a>,
}

/// Why no plan ends before the path bound.
#[derive(Drop)]
pub struct PathChain<'a> {
    /// The path bound, in ticks.
    pub bound: u64,
    pub horizon: u32,
    /// By how much the bound is past the horizon, where it is: then no plan is valid.
    pub past: Option<u64>,
    /// The parts of its chain, from the last to the first.
    pub parts: Vec<PathPart<'a>>,
}

/// Why no plan ends before the path bound. Takes memory for the chain, and for what is told of it.
pub fn path_chain_reason(alloc: Global, instance: &Instance) -> Result<PathChain<'_>, MemoryFault>
    ensures { IfOk result (IsPathChain instance.now) }
{
    let parts = path_parts_of(alloc, instance)?;
    let (bound, horizon) = (parts[0].until, instance.cluster().horizon);
    Ok(PathChain {
        bound,
        horizon,
        past: past(bound, horizon),
        parts: parts_of(alloc, instance, parts.as_slice())?,
    })
}

/// By how much a bound is past the horizon, where it is.
fn past(bound: u64, horizon: u32) -> Option<u64>
    ensures { IsPast bound horizon result }
{
    let horizon = u64::from(horizon);
    if horizon < bound {
        Some(bound - horizon)
    } else {
        None
    }
}

/// What is told of these parts.
fn parts_of<'a>(
    alloc: Global,
    instance: &'a Instance,
    parts: &[ChainPart],
) -> Result<Vec<PathPart<'a>>, MemoryFault>
    requires { All (IsPartThere instance.now) parts.now }
    ensures { IfOk result (λ told. AreTold (IsPathPart instance.now) parts.now told.items) }
{
    let mut told = Vec::new(alloc);
    for part in parts {
        told.push(path_part(instance, *part))?;
    }
    Ok(told)
}

/// What is told of a part.
fn path_part(instance: &Instance, part: ChainPart) -> PathPart<'_>
    requires { IsPartThere instance.now part }
    ensures { IsPathPart instance.now part result }
{
    PathPart {
        transfer: transfer_of(instance, part),
        run: run_of(instance, part),
    }
}

/// The process of a part.
pub fn run_of(instance: &Instance, part: ChainPart) -> RunLine<'_>
    requires { IsPartThere instance.now part }
    ensures { IsRunLine instance.now part.process part.from part.until part.cause result }
{
    run_line(instance, part.process, part.from, part.until, part.cause)
}

/// The message that the process of a part waits for, where it is one.
fn transfer_of(instance: &Instance, part: ChainPart) -> Option<Transfer<'_>>
    requires { IsPartThere instance.now part }
    ensures { IsAbove instance.now part.from part.cause result }
{
    match part.cause {
        StartCause::Release
        | StartCause::Link(_)
        | StartCause::Behind(_)
        | StartCause::CouldStart(_) => None,
        StartCause::Arrival(m) => Some(transfer_until(instance, m as usize, part.from)),
    }
}

/// Message `m`, which is there at this tick.
fn transfer_until(instance: &Instance, m: usize, until: u64) -> Transfer<'_>
    requires { m < length instance.now.messages }
    ensures { IsTransfer instance.now m until result }
{
    let ticks = least_transfer(instance, instance.source_of(m));
    Transfer {
        from: until.saturating_sub(ticks),
        until,
        message: instance.message_name(m),
        node: instance.source_name(m),
        ticks,
    }
}

impl<'a> Described for Transfer<'a> {}

impl<'a> Serialize for Transfer<'a> {
    fn serialize<S: Serializer>(&self, out: &mut S) -> Result<(), S::Error> {
        write_members(
            &[
                ("from", Member::Number(self.from)),
                ("until", Member::Number(self.until)),
                ("message", Member::Text(self.message)),
                ("node", Member::Text(self.node)),
                ("ticks", Member::Number(self.ticks)),
            ],
            out,
        )
    }
}

impl<'a> fmt::Display for Transfer<'a> {
    fn fmt<W: fmt::Write>(&self, f: &mut fmt::Formatter<W>) -> fmt::Result {
        let (from, until) = (self.from, self.until);
        let (message, node, ticks) = (self.message, self.node, Ticks(self.ticks));
        tell(
            f,
            "  {} to {}  {} from {}, which takes {} at least\n",
            &[
                Number(from),
                Number(until),
                Text(message),
                Text(node),
                ticks,
            ],
        )
    }
}

impl<'a> fmt::Display for PathPart<'a> {
    fn fmt<W: fmt::Write>(&self, f: &mut fmt::Formatter<W>) -> fmt::Result {
        if let Some(transfer) = self.transfer {
            transfer.fmt(f)?;
        }
        self.run.fmt(f)
    }
}

impl<'a> Described for PathChain<'a> {}

impl<'a> Serialize for PathChain<'a> {
    fn serialize<S: Serializer>(&self, out: &mut S) -> Result<(), S::Error> {
        let members = [
            ("bound", Member::Number(self.bound)),
            ("horizon", Member::Number(u64::from(self.horizon))),
            ("past", long_number_if_any(self.past)),
        ];
        write_members_and(&members, "parts", &self.parts, out)
    }
}

impl<'a> fmt::Display for PathChain<'a> {
    fn fmt<W: fmt::Write>(&self, f: &mut fmt::Formatter<W>) -> fmt::Result {
        let (bound, horizon, parts) = (self.bound, self.horizon, self.parts.as_slice());
        tell(
            f,
            "No plan ends before {}, by this chain:\n",
            &[Number(bound)],
        )?;
        let count = parts.len();
        for k in 0..count {
            parts[count - 1 - k].fmt(f)?;
        }
        if let Some(by) = self.past {
            tell(
                f,
                "  the horizon is {}: {} too late, so no plan is valid\n",
                &[Number(u64::from(horizon)), Ticks(by)],
            )?;
        }
        Ok(())
    }
}
