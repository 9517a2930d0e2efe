//! What does a chain tell of each process and message?

ghost use Rattle.std.specs.Prelude.{◌<◌, All, IfOk, length};
ghost use Rattle.ttp_model.specs.Plans.{HasLengths, IsValid};
ghost use Rattle.sentences.specs.Lists.{AreTold};
ghost use Rattle.plan_reasons.specs.PlanLines.{IsChainReason, IsLineOf, IsSendingLine};
ghost use Rattle.plan_reasons.specs.PlanThere.{IsLinkThere};

use crate::plan_links::{ChainLink, RoundCause, plan_links_of};
use crate::runs::{RunLine, run_line};
use plan_facts::ready_at;
use sentences::Word::{Number, Text};
use sentences::{Member, tell, write_kind, write_members, write_members_and};
use serde::{Described, Serialize, Serializer};
use std::alloc::Global;
use std::fmt;
use std::fmt::Display;
use ttp_model::{Instance, MemoryFault, Plan, delay};

/// A message in its slot; in ticks.
#[derive(Clone, Copy)]
pub struct SendingLine<'a> {
    pub from: u64,
    pub until: u64,
    pub message: &'a str,
    pub round: u32,
    pub node: &'a str,
    /// When it has been copied out.
    pub ready: u64,
    pub why: RoundCause,
}

/// What is told of a link of a chain.
#[derive(Clone, Copy)]
pub enum ChainLine<'a> {
    Run(RunLine<'a>),
    Sending(SendingLine<'a>),
}

/// Why a valid plan ends when it does.
#[derive(Drop)]
pub struct PlanChain<'a> {
    /// The plan's delay, in ticks.
    pub delay: u64,
    /// What is told of the links of its chain, from the last to the first.
    pub lines: Vec<ChainLine<'a>>,
}

/// Why a valid plan ends when it does. Takes memory for its chain, and for what is told of it.
pub fn plan_chain_reason<'a>(
    alloc: Global,
    instance: &'a Instance,
    plan: &Plan,
) -> Result<PlanChain<'a>, MemoryFault>
    requires { IsValid instance.now plan.now }
    ensures { IfOk result (IsChainReason instance.now plan.now) }
{
    let links = plan_links_of(alloc, instance, plan)?;
    let lines = lines_of(alloc, instance, plan, links.as_slice())?;
    Ok(PlanChain {
        delay: delay(instance, plan),
        lines,
    })
}

/// What is told of these links.
fn lines_of<'a>(
    alloc: Global,
    instance: &'a Instance,
    plan: &Plan,
    links: &[ChainLink],
) -> Result<Vec<ChainLine<'a>>, MemoryFault>
    requires lengths { HasLengths instance.now plan.now }
    requires there { All (IsLinkThere instance.now) links.now }
    ensures { IfOk result (λ lines. AreTold (IsLineOf instance.now plan.now) links.now lines.items) }
{
    let mut lines = Vec::new(alloc);
    for link in links {
        lines.push(line_of(instance, plan, *link))?;
    }
    Ok(lines)
}

/// What is told of a link.
fn line_of<'a>(instance: &'a Instance, plan: &Plan, link: ChainLink) -> ChainLine<'a>
    requires lengths { HasLengths instance.now plan.now }
    requires there { IsLinkThere instance.now link }
    ensures { IsLineOf instance.now plan.now link result }
{
    match link {
        ChainLink::Run {
            process,
            from,
            until,
            cause,
        } => ChainLine::Run(run_line(instance, process, from, until, cause)),
        ChainLink::Sending {
            message,
            from,
            until,
            cause,
        } => ChainLine::Sending(sending_line(instance, plan, message, from, until, cause)),
    }
}

/// What is told of message `m`, which is in its slot from this tick to that one for this cause.
fn sending_line<'a>(
    instance: &'a Instance,
    plan: &Plan,
    m: u32,
    from: u64,
    until: u64,
    why: RoundCause,
) -> SendingLine<'a>
    requires lengths { HasLengths instance.now plan.now }
    requires inside { m < length instance.now.messages }
    ensures { IsSendingLine instance.now plan.now m from until why result }
{
    let m = m as usize;
    SendingLine {
        from,
        until,
        message: instance.message_name(m),
        round: plan.rounds.as_slice()[m],
        node: instance.source_name(m),
        ready: ready_at(instance, plan, m),
        why,
    }
}

impl<'a> Described for SendingLine<'a> {}

impl<'a> Serialize for SendingLine<'a> {
    fn serialize<S: Serializer>(&self, out: &mut S) -> Result<(), S::Error> {
        write_members(
            &[
                ("from", Member::Number(self.from)),
                ("until", Member::Number(self.until)),
                ("message", Member::Text(self.message)),
                ("round", Member::Number(u64::from(self.round))),
                ("node", Member::Text(self.node)),
                ("ready", Member::Number(self.ready)),
                ("why", self.why.member()),
            ],
            out,
        )
    }
}

impl<'a> Described for ChainLine<'a> {}

impl<'a> Serialize for ChainLine<'a> {
    fn serialize<S: Serializer>(&self, out: &mut S) -> Result<(), S::Error> {
        match self {
            ChainLine::Run(line) => write_kind("run", line, out),
            ChainLine::Sending(line) => write_kind("sending", line, out),
        }
    }
}

impl<'a> fmt::Display for SendingLine<'a> {
    fn fmt<W: fmt::Write>(&self, f: &mut fmt::Formatter<W>) -> fmt::Result {
        let (from, until) = (self.from, self.until);
        let (message, round, node, ready) = (self.message, self.round, self.node, self.ready);
        tell(
            f,
            "  {} to {}  {} in round {} of {}",
            &[
                Number(from),
                Number(until),
                Text(message),
                Number(u64::from(round)),
                Text(node),
            ],
        )?;
        match self.why {
            RoundCause::First => tell(
                f,
                ", the first round that begins at {} or later\n",
                &[Number(ready)],
            ),
            RoundCause::Full(first) => {
                let last = round.saturating_sub(1);
                let (first, last) = (u64::from(first), u64::from(last));
                if first == last {
                    tell(
                        f,
                        ": round {} begins at {} or later and is too full\n",
                        &[Number(first), Number(ready)],
                    )
                } else {
                    tell(
                        f,
                        ": rounds {} to {} begin at {} or later and are too full\n",
                        &[Number(first), Number(last), Number(ready)],
                    )
                }
            }
            RoundCause::CouldGo(other) => {
                tell(
                    f,
                    "; {} could go in round {}\n",
                    &[Text(message), Number(u64::from(other))],
                )
            }
        }
    }
}

impl<'a> Described for PlanChain<'a> {}

impl<'a> Serialize for PlanChain<'a> {
    fn serialize<S: Serializer>(&self, out: &mut S) -> Result<(), S::Error> {
        let members = [("delay", Member::Number(self.delay))];
        write_members_and(&members, "lines", &self.lines, out)
    }
}

impl<'a> fmt::Display for PlanChain<'a> {
    fn fmt<W: fmt::Write>(&self, f: &mut fmt::Formatter<W>) -> fmt::Result {
        let (delay, lines) = (self.delay, self.lines.as_slice());
        tell(
            f,
            "Why it ends at {} and not earlier, with these starts and rounds:\n",
            &[Number(delay)],
        )?;
        let count = lines.len();
        for k in 0..count {
            match &lines[count - 1 - k] {
                ChainLine::Run(line) => line.fmt(f)?,
                ChainLine::Sending(line) => line.fmt(f)?,
            }
        }
        Ok(())
    }
}
