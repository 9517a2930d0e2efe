//! Which chain leads back from the last process to end?

ghost use Rattle.std.specs.Prelude.{◌≡◌, ◌<◌, [], IfOk, IfSome, OnOk, Some, length};
ghost use Rattle.ttp_model.specs.Plans.{HasLengths, IsValid};
ghost use Rattle.plan_reasons.specs.declared.plan_links.Subject.TheVariants.{Process};
ghost use Rattle.plan_reasons.specs.PlanChains.{IsChain, IsLastToEnd, IsLinkOf, LeadsBack, held_at_start, held_by, held_in_round, subject_of};
ghost use Rattle.plan_reasons.specs.PlanThere.{IsLinkThere, IsThere};
ghost use Rattle.plan_reasons.specs.Runs.{HasCause};

use crate::plan_rounds::round_cause;
use crate::plan_starts::start_cause;
use crate::runs::StartCause;
use sentences::Member;
use std::alloc::Global;
use tt_layout::Layout;
use ttp_model::{Instance, MemoryFault, Plan, delay, end_of};

/// What holds a message back, in its round.
#[derive(Clone, Copy)]
pub enum RoundCause {
    /// It is the first that begins once the message is ready.
    First,
    /// The rounds from this one on begin once it is ready and are too full for it.
    Full(u32),
    /// Nothing: it could be sent in this round.
    CouldGo(u32),
}

impl RoundCause {
    /// As a member of an object.
    pub fn member(self) -> Member<'static> {
        match self {
            RoundCause::First => Member::Text("first"),
            RoundCause::Full(round) => Member::NumberOf("full", u64::from(round)),
            RoundCause::CouldGo(round) => Member::NumberOf("could_go", u64::from(round)),
        }
    }
}

/// A link of a chain, with its ticks.
#[derive(Clone, Copy)]
pub enum ChainLink {
    /// A process that runs.
    Run {
        process: u32,
        from: u64,
        until: u64,
        cause: StartCause,
    },
    /// A message in its slot.
    Sending {
        message: u32,
        from: u64,
        until: u64,
        cause: RoundCause,
    },
}

/// What a link is about.
#[derive(Clone, Copy)]
pub enum Subject {
    Process(u32),
    Message(u32),
}

/// The chain of a valid plan, from the last link to the first. Takes memory for it alone; each link costs a pass over the links,
/// the processes and the messages, and for a message one for each round that is too full for it.
pub fn plan_links_of(
    alloc: Global,
    instance: &Instance,
    plan: &Plan,
) -> Result<Vec<ChainLink>, MemoryFault>
    requires { IsValid instance.now plan.now }
    ensures { IfOk result (λ links. IsChain instance.now plan.now links.items) }
{
    let mut links = Vec::new(alloc);
    let last = last_to_end(instance, plan);
    lead_back(&mut links, instance, plan, last)?;
    Ok(links)
}

/// The first of the processes that end last.
pub fn last_to_end(instance: &Instance, plan: &Plan) -> u32
    requires { HasLengths instance.now plan.now }
    ensures { IsLastToEnd instance.now plan.now result }
{
    let last = delay(instance, plan);
    let count = instance.processes().len();
    for p in 0..count {
        if end_of(instance, plan, p) == last {
            return p as u32;
        }
    }
    unreachable!()
}

/// Adds the links that lead back from a process.
fn lead_back(
    links: &mut Vec<ChainLink>,
    instance: &Instance,
    plan: &Plan,
    last: u32,
) -> Result<(), MemoryFault>
    requires valid { IsValid instance.now plan.now }
    requires inside { last < length instance.now.processes }
    requires none { links.old.items ≡ [] }
    ensures { OnOk result (LeadsBack instance.now plan.now (Some (Process last)) links.new.items) }
{
    let _nodes = instance.nodes();
    let mut next = Some(Subject::Process(last));
    'back: while let Some(subject) = next {
        let link = link_of(instance, plan, subject);
        links.push(link)?;
        next = held_by(instance, link);
    }
    Ok(())
}

/// The link of a process or a message.
fn link_of(instance: &Instance, plan: &Plan, subject: Subject) -> ChainLink
    requires valid { IsValid instance.now plan.now }
    requires inside { IsThere instance.now subject }
    ensures subject { subject_of result ≡ subject }
    ensures link { IsLinkOf instance.now plan.now result }
{
    match subject {
        Subject::Process(p) => run_of(instance, plan, p),
        Subject::Message(m) => sending_of(instance, plan, m),
    }
}

/// The link of a process.
fn run_of(instance: &Instance, plan: &Plan, p: u32) -> ChainLink
    requires valid { IsValid instance.now plan.now }
    requires inside { p < length instance.now.processes }
    ensures subject { subject_of result ≡ Subject.Process p }
    ensures link { IsLinkOf instance.now plan.now result }
{
    let at = p as usize;
    ChainLink::Run {
        process: p,
        from: u64::from(plan.starts.as_slice()[at]),
        until: end_of(instance, plan, at),
        cause: start_cause(instance, plan, at),
    }
}

/// The link of a message.
fn sending_of(instance: &Instance, plan: &Plan, m: u32) -> ChainLink
    requires valid { IsValid instance.now plan.now }
    requires inside { m < length instance.now.messages }
    ensures subject { subject_of result ≡ Subject.Message m }
    ensures link { IsLinkOf instance.now plan.now result }
{
    let at = m as usize;
    let layout = Layout::of(instance, plan.order.as_slice(), plan.caps.as_slice());
    let (node, round) = (instance.source_of(at), plan.rounds.as_slice()[at]);
    ChainLink::Sending {
        message: m,
        from: layout.slot_start(node, round),
        until: layout.slot_end(node, round),
        cause: round_cause(instance, plan, at),
    }
}

/// What holds a link's process or message back.
fn held_by(instance: &Instance, link: ChainLink) -> Option<Subject>
    requires { IsLinkThere instance.now link }
    ensures subject { result ≡ held_by instance.now link }
    ensures inside { IfSome result (IsThere instance.now) }
{
    match link {
        ChainLink::Run { cause, .. } => held_at_start(instance, cause),
        ChainLink::Sending { message, cause, .. } => held_in_round(instance, message, cause),
    }
}

/// What holds a process back, at its start.
fn held_at_start(instance: &Instance, cause: StartCause) -> Option<Subject>
    requires { HasCause instance.now cause }
    ensures subject { result ≡ held_at_start instance.now cause }
    ensures inside { IfSome result (IsThere instance.now) }
{
    match cause {
        StartCause::Release | StartCause::CouldStart(_) => None,
        StartCause::Link(l) => Some(Subject::Process(instance.link_at(l as usize).before)),
        StartCause::Behind(q) => Some(Subject::Process(q)),
        StartCause::Arrival(m) => Some(Subject::Message(m)),
    }
}

/// What holds a message back, in its round.
fn held_in_round(instance: &Instance, m: u32, cause: RoundCause) -> Option<Subject>
    requires { m < length instance.now.messages }
    ensures subject { result ≡ held_in_round instance.now m cause }
    ensures inside { IfSome result (IsThere instance.now) }
{
    match cause {
        RoundCause::First | RoundCause::Full(_) => {
            Some(Subject::Process(instance.message_at(m as usize).sender))
        }
        RoundCause::CouldGo(_) => None,
    }
}
