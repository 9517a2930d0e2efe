//! What does a trace tell: which processes run, which slots are on each channel, and how does each message get to its receivers?

ghost use Rattle.std.specs.Prelude.{◌<◌, All, IfOk, OnOk, length};
ghost use Rattle.ttp_model.specs.Plans.{IsValid};
ghost use Rattle.schedule_exports.specs.Loads.{IsSomeRun};
ghost use Rattle.schedule_exports.specs.Flows.{IsFlow, IsSlotOfCycle};

use crate::loads::{Run, run_of};
use plan_sheets::{Slot, slot_of};
use std::alloc::Global;
use tt_layout::{Layout, cycle_rounds};
use ttp_model::{Instance, MOST_NODES, MemoryFault, Plan, end_of, is_on};

/// A message on its way to one of its receivers, on one channel.
#[derive(Clone, Copy)]
pub struct Flow {
    /// The message, by its index in the instance.
    pub message: u32,
    /// The process that receives it.
    pub receiver: u32,
    pub channel: u32,
    /// When its sender ends, in ticks.
    pub sent: u64,
    /// When its slot begins.
    pub slot: u64,
    /// When the receiver starts.
    pub needed: u32,
}

/// When the processes run, in the instance's order.
pub fn runs(alloc: Global, instance: &Instance, plan: &Plan) -> Result<Vec<Run>, MemoryFault>
    requires { IsValid instance.now plan.now }
    ensures { IfOk result (λ runs. All (IsSomeRun instance.now plan.now) runs.items) }
{
    let count = instance.processes().len();
    let mut runs = Vec::new(alloc);
    for p in 0..count {
        runs.push(run_of(instance, plan, p as u32))?;
    }
    Ok(runs)
}

/// The slots of the cycle, on each channel.
pub fn slots(alloc: Global, instance: &Instance, plan: &Plan) -> Result<Vec<Slot>, MemoryFault>
    requires { IsValid instance.now plan.now }
    ensures { IfOk result (λ slots. All (IsSlotOfCycle instance.now plan.now) slots.items) }
{
    let rounds = cycle_rounds(instance, plan);
    let mut slots = Vec::new(alloc);
    for round in 0..rounds {
        push_round(alloc, &mut slots, instance, plan, round)?;
    }
    Ok(slots)
}

/// Adds the slots of a round.
fn push_round(
    alloc: Global,
    slots: &mut Vec<Slot>,
    instance: &Instance,
    plan: &Plan,
    round: u32,
) -> Result<(), MemoryFault>
    requires valid { IsValid instance.now plan.now }
    requires before { All (IsSlotOfCycle instance.now plan.now) slots.old.items }
    ensures { OnOk result (All (IsSlotOfCycle instance.now plan.now) slots.new.items) }
{
    let count = instance.nodes().len();
    for k in 0..count {
        push_position(alloc, slots, instance, plan, round, k)?;
    }
    Ok(())
}

/// Adds the slot at a position of a round, on each channel.
fn push_position(
    alloc: Global,
    slots: &mut Vec<Slot>,
    instance: &Instance,
    plan: &Plan,
    round: u32,
    k: usize,
) -> Result<(), MemoryFault>
    requires valid { IsValid instance.now plan.now }
    requires inside { k < length instance.now.nodes }
    requires few { k < MOST_NODES }
    requires before { All (IsSlotOfCycle instance.now plan.now) slots.old.items }
    ensures { OnOk result (All (IsSlotOfCycle instance.now plan.now) slots.new.items) }
{
    let layout = Layout::of(instance, plan.order.as_slice(), plan.caps.as_slice());
    let sends = plan.rounds.contains(round);
    let channels = instance.cluster().channels;
    for channel in 0..channels {
        slots.push(slot_of(alloc, instance, plan, &layout, round, k, channel, sends)?)?;
    }
    Ok(())
}

/// How each message gets to its receivers.
pub fn flows(alloc: Global, instance: &Instance, plan: &Plan) -> Result<Vec<Flow>, MemoryFault>
    requires { IsValid instance.now plan.now }
    ensures { IfOk result (λ flows. All (IsFlow instance.now plan.now) flows.items) }
{
    let count = instance.messages().len();
    let mut flows = Vec::new(alloc);
    for m in 0..count {
        push_message(&mut flows, instance, plan, m)?;
    }
    Ok(flows)
}

/// Adds how a message gets to its receivers.
fn push_message(
    flows: &mut Vec<Flow>,
    instance: &Instance,
    plan: &Plan,
    m: usize,
) -> Result<(), MemoryFault>
    requires valid { IsValid instance.now plan.now }
    requires inside { m < length instance.now.messages }
    requires before { All (IsFlow instance.now plan.now) flows.old.items }
    ensures { OnOk result (All (IsFlow instance.now plan.now) flows.new.items) }
{
    let receivers = instance.message_at(m).receivers.as_slice();
    for q in receivers {
        push_channels(flows, instance, plan, m, *q as usize)?;
    }
    Ok(())
}

/// Adds how a message gets to a receiver, on each of its channels.
fn push_channels(
    flows: &mut Vec<Flow>,
    instance: &Instance,
    plan: &Plan,
    m: usize,
    q: usize,
) -> Result<(), MemoryFault>
    requires valid { IsValid instance.now plan.now }
    requires inside { m < length instance.now.messages }
    requires receiver { q < length instance.now.processes }
    requires before { All (IsFlow instance.now plan.now) flows.old.items }
    ensures { OnOk result (All (IsFlow instance.now plan.now) flows.new.items) }
{
    let number = plan.channels.as_slice()[m];
    let channels = instance.cluster().channels;
    for channel in 0..channels {
        if is_on(channel, number) {
            flows.push(flow_of(instance, plan, m, q, channel))?;
        }
    }
    Ok(())
}

/// How a message gets to a receiver on a channel.
fn flow_of(instance: &Instance, plan: &Plan, m: usize, q: usize, channel: u32) -> Flow
    requires valid { IsValid instance.now plan.now }
    requires inside { m < length instance.now.messages }
    requires receiver { q < length instance.now.processes }
    ensures { IsFlow instance.now plan.now result }
{
    let _processes = instance.processes();
    let layout = Layout::of(instance, plan.order.as_slice(), plan.caps.as_slice());
    let sender = instance.message_at(m).sender;
    Flow {
        message: m as u32,
        receiver: q as u32,
        channel,
        sent: end_of(instance, plan, sender as usize),
        slot: layout.slot_start(instance.source_of(m), plan.rounds.as_slice()[m]),
        needed: plan.starts.as_slice()[q],
    }
}
