//! Which steps are tried until none of them sharpens what is known?

ghost use Rattle.std.specs.Prelude.{◌≡◌, ℕ, ◌+◌, ◌<◌, ◌^◌, Contains, IfOk, OnOk, IsTrue, length};
ghost use Rattle.ttp_model.specs.declared.step.Step.{Step};
ghost use Rattle.ttp_model.specs.Instance.{message_at};
ghost use Rattle.tt_choice.specs.Choice.{IsChoice, IsComplete, is_before};
ghost use Rattle.tt_infer.specs.Premises.{GoesTo};
ghost use Rattle.step_logs.specs.Required.{KeepsSteps, HasProcessSteps, HasReceiverSteps, HasChainSteps, HasFrameSteps, HasRoundSteps, HasCompleteSteps};

use crate::copies::add;
use std::alloc::Global;
use tt_choice::Choice;
use ttp_model::{Instance, MemoryFault, Step};

/// Adds the steps of each process alone.
fn add_process_steps(instance: &Instance, steps: &mut Vec<Step>) -> Result<(), MemoryFault>
    ensures kept { OnOk result (KeepsSteps steps.old.items steps.new.items) }
    ensures added { OnOk result ((p : ℕ) → p < length instance.now.processes
        → HasProcessSteps steps.new.items p) }
{
    let count = instance.processes().len() as u32;
    for p in 0..count {
        add(steps, Step::EsRelease(p))?;
        add(steps, Step::LeOwn(p))?;
        add(steps, Step::XWindow(p))?;
    }
    Ok(())
}

/// Adds the step of each link.
fn add_link_steps(instance: &Instance, steps: &mut Vec<Step>) -> Result<(), MemoryFault>
    ensures kept { OnOk result (KeepsSteps steps.old.items steps.new.items) }
    ensures added { OnOk result ((l : ℕ) → l < length instance.now.links
        → Contains steps.new.items (Step.EsLink l)) }
{
    let count = instance.links().len() as u32;
    for l in 0..count {
        add(steps, Step::EsLink(l))?;
    }
    Ok(())
}

/// Adds the steps of each receiver of message `m`.
fn add_receiver_steps(receivers: &[u32], m: u32, steps: &mut Vec<Step>) -> Result<(), MemoryFault>
    ensures kept { OnOk result (KeepsSteps steps.old.items steps.new.items) }
    ensures added { OnOk result ((q : ℕ) → Contains receivers.now q
        → HasReceiverSteps steps.new.items m q) }
{
    for q in receivers {
        add(steps, Step::EsMessage(m, *q))?;
        add(steps, Step::EsArrive(m, *q))?;
    }
    Ok(())
}

/// Adds the steps of each receiver of each message.
fn add_message_steps(instance: &Instance, steps: &mut Vec<Step>) -> Result<(), MemoryFault>
    ensures kept { OnOk result (KeepsSteps steps.old.items steps.new.items) }
    ensures added { OnOk result ((m q : ℕ) → GoesTo instance.now m q
        → HasReceiverSteps steps.new.items m q) }
{
    let count = instance.messages().len() as u32;
    for m in 0..count {
        let receivers = instance.message_at(m as usize).receivers.as_slice();
        add_receiver_steps(receivers, m, steps)?;
    }
    Ok(())
}

/// The steps that count along chains of links and messages.
fn chain_steps(alloc: Global, instance: &Instance) -> Result<Vec<Step>, MemoryFault>
    ensures { IfOk result (λ steps. HasChainSteps instance.now steps.items) }
{
    let mut steps = Vec::new(alloc);
    add_link_steps(instance, &mut steps)?;
    add_message_steps(instance, &mut steps)?;
    add_process_steps(instance, &mut steps)?;
    Ok(steps)
}

/// Adds the steps of the processes that are chosen to stand after process `p`.
fn add_orders_of(
    choice: &Choice,
    p: u32,
    count: u32,
    steps: &mut Vec<Step>,
) -> Result<(), MemoryFault>
    ensures kept { OnOk result (KeepsSteps steps.old.items steps.new.items) }
    ensures added { OnOk result ((q : ℕ) → q < count → IsTrue (is_before choice.now p q)
        → Contains steps.new.items (Step.EsBefore p q)) }
{
    for q in 0..count {
        if choice.is_before(p, q) {
            add(steps, Step::EsBefore(p, q))?;
        }
    }
    Ok(())
}

/// Adds the step of each two processes whose order is chosen.
fn add_orders(
    instance: &Instance,
    choice: &Choice,
    steps: &mut Vec<Step>,
) -> Result<(), MemoryFault>
    requires { IsChoice instance.now choice.now }
    ensures kept { OnOk result (KeepsSteps steps.old.items steps.new.items) }
    ensures added { OnOk result ((p q : ℕ) → IsTrue (is_before choice.now p q)
        → Contains steps.new.items (Step.EsBefore p q)) }
{
    let count = instance.processes().len() as u32;
    for p in 0..count {
        add_orders_of(choice, p, count, steps)?;
    }
    Ok(())
}

/// Adds the closers of the frame of a node in a round: of the whole where there is one channel, and of each of its halves where there
/// are two.
fn add_frame_steps(
    channels: u32,
    n: u32,
    round: u32,
    steps: &mut Vec<Step>,
) -> Result<(), MemoryFault>
    requires { round + 1 < 2 ^ 32 }
    ensures kept { OnOk result (KeepsSteps steps.old.items steps.new.items) }
    ensures added { OnOk result (HasFrameSteps channels n round steps.new.items) }
{
    if channels == 1 {
        add(steps, Step::XFrames(n, round, round + 1))?;
        return Ok(());
    }
    for k in 0..channels {
        add(steps, Step::XChannel(k, n, round, round + 1))?;
    }
    Ok(())
}

/// Adds the steps about the least round of each message.
fn add_rounds(
    instance: &Instance,
    choice: &Choice,
    steps: &mut Vec<Step>,
) -> Result<(), MemoryFault>
    requires { IsChoice instance.now choice.now }
    ensures kept { OnOk result (KeepsSteps steps.old.items steps.new.items) }
    ensures added { OnOk result ((m : ℕ) → m < length instance.now.messages
        → HasRoundSteps instance.now choice.now steps.new.items m) }
{
    let channels = instance.cluster().channels;
    let count = instance.messages().len() as u32;
    for m in 0..count {
        let round = choice.lo(m);
        add(steps, Step::LeSend(m))?;
        add(steps, Step::XRound(m))?;
        add_frame_steps(channels, instance.source_of(m as usize), round, steps)?;
    }
    Ok(())
}

/// The steps along chains, with all others that decide a complete choice.
fn complete_steps(
    instance: &Instance,
    choice: &Choice,
    chain: Vec<Step>,
) -> Result<Vec<Step>, MemoryFault>
    requires of { IsChoice instance.now choice.now }
    requires chain { HasChainSteps instance.now chain.items }
    ensures { IfOk result (λ steps. HasCompleteSteps instance.now choice.now steps.items) }
{
    let mut steps = chain;
    add_orders(instance, choice, &mut steps)?;
    add_rounds(instance, choice, &mut steps)?;
    Ok(steps)
}

/// The steps that are tried until none of them sharpens: along chains, and for a complete choice
/// all that decide it.
pub fn required_steps(
    alloc: Global,
    instance: &Instance,
    choice: &Choice,
) -> Result<Vec<Step>, MemoryFault>
    requires { IsChoice instance.now choice.now }
    ensures chain { IfOk result (λ steps. HasChainSteps instance.now steps.items) }
    ensures complete { IsComplete instance.now choice.now
        → IfOk result (λ steps. HasCompleteSteps instance.now choice.now steps.items) }
{
    let chain = chain_steps(alloc, instance)?;
    if choice.is_complete(instance) {
        let steps = complete_steps(instance, choice, chain)?;
        return Ok(steps);
    }
    Ok(chain)
}
