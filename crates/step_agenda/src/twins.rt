//! Which steps of twins are tried, and when?

use tt_choice::Decision;
use tt_infer::Facts;
use ttp_model::{Instance, MOST_NODES, MOST_PROCESSES, MemoryFault, Step, has_flag, put_flag};

/// Adds the steps that no instance names beforehand and that read no fact: the orders of twins, and the closers of silent ones.
pub fn add_twin_steps(facts: &Facts, steps: &mut Vec<Step>) -> Result<(), MemoryFault> {
    add_twins(facts.instance(), steps)?;
    add_silent_twins(facts, steps)
}

/// Adds those of them that a decision may give a premise, and the closer of a message that it fixes to channel 1.
pub fn add_decided(
    facts: &Facts,
    decision: Decision,
    steps: &mut Vec<Step>,
) -> Result<(), MemoryFault> {
    match decision {
        Decision::Place(_) => add_silent_twins(facts, steps),
        Decision::Channel(m, 1) => add(steps, Step::XMirror(m)),
        Decision::Before(_, _)
        | Decision::Cap(_, _)
        | Decision::AtMost(_, _)
        | Decision::AtLeast(_, _)
        | Decision::Channel(_, _) => Ok(()),
    }
}

/// Adds the orders of processes that may be twins: they have no messages, and their numbers are equal.
fn add_twins(instance: &Instance, steps: &mut Vec<Step>) -> Result<(), MemoryFault> {
    let talks = talking(instance);
    let count = instance.processes().len() as u32;
    for p in 0..count {
        if !has_flag(&talks, p as usize) {
            add_twins_of(instance, &talks, p, steps)?;
        }
    }
    Ok(())
}

/// Adds the orders of process `p` before each later one that may be its twin.
fn add_twins_of(
    instance: &Instance,
    talks: &[bool],
    p: u32,
    steps: &mut Vec<Step>,
) -> Result<(), MemoryFault> {
    let count = instance.processes().len() as u32;
    for q in 0..count {
        if !has_flag(talks, q as usize) && p < q && are_alike(instance, p, q) {
            add(steps, Step::OrdTwin(p, q))?;
        }
    }
    Ok(())
}

/// Whether two processes of one node have equal numbers.
fn are_alike(instance: &Instance, p: u32, q: u32) -> bool {
    let count = instance.processes().len();
    if p as usize >= count || q as usize >= count {
        return false;
    }
    let one = instance.process_at(p as usize);
    let other = instance.process_at(q as usize);
    one.node == other.node
        && one.wcet == other.wcet
        && one.release == other.release
        && one.deadline == other.deadline
}

/// By process, whether it sends or receives a message.
fn talking(instance: &Instance) -> [bool; MOST_PROCESSES] {
    let mut talks = [false; MOST_PROCESSES];
    for message in instance.messages() {
        put_flag(&mut talks, message.sender as usize, true);
        raise_all(&mut talks, message.receivers.as_slice());
    }
    talks
}

/// Sets the flags at these indices.
fn raise_all(flags: &mut [bool], indices: &[u32]) {
    for k in indices {
        put_flag(flags, *k as usize, true);
    }
}

/// Adds the closers of silent twins: of two nodes that send nothing the first doesn't stand before
/// the second.
fn add_silent_twins(facts: &Facts, steps: &mut Vec<Step>) -> Result<(), MemoryFault> {
    let sends = sending(facts.instance());
    for v in facts.choice().prefix() {
        if !has_flag(&sends, *v as usize) {
            add_silent_twins_of(&sends, *v, steps)?;
        }
    }
    Ok(())
}

/// By node, whether it sends a message.
fn sending(instance: &Instance) -> [bool; MOST_NODES] {
    let mut sends = [false; MOST_NODES];
    let messages = instance.messages().len() as u32;
    for m in 0..messages {
        put_flag(&mut sends, instance.source_of(m as usize) as usize, true);
    }
    sends
}

/// Adds the closers of nodes before `v` that send nothing.
fn add_silent_twins_of(sends: &[bool], v: u32, steps: &mut Vec<Step>) -> Result<(), MemoryFault> {
    for u in 0..v {
        if !has_flag(sends, u as usize) {
            add(steps, Step::XSilent(u, v))?;
        }
    }
    Ok(())
}

/// Adds a step.
fn add(steps: &mut Vec<Step>, step: Step) -> Result<(), MemoryFault> {
    steps.push(step)?;
    Ok(())
}
